// Judges the input on standard input by the grammar whose words are in the file card.bin.
#![tactic(auto)]

ghost use Rattle.std.specs.Prelude.{◌≡◌, ◌≤◌, length, take};

use file_reading::read_full;
use report_texts::{FILE_BYTES, INPUT_BYTES, JUDGEMENT_ROOM};
use std::fs;
use std::rt::Files;

// The start of the file; one that cannot be opened is read as no words.
fn read_card(files: &impl Files, card: &mut [u8]) -> usize
    ensures within { result ≤ length card.new }
    ensures taken { result ≡ length (take result card.new) }
{
    let Ok(mut file) = fs::open(files, "card.bin") else {
        return 0;
    };
    read_full(&mut file, card).bytes
}

fn main(rt: HostRuntime) {
    let mut card = [0u8; FILE_BYTES];
    let n = read_card(&rt, &mut card);
    let mut log = [0u8; INPUT_BYTES];
    let m = read_full(&mut rt.stdin(), &mut log).bytes;
    let mut text = [0u8; JUDGEMENT_ROOM];
    let length = report::judgement(&card[..n], &log[..m], &mut text);
    let _ = rt.write_all(&text[..length]);
}
