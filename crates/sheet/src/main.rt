// Prints the sheet of the grammar whose words are read from standard input.
#![tactic(auto)]

use file_reading::read_full;
use report_texts::{FILE_BYTES, SHEET_ROOM};

fn main(rt: HostRuntime) {
    let mut card = [0u8; FILE_BYTES];
    let n = read_full(&mut rt.stdin(), &mut card).bytes;
    let mut text = [0u8; SHEET_ROOM];
    let length = report::sheet(&card[..n], &mut text);
    let _ = rt.write_all(&text[..length]);
}
