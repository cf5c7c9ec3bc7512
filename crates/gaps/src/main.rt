// Prints the gaps and overlaps of the grammar whose words are read from standard input.
#![tactic(auto)]

use libc::{STDIN_FILENO, STDOUT_FILENO};
use report_texts::{FILE_BYTES, GAPS_ROOM};

fn main() {
    let mut card = [0u8; FILE_BYTES];
    let n = io::read_full(STDIN_FILENO, &mut card);
    let mut text = [0u8; GAPS_ROOM];
    let length = report::gaps(&card[..n], &mut text);
    io::write_all(STDOUT_FILENO, &text[..length]);
}
