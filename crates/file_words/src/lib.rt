// The words that a file's bytes are, low byte first.
#![tactic(auto)]

ghost use Rattle.std.specs.Prelude.{◌≡◌, ◌+◌, ◌<◌, length};
ghost use Rattle.file_words.specs.inner.Words.{four_at, Loading};

use grammar::limits::WORDS;

pub const WORD_BYTES: usize = 4;

fn word_at(bytes: &[u8], at: usize) -> u32
    requires { at + 3 < length bytes.now }
    ensures { result ≡ four_at bytes.now at }
{
    u32::from_le_bytes([bytes[at], bytes[at + 1], bytes[at + 2], bytes[at + 3]])
}

// Puts a file's words into the lent memory, if its bytes are words; else changes nothing.
#[tactic(auto, unfolding(crate::specs::Words::are_words))]
pub fn load(bytes: &[u8], words: &mut [u32; WORDS]) -> Option<usize>
    ensures { Loading bytes.now words.old result words.new }
{
    if WORD_BYTES * WORDS < bytes.len() || bytes.len() % WORD_BYTES != 0 {
        return None;
    }
    let count = bytes.len() / WORD_BYTES;
    for i in 0..count {
        words[i] = word_at(bytes, WORD_BYTES * i);
    }
    Some(count)
}
