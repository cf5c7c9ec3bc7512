// The bytes of a file or of standard input, read into a lent buffer.
#![tactic(auto)]

ghost use Rattle.std.specs.Prelude.{◌≡◌, ◌≤◌, ◌<◌, false, length, take};
ghost use Rattle.std.specs.Io.KnownBytes.{Consumes, IsAtEnd};

use std::fs;
use std::io::Read;
use std::rt::Files;

#[cfg(test)]
mod tests;

// How many bytes were read, and whether a read failed before the buffer was full or the input at its end.
#[derive(Clone, Copy)]
pub struct Filled {
    pub bytes: usize,
    pub failed: bool,
}

// Reads until `buffer` is full, the input ends or a read fails, and tells how many bytes it has put at its start, and whether a read failed.
pub fn read_full<R: Read>(reader: &mut R, buffer: &mut [u8]) -> Filled
    ensures within { result.bytes ≤ length buffer.new }
    ensures taken { result.bytes ≡ length (take result.bytes buffer.new) }
    ensures bytes { Consumes (R.remaining reader.old) (R.remaining reader.new) (take result.bytes buffer.new) }
    ensures whole { result.failed ≡ false → result.bytes < length buffer.new → IsAtEnd (R.remaining reader.new) }
{
    let mut done = 0;
    // Each read tells how far it came, so no range drives this loop.
    while done < buffer.len() {
        match reader.read(&mut buffer[done..]) {
            Ok(0) => return Filled {
                bytes: done,
                failed: false,
            },
            Ok(n) => done += n,
            Err(_) => return Filled {
                bytes: done,
                failed: true,
            },
        }
    }
    Filled {
        bytes: done,
        failed: false,
    }
}

// The start of a file; one that cannot be opened has no bytes.
pub fn read_file(files: &impl Files, path: &str, buffer: &mut [u8]) -> usize
    ensures within { result ≤ length buffer.new }
    ensures taken { result ≡ length (take result buffer.new) }
{
    let Ok(mut file) = fs::open(files, path) else {
        return 0;
    };
    read_full(&mut file, buffer).bytes
}
