// An answer as one number.
#![tactic(auto)]

ghost use Rattle.std.specs.Prelude.{◌≡◌, ◌%◌};
ghost use Rattle.answer.specs.Numbers.{numbers};
ghost use Rattle.embed_promises.specs.Packing.{joined, packed};
ghost use Rattle.embed_promises.specs.inner.Packing.{cut};

use answer::{Answer, code, position};

// An answer that has no numbers: the verdict alone.
pub const PASSED: u64 = 1;

// The five fields side by side, each number cut to its bits.
fn join(verdict: u8, code: u64, position: u64, count: u64, farthest: u64) -> u64
    ensures { result ≡ joined verdict (code % 256) (position % 65536) (count % 65536) (farthest % 65536) }
{
    verdict as u64
        + code % 256 * 256
        + position % 65536 * 65536
        + count % 65536 * 4294967296
        + farthest % 65536 * 281474976710656
}

// The numbers of the library's answers lose nothing by it.
#[tactic(auto, unfolding(embed_promises::specs::Packing::packed))]
pub fn pack(answer: Answer) -> u64
    ensures { result ≡ packed (cut (numbers answer)) }
{
    match answer {
        Answer::Refused(error) => join(0, code(error) as u64, position(error) as u64, 0, 0),
        Answer::Passed => PASSED,
        Answer::Rejected(calls) => join(2, 0, 0, calls.count as u64, calls.farthest as u64),
        Answer::Accepted(calls) => join(3, 0, 0, calls.count as u64, calls.farthest as u64),
    }
}
