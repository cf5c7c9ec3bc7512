// What is printed of a refusal.
#![tactic(auto)]

ghost use Rattle.refusal_text.specs.Refusal.{refusal_text};
ghost use Rattle.text.specs.Writing.{Put};

use answer::{Error, code, position};
use text::Output;

pub fn put_refusal(out: &mut [u8], at: usize, error: Error) -> usize
    ensures { Put out.old at (refusal_text error) out.new result }
{
    let mut output = Output { bytes: out, at };
    output.put_labelled(b"refused ", code(error) as usize);
    output.put_labelled(b" ", position(error));
    output.put_bytes(b"\n");
    output.at
}
