// What is printed of a judgement: a refusal, or a verdict and the calls that the memo table holds.
#![tactic(auto)]

ghost use Rattle.std.specs.Prelude.{◌++◌};
ghost use Rattle.text.specs.Ascii.{ascii};
ghost use Rattle.text.specs.Decimal.{decimal, labelled};
ghost use Rattle.text.specs.Writing.{Put};
ghost use Rattle.calls_text.specs.Calls.{calls_text};
ghost use Rattle.judgement_text.specs.Judgement.{judgement_text};

use answer::{Answer, Calls};
use calls_text::put_calls;
use grammar::limits::MEMO_ENTRIES;
use refusal_text::put_refusal;
use text::Output;

pub mod sizes;

// How many bytes the verdict takes at most, and all of a judgement.
const VERDICT_ROOM: usize = 51;

pub const ROOM: usize = VERDICT_ROOM + MEMO_ENTRIES * calls_text::ROOM;

// A verdict with its two numbers, then the calls.
fn put_verdict(
    out: &mut [u8],
    verdict: &[u8],
    calls: Calls,
    nonterminals: u32,
    tokens: u16,
    memo: &[u16],
) -> usize
    ensures { Put out.old 0
        (((verdict.now ++ decimal calls.count) ++ labelled " " calls.farthest ++ ascii "\n") ++ calls_text nonterminals tokens memo.now)
        out.new result }
{
    let mut output = Output { bytes: out, at: 0 };
    output.put_labelled(verdict, calls.count);
    output.put_labelled(b" ", calls.farthest);
    output.put_bytes(b"\n");
    put_calls(&mut output, nonterminals, tokens, memo);
    output.at
}

// What is printed of an answer about an input of so many tokens.
#[tactic(auto, unfolding(crate::specs::Judgement::judgement_text, crate::specs::Judgement::verdict_line))]
pub fn put_judgement(
    out: &mut [u8],
    answer: Answer,
    nonterminals: u32,
    tokens: u16,
    memo: &[u16],
) -> usize
    ensures { Put out.old 0 (judgement_text answer nonterminals tokens memo.now) out.new result }
{
    match answer {
        Answer::Refused(error) => put_refusal(out, 0, error),
        Answer::Passed => 0,
        Answer::Rejected(calls) => {
            put_verdict(out, b"rejected ", calls, nonterminals, tokens, memo)
        }
        Answer::Accepted(calls) => {
            put_verdict(out, b"accepted ", calls, nonterminals, tokens, memo)
        }
    }
}
