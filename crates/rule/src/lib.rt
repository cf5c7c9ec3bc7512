// How the bodies of a rule, run one after the other, come to agree on an end: where a body ends, and agreements as entries of the memo table.
#![tactic(auto)]

ghost use Rattle.std.specs.Prelude.{◌≡◌};
ghost use Rattle.semantics.specs.inner.Memo.{decode as outcome_of};
ghost use Rattle.rule.specs.declared.Sign.TheVariants.{Positive, Negative};
ghost use Rattle.rule.specs.inner.Rule.{body_end, opening_by, kept_by, joined_by, agreement_code, agreement_of};

use grammar::codes::{FAILED, UNCALLED};
use word::{Word, decode};

// What a word begins: a positive conjunct, a negative one, or neither.
#[derive(Clone, Copy)]
pub enum Sign {
    Positive,
    Negative,
    Neither,
}

// The agreement of a rule that begins with a positive conjunct, before its first body. Any other is the entry that the rule would record if it stopped
// there: failed, or an end.
const OPEN: u16 = UNCALLED;

// Where the body at an index ends.
pub fn body_end(words: &[u32], from: usize) -> usize
    ensures { result ≡ body_end words.now from }
{
    let mut at = from;
    // A range would keep an index of its own beside the one that is returned, and the descent one register more.
    while at < words.len() {
        let word = decode(words[at]);
        let Word::Symbol(_) = word else {
            return at;
        };
        at += 1;
    }
    at
}

// Before the first body: a rule that begins with a negative conjunct has no positive one, and takes all up to the input's end.
pub fn opening(sign: Sign, end: u16) -> u16
    ensures { result ≡ agreement_code (opening_by sign end) }
{
    match sign {
        Sign::Negative => end,
        Sign::Positive | Sign::Neither => OPEN,
    }
}

// A later positive body has to end there.
fn kept_positive(end: u16, there: bool) -> u16
    ensures { result ≡ agreement_code (kept_by Positive end there) }
{
    if there {
        return end;
    }
    FAILED
}

// A negative body must not end there.
fn kept_negative(end: u16, there: bool) -> u16
    ensures { result ≡ agreement_code (kept_by Negative end there) }
{
    if there {
        return FAILED;
    }
    end
}

fn kept(sign: Sign, end: u16, there: bool) -> u16
    ensures { result ≡ agreement_code (kept_by sign end there) }
{
    match sign {
        Sign::Positive => kept_positive(end, there),
        Sign::Negative => kept_negative(end, there),
        Sign::Neither => FAILED,
    }
}

// The agreement after one body more, by the entry of its outcome: an open agreement becomes that entry.
#[tactic(auto, using(crate::proofs::Agreements::joined_open, crate::proofs::Agreements::joined_kept))]
pub fn joined(sign: Sign, agreement: u16, entry: u16) -> u16
    ensures { result ≡ agreement_code (joined_by sign (agreement_of agreement) (outcome_of entry)) }
{
    if agreement == OPEN {
        return entry;
    }
    kept(sign, agreement, entry == agreement)
}
