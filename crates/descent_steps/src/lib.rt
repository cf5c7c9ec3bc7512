// The steps of the descent that need no memo table: what a number in its arrays tells, the next symbol of a body, what an entry tells, how far a rule
// has got.
#![tactic(auto)]

ghost use Rattle.std.specs.Prelude.{◌≡◌};
ghost use Rattle.word.specs.Words.{decoded};
ghost use Rattle.semantics.specs.inner.Memo.{decode as outcome_of};
ghost use Rattle.rule.specs.inner.Rule.{begins_body, sign_of, opening_by, joined_by, agreement_code, agreement_of};
ghost use Rattle.descent_steps.specs.inner.Steps.{step_of, word_at, conjunct_sign, next_conjunct};

use grammar::codes::FAILED;
use rule::{Sign, body_end, joined, opening};
use word::{Symbol, Word, decode};

pub mod arrays;
pub mod entry;
pub mod state;

// The words that begin a positive and a negative conjunct: kinds 3 and 4 in the topmost four bits, and zeros.
const POSITIVE_WORD: u32 = 3 << 28;

const NEGATIVE_WORD: u32 = 4 << 28;

// What a body does at a word: it takes a terminal, calls a nonterminal, or is over.
#[derive(Clone, Copy)]
pub enum Step {
    Terminal(u32),
    Nonterminal(u32),
    Over,
}

fn step_of(word: Word) -> Step
    ensures { result ≡ step_of word }
{
    match word {
        Word::Symbol(Symbol::Terminal(terminal)) => Step::Terminal(terminal),
        Word::Symbol(Symbol::Nonterminal(called)) => Step::Nonterminal(called),
        _ => Step::Over,
    }
}

// A body is over at a word that is no symbol.
pub fn step_of_word(bits: u32) -> Step
    ensures { result ≡ step_of (decoded bits) }
{
    step_of(decode(bits))
}

// The word at an index; where the words end, one that begins nothing.
#[tactic(auto, unfolding(crate::specs::inner::Steps::word_at))]
pub(crate) fn word_at(words: &[u32], at: usize) -> u32
    ensures { result ≡ word_at words.now at }
{
    if at < words.len() { words[at] } else { 0 }
}

// Whether a word begins a conjunct. It is compared and not decoded: for each conjunct that is two instructions.
#[tactic(auto, using(crate::proofs::Conjuncts::negative_begins, crate::proofs::Conjuncts::another_begins))]
pub(crate) fn begins_conjunct(bits: u32) -> bool
    ensures { result ≡ begins_body (sign_of (decoded bits)) }
{
    bits == NEGATIVE_WORD || bits == POSITIVE_WORD
}

// What a word that begins a conjunct begins.
#[tactic(auto, unfolding(crate::specs::inner::Steps::conjunct_sign))]
fn conjunct_sign(bits: u32) -> Sign
    ensures { result ≡ conjunct_sign bits }
{
    if bits == NEGATIVE_WORD {
        Sign::Negative
    } else {
        Sign::Positive
    }
}

// Where the next conjunct is, or the rule ends, when a body has stopped at an index: there, unless the body has failed.
#[tactic(auto, unfolding(crate::specs::inner::Steps::next_conjunct))]
pub(crate) fn next_conjunct(words: &[u32], entry: u16, at: usize) -> usize
    ensures { result ≡ next_conjunct words.now entry at }
{
    if entry != FAILED {
        return at;
    }
    body_end(words, at)
}

// The agreement before the first body, by the word that begins it and the place where the input ends.
pub(crate) fn first_agreement(word: u32, end: u16) -> u16
    ensures { result ≡ agreement_code (opening_by (conjunct_sign word) end) }
{
    opening(conjunct_sign(word), end)
}

// The agreement after one body more, by the word that begins it and the entry of its outcome.
pub(crate) fn joined_entry(word: u32, agreement: u16, entry: u16) -> u16
    ensures { result ≡ agreement_code (joined_by (conjunct_sign word) (agreement_of agreement) (outcome_of entry)) }
{
    joined(conjunct_sign(word), agreement, entry)
}
