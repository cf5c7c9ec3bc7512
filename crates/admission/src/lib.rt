// Which encoded grammars a lookahead takes: reading, and the faults that stand beside it with two tokens of lookahead.
#![tactic(auto)]

ghost use Rattle.std.specs.Prelude.{◌≡◌, ◌&&◌};
ghost use Rattle.grammar.specs.Encoding.{grammar_of};
ghost use Rattle.admission.specs.Admission.{begins_negative, first_alone, of_heading, word_fault, faulty_or, two_tokens_fault, admission};

use answer::{Error, code, position};
use grammar::limits::TERMINALS_OF_TWO;
use grammar::reading::Sizes;
use lookahead::Lookahead;
use reader::{declared, read};
use reading_steps::begins_rule;
use word::{Word, decode};

// The code of a faulty heading; that of a faulty length is below it, and those of faulty words are above.
const HEADING: u32 = 4;

pub fn begins_negative(word: Word) -> bool
    ensures { result ≡ begins_negative word }
{
    matches!(word, Word::Negative)
}

// A negative begins right behind the begin of a rule.
fn stands_alone(opened: bool, word: Word) -> bool
    ensures { result ≡ (opened && begins_negative word) }
{
    opened && begins_negative(word)
}

// The first rule without positives.
fn first_alone(words: &[u32]) -> Option<usize>
    ensures { result ≡ first_alone words.now }
{
    let mut opened = false;
    for (at, bits) in words.iter().enumerate() {
        let word = decode(*bits);
        if stands_alone(opened, word) {
            return Some(at);
        }
        opened = begins_rule(word);
    }
    None
}

fn declared_terminals(words: &[u32]) -> u32
    ensures { result ≡ (grammar_of words.now).terminals }
{
    if words.is_empty() {
        return 0;
    }
    declared(decode(words[0])).terminals
}

// A rule without positives is reported where no word before it is faulty.
fn with_alone(outcome: Result<Sizes, Error>, alone: Option<usize>) -> Result<Sizes, Error>
    ensures { result ≡ faulty_or (word_fault outcome alone) outcome }
{
    let Some(at) = alone else {
        return outcome;
    };
    match outcome {
        Ok(_) => Err(Error::UnexpectedWord(at)),
        Err(error) if at < position(error) => Err(Error::UnexpectedWord(at)),
        Err(_) => outcome,
    }
}

fn of_heading(outcome: Result<Sizes, Error>) -> bool
    ensures { result ≡ of_heading outcome }
{
    match outcome {
        Ok(_) => false,
        Err(error) => code(error) <= HEADING,
    }
}

// With two tokens of lookahead, behind the length and the heading.
#[tactic(auto, using(crate::proofs::Admitted::many_terminals))]
fn admit_two(words: &[u32], outcome: Result<Sizes, Error>) -> Result<Sizes, Error>
    ensures { result ≡ faulty_or (two_tokens_fault outcome words.now) outcome }
{
    if of_heading(outcome) {
        return outcome;
    }
    if TERMINALS_OF_TWO < declared_terminals(words) {
        return Err(Error::TooManyTerminals);
    }
    with_alone(outcome, first_alone(words))
}

// The first fault of an encoded grammar, or its sizes.
pub fn admit(words: &[u32], lookahead: Lookahead) -> Result<Sizes, Error>
    ensures { result ≡ admission lookahead words.now }
{
    let outcome = read(words);
    match lookahead {
        Lookahead::One => outcome,
        Lookahead::Two => admit_two(words, outcome),
    }
}
