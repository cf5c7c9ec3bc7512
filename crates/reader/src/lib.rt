// Reading an encoded grammar: its first fault, or its sizes.
#![tactic(auto)]

ghost use Rattle.std.specs.Prelude.{◌≡◌};
ghost use Rattle.grammar.specs.Encoding.{declared_by};
ghost use Rattle.grammar.specs.Reading.{stepped, finished, fresh, scan, is_within, reading};

use answer::Error;
use grammar::limits::{NONTERMINALS, TERMINALS, WORDS};
use grammar::reading::{Progress, Sizes, State};
use reading_steps::{after, allows, begins_rule, counted, in_range, row};
use word::{Word, decode};

// The word at an index: is it allowed, then is its number in range, then is there room for its rule.
fn read_word(word: Word, progress: Progress, at: usize) -> Result<Progress, Error>
    ensures { result ≡ stepped word progress at }
{
    let state = progress.state;
    let sizes = progress.sizes;
    if !allows(word, state) {
        return Err(Error::UnexpectedWord(at));
    }
    if !in_range(word, sizes) {
        return Err(Error::OutOfRange(at));
    }
    let next = after(word, state);
    if begins_rule(word) {
        counted(next, sizes, at)
    } else {
        Ok(Progress { state: next, sizes })
    }
}

fn finish(progress: Progress, at: usize) -> Result<Sizes, Error>
    ensures { result ≡ finished progress at }
{
    let state = progress.state;
    let sizes = progress.sizes;
    if row(state, false, false, false, false, true) {
        Ok(sizes)
    } else {
        Err(Error::UnexpectedWord(at))
    }
}

// The words behind the heading: the first has the index 1.
fn read_rules(words: &[u32], sizes: Sizes) -> Result<Sizes, Error>
    ensures { result ≡ scan (fresh sizes) 1 words.now }
{
    let mut progress = Progress {
        state: State::Before,
        sizes,
    };
    for (behind, bits) in words.iter().enumerate() {
        let word = decode(*bits);
        progress = read_word(word, progress, behind + 1)?;
    }
    finish(progress, words.len() + 1)
}

#[tactic(auto, unfolding(grammar::specs::Reading::is_within))]
fn within(number: u32, limit: u32) -> bool
    ensures { result ≡ is_within number limit }
{
    0 < number && number <= limit
}

// What a heading declares; another word declares nothing.
pub fn declared(word: Word) -> Sizes
    ensures { result ≡ declared_by word }
{
    let Word::Heading {
        nonterminals,
        terminals,
    } = word
    else {
        return Sizes::default();
    };
    Sizes {
        nonterminals,
        terminals,
        rules: 0,
    }
}

// The first fault of an encoded grammar, or its sizes.
#[tactic(auto, using(grammar::proofs::Heading::reading_long, grammar::proofs::Heading::reading_empty))]
pub fn read(words: &[u32]) -> Result<Sizes, Error>
    ensures { result ≡ reading words.now }
{
    if WORDS < words.len() {
        return Err(Error::Length);
    }
    let Some((heading, rules)) = words.split_first() else {
        return Err(Error::Heading);
    };
    let sizes = declared(decode(*heading));
    if !within(sizes.nonterminals, NONTERMINALS) {
        return Err(Error::Heading);
    }
    if !within(sizes.terminals, TERMINALS) {
        return Err(Error::Heading);
    }
    read_rules(rules, sizes)
}
