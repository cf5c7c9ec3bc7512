// What one word does to the reading of an encoded grammar: whether it is allowed there and in range, and what state comes next.
#![tactic(auto)]

ghost use Rattle.std.specs.Prelude.{◌≡◌};
ghost use Rattle.grammar.specs.Reading.{row as row_of, allows as allows_after, symbol_in_range, in_range, begins_rule, state_after, counted as counted_of};

use answer::Error;
use grammar::limits::RULES;
use grammar::reading::{Progress, Sizes, State};
use word::{Symbol, Word};

// One row of a table whose columns are the states.
pub fn row(
    state: State,
    before: bool,
    opened: bool,
    positive: bool,
    negative: bool,
    closed: bool,
) -> bool
    ensures { result ≡ row_of before opened positive negative closed state }
{
    match state {
        State::Before => before,
        State::Opened => opened,
        State::InPositive => positive,
        State::InNegative => negative,
        State::Closed => closed,
    }
}

pub fn allows(word: Word, state: State) -> bool
    ensures { result ≡ allows_after word state }
{
    match word {
        Word::Rule(_) => matches!(state, State::Before | State::InPositive | State::InNegative),
        Word::Positive => matches!(state, State::Opened | State::InPositive),
        Word::Negative => matches!(state, State::Opened | State::InPositive | State::InNegative),
        Word::Symbol(_) => matches!(state, State::InPositive | State::InNegative),
        Word::End => matches!(state, State::Before | State::InPositive | State::InNegative),
        _ => false,
    }
}

fn symbol_in_range(symbol: Symbol, sizes: Sizes) -> bool
    ensures { result ≡ symbol_in_range symbol sizes }
{
    match symbol {
        Symbol::Terminal(number) => number < sizes.terminals,
        Symbol::Nonterminal(number) => number < sizes.nonterminals,
    }
}

pub fn in_range(word: Word, sizes: Sizes) -> bool
    ensures { result ≡ in_range word sizes }
{
    match word {
        Word::Rule(head) => head < sizes.nonterminals,
        Word::Symbol(symbol) => symbol_in_range(symbol, sizes),
        _ => true,
    }
}

pub fn begins_rule(word: Word) -> bool
    ensures { result ≡ begins_rule word }
{
    matches!(word, Word::Rule(_))
}

pub fn after(word: Word, state: State) -> State
    ensures { result ≡ state_after word state }
{
    match word {
        Word::Rule(_) => State::Opened,
        Word::Positive => State::InPositive,
        Word::Negative => State::InNegative,
        Word::End => State::Closed,
        _ => state,
    }
}

// The progress with one rule more, where there is room for it.
#[tactic(auto, unfolding(grammar::specs::Reading::counted))]
pub fn counted(state: State, sizes: Sizes, at: usize) -> Result<Progress, Error>
    ensures { result ≡ counted_of state sizes at }
{
    let rules = sizes.rules;
    if RULES <= rules {
        return Err(Error::TooManyRules(at));
    }
    Ok(Progress {
        state,
        sizes: Sizes {
            rules: rules + 1,
            ..sizes
        },
    })
}
