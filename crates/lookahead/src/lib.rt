// How many tokens are looked at, and the strings of at most so many terminals as numbers: the elements of lookahead sets.
#![tactic(auto)]

ghost use Rattle.std.specs.Prelude.{◌≡◌};
ghost use Rattle.lookahead.specs.inner.Lookaheads.{alphabet, single};
ghost use Rattle.lookahead.specs.Lookaheads.{elements, nothing};

use grammar::limits::TERMINALS_OF_TWO;

// How many tokens are looked at.
#[derive(Clone, Copy)]
pub enum Lookahead {
    One,
    Two,
}

// With one token, the element for the end of the input and the empty string (document 01: "nothing"); the terminals are below it.
pub const NOTHING: u32 = 24;

// With two tokens, nothing is the element 0, the terminals come next, and the pairs behind them, a row for each.
pub const PAIRS: u32 = 1 + TERMINALS_OF_TWO;

// The most terminals that there may be.
pub fn alphabet(lookahead: Lookahead) -> u32
    ensures { result ≡ alphabet lookahead }
{
    match lookahead {
        Lookahead::One => NOTHING,
        Lookahead::Two => TERMINALS_OF_TWO,
    }
}

// How many elements there are: the numbers below it.
pub fn element_count(lookahead: Lookahead) -> u32
    ensures { result ≡ elements lookahead }
{
    match lookahead {
        Lookahead::One => NOTHING + 1,
        Lookahead::Two => PAIRS + TERMINALS_OF_TWO * TERMINALS_OF_TWO,
    }
}

// The element for the end of the input and the empty string.
pub fn nothing(lookahead: Lookahead) -> u32
    ensures { result ≡ nothing lookahead }
{
    match lookahead {
        Lookahead::One => NOTHING,
        Lookahead::Two => 0,
    }
}

// The element for terminal 0 alone; those for the other terminals come next.
pub fn single(lookahead: Lookahead) -> u32
    ensures { result ≡ single lookahead }
{
    match lookahead {
        Lookahead::One => 0,
        Lookahead::Two => 1,
    }
}
