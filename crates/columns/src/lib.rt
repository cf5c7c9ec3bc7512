// The columns of a row of the table: with one token of lookahead the terminals in order, then the end; with two the elements of sets. And the
// column for the lookahead string at a place of an input.
#![tactic(auto)]

ghost use Rattle.std.specs.Prelude.{◌≡◌};
ghost use Rattle.event.specs.Events.{input_of};
ghost use Rattle.columns.specs.Columns.{column_count};
ghost use Rattle.columns.specs.inner.Columns.{column_element, column_before, column_last, column_end, column_at};

use event::terminal_of;
use grammar::limits::{COLUMNS_OF_TWO, TERMINALS_OF_TWO};
use lookahead::{Lookahead, NOTHING};

// How many columns a row has.
pub fn count(lookahead: Lookahead, terminals: u32) -> usize
    ensures { result ≡ column_count lookahead terminals }
{
    match lookahead {
        Lookahead::One => terminals as usize + 1,
        Lookahead::Two => COLUMNS_OF_TWO,
    }
}

// The element of a column.
#[tactic(auto, unfolding(crate::specs::inner::Columns::column_element))]
pub fn element(lookahead: Lookahead, terminals: u32, column: u32) -> u32
    ensures { result ≡ column_element lookahead terminals column }
{
    match lookahead {
        Lookahead::One => { if column == terminals { NOTHING } else { column } }
        Lookahead::Two => column,
    }
}

// With two tokens of lookahead, the column of terminal 0 where it is the last token, and of terminal 0 twice.
const LAST: u32 = 1;

const PAIR: u32 = LAST + TERMINALS_OF_TWO;

// The column of a token that another follows.
pub fn column_before(lookahead: Lookahead, token: u8, next: u8) -> u32
    ensures { result ≡ column_before lookahead token next }
{
    match lookahead {
        Lookahead::One => token as u32,
        Lookahead::Two => PAIR + TERMINALS_OF_TWO * (token as u32) + next as u32,
    }
}

// The column of a token that none follows.
pub fn column_last(lookahead: Lookahead, token: u8) -> u32
    ensures { result ≡ column_last lookahead token }
{
    match lookahead {
        Lookahead::One => token as u32,
        Lookahead::Two => LAST + token as u32,
    }
}

// The column of the end.
pub fn column_end(lookahead: Lookahead, terminals: u32) -> u32
    ensures { result ≡ column_end lookahead terminals }
{
    match lookahead {
        Lookahead::One => terminals,
        Lookahead::Two => 0,
    }
}

// The column of the lookahead string at a place.
#[tactic(auto, using(crate::proofs::Columns::column_last_lem, event::proofs::Inputs::input_at, event::proofs::Inputs::input_length))]
pub fn column_at(events: &[u8], lookahead: Lookahead, terminals: u32, place: usize) -> u32
    ensures { result ≡ column_at lookahead terminals (input_of events.now) place }
{
    if events.len() <= place {
        return column_end(lookahead, terminals);
    }
    let event = events[place];
    let token = terminal_of(event);
    if events.len() <= place + 1 {
        return column_last(lookahead, token);
    }
    let next = events[place + 1];
    column_before(lookahead, token, terminal_of(next))
}
