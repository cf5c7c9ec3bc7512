// What a number tells that stands in the arrays of the descent.
ghost use Rattle.std.specs.Prelude.{◌≡◌, ◌+◌, ◌/◌};
ghost use Rattle.descent_arrays.specs.inner.Arrays.{column_weight};
ghost use Rattle.descent_steps.specs.inner.Steps.{end_behind};

use descent_arrays::COLUMN_WEIGHT;
use grammar::codes::FAILED;

// What the column of a lookahead string weighs in a token's word.
const WEIGHT: usize = COLUMN_WEIGHT as usize;

// One place on where the token, by its word, is this terminal, else the code of a failure.
#[tactic(auto, unfolding(crate::specs::inner::Steps::end_behind))]
pub fn end_behind(token: u16, terminal: u32, place: u16) -> u16
    ensures { result ≡ end_behind token terminal place }
{
    if token as u32 % COLUMN_WEIGHT == terminal {
        return place.wrapping_add(1);
    }
    FAILED
}

// The column of the lookahead string at a token, by its word.
pub fn column_of(token: u16) -> usize
    ensures { result ≡ token / column_weight }
{
    token as usize / WEIGHT
}

// The index of an entry in the memo table, by where the row of its nonterminal begins.
pub fn entry_of(row: u16, place: u16) -> usize
    ensures { result ≡ row + place }
{
    row as usize + place as usize
}
