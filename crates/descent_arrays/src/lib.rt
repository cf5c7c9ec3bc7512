// The arrays that the descent reads, made before it starts: their sizes, and how the word of a token is made up.
#![tactic(auto)]

ghost use Rattle.std.specs.Prelude.{◌≡◌};
ghost use Rattle.descent_arrays.specs.inner.Arrays.{arrays};

use grammar::limits::NONTERMINALS;

// A row of choices for each nonterminal: where the first conjunct stands of the rule to run for each column of the table, 0 for
// none; in the last columns the input's length, and where the row of the memo table begins.
pub const CHOICE_COLUMNS: usize = 64;

pub const ROW_COLUMN: usize = CHOICE_COLUMNS - 1;

pub const END_COLUMN: usize = ROW_COLUMN - 1;

pub const CHOICES: usize = (NONTERMINALS as usize) * CHOICE_COLUMNS;

// A word for each place: its terminal, or the mark of the end, and the weight times the column of its lookahead string.
pub const END_MARK: u8 = 255;

pub const COLUMN_WEIGHT: u32 = END_MARK as u32 + 1;

#[derive(Clone, Copy)]
pub struct Arrays {
    pub choice_columns: usize,
    pub row_column: usize,
    pub end_column: usize,
    pub choices: usize,
    pub end_mark: u8,
    pub column_weight: u32,
}

// The constants in one value, so that what the specifications say of them is proved of these.
pub fn all() -> Arrays
    ensures { result ≡ arrays }
{
    Arrays {
        choice_columns: CHOICE_COLUMNS,
        row_column: ROW_COLUMN,
        end_column: END_COLUMN,
        choices: CHOICES,
        end_mark: END_MARK,
        column_weight: COLUMN_WEIGHT,
    }
}
