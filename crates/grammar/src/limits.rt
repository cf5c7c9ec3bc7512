// The limits of documents 01 and 02, each once.
ghost use Rattle.std.specs.Prelude.{◌≡◌};
ghost use Rattle.grammar.specs.inner.Limits.{limited};

pub const WORDS: usize = 2048;

pub const NONTERMINALS: u32 = 32;

pub const TERMINALS: u32 = 24;

pub const RULES: usize = 128;

pub const TOKENS: usize = 412;

// A row of the table has a column for each terminal and one for the end.
pub const COLUMNS: usize = TERMINALS as usize + 1;

// With two tokens of lookahead a grammar has fewer terminals.
pub const TERMINALS_OF_TWO: u32 = 7;

// Then a row has a column for the end, one for each last terminal and one for each two terminals.
pub const COLUMNS_OF_TWO: usize = 1
    + (TERMINALS_OF_TWO as usize)
    + (TERMINALS_OF_TWO as usize) * (TERMINALS_OF_TWO as usize);

// The entries of all rows, whichever the lookahead.
pub const ENTRIES: usize = (NONTERMINALS as usize) * COLUMNS_OF_TWO;

// An input has a place before each token and one at its end.
pub const PLACES: usize = TOKENS + 1;

// Two sets for each nonterminal, then a row for each.
pub const TABLE_WORDS: usize = (NONTERMINALS as usize) * (2 + COLUMNS);

// The same with two tokens of lookahead.
pub const TABLE_WORDS_OF_TWO: usize = (NONTERMINALS as usize) * (2 + COLUMNS_OF_TWO);

// An entry for each nonterminal and place.
pub const MEMO_ENTRIES: usize = (NONTERMINALS as usize) * PLACES;

// The tabular recognizer takes shorter inputs.
pub const TABULAR_TOKENS: usize = 48;

// Such an input has a place before each token and one at its end.
pub const TABULAR_PLACES: usize = TABULAR_TOKENS + 1;

// A word for each of its spans: from each place to itself and to each behind it.
pub const SPAN_WORDS: usize = TABULAR_PLACES * (TABULAR_PLACES + 1) / 2;

#[derive(Clone, Copy)]
pub struct Limits {
    pub words: usize,
    pub nonterminals: u32,
    pub terminals: u32,
    pub rules: usize,
    pub tokens: usize,
    pub columns: usize,
    pub terminals_of_two: u32,
    pub columns_of_two: usize,
    pub entries: usize,
    pub places: usize,
    pub table_words: usize,
    pub table_words_of_two: usize,
    pub memo_entries: usize,
    pub tabular_tokens: usize,
    pub tabular_places: usize,
    pub span_words: usize,
}

// The constants in one value, so that what the specifications say of them is proved of these.
pub fn all() -> Limits
    ensures { result ≡ limited }
{
    Limits {
        words: WORDS,
        nonterminals: NONTERMINALS,
        terminals: TERMINALS,
        rules: RULES,
        tokens: TOKENS,
        columns: COLUMNS,
        terminals_of_two: TERMINALS_OF_TWO,
        columns_of_two: COLUMNS_OF_TWO,
        entries: ENTRIES,
        places: PLACES,
        table_words: TABLE_WORDS,
        table_words_of_two: TABLE_WORDS_OF_TWO,
        memo_entries: MEMO_ENTRIES,
        tabular_tokens: TABULAR_TOKENS,
        tabular_places: TABULAR_PLACES,
        span_words: SPAN_WORDS,
    }
}
