// A choice of rules as the descent reads it: a row for each nonterminal, by the columns of the table.
#![tactic(auto)]

ghost use Rattle.std.specs.Prelude.{◌≡◌, ◌+◌, ◌<◌, get_or, set};
ghost use Rattle.columns.specs.Columns.{column_count};
ghost use Rattle.descent_arrays.specs.inner.Arrays.{choice_words};
ghost use Rattle.descent_choices.specs.inner.Choices.{first_word, choice_rows, choices_of, memo_entries, RowGiven};

use columns::count;
use descent_arrays::{CHOICE_COLUMNS, CHOICES, END_COLUMN, ROW_COLUMN};
use grammar::limits::{COLUMNS_OF_TWO, ENTRIES, NONTERMINALS, RULES, TOKENS, WORDS};
use grammar::reading::Sizes;
use lookahead::Lookahead;

// Writes where the first conjunct of a rule stands; where there is no rule, the 0 that is there already stays.
#[tactic(auto, using(crate::proofs::ChoiceRows::zero_kept), unfolding(crate::specs::inner::Choices::first_word))]
fn write_choice(choices: &mut [u16; CHOICES], at: usize, starts: &[usize; RULES], rule: u8)
    requires { (at < choice_words) × (get_or choices.old at 0 ≡ 0) }
    ensures { choices.new ≡ set choices.old at (first_word starts.now rule) }
{
    let rule = usize::from(rule);
    if rule < RULES {
        choices[at] = (starts[rule] % WORDS + 1) as u16;
    }
}

// Writes the row of one nonterminal.
fn fill_row(
    choices: &mut [u16; CHOICES],
    starts: &[usize; RULES],
    entries: &[u8; ENTRIES],
    columns: usize,
    nonterminal: usize,
    tokens: usize,
)
    requires { RowGiven starts.now columns entries.now tokens nonterminal choices.old }
    ensures { choices.new ≡ choice_rows starts.now columns entries.now tokens (nonterminal + 1) }
{
    let from = nonterminal * columns;
    let to = nonterminal * CHOICE_COLUMNS;
    for column in 0..columns {
        write_choice(choices, to + column, starts, entries[from + column]);
    }
    choices[to + END_COLUMN] = tokens as u16;
    choices[to + ROW_COLUMN] = (nonterminal * (tokens + 1)) as u16;
}

// The rows for an input of so many tokens, by the starts of the rules and the entries of the table.
fn choices_of(
    starts: &[usize; RULES],
    nonterminals: usize,
    columns: usize,
    entries: &[u8; ENTRIES],
    tokens: usize,
) -> [u16; CHOICES]
    ensures { result ≡ choices_of starts.now nonterminals columns entries.now tokens }
{
    let rows = nonterminals.min(NONTERMINALS as usize);
    let wide = columns.min(COLUMNS_OF_TWO);
    let long = tokens.min(TOKENS);
    let mut choices = [0u16; CHOICES];
    for nonterminal in 0..rows {
        fill_row(&mut choices, starts, entries, wide, nonterminal, long);
    }
    choices
}

// The rows by the table of a grammar of these sizes with so many tokens of lookahead.
pub fn table_choices<'a>(
    starts: &'a [usize; RULES],
    sizes: Sizes,
    lookahead: Lookahead,
    entries: &'a [u8; ENTRIES],
    tokens: usize,
) -> [u16; CHOICES]
    ensures { result ≡ choices_of starts.now sizes.nonterminals (column_count lookahead sizes.terminals) entries.now tokens }
{
    let columns = count(lookahead, sizes.terminals);
    choices_of(
        starts,
        sizes.nonterminals as usize,
        columns,
        entries,
        tokens,
    )
}

// How many entries the memo table then has: a row for each nonterminal, of as many places.
#[tactic(auto, unfolding(crate::specs::inner::Choices::memo_entries))]
pub fn entries_of(nonterminals: u32, tokens: usize) -> usize
    ensures { result ≡ memo_entries nonterminals tokens }
{
    let rows = (nonterminals as usize).min(NONTERMINALS as usize);
    let long = tokens.min(TOKENS);
    rows * (long + 1)
}
