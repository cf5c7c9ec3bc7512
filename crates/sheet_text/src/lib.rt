// The sheet of a grammar, line by line, from the words of its table.
#![tactic(auto)]

ghost use Rattle.std.specs.Prelude.{◌≡◌, ◌+◌, ◌≤◌, ◌<◌};
ghost use Rattle.grammar.specs.Limits.{max_nonterminals, max_table_words};
ghost use Rattle.text.specs.inner.Outputs.{Puts};
ghost use Rattle.text.specs.Writing.{Put, up_to};
ghost use Rattle.sheet_text.specs.inner.Limited.{Limited, limited_sizes, limited_finding};
ghost use Rattle.sheet_lines.specs.Lines.{sheet_word_at, table_entry_text};
ghost use Rattle.sheet_text.specs.Sheet.{entries_line, nonterminal_text, sheet_text, check_text};

use answer::Error;
use grammar::limits::{COLUMNS, NONTERMINALS, TERMINALS};
use grammar::reading::Sizes;
use refusal_text::put_refusal;
use sheet_lines::{put_entry, put_sets, put_sizes, word_at};
use text::Output;

// How many bytes the lines take at most, and all of a sheet.
const SIZES_ROOM: usize = 83;

const SETS_ROOM: usize = 123;

const ENTRY_ROOM: usize = 21;

const ENTRIES_ROOM: usize = COLUMNS * ENTRY_ROOM + 6;

pub const ROOM: usize = SIZES_ROOM + (NONTERMINALS as usize) * (SETS_ROOM + ENTRIES_ROOM);

// The entries of a row, from its start on.
fn put_row(output: &mut Output<'_>, table: &[u32], start: usize, columns: usize)
    requires { start + columns ≤ max_table_words }
    ensures { Puts (up_to columns (λ c. table_entry_text (sheet_word_at table.now (start + c)))) output.old output.new }
{
    for column in 0..columns {
        put_entry(output, word_at(table, start + column));
    }
}

fn put_entries(output: &mut Output<'_>, table: &[u32], start: usize, columns: usize)
    requires { start + columns ≤ max_table_words }
    ensures { Puts (entries_line table.now start columns) output.old output.new }
{
    output.put_bytes(b"cells");
    put_row(output, table, start, columns);
    output.put_bytes(b"\n");
}

fn put_nonterminal(output: &mut Output<'_>, sizes: Sizes, table: &[u32], nonterminal: u32)
    requires limited { Limited sizes }
    requires below { nonterminal < max_nonterminals }
    ensures { Puts (nonterminal_text sizes table.now nonterminal) output.old output.new }
{
    let columns = sizes.terminals as usize + 1;
    let start = 2 * sizes.nonterminals as usize + nonterminal as usize * columns;
    put_sets(output, table, nonterminal);
    put_entries(output, table, start, columns);
}

fn put_nonterminals(output: &mut Output<'_>, sizes: Sizes, table: &[u32])
    requires { Limited sizes }
    ensures { Puts (up_to sizes.nonterminals (nonterminal_text sizes table.now)) output.old output.new }
{
    for nonterminal in 0..sizes.nonterminals {
        put_nonterminal(output, sizes, table, nonterminal);
    }
}

fn put_sheet(out: &mut [u8], sizes: Sizes, table: &[u32]) -> usize
    requires { Limited sizes }
    ensures { Put out.old 0 (sheet_text sizes table.now) out.new result }
{
    let mut output = Output { bytes: out, at: 0 };
    put_sizes(&mut output, sizes);
    put_nonterminals(&mut output, sizes, table);
    output.at
}

// Sizes within the limits as they are; none for others, as those of no grammar that passes are.
#[tactic(auto, unfolding(crate::specs::inner::Limited::limited_sizes))]
fn limited_sizes(sizes: Sizes) -> Sizes
    ensures { result ≡ limited_sizes sizes }
{
    if NONTERMINALS < sizes.nonterminals || TERMINALS < sizes.terminals {
        Sizes::default()
    } else {
        sizes
    }
}

// What is printed of a check, by what is found: the refusal, or the sheet.
pub fn put_check(out: &mut [u8], finding: Result<Sizes, Error>, table: &[u32]) -> usize
    ensures { Put out.old 0 (check_text (limited_finding finding) table.now) out.new result }
{
    match finding {
        Err(error) => put_refusal(out, 0, error),
        Ok(sizes) => put_sheet(out, limited_sizes(sizes), table),
    }
}
