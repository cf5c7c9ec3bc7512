// The entries of the table: a row for each nonterminal, and in each column the rule that claims it.
ghost use Rattle.std.specs.Prelude.{◌≡◌, ◌+◌, ◌≤◌, length};
ghost use Rattle.grammar.specs.inner.Limits.{max_entries};
ghost use Rattle.lookahead.specs.inner.Lookaheads.{alphabet};
ghost use Rattle.base.specs.FiniteSets.{numbers_below};
ghost use Rattle.columns.specs.Columns.{column_count};
ghost use Rattle.columns.specs.inner.Columns.{column_element};
ghost use Rattle.table.specs.inner.Entries.{FilledRow, rows_of, RowsGiven, FilledRows, no_rules};

use claim_steps::entry;
use columns::{count, element};
use grammar::codes::NO_RULE;
use grammar::limits::{ENTRIES, RULES};
use grammar::reading::Sizes;
use lookahead::Lookahead;
use lookahead_sets::LookaheadSet;

// Writes a rule's number into the columns of a row that it claims.
fn fill_row(
    entries: &mut [u8; ENTRIES],
    row: usize,
    terminals: u32,
    claim: LookaheadSet,
    rule: u8,
    lookahead: Lookahead,
)
    requires { (length entries.old ≡ max_entries) × (terminals ≤ alphabet lookahead) × (row + column_count lookahead terminals ≤ max_entries) }
    ensures { FilledRow entries.old row (column_element lookahead terminals) (column_count lookahead terminals)
        claim.bits rule entries.new }
{
    let columns = count(lookahead, terminals);
    for column in 0..columns {
        let at = row + column;
        entries[at] = entry(
            claim,
            element(lookahead, terminals, column as u32),
            rule,
            entries[at],
        );
    }
}

// The rules in their rows, written from the last on: where two claim an entry, the first has it. What stood there is gone.
pub(crate) fn rows(
    sizes: Sizes,
    heads: &[u8; RULES],
    sets: &[u64; RULES],
    entries: &mut [u8; ENTRIES],
    lookahead: Lookahead,
)
    requires { RowsGiven lookahead sizes heads.now }
    ensures { FilledRows (rows_of lookahead sizes.nonterminals sizes.terminals) heads.now sets.now
        0 (numbers_below sizes.rules) no_rules entries.new }
{
    let terminals = sizes.terminals;
    let columns = count(lookahead, terminals);
    *entries = [NO_RULE; ENTRIES];
    for rule in (0..sizes.rules).rev() {
        let row = heads[rule] as usize * columns;
        let claim = LookaheadSet { bits: sets[rule] };
        fill_row(entries, row, terminals, claim, rule as u8, lookahead);
    }
}
