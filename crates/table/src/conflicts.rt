// Conflicts: the first entry that two rules claim, read off what each rule claims, or that is reported of a nonterminal that overruns.
ghost use Rattle.std.specs.Prelude.{◌≡◌, ◌≤◌, length};
ghost use Rattle.grammar.specs.Limits.{max_nonterminals};
ghost use Rattle.lookahead.specs.inner.Lookaheads.{alphabet};
ghost use Rattle.columns.specs.Columns.{column_count};
ghost use Rattle.columns.specs.inner.Columns.{column_element};
ghost use Rattle.claims.specs.inner.Claims.{Headed};
ghost use Rattle.table_promises.specs.Conflicts.{row_conflict, conflict_from};
ghost use Rattle.table.specs.inner.Conflicts.{in_set, in_sets, conflict_of, Twice};

use claim_steps::note;
use columns::{count, element};
use families::SETS;
use grammar::limits::RULES;
use grammar::reading::Sizes;
use lookahead::Lookahead;
use lookahead_sets::LookaheadSet;

// The elements that two rules claim, for each nonterminal, added to those already told of it.
fn claimed_twice(
    heads: &[u8; RULES],
    sets: &[u64; RULES],
    told: [u64; SETS],
    sizes: Sizes,
) -> [u64; SETS]
    requires { Headed heads.now sizes.rules sizes.nonterminals × (length told ≡ max_nonterminals) }
    ensures { Twice heads.now sets.now told sizes.rules result }
{
    let mut once = [0u64; SETS];
    let mut twice = told;
    for rule in (0..sizes.rules).rev() {
        let claim = LookaheadSet { bits: sets[rule] };
        note(&mut once, &mut twice, heads[rule] as usize, claim);
    }
    twice
}

// The first entry of a nonterminal, by nonterminal and column, whose element is in a set.
fn first_column(
    nonterminal: u8,
    set: LookaheadSet,
    terminals: u32,
    lookahead: Lookahead,
) -> Option<(u8, u8)>
    requires { terminals ≤ alphabet lookahead }
    ensures { result ≡ row_conflict (in_set (column_element lookahead terminals) set.bits) nonterminal 0 (column_count lookahead terminals) }
{
    if set.is_empty() {
        return None;
    }
    let columns = count(lookahead, terminals);
    for column in 0..columns {
        if set.contains(element(lookahead, terminals, column as u32)) {
            return Some((nonterminal, column as u8));
        }
    }
    None
}

// The first entry whose element is in the set of its nonterminal.
fn first_entry(sets: &[u64; SETS], sizes: Sizes, lookahead: Lookahead) -> Option<(u8, u8)>
    requires { (sizes.nonterminals ≤ max_nonterminals) × (sizes.terminals ≤ alphabet lookahead) }
    ensures { result ≡ conflict_from (in_sets (column_element lookahead sizes.terminals) sets.now)
        (column_count lookahead sizes.terminals) 0 sizes.nonterminals }
{
    let nonterminals = sizes.nonterminals;
    let terminals = sizes.terminals;
    for nonterminal in 0..nonterminals {
        let set = LookaheadSet {
            bits: sets[nonterminal as usize],
        };
        let conflict = first_column(nonterminal as u8, set, terminals, lookahead);
        let None = conflict else {
            return conflict;
        };
    }
    None
}

// The first entry that two rules claim, by their heads and their claims, or that is reported of a nonterminal that overruns.
pub(crate) fn first_conflict(
    heads: &[u8; RULES],
    sets: &[u64; RULES],
    overruns: [u64; SETS],
    sizes: Sizes,
    lookahead: Lookahead,
) -> Option<(u8, u8)>
    requires { Headed heads.now sizes.rules sizes.nonterminals × (sizes.terminals ≤ alphabet lookahead) × (length overruns ≡ max_nonterminals) }
    ensures { result ≡ conflict_of lookahead sizes heads.now sets.now overruns }
{
    let twice = claimed_twice(heads, sets, overruns, sizes);
    first_entry(&twice, sizes, lookahead)
}
