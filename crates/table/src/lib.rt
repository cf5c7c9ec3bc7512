// The LL(1) and the LL(2) table of an encoded grammar.
#![tactic(auto)]

ghost use Rattle.std.specs.Prelude.{◌≡◌};
ghost use Rattle.table_promises.specs.Analysis.{conflict_error};
ghost use Rattle.table.specs.inner.Analysis.{found_with, found_of};

use answer::Error;
use claims::analyze;
use conflicts::first_conflict;
use families::SETS;
use grammar::codes::NO_RULE;
use grammar::limits::{ENTRIES, RULES};
use grammar::reading::Sizes;
use lookahead::Lookahead;

mod conflicts;
mod rows;

// What is found of an encoded grammar: its sizes, or why it, or a descent by it, is refused; where its rules begin; its sets; and its entries, by
// nonterminal, then column. Where the grammar is refused there is no rule in the entries.
#[derive(Drop)]
pub struct Found {
    pub finding: Result<Sizes, Error>,
    pub starts: [usize; RULES],
    pub firsts: [u64; SETS],
    pub follows: [u64; SETS],
    pub entries: [u8; ENTRIES],
}

fn conflict_error(nonterminal: u8, column: u8, lookahead: Lookahead) -> Error
    ensures { result ≡ conflict_error lookahead nonterminal column }
{
    match lookahead {
        Lookahead::One => Error::Conflict {
            nonterminal,
            column,
        },
        Lookahead::Two => Error::ConflictOfTwo {
            nonterminal,
            column,
        },
    }
}

// The grammar's entries, unless it is refused or an entry clashes. They are written into what is lent, and so are the sets and where the rules begin.
pub fn find_into(
    words: &[u32],
    lookahead: Lookahead,
    starts: &mut [usize; RULES],
    firsts: &mut [u64; SETS],
    follows: &mut [u64; SETS],
    entries: &mut [u8; ENTRIES],
) -> Result<Sizes, Error>
    ensures { found_with result starts.new firsts.new follows.new entries.new
        ≡ found_of lookahead words.now }
{
    let mut heads = [0u8; RULES];
    let mut sets = [0u64; RULES];
    let mut overruns = [0u64; SETS];
    let finding = analyze(
        words,
        lookahead,
        starts,
        firsts,
        follows,
        &mut heads,
        &mut sets,
        &mut overruns,
    );
    let Ok(sizes) = finding else {
        *entries = [NO_RULE; ENTRIES];
        return finding;
    };
    let conflict = first_conflict(&heads, &sets, overruns, sizes, lookahead);
    let Some((nonterminal, column)) = conflict else {
        rows::rows(sizes, &heads, &sets, entries, lookahead);
        return finding;
    };
    *entries = [NO_RULE; ENTRIES];
    Err(conflict_error(nonterminal, column, lookahead))
}
