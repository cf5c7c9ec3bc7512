// Arrays of sets, one for each nonterminal, and the stores into them. A greater number than nonterminals have stands in no grammar that is read: it is
// counted round, which takes no test.
ghost use Rattle.std.specs.Prelude.{◌≡◌, ◌%◌};
ghost use Rattle.grammar.specs.Limits.{max_nonterminals};
ghost use Rattle.families.specs.inner.Least.{joined_at, AddsToSet};

use families::SETS;
use families::nonterminals::Nonterminals;
use lookahead_sets::LookaheadSet;

// Joins a set into that of n; whether it has grown.
pub fn add(sets: &mut [u64; SETS], n: u32, set: LookaheadSet) -> bool
    ensures { AddsToSet sets.old (n % max_nonterminals) set.bits sets.new result }
{
    let at = n as usize % SETS;
    let old = LookaheadSet { bits: sets[at] };
    let new = old.join(set);
    sets[at] = new.bits;
    new != old
}

// The same for sets of nonterminals, without telling.
pub fn add_nonterminals(sets: &mut [u32; SETS], n: u32, set: Nonterminals)
    ensures { sets.new ≡ joined_at sets.old (n % max_nonterminals) set.bits }
{
    let at = n as usize % SETS;
    let before = Nonterminals { bits: sets[at] };
    sets[at] = before.join(set).bits;
}
