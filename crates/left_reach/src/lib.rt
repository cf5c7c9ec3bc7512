// What each nonterminal left-reaches, by what is at the left of its rules: through one nonterminal after the other (Warshall).
#![tactic(auto)]

ghost use Rattle.std.specs.Prelude.{◌≡◌, ◌<◌, min};
ghost use Rattle.grammar.specs.Limits.{max_nonterminals};
ghost use Rattle.families.specs.inner.Reach.{extended, through, closure};

use families::SETS;
use families::nonterminals::{Nonterminals, at_most};

// A set, with what is beyond a nonterminal that it has.
fn extend(set: Nonterminals, via: u32, beyond: Nonterminals) -> Nonterminals
    ensures { result.bits ≡ extended via beyond.bits set.bits }
{
    if set.contains(via) {
        set.join(beyond)
    } else {
        set
    }
}

// Each set goes on through one nonterminal. Most have nothing beyond them.
#[tactic(auto, using(families::proofs::Through::through_none, families::proofs::Through::walked_all))]
fn go_through(sets: &mut [u32; SETS], via: u32)
    requires { via < max_nonterminals }
    ensures { sets.new ≡ through via sets.old }
{
    let bits = sets[via as usize];
    if bits == 0 {
        return;
    }
    let beyond = Nonterminals { bits };
    for bits in sets.iter_mut() {
        let set = Nonterminals { bits: *bits };
        *bits = extend(set, via, beyond).bits;
    }
}

// Each set goes on through all nonterminals.
#[tactic(auto, using(families::proofs::Closure::closure_next), unfolding(families::specs::inner::Reach::closure))]
pub fn closed(mut sets: [u32; SETS], nonterminals: u32) -> [u32; SETS]
    ensures { result ≡ closure (min nonterminals max_nonterminals) sets }
{
    for via in 0..at_most(nonterminals) {
        go_through(&mut sets, via);
    }
    sets
}
