// What is found of a grammar by its sets: the lowest nonterminal with a flaw refuses it.
#![tactic(auto)]

ghost use Rattle.std.specs.Prelude.{◌≡◌, ◌≤◌, ◌<◌};
ghost use Rattle.base.specs.Quantifiers.{lowest};
ghost use Rattle.grammar.specs.Limits.{max_nonterminals};
ghost use Rattle.families.specs.inner.Flaws.{flaw_in, lowest_of, finding_in};

use answer::Error;
use families::nonterminals::{Nonterminals, at_most};
use families::{Flaw, SETS};
use grammar::reading::Sizes;
use lookahead_sets::LookaheadSet;

// Whether a nonterminal has a flaw, by the first sets and by what each nonterminal left-reaches.
fn has_flaw(flaw: Flaw, firsts: &[u64; SETS], reaches: &[u32; SETS], nonterminal: u32) -> bool
    requires { nonterminal < max_nonterminals }
    ensures { result ≡ flaw_in flaw firsts.now reaches.now nonterminal }
{
    match flaw {
        Flaw::LeftRecursive => {
            let set = Nonterminals {
                bits: reaches[nonterminal as usize],
            };
            set.contains(nonterminal)
        }
        Flaw::Unproductive => {
            let set = LookaheadSet {
                bits: firsts[nonterminal as usize],
            };
            set.is_empty()
        }
    }
}

// The lowest nonterminal with a flaw.
fn lowest_with(
    flaw: Flaw,
    firsts: &[u64; SETS],
    reaches: &[u32; SETS],
    nonterminals: u32,
) -> Option<u8>
    requires { nonterminals ≤ max_nonterminals }
    ensures { result ≡ lowest_of (lowest nonterminals (flaw_in flaw firsts.now reaches.now)) }
{
    for nonterminal in 0..nonterminals {
        if has_flaw(flaw, firsts, reaches, nonterminal) {
            return Some(nonterminal as u8);
        }
    }
    None
}

// Left recursion comes first.
pub fn finding_of(sizes: Sizes, firsts: &[u64; SETS], reaches: &[u32; SETS]) -> Result<Sizes, Error>
    ensures { result ≡ finding_in sizes firsts.now reaches.now }
{
    let nonterminals = at_most(sizes.nonterminals);
    let recursive = lowest_with(Flaw::LeftRecursive, firsts, reaches, nonterminals);
    let unproductive = lowest_with(Flaw::Unproductive, firsts, reaches, nonterminals);
    match (recursive, unproductive) {
        (Some(nonterminal), _) => Err(Error::LeftRecursive(nonterminal)),
        (None, Some(nonterminal)) => Err(Error::Unproductive(nonterminal)),
        (None, None) => Ok(sizes),
    }
}
