// A set of nonterminals by value.
ghost use Rattle.std.specs.Prelude.{◌≡◌, min};
ghost use Rattle.grammar.specs.Limits.{max_nonterminals};
ghost use Rattle.lookahead.specs.Elements.{has};
ghost use Rattle.lookahead.specs.inner.Operations.{Empty, Joined};
ghost use Rattle.families.specs.inner.Nonterminals.{Alone};

use grammar::limits::NONTERMINALS;

// Nonterminal B weighs 2^B.
#[derive(Clone, Copy)]
pub struct Nonterminals {
    pub bits: u32,
}

impl Nonterminals {
    #[tactic(auto, using(lookahead::proofs::Operations::is_empty_lem))]
    pub fn empty() -> Nonterminals
        ensures { Empty result.bits }
    {
        Nonterminals { bits: 0 }
    }

    // A nonterminal alone; the empty set where the number is no nonterminal's.
    #[tactic(auto, using(crate::proofs::NonterminalSets::alone_some, crate::proofs::NonterminalSets::alone_none))]
    pub fn alone(number: u32) -> Nonterminals
        ensures { Alone number result.bits }
    {
        if number < NONTERMINALS {
            Nonterminals {
                bits: 1u32 << number,
            }
        } else {
            Nonterminals::empty()
        }
    }

    #[tactic(auto, unfolding(lookahead::specs::Elements::has))]
    pub fn contains(self, number: u32) -> bool
        ensures { result ≡ has self.bits number }
    {
        number < NONTERMINALS && self.bits >> number & 1 == 1
    }

    // The nonterminals of either set.
    #[tactic(auto, using(lookahead::proofs::Operations::is_join), unfolding(lookahead::specs::inner::Operations::join))]
    pub fn join(self, other: Nonterminals) -> Nonterminals
        ensures { Joined self.bits other.bits result.bits }
    {
        Nonterminals {
            bits: self.bits | other.bits,
        }
    }
}

// As many nonterminals as there are sets for.
pub fn at_most(nonterminals: u32) -> u32
    ensures { result ≡ min nonterminals max_nonterminals }
{
    nonterminals.min(NONTERMINALS)
}
