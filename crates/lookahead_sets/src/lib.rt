// Lookahead sets: the strings of one or two tokens that may come next, shorter ones before the end of the input.
#![tactic(auto)]

ghost use Rattle.std.specs.Prelude.{◌≡◌};
ghost use Rattle.lookahead.specs.Elements.{has, size};
ghost use Rattle.lookahead.specs.inner.Operations.{is_empty, Empty, End, Terminal, Joined, SetsMet};

use lookahead::{Lookahead, alphabet, nothing, single};

// The bits of a set's number.
const WIDTH: u32 = 64;

// A set of strings; element l weighs 2^l (document 01: event set).
#[derive(Clone, Copy, PartialEq, Eq)]
pub struct LookaheadSet {
    pub bits: u64,
}

impl LookaheadSet {
    #[tactic(auto, using(lookahead::proofs::Operations::is_empty_lem))]
    pub fn empty() -> LookaheadSet
        ensures { Empty result.bits }
    {
        LookaheadSet { bits: 0 }
    }

    // Nothing alone.
    #[tactic(auto, using(crate::proofs::SingleElements::end_is))]
    pub fn end(lookahead: Lookahead) -> LookaheadSet
        ensures { End lookahead result.bits }
    {
        LookaheadSet {
            bits: 1u64 << nothing(lookahead),
        }
    }

    // Terminal l alone; the empty set where l is no terminal's number.
    pub fn terminal(lookahead: Lookahead, l: u32) -> LookaheadSet
        ensures { Terminal lookahead l result.bits }
    {
        if l < alphabet(lookahead) {
            LookaheadSet {
                bits: 1u64 << single(lookahead) + l,
            }
        } else {
            LookaheadSet::empty()
        }
    }

    // Whether an element is in the set.
    #[tactic(auto, unfolding(lookahead::specs::Elements::has))]
    pub fn contains(self, element: u32) -> bool
        ensures { result ≡ has self.bits element }
    {
        element < WIDTH && self.bits >> element & 1 == 1
    }

    #[tactic(auto, unfolding(lookahead::specs::inner::Operations::is_empty))]
    pub fn is_empty(self) -> bool
        ensures { result ≡ is_empty self.bits }
    {
        self.bits == 0
    }

    // The elements of either set.
    #[tactic(auto, using(lookahead::proofs::Operations::is_join), unfolding(lookahead::specs::inner::Operations::join))]
    pub fn join(self, other: LookaheadSet) -> LookaheadSet
        ensures { Joined self.bits other.bits result.bits }
    {
        LookaheadSet {
            bits: self.bits | other.bits,
        }
    }

    // The elements of both sets.
    #[tactic(auto, using(lookahead::proofs::Operations::is_meet), unfolding(lookahead::specs::inner::Operations::meet))]
    pub fn meet(self, other: LookaheadSet) -> LookaheadSet
        ensures { SetsMet self.bits other.bits result.bits }
    {
        LookaheadSet {
            bits: self.bits & other.bits,
        }
    }

    // How many elements the set has.
    #[tactic(auto, using(lookahead::proofs::Size::ones_size))]
    pub fn size(self) -> u32
        ensures { result ≡ size self.bits }
    {
        self.bits.count_ones()
    }
}
