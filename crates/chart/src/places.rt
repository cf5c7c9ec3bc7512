// Sets of places of the input: place p weighs 2^p, and a place that no input has is in no set.
ghost use Rattle.std.specs.Prelude.{◌≡◌};
ghost use Rattle.tabular_promises.specs.inner.Places.{only_place, has_place, with_place};

use grammar::limits::TABULAR_PLACES;

#[tactic(auto, using(tabular_promises::proofs::PlaceSets::weight_64), unfolding(tabular_promises::specs::inner::Places::only_place))]
pub fn one_place(place: usize) -> u64
    ensures { result ≡ only_place place }
{
    if place < TABULAR_PLACES {
        1u64 << place
    } else {
        0
    }
}

#[tactic(auto, using(tabular_promises::proofs::PlaceSets::digit), unfolding(tabular_promises::specs::inner::Places::has_place))]
pub fn contains(set: u64, place: usize) -> bool
    ensures { result ≡ has_place set place }
{
    place < TABULAR_PLACES && set >> place & 1 == 1
}

// The set with a place put in, where it is to be.
#[tactic(auto, unfolding(tabular_promises::specs::inner::Places::with_place))]
pub fn put(set: u64, place: usize, member: bool) -> u64
    ensures { result ≡ with_place set place member }
{
    if member { set | one_place(place) } else { set }
}
