// With two tokens of lookahead, what is looked at where terminals alone are followed by the strings of a set: a row of pairs for each.
#![tactic(auto)]

ghost use Rattle.std.specs.Prelude.{◌-◌, ◌&&◌};
ghost use Rattle.lookahead.specs.declared.Lookahead.TheVariants.{Two};
ghost use Rattle.lookahead.specs.inner.Operations.{terminal, Concatenated};
ghost use Rattle.pair_rows.specs.inner.Rows.{Has, is_single, begins, in_rows};

use grammar::limits::TERMINALS_OF_TWO;
use lookahead_sets::LookaheadSet;

// Every terminal alone.
const SINGLES: u64 = 0xfe;

// The first pair of each row, were the pairs to begin at element 1, and the last one where they do begin.
const ROW_STARTS: u64 = 0x81020408102;

const ROW_ENDS: u64 = 0x102040810204000;

// What the strings begin with, each terminal alone. That a row has a pair is moved up to its last one, and from there side by side.
#[tactic(auto, using(crate::proofs::FirstTokens::firsts_are))]
fn firsts(set: LookaheadSet) -> LookaheadSet
    ensures { Has result.bits (λ l. is_single l && begins set.bits (l - 1)) }
{
    let bits = set.bits;
    let two = bits | bits << 1;
    let four = two | two << 2;
    let row = (four | four << 3) & ROW_ENDS;
    let rows = row | row << 6;
    let half = rows | rows << 12;
    let all = half | rows << 24 | row << 36;
    LookaheadSet {
        bits: (all >> 49 | bits) & SINGLES,
    }
}

// What is looked at where terminal l alone is followed by a string of other: l and what that begins with, and l alone before nothing, which
// comes seldom.
pub fn row(l: u32, other: LookaheadSet) -> LookaheadSet
    ensures { Concatenated Two (terminal Two l) other.bits result.bits }
{
    if TERMINALS_OF_TWO <= l {
        return LookaheadSet::empty();
    }
    let pairs = firsts(other).bits << TERMINALS_OF_TWO + TERMINALS_OF_TWO * l;
    if other.bits & 1 == 0 {
        return LookaheadSet { bits: pairs };
    }
    LookaheadSet {
        bits: pairs | 1u64 << 1 + l,
    }
}

// The same for each terminal that is alone in a set, all rows at once: each is the product of its start and the first tokens.
pub fn rows(set: LookaheadSet, other: LookaheadSet) -> LookaheadSet
    ensures { Has result.bits (in_rows set.bits other.bits 7) }
{
    let alone = set.bits & SINGLES;
    if alone == 0 {
        return LookaheadSet::empty();
    }
    let two = alone | alone << 6;
    let four = two | two << 12;
    let starts = (four | four << 18) & ROW_STARTS;
    let ends = alone * (other.bits & 1);
    LookaheadSet {
        bits: starts * firsts(other).bits << 6 | ends,
    }
}
