// One lookahead set behind the other: what is looked at where a string of the first is followed by one of the second, and the set of all strings.
#![tactic(auto)]

ghost use Rattle.std.specs.Prelude.{◌≡◌, true, ◌&&◌, ◌%◌, ◌^◌, ◌<◌};
ghost use Rattle.lookahead.specs.declared.Lookahead.TheVariants.{One, Two};
ghost use Rattle.lookahead.specs.Lookaheads.{elements, nothing};
ghost use Rattle.lookahead.specs.Elements.{has};
ghost use Rattle.lookahead.specs.inner.Operations.{terminal, Full, Concatenated};
ghost use Rattle.pair_rows.specs.inner.Rows.{Has};
ghost use Rattle.concatenation.specs.inner.Computing.{Singles, is_long, AllLong};

use lookahead::{Lookahead, NOTHING, PAIRS, alphabet, element_count, nothing, single};
use lookahead_sets::LookaheadSet;
use pair_rows::{row, rows};

// Without the numbers that are no elements.
fn strings(set: LookaheadSet, lookahead: Lookahead) -> LookaheadSet
    ensures { result.bits ≡ set.bits % 2 ^ elements lookahead }
{
    LookaheadSet {
        bits: set.bits & (1u64 << element_count(lookahead)) - 1,
    }
}

// The strings of as many tokens as are looked at: whatever follows, they stay.
#[tactic(auto, using(crate::proofs::Cases::long_one, crate::proofs::Cases::long_two))]
fn long(set: LookaheadSet, lookahead: Lookahead) -> LookaheadSet
    requires { set.bits < 2 ^ elements lookahead }
    ensures { Has result.bits (λ l. has set.bits l && is_long lookahead l) }
{
    match lookahead {
        Lookahead::One => LookaheadSet {
            bits: set.bits & (1 << NOTHING) - 1,
        },
        Lookahead::Two => LookaheadSet {
            bits: set.bits >> PAIRS << PAIRS,
        },
    }
}

// With two tokens, whether every string is a pair.
#[tactic(auto, using(crate::proofs::Cases::all_long_two))]
fn all_pairs(set: LookaheadSet) -> bool
    ensures { result ≡ true → AllLong Two set.bits }
{
    set.bits & (1 << PAIRS) - 1 == 0
}

// With two tokens, other, where nothing can come before it.
fn before(set: LookaheadSet, other: LookaheadSet) -> LookaheadSet
    ensures { Has result.bits (λ l. has set.bits (nothing Two) && has other.bits l) }
{
    if set.contains(nothing(Lookahead::Two)) {
        other
    } else {
        LookaheadSet::empty()
    }
}

// One set behind the other with one token: the terminals of the first, and the second where the first has nothing.
fn concat_one(set: LookaheadSet, other: LookaheadSet) -> LookaheadSet
    ensures { Concatenated One set.bits other.bits result.bits }
{
    let first = strings(set, Lookahead::One);
    let second = strings(other, Lookahead::One);
    if second.is_empty() {
        return second;
    }
    if first.contains(NOTHING) {
        long(first, Lookahead::One).join(second)
    } else {
        first
    }
}

// With two tokens: the pairs of the first, the second where the first has nothing, and what comes of the terminals alone. Most sets have
// pairs alone.
fn concat_two(set: LookaheadSet, other: LookaheadSet) -> LookaheadSet
    ensures { Concatenated Two set.bits other.bits result.bits }
{
    let left = strings(set, Lookahead::Two);
    let right = strings(other, Lookahead::Two);
    if right.is_empty() {
        return right;
    }
    if all_pairs(left) {
        return left;
    }
    let both = long(left, Lookahead::Two).join(before(left, right));
    both.join(rows(left, right))
}

// What is looked at where an element of the one set is followed by one of the other (document 01: strung together): the strings of the
// first that are long enough, and shorter ones with what comes behind them. No pair, no element: empty where either set is.
pub fn concat(set: LookaheadSet, lookahead: Lookahead, other: LookaheadSet) -> LookaheadSet
    ensures { Concatenated lookahead set.bits other.bits result.bits }
{
    match lookahead {
        Lookahead::One => concat_one(set, other),
        Lookahead::Two => concat_two(set, other),
    }
}

// With one token, a terminal, unless nothing at all comes behind it.
fn before_one(number: u32, other: LookaheadSet) -> LookaheadSet
    ensures { Concatenated One (terminal One number) other.bits result.bits }
{
    let second = strings(other, Lookahead::One);
    if second.is_empty() {
        second
    } else {
        LookaheadSet::terminal(Lookahead::One, number)
    }
}

// The same where the first set is that of one terminal, as it is for most symbols.
pub fn behind_terminal(number: u32, lookahead: Lookahead, other: LookaheadSet) -> LookaheadSet
    ensures { Concatenated lookahead (terminal lookahead number) other.bits result.bits }
{
    match lookahead {
        Lookahead::One => before_one(number, other),
        Lookahead::Two => row(number, other),
    }
}

// Each terminal below terminals alone.
#[tactic(auto, using(crate::proofs::Cases::singles_are))]
fn singles(lookahead: Lookahead, terminals: u32) -> LookaheadSet
    ensures { Singles lookahead terminals result.bits }
{
    let few = terminals.min(alphabet(lookahead));
    LookaheadSet {
        bits: (1u64 << few) - 1 << single(lookahead),
    }
}

// Every string of terminals below terminals.
pub fn full(lookahead: Lookahead, terminals: u32) -> LookaheadSet
    ensures { Full lookahead terminals result.bits }
{
    let singles = singles(lookahead, terminals);
    let longer = concat(singles, lookahead, singles);
    LookaheadSet::end(lookahead).join(singles.join(longer))
}
