// The chart of the tabular judge, for each nonterminal and end the set of the starts of the spans that it derives: what is put into it and
// read off it. No function requires anything of its numbers.
#![tactic(auto)]

ghost use Rattle.std.specs.Prelude.{◌≡◌};
ghost use Rattle.std.specs.Int.Bits.{bit_or};
ghost use Rattle.base.specs.Choice.{choose};
ghost use Rattle.tabular_promises.specs.inner.Chart.{places_before, added_word, chart_verdict};

use answer::{Answer, Calls};
use grammar::limits::{NONTERMINALS, TABULAR_PLACES};
use places::{contains, put};

pub mod places;

pub const CHART: usize = (NONTERMINALS as usize) * TABULAR_PLACES;

// The places found, with more where there are.
fn joined(there: bool, more: u64, found: u64) -> u64
    ensures { result ≡ choose there (bit_or found more) found }
{
    if there { found | more } else { found }
}

// The places from which a nonterminal leads to a place of the set, between the span's start and its end.
pub fn before(chart: &[u64; CHART], nonterminal: u32, set: u64, start: usize, end: usize) -> u64
    ensures { result ≡ places_before chart.now nonterminal set start end }
{
    if NONTERMINALS <= nonterminal {
        return 0;
    }
    if TABULAR_PLACES <= end {
        return 0;
    }
    let mut found = 0u64;
    for at in start..end + 1 {
        found = joined(
            contains(set, at),
            chart[nonterminal as usize * TABULAR_PLACES + at],
            found,
        );
    }
    found
}

// Gives a span to those nonterminals of a word that are below a number; it goes from the first to the last of the word.
#[tactic(auto, using(crate::proofs::Added::all_put))]
pub fn add(chart: &mut [u64; CHART], nonterminals: u32, start: usize, end: usize, word: u32)
    ensures { chart.new ≡ added_word chart.old nonterminals start end word }
{
    if word == 0 {
        return;
    }
    if NONTERMINALS < nonterminals {
        return;
    }
    if TABULAR_PLACES <= end {
        return;
    }
    for at in word.trailing_zeros()..nonterminals {
        let rest = word >> at;
        if rest == 0 {
            return;
        }
        let slot = at as usize * TABULAR_PLACES + end;
        chart[slot] = put(chart[slot], start, rest & 1 == 1);
    }
}

// The verdict on an input of so many tokens: whether nonterminal 0 has all of it. No call is made.
#[tactic(auto, unfolding(tabular_promises::specs::inner::Chart::chart_verdict))]
pub fn verdict(chart: &[u64; CHART], tokens: usize) -> Answer
    ensures { result ≡ chart_verdict chart.now tokens }
{
    let calls = Calls {
        count: 0,
        farthest: 0,
    };
    if tokens < TABULAR_PLACES && contains(chart[tokens], 0) {
        Answer::Accepted(calls)
    } else {
        Answer::Rejected(calls)
    }
}
