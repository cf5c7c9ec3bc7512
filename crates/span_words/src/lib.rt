// The words of the spans in lent memory, by start, then by end: the set of the nonterminals that the chart gives a span to. No function that others call
// requires anything of its numbers.
#![tactic(auto)]

ghost use Rattle.std.specs.Prelude.{◌≡◌, ◌+◌, ◌≤◌, length};
ghost use Rattle.base.specs.Lists.{listed};
ghost use Rattle.grammar.specs.Limits.{max_tabular_places};
ghost use Rattle.tabular_promises.specs.inner.Chart.{with_nonterminal, span_word};
ghost use Rattle.tabular_promises.specs.inner.Spans.{written_spans};

use chart::CHART;
use chart::places::contains;
use families::nonterminals::Nonterminals;
use grammar::limits::{NONTERMINALS, SPAN_WORDS, TABULAR_PLACES, TABULAR_TOKENS};

// The nonterminals found, with one more where it is to be.
pub fn found_by(nonterminal: u32, there: bool, found: Nonterminals) -> Nonterminals
    ensures { result.bits ≡ with_nonterminal found.bits nonterminal there }
{
    if there {
        found.join(Nonterminals::alone(nonterminal))
    } else {
        found
    }
}

// The nonterminals that the chart gives a span to.
#[tactic(auto, using(tabular_promises::proofs::Charts::word_start))]
pub fn word_at(chart: &[u64; CHART], nonterminals: u32, start: usize, end: usize) -> u32
    ensures { result ≡ span_word chart.now nonterminals start end }
{
    if NONTERMINALS < nonterminals {
        return 0;
    }
    if TABULAR_PLACES <= end {
        return 0;
    }
    let mut word = Nonterminals::empty();
    for at in 0..nonterminals {
        let there = contains(chart[at as usize * TABULAR_PLACES + end], start);
        word = found_by(at, there, word);
    }
    word.bits
}

// The words of the spans from one start, the empty one first.
fn write_row(chart: &[u64; CHART], nonterminals: u32, start: usize, row: &mut [u32])
    requires { start + length row.old ≤ max_tabular_places }
    ensures { row.new ≡ listed (length row.old) (λ d. span_word chart.now nonterminals start (start + d)) }
{
    for length in 0..row.len() {
        row[length] = word_at(chart, nonterminals, start, start + length);
    }
}

// Of an input that is too long, or into memory that is too short, nothing is written.
pub fn write(chart: &[u64; CHART], nonterminals: u32, tokens: usize, spans: &mut [u32])
    ensures { spans.new ≡ written_spans chart.now nonterminals tokens spans.old }
{
    if TABULAR_TOKENS < tokens {
        return;
    }
    if spans.len() < SPAN_WORDS {
        return;
    }
    let mut at = 0;
    for start in 0..tokens + 1 {
        let next = at + (tokens + 1 - start);
        write_row(chart, nonterminals, start, &mut spans[at..next]);
        at = next;
    }
}
