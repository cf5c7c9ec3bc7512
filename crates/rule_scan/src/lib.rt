// A rule asked at one span, by a pass over its words from their end.
#![tactic(auto)]

ghost use Rattle.std.specs.Prelude.{◌≡◌, ◌≤◌, ◌<◌, length};
ghost use Rattle.tabular_promises.specs.inner.Scanning.{none_open, before_terminal, before_symbol, scan_onto, keeps_by, asked_by};

use chart::places::{contains, one_place};
use chart::{CHART, before};
use families::nonterminals::Nonterminals;
use grammar::limits::{RULES, TERMINALS};
use grammar::reading::Sizes;
use rule_passes::rules::{end_of, head_of};
use span_words::found_by;
use tabular_promises::Scan;
use terminal_places::STANDS;
use word::{Symbol, Word, decode};

// Where nothing of a rule is open: nothing is left of a body, and no conjunct is behind.
fn none_open(end: usize) -> Scan
    ensures { result ≡ none_open end }
{
    Scan {
        set: one_place(end),
        kept: true,
    }
}

// The places where the terminal stands, with a place of the set behind it.
#[tactic(auto, unfolding(tabular_promises::specs::inner::Scanning::before_terminal))]
fn before_terminal(stands: &[u64; STANDS], terminal: u32, set: u64) -> u64
    ensures { result ≡ before_terminal stands.now terminal set }
{
    if terminal < TERMINALS {
        set / 2 & stands[terminal as usize]
    } else {
        0
    }
}

fn before_symbol(
    symbol: Symbol,
    set: u64,
    stands: &[u64; STANDS],
    chart: &[u64; CHART],
    start: usize,
    end: usize,
) -> u64
    ensures { result ≡ before_symbol stands.now chart.now start end symbol set }
{
    match symbol {
        Symbol::Terminal(number) => before_terminal(stands, number, set),
        Symbol::Nonterminal(number) => before(chart, number, set, start, end),
    }
}

// The scan with a word in front. A conjunct that it begins has to contain the span if it is positive, and not if it is negative.
fn onto(
    word: Word,
    scan: Scan,
    stands: &[u64; STANDS],
    chart: &[u64; CHART],
    start: usize,
    end: usize,
) -> Scan
    ensures { result ≡ scan_onto stands.now chart.now start end word scan }
{
    let set = scan.set;
    let kept = scan.kept;
    match word {
        Word::Symbol(symbol) => Scan {
            set: before_symbol(symbol, set, stands, chart, start, end),
            kept,
        },
        Word::Positive => Scan {
            set: one_place(end),
            kept: contains(set, start) && kept,
        },
        Word::Negative => Scan {
            set: one_place(end),
            kept: !contains(set, start) && kept,
        },
        Word::Rule(_) | Word::End => none_open(end),
        _ => scan,
    }
}

// Whether the rule whose words stand behind one index and before another holds at a span, where bodies are read by the chart.
fn keeps(
    words: &[u32],
    from: usize,
    to: usize,
    stands: &[u64; STANDS],
    chart: &[u64; CHART],
    start: usize,
    end: usize,
) -> bool
    requires { (from < to) × (to ≤ length words.now) }
    ensures { result ≡ keeps_by words.now from to stands.now chart.now start end }
{
    let mut scan = none_open(end);
    for at in (from + 1..to).rev() {
        let word = decode(words[at]);
        scan = onto(word, scan, stands, chart, start, end);
    }
    scan.kept
}

// Adds the nonterminal of a rule to those found to have a span, where the rule gives it the span. The rule is not asked where its nonterminal is found
// already.
pub fn ask(
    words: &[u32],
    starts: &[usize; RULES],
    sizes: Sizes,
    rule: usize,
    found: Nonterminals,
    stands: &[u64; STANDS],
    chart: &[u64; CHART],
    start: usize,
    end: usize,
) -> Nonterminals
    ensures { result.bits ≡ asked_by words.now starts.now sizes.rules rule stands.now chart.now start end found.bits }
{
    let from = starts[rule % RULES];
    let to = end_of(words, starts, sizes, rule);
    if words.len() < to {
        return found;
    }
    if to <= from {
        return found;
    }
    let head = head_of(decode(words[from]));
    if found.contains(head) {
        return found;
    }
    let there = keeps(words, from, to, stands, chart, start, end);
    found_by(head, there, found)
}
