// The chart filled from short spans to long ones, and at each span in the order of rank.
ghost use Rattle.std.specs.Prelude.{◌+◌};
ghost use Rattle.event.specs.Events.{input_of};
ghost use Rattle.grammar.specs.Limits.{max_tabular_tokens};
ghost use Rattle.tabular_promises.specs.inner.Filling.{DerivedGiven, SpanDerived, turn, Fills, SettleGiven, LengthGiven, FillGiven, Filled};

use chart::{CHART, add};
use families::SETS;
use families::nonterminals::Nonterminals;
use grammar::limits::RULES;
use grammar::reading::Sizes;
use rule_ranks::by_rank;
use rule_scan::ask;
use terminal_places::{STANDS, standing};

// The nonterminals of a rank that the rules give a span to, where bodies are read by the chart.
fn derived(
    words: &[u32],
    starts: &[usize; RULES],
    lasts: &[usize; SETS],
    befores: &[usize; RULES],
    sizes: Sizes,
    rank: u32,
    stands: &[u64; STANDS],
    chart: &[u64; CHART],
    start: usize,
    end: usize,
) -> Nonterminals
    requires { DerivedGiven words.now starts.now lasts.now befores.now sizes rank start end }
    ensures { SpanDerived words.now rank stands.now chart.now start end result.bits }
{
    let mut found = Nonterminals::empty();
    let mut rule = lasts[rank as usize];
    // Each rule names the one before it, so no range drives this loop.
    while 0 < rule {
        let asked = rule - 1;
        found = ask(
            words, starts, sizes, asked, found, stands, chart, start, end,
        );
        rule = befores[asked];
    }
    found
}

// Asks the rules of one span, those of lower rank first: what a nonterminal asks of the same span is of nonterminals of lower rank.
fn settle(
    words: &[u32],
    starts: &[usize; RULES],
    lasts: &[usize; SETS],
    befores: &[usize; RULES],
    sizes: Sizes,
    stands: &[u64; STANDS],
    chart: &mut [u64; CHART],
    start: usize,
    end: usize,
)
    requires { SettleGiven words.now starts.now lasts.now befores.now sizes chart.old start end }
    ensures { Fills words.now stands.now chart.old end max_tabular_tokens (turn start end 0)
        (turn (start + 1) (end + 1) 0) chart.new }
{
    let nonterminals = sizes.nonterminals;
    for rank in 0..nonterminals {
        let found = derived(
            words, starts, lasts, befores, sizes, rank, stands, chart, start, end,
        );
        add(chart, nonterminals, start, end, found.bits);
    }
}

// The spans of one length.
fn fill_length(
    words: &[u32],
    starts: &[usize; RULES],
    lasts: &[usize; SETS],
    befores: &[usize; RULES],
    sizes: Sizes,
    stands: &[u64; STANDS],
    chart: &mut [u64; CHART],
    tokens: usize,
    length: usize,
)
    requires { LengthGiven words.now starts.now lasts.now befores.now sizes chart.old tokens length }
    ensures { Fills words.now stands.now chart.old tokens tokens (turn 0 length 0)
        (turn 0 (length + 1) 0) chart.new }
{
    for start in 0..tokens + 1 - length {
        settle(
            words,
            starts,
            lasts,
            befores,
            sizes,
            stands,
            chart,
            start,
            start + length,
        );
    }
}

// The chart of the input that the events are, by a grammar without left recursion, where its rules begin and what its nonterminals left-reach.
pub(crate) fn fill(
    words: &[u32],
    starts: &[usize; RULES],
    sizes: Sizes,
    reaches: &[u32; SETS],
    events: &[u8],
) -> [u64; CHART]
    requires { FillGiven words.now starts.now sizes reaches.now (input_of events.now) }
    ensures { Filled words.now (input_of events.now) result }
{
    let ranked = by_rank(words, starts, sizes.rules, reaches);
    let stands = standing(events);
    let mut chart = [0u64; CHART];
    for length in 0..events.len() + 1 {
        fill_length(
            words,
            starts,
            &ranked.lasts,
            &ranked.befores,
            sizes,
            &stands,
            &mut chart,
            events.len(),
            length,
        );
    }
    chart
}
