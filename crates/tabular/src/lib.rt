// A second recognizer, by tabulation: which nonterminals derive which span of the input, for every span from short to long. It needs neither table
// nor memo table, only a grammar without left recursion, and takes shorter inputs.
#![tactic(auto)]

ghost use Rattle.event.specs.Events.{input_of};
ghost use Rattle.tabular_promises.specs.inner.Judging.{TabulateGiven, Tabulated, FoundGiven};
ghost use Rattle.tabular_promises.specs.Properties.{TabularJudges};

use answer::{Answer, Error};
use chart::verdict;
use families::SETS;
use filling::fill;
use grammar::limits::RULES;
use grammar::reading::Sizes;
use input_findings::with_spans;
use lookahead::Lookahead;
use sets::analyze;
use span_words::write;

mod filling;

// Fills the lent words with the nonterminals of every span, and gives the verdict.
fn tabulate(
    words: &[u32],
    starts: &[usize; RULES],
    sizes: Sizes,
    reaches: &[u32; SETS],
    events: &[u8],
    spans: &mut [u32],
) -> Answer
    requires { TabulateGiven words.now starts.now sizes reaches.now (input_of events.now) spans.old }
    ensures { Tabulated words.now (input_of events.now) spans.old result spans.new }
{
    let chart = fill(words, starts, sizes, reaches, events);
    write(&chart, sizes.nonterminals, events.len(), spans);
    verdict(&chart, events.len())
}

// By what is found of the grammar and the input: why they are refused, or the verdict.
fn judge_found(
    words: &[u32],
    finding: Result<Sizes, Error>,
    starts: &[usize; RULES],
    reaches: &[u32; SETS],
    events: &[u8],
    spans: &mut [u32],
) -> Answer
    requires { FoundGiven words.now finding starts.now reaches.now (input_of events.now) spans.old }
    ensures { TabularJudges words.now (input_of events.now) spans.old result spans.new }
{
    match finding {
        Err(error) => Answer::Refused(error),
        Ok(sizes) => tabulate(words, starts, sizes, reaches, events, spans),
    }
}

// Judges the input that the events of a log are by an encoded grammar, and fills the lent words with the nonterminals of every span.
pub fn judge(words: &[u32], events: &[u8], spans: &mut [u32]) -> Answer
    ensures { TabularJudges words.now (input_of events.now) spans.old result spans.new }
{
    let families = analyze(words, Lookahead::One);
    let finding = with_spans(families.finding, events, spans.len());
    judge_found(
        words,
        finding,
        &families.starts,
        &families.reaches,
        events,
        spans,
    )
}
