// What is found of lent memory, of a grammar and then of an input: the first error of these.
#![tactic(auto)]

ghost use Rattle.std.specs.Prelude.{◌≡◌};
ghost use Rattle.answer.specs.declared.Error.TheVariants.{MemoTooShort, SpansTooShort};
ghost use Rattle.event.specs.Events.{input_of};
ghost use Rattle.grammar.specs.Limits.{max_tokens, max_memo_entries, max_tabular_tokens, max_span_words};
ghost use Rattle.promises.specs.inner.Inputs.{with_input_to, with_room};

use answer::Error;
use event::first_unknown;
use grammar::limits::{MEMO_ENTRIES, SPAN_WORDS, TABULAR_TOKENS, TOKENS};
use grammar::reading::Sizes;

// What is found of a grammar and then of an input of at most so many tokens: its length, and its tokens.
fn with_input(finding: Result<Sizes, Error>, events: &[u8], most: usize) -> Result<Sizes, Error>
    ensures { result ≡ with_input_to most finding (input_of events.now) }
{
    let sizes = finding?;
    if most < events.len() {
        return Err(Error::InputTooLong);
    }
    match first_unknown(events, sizes.terminals) {
        Some(at) => Err(Error::UnknownToken(at)),
        None => Ok(sizes),
    }
}

// For the descent, with a lent memo table of so many entries.
pub fn with_memo(finding: Result<Sizes, Error>, events: &[u8], memo: usize) -> Result<Sizes, Error>
    ensures { result ≡ with_room memo max_memo_entries MemoTooShort (with_input_to max_tokens finding (input_of events.now)) }
{
    if memo < MEMO_ENTRIES {
        return Err(Error::MemoTooShort);
    }
    with_input(finding, events, TOKENS)
}

// For tabulation, with so many lent words for the spans.
pub fn with_spans(
    finding: Result<Sizes, Error>,
    events: &[u8],
    spans: usize,
) -> Result<Sizes, Error>
    ensures { result ≡ with_room spans max_span_words SpansTooShort (with_input_to max_tabular_tokens finding (input_of events.now)) }
{
    if spans < SPAN_WORDS {
        return Err(Error::SpansTooShort);
    }
    with_input(finding, events, TABULAR_TOKENS)
}
