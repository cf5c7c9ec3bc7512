// Memoized recursive descent in a lent memo table: on one input, and on all inputs of a length.
#![tactic(auto)]

ghost use Rattle.event.specs.Events.{input_of};
ghost use Rattle.recognizer_promises.specs.inner.Judging.{DescendsWords};

use descent::call;
use descent_preparation::prepare_input;
use lookahead::Lookahead;
use table::Found;

mod descent;
pub mod search;

// Finds whether the events of a log are an input that an encoded grammar can judge, and if so descends on it: the start is called at its beginning.
pub fn descend_words(words: &[u32], lookahead: Lookahead, events: &[u8], memo: &mut [u16]) -> Found
    ensures { DescendsWords lookahead words.now (input_of events.now) memo.old result memo.new }
{
    let prepared = prepare_input(words, lookahead, events, memo);
    let entries = prepared.entries;
    if entries == 0 {
        return prepared.found;
    }
    // lent as fields, the arrays would be copied
    let choices = prepared.choices;
    let tokens = prepared.tokens;
    call(0, words, &choices, &tokens, &mut memo[..entries], 0);
    prepared.found
}
