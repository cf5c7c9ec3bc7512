// The costliest input of a length: the first in letter order of those on which the descent makes the most calls.
ghost use Rattle.std.specs.Prelude.{length};
ghost use Rattle.recognizer_promises.specs.inner.Search.{SearchesWords};
ghost use Rattle.recursive_descent_promises.specs.inner.Search.{TrialGiven, TrialsGiven, Tried, CostliestLeft};

use super::descent::call;
use descent_arrays::CHOICES;
use descent_preparation::{prepare_search, prepare_trial};
use inputs::{no_trials, tried};
use memo_table::count_calls;
use table::Found;

// Tries the input of a number: writes it, descends on it, and counts the calls.
fn try_input(
    words: &[u32],
    choices: &[u16; CHOICES],
    last: u8,
    number: usize,
    events: &mut [u8],
    memo: &mut [u16],
) -> usize
    requires { TrialGiven words.now choices.now last events.old memo.old }
    ensures { Tried words.now (length events.old) number result events.new memo.new }
{
    let tokens = prepare_trial(events, last, number, memo);
    call(0, words, choices, &tokens, memo, 0);
    count_calls(memo)
}

// Tries all inputs of a length in the same memory, and the costliest again at the end.
fn leave_costliest(
    words: &[u32],
    choices: &[u16; CHOICES],
    last: u8,
    inputs: usize,
    events: &mut [u8],
    memo: &mut [u16],
)
    requires { TrialsGiven words.now choices.now last inputs events.old memo.old }
    ensures { CostliestLeft words.now (length events.old) events.new memo.new }
{
    let mut trials = no_trials();
    // The trials count the inputs themselves, so no range drives this loop.
    while trials.next < inputs {
        let calls = try_input(words, choices, last, trials.next, events, memo);
        trials = tried(trials, calls);
    }
    try_input(words, choices, last, trials.best, events, memo);
}

// Finds the costliest input of a length for an encoded grammar, writes it into the lent log, and descends on it.
pub fn descend_costliest(words: &[u32], tokens: usize, log: &mut [u8], memo: &mut [u16]) -> Found
    ensures { SearchesWords words.now tokens log.old memo.old result log.new memo.new }
{
    let prepared = prepare_search(words, tokens, log.len(), memo.len());
    let entries = prepared.entries;
    if entries == 0 {
        return prepared.found;
    }
    let choices = prepared.choices;
    leave_costliest(
        words,
        &choices,
        prepared.last,
        prepared.inputs,
        &mut log[..tokens],
        &mut memo[..entries],
    );
    prepared.found
}
