// The descent: calling a nonterminal at a place and running a body call one another in turn.
ghost use Rattle.std.specs.Prelude.{◌≡◌, ◌≤◌, get_or};
ghost use Rattle.grammar.specs.Limits.{max_tokens};
ghost use Rattle.descent_arrays.specs.inner.Arrays.{choice_at};
ghost use Rattle.recursive_descent_promises.specs.inner.Descent.{ChoiceGiven, CallRequires, CallEnsures, RunRequires, RunEnsures};

use descent_arrays::{CHOICE_COLUMNS, CHOICES, ROW_COLUMN};
use descent_steps::arrays::{column_of, end_behind, entry_of};
use descent_steps::entry::{Outcome, recall};
use descent_steps::state::{first_state, goes_further, next_state};
use descent_steps::{Step, step_of_word};
use grammar::codes::{FAILED, UNCALLED};
use grammar::limits::PLACES;
use recursive_descent_promises::Run;

// The word of the token at a place.
fn token_at(tokens: &[u16; PLACES], place: u16) -> u16
    requires { place ≤ max_tokens }
    ensures { result ≡ get_or tokens.now place 0 }
{
    tokens[place as usize]
}

// The number in a column of the row of a nonterminal.
fn choice_at(choices: &[u16; CHOICES], nonterminal: usize, column: usize) -> u16
    requires { ChoiceGiven nonterminal column }
    ensures { result ≡ choice_at choices.now nonterminal column }
{
    choices[nonterminal * CHOICE_COLUMNS + column]
}

// Runs the body at an index from a place on, for a call of the nonterminal there; the first symbol that fails stops it, and the index behind that
// symbol is told.
#[cycle(call_run_body)]
fn run_body(
    nonterminal: usize,
    words: &[u32],
    choices: &[u16; CHOICES],
    tokens: &[u16; PLACES],
    memo: &mut [u16],
    from: usize,
    start: u16,
) -> Run
    requires { RunRequires words.now choices.now tokens.now memo.old nonterminal from start }
    ensures { RunEnsures words.now choices.now tokens.now memo.old
        nonterminal from start result memo.new }
{
    let mut at = from;
    let mut place = start;
    // The body is over where a word says so, so no range drives this loop.
    loop {
        let step = step_of_word(words[at]);
        let entry = match step {
            Step::Over => {
                return Run { end: place, at };
            }
            Step::Terminal(terminal) => end_behind(token_at(tokens, place), terminal, place),
            Step::Nonterminal(called) => call(called as usize, words, choices, tokens, memo, place),
        };
        at += 1;
        let outcome = recall(entry);
        let Outcome::End(end) = outcome else {
            return Run { end: FAILED, at };
        };
        place = end;
    }
}

// Calls a nonterminal at a place, and returns the entry of its outcome: the one that is there, or one that it records when the bodies of
// the rule that is chosen have run. An outcome itself would be returned in memory, and each call would write it there.
#[cycle(call_run_body)]
pub(crate) fn call(
    nonterminal: usize,
    words: &[u32],
    choices: &[u16; CHOICES],
    tokens: &[u16; PLACES],
    memo: &mut [u16],
    place: u16,
) -> u16
    requires { CallRequires words.now choices.now tokens.now memo.old nonterminal place }
    ensures { CallEnsures words.now choices.now tokens.now memo.old
        nonterminal place result memo.new }
{
    let row = choice_at(choices, nonterminal, ROW_COLUMN);
    let entry = entry_of(row, place);
    let known = memo[entry];
    if known != UNCALLED {
        return known;
    }
    let column = column_of(token_at(tokens, place));
    let first = choice_at(choices, nonterminal, column);
    let mut state = first_state(words, choices, first);
    // Where a body stops tells where the next begins.
    while goes_further(state) {
        let from = state.at + 1;
        let run = run_body(nonterminal, words, choices, tokens, memo, from, place);
        state = next_state(words, state, run.end, run.at);
    }
    let agreement = state.agreement;
    memo[entry] = agreement;
    agreement
}
