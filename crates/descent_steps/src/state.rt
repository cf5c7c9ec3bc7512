// A rule that is run, body after body: how far it has got.
ghost use Rattle.std.specs.Prelude.{◌≡◌};
ghost use Rattle.descent_steps.specs.inner.Steps.{first_state, goes_further, next_state};

use super::{begins_conjunct, first_agreement, joined_entry, next_conjunct, word_at};
use descent_arrays::{CHOICES, END_COLUMN};
use grammar::codes::FAILED;

// The index that a rule has reached, the word there, and the entry of what the bodies before it agree on. Once the rule has failed, the index is where
// its last body stopped, and the word is the one that began that body.
#[derive(Clone, Copy)]
pub struct RuleState {
    pub at: usize,
    pub word: u32,
    pub agreement: u16,
}

// Before the first body of the rule whose first conjunct stands at an index; 0 stands for no rule, and that has failed. The input's length is read
// in the first row of the choices: every nonterminal's row has the same.
#[tactic(auto, unfolding(crate::specs::inner::Steps::first_state, descent_arrays::specs::inner::Arrays::end_at))]
pub fn first_state(words: &[u32], choices: &[u16; CHOICES], at: u16) -> RuleState
    ensures { result ≡ first_state words.now choices.now at }
{
    let first = at as usize;
    if first == 0 {
        return RuleState {
            at: first,
            word: 0,
            agreement: FAILED,
        };
    }
    let word = word_at(words, first);
    let agreement = first_agreement(word, choices[END_COLUMN]);
    RuleState {
        at: first,
        word,
        agreement,
    }
}

// Whether a further body is run: a conjunct begins there, and the rule has not failed.
#[tactic(auto, unfolding(crate::specs::inner::Steps::goes_further))]
pub fn goes_further(state: RuleState) -> bool
    ensures { result ≡ goes_further state }
{
    state.agreement != FAILED && begins_conjunct(state.word)
}

// The state after that body, which stopped at an index; the entry is that of its outcome.
#[tactic(auto, unfolding(crate::specs::inner::Steps::next_state))]
pub fn next_state(words: &[u32], state: RuleState, entry: u16, at: usize) -> RuleState
    ensures { result ≡ next_state words.now state entry at }
{
    let agreement = joined_entry(state.word, state.agreement, entry);
    if agreement == FAILED {
        return RuleState {
            at,
            agreement: FAILED,
            ..state
        };
    }
    let next = next_conjunct(words, entry, at);
    let word = word_at(words, next);
    RuleState {
        at: next,
        word,
        agreement,
    }
}
