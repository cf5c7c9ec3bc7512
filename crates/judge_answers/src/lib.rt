// What judging answers: why it is refused, or the verdict by the memo table that the descent leaves.
#![tactic(auto)]

ghost use Rattle.std.specs.Prelude.{◌≡◌, get_or};
ghost use Rattle.grammar.specs.Codes.{uncalled_code};
ghost use Rattle.judge_answers.specs.inner.Answers.{answer_of};

use answer::{Answer, Error};
use descent_choices::entries_of;
use grammar::codes::UNCALLED;
use grammar::limits::TOKENS;
use grammar::reading::Sizes;
use memo_table::verdict;

// The entry of the start's call at the input's begin.
fn start_entry(memo: &[u16]) -> u16
    ensures { result ≡ get_or memo.now 0 uncalled_code }
{
    memo.first().copied().unwrap_or(UNCALLED)
}

// What is answered on an input of so many tokens, by what is found and the memo table that is left.
pub fn answer(finding: Result<Sizes, Error>, tokens: usize, memo: &[u16]) -> Answer
    ensures { result ≡ answer_of finding tokens memo.now }
{
    match finding {
        Err(error) => Answer::Refused(error),
        Ok(sizes) => {
            let entries = entries_of(sizes.nonterminals, tokens).min(memo.len());
            let long = tokens.min(TOKENS) as u16;
            verdict(&memo[..entries], start_entry(memo), long)
        }
    }
}
