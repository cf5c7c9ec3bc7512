// What an entry tells: failed or an end, the outcome of a call or of a terminal.
ghost use Rattle.std.specs.Prelude.{◌≡◌};
ghost use Rattle.semantics.specs.inner.Memo.{decode};
ghost use Rattle.descent_steps.specs.inner.Steps.{meant};

use grammar::codes::FAILED;

// (document 01: a name's result, failed or an end)
#[derive(Clone, Copy)]
pub enum Outcome {
    Failed,
    End(u16),
}

#[tactic(auto, unfolding(semantics::specs::inner::Memo::decode))]
pub fn recall(entry: u16) -> Outcome
    ensures { meant result ≡ decode entry }
{
    if entry == FAILED {
        Outcome::Failed
    } else {
        Outcome::End(entry)
    }
}
