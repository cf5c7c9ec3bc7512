// What is found of lent memory, of a grammar and then of a length, all inputs of which are to be judged by it: the first error of these.
#![tactic(auto)]

ghost use Rattle.std.specs.Prelude.{◌≡◌};
ghost use Rattle.promises.specs.inner.Lengths.{with_search};

use answer::Error;
use grammar::limits::{MEMO_ENTRIES, TOKENS};
use grammar::reading::Sizes;
use inputs::{INPUTS, count_inputs};

// With a lent memo table and a lent log of so many entries and bytes: that they are long enough, that the length is not too great, and that there
// are not too many inputs of it.
#[tactic(auto, using(inputs::proofs::Counting::count_over, inputs::proofs::Counting::count_few))]
pub fn with_length(
    finding: Result<Sizes, Error>,
    tokens: usize,
    log: usize,
    memo: usize,
) -> Result<Sizes, Error>
    ensures { result ≡ with_search log memo finding tokens }
{
    if memo < MEMO_ENTRIES {
        return Err(Error::MemoTooShort);
    }
    if log < TOKENS {
        return Err(Error::BufferTooShort);
    }
    let sizes = finding?;
    if TOKENS < tokens {
        return Err(Error::InputTooLong);
    }
    let inputs = count_inputs(sizes.terminals, tokens);
    if INPUTS < inputs {
        return Err(Error::TooManyInputs);
    }
    Ok(sizes)
}
