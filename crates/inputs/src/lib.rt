// All inputs of one length in letter order: how many there are, the one of a number, and a search through them.
#![tactic(auto)]

ghost use Rattle.std.specs.Prelude.{◌≡◌, ◌+◌, length};
ghost use Rattle.inputs.specs.inner.Inputs.{input_at, input_count, no_trials, tried_next};

// Among how many inputs a search goes.
pub const INPUTS: usize = 4096;

// How many inputs of a length there are, or one more than are searched where there are more.
#[tactic(auto, using(crate::proofs::Counting::counted_more, crate::proofs::Counting::counted_all))]
pub fn count_inputs(terminals: u32, tokens: usize) -> usize
    ensures { result ≡ input_count terminals tokens }
{
    let mut inputs = 1;
    for _ in 0..tokens {
        inputs *= terminals as usize;
        if INPUTS < inputs {
            return INPUTS + 1;
        }
    }
    inputs
}

// Writes the input of a number, whose tokens are at most `last`: the digits of the number from the last on.
pub fn write_input(input: &mut [u8], last: u8, number: usize)
    ensures { input.new ≡ input_at (last + 1) (length input.old) number }
{
    let terminals = usize::from(last) + 1;
    let mut rest = number;
    for at in (0..input.len()).rev() {
        input[at] = (rest % terminals) as u8;
        rest /= terminals;
    }
}

// Inputs tried by their numbers: which is the next, and of those before it the costliest, with its calls.
#[derive(Clone, Copy, Default)]
pub struct Trials {
    pub next: usize,
    pub best: usize,
    pub calls: usize,
}

pub fn no_trials() -> Trials
    ensures { result ≡ no_trials }
{
    Trials::default()
}

// When the next has been tried and costs so many calls: of two that cost as many the first is kept. Its number is below that of the inputs that are
// searched, so the remainder is the number itself; with it the sum is one for every number.
pub fn tried(trials: Trials, calls: usize) -> Trials
    ensures { result ≡ tried_next trials calls }
{
    let next = trials.next % INPUTS + 1;
    if trials.calls < calls {
        Trials {
            next,
            best: trials.next,
            calls,
        }
    } else {
        Trials { next, ..trials }
    }
}
