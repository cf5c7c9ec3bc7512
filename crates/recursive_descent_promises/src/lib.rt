// What the steps of the descent and of the search require and ensure, and why they do: definitions in specs/, theorems in proofs/, no code.
#![tactic(auto)]

// How a body ran, as the entry of its outcome, and the index where it stopped: where it is over, or behind the symbol that failed.
#[derive(Clone, Copy)]
pub struct Run {
    pub end: u16,
    pub at: usize,
}
