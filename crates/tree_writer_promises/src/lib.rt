// What judging with a parse tree promises, and why the words that are written are the tree's: definitions in specs/, theorems in proofs/, no
// code. specs/Properties.antt has the promise.
#![tactic(auto)]

use answer::Answer;

// An answer, and how many words of the tree are written.
#[derive(Clone, Copy)]
pub struct Shown {
    pub answer: Answer,
    pub written: usize,
}
