// What the plain judge promises, and why the chart that it fills tells it: definitions in specs/, theorems in proofs/, no code.
// specs/Properties.antt has the promise.
#![tactic(auto)]

// Of the words from an index on, at a span: the places from which what is left of the body leads to the span's end, and whether
// the conjuncts of the rule that are behind it hold.
#[derive(Clone, Copy)]
pub struct Scan {
    pub set: u64,
    pub kept: bool,
}
