// What the calls for C and Rust promise, with the packed answer and the records in lent memory: definitions in specs/, theorems in proofs/,
// no code.
#![tactic(auto)]
