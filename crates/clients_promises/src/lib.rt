// What judging for a client promises, and what any run of calls adds up to: definitions in specs/, theorems in proofs/, no code.
// specs/Properties.antt has the promise.
#![tactic(auto)]
