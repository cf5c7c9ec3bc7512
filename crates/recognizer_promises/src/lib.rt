// What checking and judging promise, and what that means: definitions in specs/, theorems in proofs/, no code. specs/Properties.antt has
// the promises on one page.
#![tactic(auto)]
