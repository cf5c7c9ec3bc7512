// What a Boolean grammar means and what recursive descent makes of it: definitions in specs/, theorems in proofs/, no code.
// specs/contracts/Theorems.antt states all theorems on one page.
#![tactic(auto)]
