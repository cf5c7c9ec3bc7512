// The words of a grammar, and what makes a row of words faulty, told without reading it: definitions in specs/, theorems in proofs/, no code.
#![tactic(auto)]
