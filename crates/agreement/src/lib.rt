// Where two judges both judge, they agree, with two lookaheads and with the tabular judge: definitions in specs/, theorems in proofs/, no
// code. specs/Theorems.antt states all theorems on one page.
#![tactic(auto)]
