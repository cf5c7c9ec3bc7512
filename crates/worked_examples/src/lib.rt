// Worked examples of the papers, by computation: theorems in proofs/, no code. specs/examples/Rows.antt has the rows of judged inputs.
#![tactic(auto)]
