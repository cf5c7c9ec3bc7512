// Worked grammars by computation, and tests for grammars that are written out: theorems in proofs/, no code.
#![tactic(auto)]
