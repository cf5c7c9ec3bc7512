// What may follow a nonterminal, and what an entry of the memo table tells there: definitions in specs/, theorems in proofs/, no code.
// specs/contracts/Theorems.antt states all theorems on one page.
#![tactic(auto)]
