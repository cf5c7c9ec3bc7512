// What the table of a grammar is: its faults in the papers' order, the first clash and the words of the table. Definitions in specs/, theorems in
// proofs/, no code.
#![tactic(auto)]
