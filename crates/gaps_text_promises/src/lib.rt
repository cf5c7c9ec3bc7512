// The lines that tell the gaps and overlaps of a table, and the nonterminals that overrun: definitions in specs/, theorems in proofs/, no
// code. specs/Gaps.antt tells what is written.
#![tactic(auto)]
