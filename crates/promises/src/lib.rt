// What every judge promises in: lent memory by whether a call is refused, the nonterminals that the refusals 8 and 13 name, and a verdict
// by what it tests. Definitions in specs/, theorems in proofs/, no code.
#![tactic(auto)]
