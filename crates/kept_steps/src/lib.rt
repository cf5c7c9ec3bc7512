// What adding, marking and returning do to a kept input: definitions in specs/, theorems in proofs/, no code.
#![tactic(auto)]
