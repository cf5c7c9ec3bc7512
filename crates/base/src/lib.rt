// Tests, choices, quantifiers, lists, strings and finite sets: what every theory here builds on. Definitions and laws, no code.
#![tactic(auto)]
