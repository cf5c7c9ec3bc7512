// What passes over the rules of a grammar share: which rule has its turn and where it stands, and joining a set into that of a nonterminal.
#![tactic(auto)]

pub mod family;
pub mod rules;
