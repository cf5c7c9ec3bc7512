// Boolean grammars as rows of 32-bit words: the limits, and the reading of a row.
#![tactic(auto)]

pub mod codes;
pub mod limits;
pub mod reading;
