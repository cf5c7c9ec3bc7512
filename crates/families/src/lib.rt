// Families of sets, one for each nonterminal, and the least ones that the rules of a grammar close: definitions in specs/, theorems in
// proofs/, and the types of what is computed of them. specs/contracts/Analysis.antt tells what is found of a grammar.
#![tactic(auto)]

ghost use Rattle.std.specs.Prelude.{◌≡◌};
ghost use Rattle.families.specs.inner.Analysis.{refused_by};

use answer::Error;
use grammar::limits::{NONTERMINALS, RULES};
use grammar::reading::Sizes;
use lookahead_sets::LookaheadSet;
use nonterminals::Nonterminals;

pub mod nonterminals;

// A set for each nonterminal that there may be.
pub const SETS: usize = NONTERMINALS as usize;

// Of the words from an index on: the first set of what is left of the body, and the meet of those of the rule's positives
// behind it.
#[derive(Clone, Copy)]
pub struct Rest {
    pub body: LookaheadSet,
    pub meet: LookaheadSet,
}

// Of the words from an index on: what is at the left of the rest of the body, and of the rule's bodies behind it.
#[derive(Clone, Copy)]
pub struct Left {
    pub body: Nonterminals,
    pub rule: Nonterminals,
}

// What refuses a grammar for one of its nonterminals.
#[derive(Clone, Copy)]
pub enum Flaw {
    // it left-reaches itself
    LeftRecursive,
    // its first set is empty
    Unproductive,
}

// What is found of an encoded grammar: its sizes, or why it is refused; where its rules begin; its sets; and what the positives of each
// rule can all begin with. Zeros and empty sets stand where it is refused.
#[derive(Drop)]
pub struct Families {
    pub finding: Result<Sizes, Error>,
    pub starts: [usize; RULES],
    pub firsts: [u64; SETS],
    pub meets: [u64; RULES],
    pub follows: [u64; SETS],
    // what each nonterminal left-reaches, a set of nonterminals
    pub reaches: [u32; SETS],
}

impl Families {
    // Of a grammar that is refused: zeros and empty sets.
    pub fn refused(error: Error) -> Families
        ensures { result ≡ refused_by error }
    {
        Families {
            finding: Err(error),
            starts: [0; RULES],
            firsts: [0; SETS],
            meets: [0; RULES],
            follows: [0; SETS],
            reaches: [0; SETS],
        }
    }
}
