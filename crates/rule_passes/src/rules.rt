// The rules of a grammar, one by one: in which order passes go over them, where each and its positives end, and what it defines.
ghost use Rattle.std.specs.Prelude.{◌≡◌, ◌||◌, ◌+◌, eqb, ltb, length};
ghost use Rattle.base.specs.Choice.{choose};
ghost use Rattle.grammar.specs.inner.WellRead.{head_of};
ghost use Rattle.families.specs.inner.Rules.{turn_of, rule_end, NegativesFrom};

use grammar::limits::RULES;
use grammar::reading::Sizes;
use word::{Word, decode};

// Passes are counted up to this one, and then on from the third.
const LAST: u32 = 13;

// Whether a pass for first sets goes from the first rule on. The first and the third, and then one in twelve, go from the last on: most grammars name
// nonterminals before they define them, and are settled then. Rules can be written so that each pass adds little, in one direction or by turns;
// with few passes from the last rule on among many from the first on there are never many more than with these alone.
pub fn goes_forward(pass: u32) -> bool
    ensures { result ≡ (eqb pass 1 || ltb 2 pass) }
{
    pass == 1 || 2 < pass
}

pub fn next_pass(pass: u32) -> u32
    ensures { result ≡ choose (ltb pass 13) (pass + 1) 2 }
{
    if pass < LAST { pass + 1 } else { 2 }
}

// The rule that a pass reaches behind others: it goes from the first rule on, or from the last on. The directions would be iterators of two types,
// and each pass would be written twice.
pub fn turn(forward: bool, rules: usize, passed: usize) -> usize
    ensures { result ≡ turn_of forward rules passed }
{
    if forward {
        passed
    } else if passed < rules {
        rules - 1 - passed
    } else {
        0
    }
}

// Where the words of a rule end: at the next rule, or behind the last word. Rules are counted round, which takes no test.
pub fn end_of(words: &[u32], starts: &[usize; RULES], sizes: Sizes, rule: usize) -> usize
    ensures { result ≡ rule_end words.now starts.now sizes.rules rule }
{
    let next = rule % RULES + 1;
    if next < sizes.rules {
        starts[next % RULES]
    } else {
        words.len()
    }
}

// The nonterminal that a rule defines, by the word that it begins with.
pub fn head_of(word: Word) -> u32
    ensures { result ≡ head_of word }
{
    if let Word::Rule(head) = word { head } else { 0 }
}

// Where the first negative begins among words of a rule, or how many words there are where there is none.
pub fn negatives_in(words: &[u32]) -> usize
    ensures { NegativesFrom words.now 0 (length words.now) result }
{
    words
        .iter()
        .position(|&bits| matches!(decode(bits), Word::Negative))
        .unwrap_or(words.len())
}
