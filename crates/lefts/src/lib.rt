// What is at the left of a body and of a rule, made longer by one word at a time from the end.
#![tactic(auto)]

ghost use Rattle.std.specs.Prelude.{◌≡◌};
ghost use Rattle.families.specs.inner.Least.{at as family};
ghost use Rattle.families.specs.inner.Left.{empty_in, own_left, lefts, inside_left};
ghost use Rattle.families.specs.inner.Rules.{fold_from_end};
ghost use Rattle.lookahead.specs.inner.Operations.{empty_set, join};

use families::nonterminals::Nonterminals;
use families::{Left, SETS};
use lookahead::{Lookahead, nothing};
use lookahead_sets::LookaheadSet;
use word::{Symbol, Word, decode};

fn no_left() -> Left
    ensures { result ≡ lefts 0 0 }
{
    Left {
        body: Nonterminals::empty(),
        rule: Nonterminals::empty(),
    }
}

// What is at the left of a body that begins with a symbol: the nonterminal and, if it is nullable, what is at the left behind it.
fn symbol_left(
    symbol: Symbol,
    behind: Nonterminals,
    firsts: &[u64; SETS],
    lookahead: Lookahead,
) -> Nonterminals
    ensures { result.bits ≡ own_left (empty_in lookahead (family firsts.now)) symbol behind.bits }
{
    let Symbol::Nonterminal(number) = symbol else {
        return Nonterminals::empty();
    };
    let at = number as usize;
    if SETS <= at {
        return Nonterminals::empty();
    }
    let own = Nonterminals::alone(number);
    let first = LookaheadSet { bits: firsts[at] };
    if first.contains(nothing(lookahead)) {
        own.join(behind)
    } else {
        own
    }
}

// A body ends: what is at its left is at the left of the rule too.
fn ended(body: Nonterminals, rule: Nonterminals) -> Left
    ensures { result ≡ lefts empty_set (join body.bits rule.bits) }
{
    Left {
        body: Nonterminals::empty(),
        rule: body.join(rule),
    }
}

// The same with a word inside a rule in front. Bodies of both signs count.
fn inside_left(word: Word, left: Left, firsts: &[u64; SETS], lookahead: Lookahead) -> Left
    ensures { result ≡ inside_left (empty_in lookahead (family firsts.now)) word left }
{
    let body = left.body;
    let rule = left.rule;
    match word {
        Word::Symbol(symbol) => Left {
            body: symbol_left(symbol, body, firsts, lookahead),
            rule,
        },
        // A word of each kind has an arm, so that an edit can forget that of must-nots.
        Word::Positive => ended(body, rule),
        Word::Negative => ended(body, rule),
        Word::End => ended(body, rule),
        Word::Rule(_) => ended(body, rule),
        Word::Heading { .. } => ended(body, rule),
        Word::Invalid => ended(body, rule),
    }
}

// What is at the left of the bodies of a rule, by the words inside it.
pub fn rule_left(words: &[u32], firsts: &[u64; SETS], lookahead: Lookahead) -> Nonterminals
    ensures { result.bits ≡ (fold_from_end (inside_left (empty_in lookahead (family firsts.now)))
        (lefts 0 0) words.now).rule.bits }
{
    let mut left = no_left();
    for &bits in words.iter().rev() {
        left = inside_left(decode(bits), left, firsts, lookahead);
    }
    left.rule
}
