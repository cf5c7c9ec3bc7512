// The first set of what is left of a body and of a rule, made longer by one word at a time from the end.
#![tactic(auto)]

ghost use Rattle.std.specs.Prelude.{◌≡◌};
ghost use Rattle.lookahead.specs.inner.Operations.{concat_numbers};
ghost use Rattle.families.specs.inner.First.{symbol_first, no_rest, closed_meet, inside_word};
ghost use Rattle.families.specs.inner.Follow.{tail_before};
ghost use Rattle.families.specs.inner.Least.{lookup};
ghost use Rattle.families.specs.inner.Rules.{fold_from_end};

use concatenation::{behind_terminal, concat, full};
use families::{Rest, SETS};
use lookahead::Lookahead;
use lookahead_sets::LookaheadSet;
use word::{Symbol, Word, decode};

// The set of n. A greater number than nonterminals have stands in no grammar that is read: it is counted round, which takes no test.
#[tactic(auto, unfolding(families::specs::inner::Least::lookup))]
fn set_of(sets: &[u64; SETS], n: u32) -> u64
    ensures { result ≡ lookup sets.now n }
{
    sets[n as usize % SETS]
}

// Where neither a body nor a rule is open.
fn no_rest(terminals: u32, lookahead: Lookahead) -> Rest
    ensures { result ≡ no_rest lookahead terminals }
{
    Rest {
        body: LookaheadSet::end(lookahead),
        meet: full(lookahead, terminals),
    }
}

// The first set of a symbol, with rest behind it.
#[tactic(auto, unfolding(families::specs::inner::First::symbol_first))]
fn behind(
    symbol: Symbol,
    firsts: &[u64; SETS],
    lookahead: Lookahead,
    rest: LookaheadSet,
) -> LookaheadSet
    ensures { result.bits ≡ concat_numbers lookahead (symbol_first lookahead (lookup firsts.now) symbol) rest.bits }
{
    match symbol {
        Symbol::Terminal(number) => behind_terminal(number, lookahead, rest),
        Symbol::Nonterminal(number) => {
            let first = LookaheadSet {
                bits: set_of(firsts, number),
            };
            concat(first, lookahead, rest)
        },
    }
}

// A body ends: if it is a positive, its first set goes into the meet.
fn closed(word: Word, body: LookaheadSet, meet: LookaheadSet) -> LookaheadSet
    ensures { result.bits ≡ closed_meet word body.bits meet.bits }
{
    let Word::Positive = word else {
        return meet;
    };
    body.meet(meet)
}

// The rest with a word inside a rule in front.
fn inside(word: Word, rest: Rest, firsts: &[u64; SETS], lookahead: Lookahead) -> Rest
    ensures { result ≡ inside_word lookahead (lookup firsts.now) word rest }
{
    let body = rest.body;
    let meet = rest.meet;
    let Word::Symbol(symbol) = word else {
        return Rest {
            body: LookaheadSet::end(lookahead),
            meet: closed(word, body, meet),
        };
    };
    Rest {
        body: behind(symbol, firsts, lookahead, body),
        meet,
    }
}

// What the positives of a rule can all begin with, by the words inside it.
pub fn rule_first(
    words: &[u32],
    firsts: &[u64; SETS],
    terminals: u32,
    lookahead: Lookahead,
) -> LookaheadSet
    ensures { result.bits
        ≡ (fold_from_end (inside_word lookahead (lookup firsts.now)) (no_rest lookahead terminals) words.now).meet.bits }
{
    let mut rest = no_rest(terminals, lookahead);
    for &bits in words.iter().rev() {
        rest = inside(decode(bits), rest, firsts, lookahead);
    }
    rest.meet
}

// What comes behind the index before a word inside a rule, where follow comes behind the body.
pub fn tail_before(
    word: Word,
    tail: LookaheadSet,
    follow: LookaheadSet,
    firsts: &[u64; SETS],
    lookahead: Lookahead,
) -> LookaheadSet
    ensures { result.bits ≡ tail_before lookahead (lookup firsts.now) follow.bits word tail.bits }
{
    let Word::Symbol(symbol) = word else {
        return follow;
    };
    behind(symbol, firsts, lookahead, tail)
}
