// Follow sets: passes over the rules, in both directions by turns, until one adds nothing; the words of a rule from their end.
ghost use Rattle.std.specs.Prelude.{Ok, ◌≡◌, suc, ◌<◌, length, drop, replicate};
ghost use Rattle.grammar.specs.Encoding.{parse, grammar_of};
ghost use Rattle.grammar.specs.Limits.{max_nonterminals};
ghost use Rattle.grammar.specs.inner.Starts.{rule_starts};
ghost use Rattle.admission.specs.Admission.{admission};
ghost use Rattle.families.specs.inner.Follow.{Asked, FollowTurn, LastTurns, FollowRules, FollowNumbersClosed};
ghost use Rattle.families.specs.inner.Least.{at as family, AddsTo, Passes};
ghost use Rattle.base.specs.Lists.{listed};
ghost use Rattle.families.specs.inner.Naming.{nonterminal_of, Indexed};
ghost use Rattle.families.specs.inner.Rules.{RuleWords, BodyWords, PassGiven};
ghost use Rattle.families.specs.Sets.{first_number, follow_number};

use concatenation::concat;
use families::SETS;
use grammar::limits::RULES;
use grammar::reading::Sizes;
use lookahead::Lookahead;
use lookahead_sets::LookaheadSet;
use rests::tail_before;
use rule_passes::family::add;
use rule_passes::rules::{end_of, head_of, negatives_in, turn};
use word::{Symbol, Word, decode};

// What comes behind an index in a body goes into the set of a nonterminal that stands there.
fn add_behind(word: Word, tail: LookaheadSet, follows: &mut [u64; SETS]) -> bool
    requires { Indexed word }
    ensures { AddsTo (nonterminal_of word) follows.old tail.bits follows.new result }
{
    let Word::Symbol(symbol) = word else {
        return false;
    };
    let Symbol::Nonterminal(number) = symbol else {
        return false;
    };
    add(follows, number, tail)
}

// Behind each nonterminal of some bodies of a rule comes what is left of the body, then follow; whether a set has grown.
fn follow_bodies(
    words: &[u32],
    from: usize,
    to: usize,
    follow: u64,
    firsts: &[u64; SETS],
    follows: &mut [u64; SETS],
    lookahead: Lookahead,
) -> bool
    requires { Asked lookahead (family firsts.now) follow (parse (drop to words.now)) (family follows.old) × BodyWords words.now from to
        × (length follows.old ≡ max_nonterminals) }
    ensures { FollowTurn lookahead (family firsts.now) follow (parse (drop from words.now)) follows.old
        follows.new result }
{
    let set = LookaheadSet { bits: follow };
    let behind = concat(LookaheadSet::end(lookahead), lookahead, set);
    let mut grown = false;
    let mut tail = behind;
    for at in (from..to).rev() {
        let word = decode(words[at]);
        grown |= add_behind(word, tail, follows);
        tail = tail_before(word, tail, behind, firsts, lookahead);
    }
    grown
}

// What the bodies of a rule of head add, the negative ones and the positive ones; whether a set has grown. Where what follows head is the same as when
// the rule last had its turn, there is nothing to add.
fn follow_rule(
    words: &[u32],
    start: usize,
    end: usize,
    head: u32,
    last: u64,
    firsts: &[u64; SETS],
    follows: &mut [u64; SETS],
    lookahead: Lookahead,
) -> bool
    requires { RuleWords words.now start end × (head < max_nonterminals) × (length follows.old ≡ max_nonterminals)
        × Asked lookahead (family firsts.now) last (parse (drop (suc start) words.now)) (family follows.old) }
    ensures { FollowTurn lookahead (family firsts.now) (family follows.old head)
        (parse (drop (suc start) words.now)) follows.old follows.new result }
{
    let follow = follows[head as usize];
    if follow == last {
        return false;
    }
    let inside = start + 1;
    let negatives = inside + negatives_in(&words[inside..end]);
    let by_negatives = follow_bodies(words, negatives, end, follow, firsts, follows, lookahead);
    let by_positives = follow_bodies(words, inside, negatives, follow, firsts, follows, lookahead);
    by_negatives | by_positives
}

// One pass over the rules, from the first on or from the last on; whether a set has grown. What follows its head when a rule has its turn is kept
// for the next pass.
#[tactic(auto, using(families::proofs::RulePlaces::rule_places))]
fn follow_rules(
    words: &[u32],
    starts: &[usize; RULES],
    sizes: Sizes,
    firsts: &[u64; SETS],
    follows: &mut [u64; SETS],
    last: &mut [u64; RULES],
    forward: bool,
    lookahead: Lookahead,
) -> bool
    requires { PassGiven words.now starts.now sizes follows.old
        × LastTurns lookahead (family firsts.now) words.now sizes.rules last.old follows.old }
    ensures { Passes (FollowRules lookahead (family firsts.now) (parse words.now).rules)
        follows.old follows.new result
        × LastTurns lookahead (family firsts.now) words.now sizes.rules last.new follows.new }
{
    let mut grown = false;
    for passed in 0..sizes.rules {
        let rule = turn(forward, sizes.rules, passed);
        let start = starts[rule];
        let end = end_of(words, starts, sizes, rule);
        let head = head_of(decode(words[start]));
        let before = last[rule];
        last[rule] = follows[head as usize];
        grown |= follow_rule(words, start, end, head, before, firsts, follows, lookahead);
    }
    grown
}

// The end follows the start symbol; then a pass over the rules.
fn follow_pass(
    words: &[u32],
    starts: &[usize; RULES],
    sizes: Sizes,
    firsts: &[u64; SETS],
    follows: &mut [u64; SETS],
    last: &mut [u64; RULES],
    forward: bool,
    lookahead: Lookahead,
) -> bool
    requires { PassGiven words.now starts.now sizes follows.old
        × LastTurns lookahead (family firsts.now) words.now sizes.rules last.old follows.old }
    ensures { Passes (FollowNumbersClosed lookahead (family firsts.now) (parse words.now).rules)
        follows.old follows.new result
        × LastTurns lookahead (family firsts.now) words.now sizes.rules last.new follows.new }
{
    let began = add(follows, 0, LookaheadSet::end(lookahead));
    began
        | follow_rules(
            words, starts, sizes, firsts, follows, last, forward, lookahead,
        )
}

// The follow sets of a grammar that is admitted, one for each nonterminal, where empty ones stand.
pub(crate) fn follow_sets(
    words: &[u32],
    starts: &[usize; RULES],
    sizes: Sizes,
    firsts: &[u64; SETS],
    follows: &mut [u64; SETS],
    lookahead: Lookahead,
)
    requires { (admission lookahead words.now ≡ Ok sizes) × (starts.now ≡ rule_starts words.now)
        × (firsts.now ≡ listed max_nonterminals (first_number lookahead (grammar_of words.now))) × (follows.old ≡ replicate max_nonterminals 0) }
    ensures { follows.new ≡ listed max_nonterminals (follow_number lookahead (grammar_of words.now)) }
{
    let mut last = [0u64; RULES];
    let mut forward = true;
    // How many passes there are is known only when one adds nothing.
    while follow_pass(
        words, starts, sizes, firsts, follows, &mut last, forward, lookahead,
    ) {
        forward = !forward;
    }
}
