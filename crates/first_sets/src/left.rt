// Left recursion: what is at the left of each nonterminal's rules, by one pass over them, and all that this left-reaches.
ghost use Rattle.std.specs.Prelude.{Ok, ◌≡◌, length};
ghost use Rattle.grammar.specs.Encoding.{parse, grammar_of};
ghost use Rattle.grammar.specs.Limits.{max_nonterminals};
ghost use Rattle.grammar.specs.Reading.{reading};
ghost use Rattle.grammar.specs.inner.Starts.{rule_starts};
ghost use Rattle.admission.specs.Admission.{admission};
ghost use Rattle.families.specs.inner.Least.{at as family, LeastNumbers};
ghost use Rattle.families.specs.inner.Left.{empty_in, LeftClosed};
ghost use Rattle.base.specs.Lists.{listed};
ghost use Rattle.families.specs.Sets.{first_number};
ghost use Rattle.families.specs.inner.Sets.{reach_number};

use families::SETS;
use grammar::limits::RULES;
use grammar::reading::Sizes;
use left_reach::closed;
use lefts::rule_left;
use lookahead::Lookahead;
use rule_passes::family::add_nonterminals;
use rule_passes::rules::{end_of, head_of};
use word::decode;

// What is at the left of the rules of each nonterminal.
#[tactic(auto, using(families::proofs::RulePlaces::rule_places))]
fn at_left(
    words: &[u32],
    starts: &[usize; RULES],
    sizes: Sizes,
    firsts: &[u64; SETS],
    lookahead: Lookahead,
) -> [u32; SETS]
    requires { (reading words.now ≡ Ok sizes) × (starts.now ≡ rule_starts words.now) }
    ensures { (length result ≡ max_nonterminals)
        × LeastNumbers (LeftClosed (empty_in lookahead (family firsts.now)) (parse words.now).rules) result }
{
    let mut sets = [0u32; SETS];
    for rule in 0..sizes.rules {
        let start = starts[rule];
        let end = end_of(words, starts, sizes, rule);
        let inside = start + 1;
        let left = rule_left(&words[inside..end], firsts, lookahead);
        let head = head_of(decode(words[start]));
        add_nonterminals(&mut sets, head, left);
    }
    sets
}

// What each nonterminal of a grammar that is admitted left-reaches, by its first sets.
pub(crate) fn reached(
    words: &[u32],
    starts: &[usize; RULES],
    sizes: Sizes,
    firsts: &[u64; SETS],
    lookahead: Lookahead,
) -> [u32; SETS]
    requires { (admission lookahead words.now ≡ Ok sizes) × (starts.now ≡ rule_starts words.now)
        × (firsts.now ≡ listed max_nonterminals (first_number lookahead (grammar_of words.now))) }
    ensures { result ≡ listed max_nonterminals (reach_number (grammar_of words.now)) }
{
    let sets = at_left(words, starts, sizes, firsts, lookahead);
    closed(sets, sizes.nonterminals)
}
