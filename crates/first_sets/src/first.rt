// First sets: passes over the rules until one adds nothing; the words of a rule's positives from their end.
ghost use Rattle.std.specs.Prelude.{Ok, ◌≡◌};
ghost use Rattle.grammar.specs.Encoding.{parse, grammar_of};
ghost use Rattle.grammar.specs.Limits.{max_nonterminals};
ghost use Rattle.grammar.specs.Reading.{reading};
ghost use Rattle.grammar.specs.inner.Starts.{rule_starts};
ghost use Rattle.admission.specs.Admission.{admission};
ghost use Rattle.families.specs.inner.First.{FirstNumbersClosed, RulesMet};
ghost use Rattle.families.specs.inner.Least.{Passes};
ghost use Rattle.base.specs.Lists.{listed};
ghost use Rattle.families.specs.inner.RuleLists.{by_rule};
ghost use Rattle.families.specs.inner.Rules.{ByRules, PassGiven, PositiveEnds};
ghost use Rattle.families.specs.Sets.{first_number};
ghost use Rattle.families.specs.inner.Sets.{meet_numbers};

use families::SETS;
use grammar::limits::RULES;
use grammar::reading::Sizes;
use lookahead::Lookahead;
use rests::rule_first;
use rule_passes::family::add;
use rule_passes::rules::{end_of, goes_forward, head_of, negatives_in, next_pass, turn};
use word::decode;

// Where the positives of each rule end. A place takes 16 bits, so that there is less to clear.
#[tactic(auto, using(families::proofs::RulePlaces::rule_places))]
fn positive_ends(words: &[u32], starts: &[usize; RULES], sizes: Sizes) -> [u16; RULES]
    requires { (reading words.now ≡ Ok sizes) × (starts.now ≡ rule_starts words.now) }
    ensures { PositiveEnds words.now starts.now sizes.rules result }
{
    let mut ends = [0u16; RULES];
    for rule in 0..sizes.rules {
        let start = starts[rule];
        let end = end_of(words, starts, sizes, rule);
        let inside = start + 1;
        ends[rule] = (inside + negatives_in(&words[inside..end])) as u16;
    }
    ends
}

// One pass over the rules, from the first on or from the last on; whether a set has grown. What the positives of each rule can all begin with is
// kept too: it is so by the sets that are left, if none has grown.
#[tactic(auto, using(families::proofs::RulePlaces::rule_places))]
fn first_pass(
    words: &[u32],
    starts: &[usize; RULES],
    ends: &[u16; RULES],
    sizes: Sizes,
    firsts: &mut [u64; SETS],
    meets: &mut [u64; RULES],
    forward: bool,
    lookahead: Lookahead,
) -> bool
    requires { PassGiven words.now starts.now sizes firsts.old × PositiveEnds words.now starts.now sizes.rules ends.now
        × ByRules sizes.rules meets.old }
    ensures { Passes (FirstNumbersClosed lookahead sizes.terminals (parse words.now).rules) firsts.old firsts.new result
        × RulesMet lookahead sizes.terminals words.now sizes.rules firsts.new meets.new result }
{
    let terminals = sizes.terminals;
    let mut grown = false;
    for passed in 0..sizes.rules {
        let rule = turn(forward, sizes.rules, passed);
        let start = starts[rule];
        let end = usize::from(ends[rule]);
        let inside = start + 1;
        let meet = rule_first(&words[inside..end], firsts, terminals, lookahead);
        let head = head_of(decode(words[start]));
        meets[rule] = meet.bits;
        grown |= add(firsts, head, meet);
    }
    grown
}

// The first sets of a grammar that is admitted, one for each nonterminal, whatever stood there. What the positives of each rule can all begin with is
// written where zeros stand.
pub(crate) fn first_sets(
    words: &[u32],
    starts: &[usize; RULES],
    sizes: Sizes,
    firsts: &mut [u64; SETS],
    meets: &mut [u64; RULES],
    lookahead: Lookahead,
)
    requires { (admission lookahead words.now ≡ Ok sizes) × (starts.now ≡ rule_starts words.now) × ByRules sizes.rules meets.old }
    ensures { (firsts.new ≡ listed max_nonterminals (first_number lookahead (grammar_of words.now)))
        × (meets.new ≡ by_rule (meet_numbers lookahead (grammar_of words.now))) }
{
    *firsts = [0u64; SETS];
    let ends = positive_ends(words, starts, sizes);
    let mut pass = 0u32;
    // How many passes there are is known only when one adds nothing.
    while first_pass(
        words,
        starts,
        &ends,
        sizes,
        firsts,
        meets,
        goes_forward(pass),
        lookahead,
    ) {
        pass = next_pass(pass);
    }
}
