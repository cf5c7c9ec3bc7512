// The nonterminals that overrun: a rule without positives takes all that is left, yet more than the end can follow.
ghost use Rattle.grammar.specs.Encoding.{grammar_of};
ghost use Rattle.claims.specs.inner.Overruns.{HeadsGiven, Overrunning};

use admission::begins_negative;
use claim_steps::told;
use families::SETS;
use grammar::limits::RULES;
use grammar::reading::Sizes;
use lookahead::Lookahead;
use lookahead_sets::LookaheadSet;
use word::decode;

// Goes over the rules from the last on: a set for each nonterminal, with the first terminal where it overruns, else empty. A rule whose first
// conjunct is negative has no positives.
#[tactic(auto, using(crate::proofs::OverrunRules::conjunct_inside, families::proofs::RulePlaces::few_rules, crate::proofs::OverrunRules::head_few))]
pub(crate) fn overrunning<'a>(
    words: &[u32],
    sizes: Sizes,
    starts: &'a [usize; RULES],
    heads: &[u8; RULES],
    follows: &'a [u64; SETS],
    lookahead: Lookahead,
) -> [u64; SETS]
    requires { HeadsGiven words.now starts.now heads.now sizes }
    ensures { Overrunning lookahead (grammar_of words.now).rules follows.now result }
{
    let mut overruns = [0u64; SETS];
    for rule in (0..sizes.rules).rev() {
        let conjunct = starts[rule] + 1;
        let alone = begins_negative(decode(words[conjunct]));
        let head = usize::from(heads[rule]);
        let follow = LookaheadSet {
            bits: follows[head],
        };
        let before = LookaheadSet {
            bits: overruns[head],
        };
        overruns[head] = told(alone, follow, before, lookahead).bits;
    }
    overruns
}
