// What the claim of one rule does: to an entry, to what is claimed once and twice, and to what is told of a nonterminal that overruns.
#![tactic(auto)]

ghost use Rattle.std.specs.Prelude.{◌≡◌, ◌&&◌, ◌%◌};
ghost use Rattle.base.specs.Choice.{choose};
ghost use Rattle.grammar.specs.Limits.{max_nonterminals};
ghost use Rattle.lookahead.specs.Elements.{has};
ghost use Rattle.lookahead.specs.inner.Operations.{terminal};
ghost use Rattle.claim_steps.specs.inner.Steps.{ClaimNoted, beyond_end};

use families::SETS;
use lookahead::Lookahead;
use lookahead_sets::LookaheadSet;

// The rule where it claims the element, else what stood there.
pub fn entry(claim: LookaheadSet, element: u32, rule: u8, old: u8) -> u8
    ensures { result ≡ choose (has claim.bits element) rule old }
{
    if claim.contains(element) { rule } else { old }
}

// Joins a claim for a nonterminal: what was claimed before is claimed twice. Nonterminals are counted round, which takes no test.
pub fn note(once: &mut [u64; SETS], twice: &mut [u64; SETS], head: usize, claim: LookaheadSet)
    ensures { ClaimNoted once.old twice.old (head % max_nonterminals) claim.bits once.new twice.new }
{
    let at = head % SETS;
    let before = LookaheadSet { bits: once[at] };
    let again = LookaheadSet { bits: twice[at] };
    twice[at] = again.join(before.meet(claim)).bits;
    once[at] = before.join(claim).bits;
}

// The first terminal where a rule has no positives and more than the end can follow it, else what was told before.
#[tactic(auto, unfolding(crate::specs::inner::Steps::beyond_end))]
pub fn told(
    alone: bool,
    follow: LookaheadSet,
    before: LookaheadSet,
    lookahead: Lookahead,
) -> LookaheadSet
    ensures { result.bits ≡ choose (alone && beyond_end lookahead follow.bits) (terminal lookahead 0) before.bits }
{
    let end = LookaheadSet::end(lookahead);
    if alone && end.join(follow) != end {
        LookaheadSet::terminal(lookahead, 0)
    } else {
        before
    }
}
