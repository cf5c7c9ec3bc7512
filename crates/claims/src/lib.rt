// What each rule claims, and which nonterminals overrun, found once: conflicts and the table are read off it.
#![tactic(auto)]

ghost use Rattle.std.specs.Prelude.{◌≡◌};
ghost use Rattle.families.specs.inner.Rules.{ByRules};
ghost use Rattle.grammar.specs.Encoding.{grammar_of};
ghost use Rattle.claims.specs.inner.Claims.{claims_with, claims_of, FamiliesGiven, AllKept};

use answer::Error;
use concatenation::concat;
use families::SETS;
use grammar::limits::RULES;
use grammar::reading::Sizes;
use lookahead::Lookahead;
use lookahead_sets::LookaheadSet;
use overruns::overrunning;
use rule_passes::rules::head_of;
use word::decode;

mod overruns;

// Keeps for each rule of a grammar that is admitted, where zeros stand, its head and what its positives' meet, and then what may follow the
// head, begins with.
#[tactic(auto, using(crate::proofs::KeptClaims::few_rules, crate::proofs::KeptClaims::start_inside))]
fn keep_claims<'a>(
    words: &[u32],
    sizes: Sizes,
    starts: &'a [usize; RULES],
    meets: &'a [u64; RULES],
    follows: &'a [u64; SETS],
    heads: &mut [u8; RULES],
    sets: &mut [u64; RULES],
    lookahead: Lookahead,
)
    requires { FamiliesGiven lookahead words.now sizes starts.now meets.now follows.now
        × ByRules sizes.rules heads.old × ByRules sizes.rules sets.old }
    ensures { AllKept lookahead (grammar_of words.now) heads.new sets.new }
{
    for rule in 0..sizes.rules {
        let head = head_of(decode(words[starts[rule]]));
        let meet = LookaheadSet { bits: meets[rule] };
        let follow = LookaheadSet {
            bits: follows[head as usize],
        };
        heads[rule] = head as u8;
        sets[rule] = concat(meet, lookahead, follow).bits;
    }
}

// What is found of an encoded grammar is written into what is lent: where its rules begin; its sets; for each rule its head and the set that it claims
// for it; and for each nonterminal the first terminal's set where it overruns. Zeros stand elsewhere, and where the grammar is refused.
pub fn analyze(
    words: &[u32],
    lookahead: Lookahead,
    starts: &mut [usize; RULES],
    firsts: &mut [u64; SETS],
    follows: &mut [u64; SETS],
    heads: &mut [u8; RULES],
    sets: &mut [u64; RULES],
    overruns: &mut [u64; SETS],
) -> Result<Sizes, Error>
    ensures { claims_with result starts.new firsts.new follows.new heads.new sets.new
        overruns.new ≡ claims_of lookahead words.now }
{
    let families = sets::analyze(words, lookahead);
    let finding = families.finding;
    *starts = families.starts;
    *firsts = families.firsts;
    *follows = families.follows;
    *heads = [0u8; RULES];
    *sets = [0u64; RULES];
    *overruns = [0u64; SETS];
    if let Ok(sizes) = finding {
        keep_claims(
            words,
            sizes,
            &families.starts,
            &families.meets,
            &families.follows,
            heads,
            sets,
            lookahead,
        );
        *overruns = overrunning(
            words,
            sizes,
            &families.starts,
            heads,
            &families.follows,
            lookahead,
        );
    }
    finding
}
