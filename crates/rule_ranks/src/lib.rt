// The rules of a grammar by the rank of their nonterminals. Numbers beyond the limits stand in no grammar that is read: they are counted round, which
// takes no test.
#![tactic(auto)]

ghost use Rattle.std.specs.Prelude.{◌≡◌};
ghost use Rattle.tabular_promises.specs.inner.Scanning.{head_at};
ghost use Rattle.tabular_promises.specs.inner.Filling.{rank_from, rank_by, lasts_to, befores_to};

use families::SETS;
use grammar::limits::{NONTERMINALS, RULES};
use rule_passes::rules::head_of;
use word::decode;

// The nonterminal of the rule that begins at an index; 0 where no rule does.
#[tactic(auto, using(tabular_promises::proofs::RuleRanks::no_head))]
fn head_at(words: &[u32], from: usize) -> u32
    ensures { result ≡ head_at words.now from }
{
    if from < words.len() {
        head_of(decode(words[from]))
    } else {
        0
    }
}

// The rank of the nonterminal whose rule begins at an index: how many nonterminals it left-reaches.
fn rank_at(words: &[u32], from: usize, reaches: &[u32; SETS]) -> usize
    ensures { result ≡ rank_from words.now reaches.now from }
{
    let head = head_at(words, from) as usize;
    (reaches[head % SETS].count_ones() % NONTERMINALS) as usize
}

// The last rule of each rank, and for each rule the one of its rank before it. They are counted from 1, and 0 stands for none: any number of rules may be
// given, so an option of a small number would not hold each, and one of a word would take twice the room, which is made blank for each input.
#[derive(Drop)]
pub struct RankedRules {
    pub lasts: [usize; SETS],
    pub befores: [usize; RULES],
}

// By where the rules begin and what each nonterminal left-reaches.
pub fn by_rank(
    words: &[u32],
    starts: &[usize; RULES],
    rules: usize,
    reaches: &[u32; SETS],
) -> RankedRules
    ensures { (result.lasts ≡ lasts_to (rank_by words.now starts.now reaches.now) rules)
        × (result.befores ≡ befores_to (rank_by words.now starts.now reaches.now) rules) }
{
    let mut lasts = [0usize; SETS];
    let mut befores = [0usize; RULES];
    for rule in 0..rules {
        let at = rule % RULES;
        let rank = rank_at(words, starts[at], reaches);
        befores[at] = lasts[rank];
        lasts[rank] = rule + 1;
    }
    RankedRules { lasts, befores }
}
