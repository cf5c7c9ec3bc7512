// Where the rules of an encoded grammar begin.
#![tactic(auto)]

ghost use Rattle.std.specs.Prelude.{◌≡◌};
ghost use Rattle.grammar.specs.inner.Starts.{StartNoted, rule_starts};

use grammar::limits::RULES;
use reading_steps::begins_rule;
use word::{Word, decode};

// Notes where a rule begins, while there is room; tells how many are noted.
fn note(starts: &mut [usize; RULES], rules: usize, at: usize, word: Word) -> usize
    ensures { StartNoted starts.old rules at word starts.new result }
{
    if begins_rule(word) && rules < RULES {
        starts[rules] = at;
        rules + 1
    } else {
        rules
    }
}

// Where each rule begins, by index; zero for rules that are not there. What stood there is gone.
pub fn rule_starts(words: &[u32], starts: &mut [usize; RULES])
    ensures { starts.new ≡ rule_starts words.now }
{
    *starts = [0usize; RULES];
    let mut rules = 0;
    for (at, &bits) in words.iter().enumerate() {
        rules = note(starts, rules, at, decode(bits));
    }
}
