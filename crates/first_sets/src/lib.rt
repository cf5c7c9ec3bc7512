// First sets of an encoded grammar for a lookahead, by which left recursion and unproductive nonterminals are found too.
#![tactic(auto)]

ghost use Rattle.std.specs.Prelude.{Ok, ◌≡◌};
ghost use Rattle.admission.specs.Admission.{admission};
ghost use Rattle.families.specs.inner.Analysis.{first_families_of};

use admission::admit;
use families::{Families, SETS};
use first::first_sets;
use flaws::finding_of;
use grammar::limits::RULES;
use grammar::reading::Sizes;
use left::reached;
use lookahead::Lookahead;
use rule_starts::rule_starts;

mod first;
mod left;

// A grammar that is admitted.
fn analyze_grammar(words: &[u32], sizes: Sizes, lookahead: Lookahead, families: &mut Families)
    requires { admission lookahead words.now ≡ Ok sizes }
    ensures { families.new ≡ first_families_of lookahead words.now }
{
    rule_starts(words, &mut families.starts);
    families.meets = [0; RULES];
    first_sets(
        words,
        &families.starts,
        sizes,
        &mut families.firsts,
        &mut families.meets,
        lookahead,
    );
    families.follows = [0; SETS];
    families.reaches = reached(words, &families.starts, sizes, &families.firsts, lookahead);
    families.finding = finding_of(sizes, &families.firsts, &families.reaches);
    if let Err(error) = families.finding {
        *families = Families::refused(error);
    }
}

// What is found before the follow sets are: they are empty.
pub fn analyze(words: &[u32], lookahead: Lookahead, families: &mut Families)
    ensures { families.new ≡ first_families_of lookahead words.now }
{
    match admit(words, lookahead) {
        Err(error) => *families = Families::refused(error),
        Ok(sizes) => analyze_grammar(words, sizes, lookahead, families),
    }
}
