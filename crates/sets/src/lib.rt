// First and follow sets of an encoded grammar for a lookahead.
#![tactic(auto)]

ghost use Rattle.std.specs.Prelude.{◌≡◌};
ghost use Rattle.families.specs.inner.Analysis.{families_of};

use answer::Error;
use families::Families;
use follow::follow_sets;
use lookahead::Lookahead;

mod follow;

// The first sets, and the follow sets where the grammar is not refused for them.
pub fn analyze(words: &[u32], lookahead: Lookahead) -> Families
    ensures { result ≡ families_of lookahead words.now }
{
    // written over at once: what is found is worked on where it stands, and copied once
    let mut families = Families::refused(Error::Heading);
    first_sets::analyze(words, lookahead, &mut families);
    if let Ok(sizes) = families.finding {
        follow_sets(
            words,
            &families.starts,
            sizes,
            &families.firsts,
            &mut families.follows,
            lookahead,
        );
    }
    families
}
