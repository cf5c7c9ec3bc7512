// What is lent of a finding: the sizes of the table, and an entry as a word.
#![tactic(auto)]

ghost use Rattle.std.specs.Prelude.{◌≡◌};
ghost use Rattle.lent_words.specs.inner.Words.{entry_code, lent_sizes};

use answer::Error;
use grammar::codes::{NO_ENTRY, NO_RULE};
use grammar::limits::{NONTERMINALS, TERMINALS};
use grammar::reading::Sizes;

// The sizes of the table that is lent: none where the grammar is refused, or where they are past the limits, as those of no grammar that passes
// are.
#[tactic(auto, unfolding(crate::specs::inner::Words::lent_sizes))]
pub fn lent_sizes(finding: Result<Sizes, Error>) -> Sizes
    ensures { result ≡ lent_sizes finding }
{
    match finding {
        Ok(sizes) if sizes.nonterminals <= NONTERMINALS && sizes.terminals <= TERMINALS => sizes,
        _ => Sizes::default(),
    }
}

// An entry as a word.
#[tactic(auto, unfolding(crate::specs::inner::Words::entry_code))]
pub fn entry_word(entry: u8) -> u64
    ensures { result ≡ entry_code entry }
{
    if entry == NO_RULE {
        u64::from(NO_ENTRY)
    } else {
        u64::from(entry)
    }
}
