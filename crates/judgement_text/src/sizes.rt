// The sizes that a judgement is put with.
ghost use Rattle.std.specs.Prelude.{◌≡◌};
ghost use Rattle.judgement_text.specs.inner.Sizes.{nonterminals_of, token_count};

use answer::Error;
use grammar::limits::TOKENS;
use grammar::reading::Sizes;

// How many nonterminals a grammar has that is found to pass.
pub fn nonterminals(finding: Result<Sizes, Error>) -> u32
    ensures { result ≡ nonterminals_of finding }
{
    match finding {
        Ok(sizes) => sizes.nonterminals,
        Err(_) => 0,
    }
}

// How many tokens an input has that is not too long: as many as there are events.
#[tactic(auto, unfolding(crate::specs::inner::Sizes::token_count))]
pub fn tokens(events: &[u8]) -> u16
    ensures { result ≡ token_count events.now }
{
    if events.len() <= TOKENS {
        events.len() as u16
    } else {
        0
    }
}
