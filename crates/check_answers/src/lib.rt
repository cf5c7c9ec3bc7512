// What a check answers: whether the lent table has room, and what is found.
#![tactic(auto)]

ghost use Rattle.std.specs.Prelude.{◌≡◌, leb};
ghost use Rattle.table_promises.specs.Layout.{table_room};
ghost use Rattle.recognizer_promises.specs.Answers.{table_too_short};
ghost use Rattle.check_answers.specs.inner.Answers.{answer_of};

use answer::{Answer, Error};
use grammar::limits::{TABLE_WORDS, TABLE_WORDS_OF_TWO};
use grammar::reading::Sizes;
use lookahead::Lookahead;

// Whether so many words have room for every table.
pub fn has_room(length: usize, lookahead: Lookahead) -> bool
    ensures { result ≡ leb (table_room lookahead) length }
{
    match lookahead {
        Lookahead::One => TABLE_WORDS <= length,
        Lookahead::Two => TABLE_WORDS_OF_TWO <= length,
    }
}

// Why a table that has no room is refused.
pub fn table_too_short(lookahead: Lookahead) -> Error
    ensures { result ≡ table_too_short lookahead }
{
    match lookahead {
        Lookahead::One => Error::TableTooShort,
        Lookahead::Two => Error::TableOfTwoTooShort,
    }
}

// What is answered, by what is found.
pub fn answer(finding: Result<Sizes, Error>) -> Answer
    ensures { result ≡ answer_of finding }
{
    match finding {
        Err(error) => Answer::Refused(error),
        Ok(_) => Answer::Passed,
    }
}
