// What a call answers: a verdict with the calls made, or the error that refused the call.
#![tactic(auto)]

ghost use Rattle.std.specs.Prelude.{◌≡◌};
ghost use Rattle.answer.specs.Numbers.{coded};

// Why a call is refused (documents 01 and 02: a refusal), with what is needed to tell where. Every refusal of the two documents has its case,
// so that a call that comes to give one changes nothing here.
#[derive(Clone, Copy)]
pub enum Error {
    // the lent table or memo table is too short
    TableTooShort,
    MemoTooShort,
    // the encoded grammar: its length, its heading, or a word of it, by index
    Length,
    Heading,
    UnexpectedWord(usize),
    OutOfRange(usize),
    TooManyRules(usize),
    // the grammar: the lowest nonterminal that left-reaches itself, and the lowest whose first set is empty; the first table entry that
    // two rules claim
    LeftRecursive(u8),
    Unproductive(u8),
    Conflict { nonterminal: u8, column: u8 },
    // the same with two tokens of lookahead: a row has more columns
    ConflictOfTwo { nonterminal: u8, column: u8 },
    // the input: its length, or a token of it, by index
    InputTooLong,
    UnknownToken(usize),
    // other lent memory is too short: the words of the spans, those of the tree, the table for two tokens of lookahead, the bytes of an input
    SpansTooShort,
    TreeTooShort,
    TableOfTwoTooShort,
    BufferTooShort,
    // a client that is none, and one that has used up its share while all have used up the limit
    UnknownClient,
    QuotaReached,
    // a grammar with too many terminals for two tokens of lookahead
    TooManyTerminals,
    // an input that is kept: a mark that is none, one that is not set, and no room for an event
    UnknownMark,
    MarkNotSet,
    InputFull,
    // more inputs of one length than are searched
    TooManyInputs,
}

// How many calls a descent made, and the greatest place among them (document 01: count and far).
#[derive(Clone, Copy)]
pub struct Calls {
    pub count: usize,
    pub farthest: usize,
}

#[derive(Clone, Copy)]
pub enum Answer {
    Refused(Error),
    Passed,
    Rejected(Calls),
    Accepted(Calls),
}

pub fn code(error: Error) -> u32
    ensures { result ≡ (coded error).code }
{
    match error {
        Error::TableTooShort => 1,
        Error::MemoTooShort => 2,
        Error::Length => 3,
        Error::Heading => 4,
        Error::UnexpectedWord(_) => 5,
        Error::OutOfRange(_) => 6,
        Error::TooManyRules(_) => 7,
        Error::LeftRecursive(_) => 8,
        Error::Unproductive(_) => 13,
        Error::Conflict {
            nonterminal: _,
            column: _,
        } => 9,
        Error::ConflictOfTwo {
            nonterminal: _,
            column: _,
        } => 9,
        Error::InputTooLong => 10,
        Error::UnknownToken(_) => 11,
        Error::SpansTooShort => 12,
        Error::TreeTooShort => 14,
        Error::TableOfTwoTooShort => 17,
        Error::BufferTooShort => 23,
        Error::UnknownClient => 15,
        Error::QuotaReached => 16,
        Error::TooManyTerminals => 18,
        Error::UnknownMark => 19,
        Error::MarkNotSet => 20,
        Error::InputFull => 21,
        Error::TooManyInputs => 22,
    }
}

pub fn position(error: Error) -> usize
    ensures { result ≡ (coded error).position }
{
    match error {
        Error::TableTooShort => 0,
        Error::MemoTooShort => 0,
        Error::Length => 0,
        Error::Heading => 0,
        Error::UnexpectedWord(at) => at,
        Error::OutOfRange(at) => at,
        Error::TooManyRules(at) => at,
        Error::LeftRecursive(nonterminal) => nonterminal as usize,
        Error::Unproductive(nonterminal) => nonterminal as usize,
        Error::Conflict {
            nonterminal,
            column,
        } => nonterminal as usize * 32 + column as usize,
        Error::ConflictOfTwo {
            nonterminal,
            column,
        } => nonterminal as usize * 64 + column as usize,
        Error::InputTooLong => 0,
        Error::UnknownToken(at) => at,
        Error::SpansTooShort => 0,
        Error::TreeTooShort => 0,
        Error::TableOfTwoTooShort => 0,
        Error::BufferTooShort => 0,
        Error::UnknownClient => 0,
        Error::QuotaReached => 0,
        Error::TooManyTerminals => 0,
        Error::UnknownMark => 0,
        Error::MarkNotSet => 0,
        Error::InputFull => 0,
        Error::TooManyInputs => 0,
    }
}
