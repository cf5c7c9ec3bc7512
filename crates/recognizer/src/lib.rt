// Judging with memory that the caller lends: an input with one token of lookahead, with two, and the costliest of all inputs of a length.
#![tactic(auto)]

ghost use Rattle.event.specs.Events.{input_of};
ghost use Rattle.lookahead.specs.declared.Lookahead.TheVariants.{Two};
ghost use Rattle.recognizer_promises.specs.Properties.{Judges};
ghost use Rattle.recognizer_promises.specs.Costliest.{JudgesCostliest};

use answer::{Answer, Error};
use check_answers::{has_room, table_too_short};
use grammar::limits::TABLE_WORDS;
use judge_answers::answer;
use lending::{TableWord, lend};
use recursive_descent::descend_words;
use recursive_descent::search::descend_costliest;

// Judges the input that the events of a log are by an encoded grammar, and fills the lent table and memo table. Goes by the lookahead of the
// table's words: by one token with words of 32 bits, by two with words of 64.
pub fn judge<W: TableWord>(
    words: &[u32],
    events: &[u8],
    table: &mut [W],
    memo: &mut [u16],
) -> Answer
    ensures { Judges W.LOOKAHEAD words.now (input_of events.now) (W.numbers table.old) memo.old result
        (W.numbers table.new) memo.new }
{
    let lookahead = W::LOOKAHEAD;
    if !has_room(table.len(), lookahead) {
        return Answer::Refused(table_too_short(lookahead));
    }
    let found = descend_words(words, lookahead, events, memo);
    let finding = found.finding;
    lend(
        finding,
        &found.firsts,
        &found.follows,
        &found.entries,
        table,
    );
    answer(finding, events.len(), memo)
}

// With two tokens, for grammars of few terminals.
pub fn judge_two(words: &[u32], events: &[u8], table: &mut [u64], memo: &mut [u16]) -> Answer
    ensures { Judges Two words.now (input_of events.now) table.old memo.old result
        table.new memo.new }
{
    judge(words, events, table, memo)
}

// Finds, for an encoded grammar and a length, the costliest input, writes it into the lent log, and judges it in the lent table and memo table.
pub fn judge_costliest(
    words: &[u32],
    tokens: usize,
    log: &mut [u8],
    table: &mut [u32],
    memo: &mut [u16],
) -> Answer
    ensures { JudgesCostliest words.now tokens log.old table.old memo.old result log.new
        table.new memo.new }
{
    if table.len() < TABLE_WORDS {
        return Answer::Refused(Error::TableTooShort);
    }
    let found = descend_costliest(words, tokens, log, memo);
    let finding = found.finding;
    lend(
        finding,
        &found.firsts,
        &found.follows,
        &found.entries,
        table,
    );
    answer(finding, tokens, memo)
}
