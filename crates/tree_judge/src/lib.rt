// Judging before a tree is written: lent memory is to be long enough for the tree, too.
#![tactic(auto)]

ghost use Rattle.event.specs.Events.{input_of};
ghost use Rattle.tree_writer_promises.specs.inner.Room.{JudgesWithRoom};

use answer::{Answer, Error};
use grammar::limits::{MEMO_ENTRIES, TABLE_WORDS};
use recognizer::judge;

// Judges a log as `judge` does, unless there are too few words for its tree. The lengths that judging refuses come first.
#[tactic(auto, unfolding(tree_writer_promises::specs::Properties::tree_fault))]
pub fn judge_with_room(
    words: &[u32],
    events: &[u8],
    table: &mut [u32],
    memo: &mut [u16],
    room: usize,
) -> Answer
    ensures { JudgesWithRoom words.now (input_of events.now) table.old memo.old room result
        table.new memo.new }
{
    if table.len() < TABLE_WORDS {
        return Answer::Refused(Error::TableTooShort);
    }
    if memo.len() < MEMO_ENTRIES {
        return Answer::Refused(Error::MemoTooShort);
    }
    if room < MEMO_ENTRIES {
        return Answer::Refused(Error::TreeTooShort);
    }
    judge(words, events, table, memo)
}
