// Judging a log and, where it is accepted, writing its parse tree.
#![tactic(auto)]

ghost use Rattle.event.specs.Events.{input_of};
ghost use Rattle.tree_writer_promises.specs.Properties.{Shows};

use answer::Answer;
use tree_judge::judge_with_room;
use tree_writer_promises::Shown;
use writing::write_tree;

mod writing;

// Judges a log as `judge` does, and writes the parse tree of an accepted one into the front of the tree memory.
pub fn judge_tree(
    words: &[u32],
    events: &[u8],
    table: &mut [u32],
    memo: &mut [u16],
    tree: &mut [u32],
) -> Shown
    ensures { Shows words.now (input_of events.now) table.old memo.old tree.old result
        table.new memo.new tree.new }
{
    let answer = judge_with_room(words, events, table, memo, tree.len());
    let Answer::Accepted(_) = answer else {
        return Shown { answer, written: 0 };
    };
    let written = write_tree(words, events, table, memo, tree);
    Shown { answer, written }
}
