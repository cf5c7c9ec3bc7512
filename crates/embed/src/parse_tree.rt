// Judging with a parse tree, whose words stand in memory of the caller's and their number in a word of its own.
ghost use Rattle.event.specs.Events.{input_of};
ghost use Rattle.embed_promises.specs.Exports.{TreeExported};

use packing::pack;
use tree_writer::judge_tree;

#[unsafe(no_mangle)]
pub extern "C" fn vinegarspit_tree(
    card: &[u32],
    log: &[u8],
    table: &mut [u32],
    memo: &mut [u16],
    tree: &mut [u32],
    written: &mut u32,
) -> u64
    ensures { TreeExported card.now (input_of log.now) table.old memo.old tree.old result
        table.new memo.new tree.new written.new }
{
    let shown = judge_tree(card, log, table, memo, tree);
    let answer = shown.answer;
    *written = shown.written as u32;
    pack(answer)
}
