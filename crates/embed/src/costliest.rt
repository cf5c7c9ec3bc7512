// The costliest log of a length, found, written and judged in memory of the caller's.
ghost use Rattle.embed_promises.specs.Exports.{CostliestExported};

use packing::pack;
use recognizer::judge_costliest;

#[unsafe(no_mangle)]
pub extern "C" fn vinegarspit_costliest(
    card: &[u32],
    tokens: usize,
    log: &mut [u8],
    table: &mut [u32],
    memo: &mut [u16],
) -> u64
    ensures { CostliestExported card.now tokens log.old table.old memo.old result log.new
        table.new memo.new }
{
    let answer = judge_costliest(card, tokens, log, table, memo);
    pack(answer)
}
