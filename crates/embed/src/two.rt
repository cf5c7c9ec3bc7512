// Checking and judging with two tokens of lookahead, with a table of 64-bit words.
ghost use Rattle.lookahead.specs.declared.Lookahead.TheVariants.{Two};
ghost use Rattle.event.specs.Events.{input_of};
ghost use Rattle.embed_promises.specs.Exports.{CheckExported, JudgeExported};

use checker::check_two;
use packing::pack;
use recognizer::judge_two;

#[unsafe(no_mangle)]
pub extern "C" fn vinegarspit_check2(card: &[u32], table2: &mut [u64]) -> u64
    ensures { CheckExported Two card.now table2.old result table2.new }
{
    let answer = check_two(card, table2);
    pack(answer)
}

#[unsafe(no_mangle)]
pub extern "C" fn vinegarspit_judge2(
    card: &[u32],
    log: &[u8],
    table2: &mut [u64],
    memo: &mut [u16],
) -> u64
    ensures { JudgeExported Two card.now (input_of log.now) table2.old memo.old result
        table2.new memo.new }
{
    let answer = judge_two(card, log, table2, memo);
    pack(answer)
}
