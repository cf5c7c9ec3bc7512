// The public calls for programs in C and Rust: the library's answers, packed into one number.
#![tactic(auto)]

ghost use Rattle.lookahead.specs.declared.Lookahead.TheVariants.{One};
ghost use Rattle.event.specs.Events.{input_of};
ghost use Rattle.embed_promises.specs.Exports.{CheckExported, JudgeExported, TabularExported};

use checker::check;
use packing::pack;
use recognizer::judge;
use tabular::judge as judge_plain;

mod client;
mod costliest;
mod kept_log;
mod parse_tree;
mod two;

#[unsafe(no_mangle)]
pub extern "C" fn vinegarspit_check(card: &[u32], table: &mut [u32]) -> u64
    ensures { CheckExported One card.now table.old result table.new }
{
    let answer = check(card, table);
    pack(answer)
}

#[unsafe(no_mangle)]
pub extern "C" fn vinegarspit_judge(
    card: &[u32],
    log: &[u8],
    table: &mut [u32],
    memo: &mut [u16],
) -> u64
    ensures { JudgeExported One card.now (input_of log.now) table.old memo.old result
        table.new memo.new }
{
    let answer = judge(card, log, table, memo);
    pack(answer)
}

#[unsafe(no_mangle)]
pub extern "C" fn vinegarspit_judge_plain(card: &[u32], log: &[u8], spans: &mut [u32]) -> u64
    ensures { TabularExported card.now (input_of log.now) spans.old result spans.new }
{
    let answer = judge_plain(card, log, spans);
    pack(answer)
}
