// A kept input in memory of the caller's: its events, and nine numbers that are its length and its eight marks.
ghost use Rattle.lookahead.specs.declared.Lookahead.TheVariants.{One, Two};
ghost use Rattle.kept_steps.specs.Histories.{Mark, Return};
ghost use Rattle.embed_promises.specs.Kept.{AddExported, MoveExported, KeptExported};

use grammar::limits::TOKENS;
use kept_judge::{judge_kept, judge_kept_two};
use kept_states::{STATE, add_event_in, kept_in, mark_in, return_in};
use packing::pack;

#[unsafe(no_mangle)]
pub extern "C" fn vinegarspit_log_add(
    events: &mut [u8; TOKENS],
    state: &mut [u16; STATE],
    event: u8,
) -> u64
    ensures { AddExported event events.old state.old result events.new state.new }
{
    add_event_in(events, state, event)
}

#[unsafe(no_mangle)]
pub extern "C" fn vinegarspit_log_mark(state: &mut [u16; STATE], mark: u32) -> u64
    ensures { MoveExported (Mark mark) state.old result state.new }
{
    mark_in(state, mark)
}

#[unsafe(no_mangle)]
pub extern "C" fn vinegarspit_log_return(state: &mut [u16; STATE], mark: u32) -> u64
    ensures { MoveExported (Return mark) state.old result state.new }
{
    return_in(state, mark)
}

#[unsafe(no_mangle)]
pub extern "C" fn vinegarspit_log_judge(
    card: &[u32],
    events: &[u8; TOKENS],
    state: &[u16; STATE],
    table: &mut [u32],
    memo: &mut [u16],
) -> u64
    ensures { KeptExported One card.now events.now state.now table.old memo.old result
        table.new memo.new }
{
    let kept = kept_in(events, state);
    let answer = judge_kept(card, kept, table, memo);
    pack(answer)
}

#[unsafe(no_mangle)]
pub extern "C" fn vinegarspit_log_judge2(
    card: &[u32],
    events: &[u8; TOKENS],
    state: &[u16; STATE],
    table2: &mut [u64],
    memo: &mut [u16],
) -> u64
    ensures { KeptExported Two card.now events.now state.now table2.old memo.old result
        table2.new memo.new }
{
    let kept = kept_in(events, state);
    let answer = judge_kept_two(card, kept, table2, memo);
    pack(answer)
}
