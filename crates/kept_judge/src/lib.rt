// Judging an input that is kept between calls, with one token of lookahead and with two.
#![tactic(auto)]

ghost use Rattle.std.specs.Prelude.{◌≡◌};
ghost use Rattle.lookahead.specs.declared.Lookahead.TheVariants.{Two};
ghost use Rattle.kept_marks.specs.Stored.{length_read};
ghost use Rattle.kept_input.specs.Properties.{JudgesKept};

use answer::Answer;
use kept_input::KeptInput;
use kept_marks::{Progress, bounded};
use lending::TableWord;
use recognizer::judge;

// How many of the events are the input.
fn input_length(progress: Progress) -> usize
    ensures { result ≡ length_read progress }
{
    bounded(progress.length) as usize
}

// Judges the input as it stands.
pub fn judge_kept<W: TableWord>(
    words: &[u32],
    kept: KeptInput,
    table: &mut [W],
    memo: &mut [u16],
) -> Answer
    ensures { JudgesKept W.LOOKAHEAD words.now kept (W.numbers table.old) memo.old result
        (W.numbers table.new) memo.new }
{
    let length = input_length(kept.progress);
    let events = kept.events;
    judge(words, &events[..length], table, memo)
}

// With two tokens of lookahead.
pub fn judge_kept_two(words: &[u32], kept: KeptInput, table: &mut [u64], memo: &mut [u16]) -> Answer
    ensures { JudgesKept Two words.now kept table.old memo.old result table.new memo.new }
{
    judge_kept(words, kept, table, memo)
}
