// A kept log in memory of the caller's: its events, and a row of nine numbers that are its length and its eight marks.
#![tactic(auto)]

ghost use Rattle.std.specs.Prelude.{◌≡◌};
ghost use Rattle.kept_steps.specs.Histories.{Mark, Return};
ghost use Rattle.kept_marks.specs.Properties.{step_at};
ghost use Rattle.kept_input.specs.Held.{kept_input};
ghost use Rattle.embed_promises.specs.Kept.{state_of, progress_in, AddExported, MoveExported};
ghost use Rattle.embed_promises.specs.inner.Kept.{StateRead, WrittenBack};

use answer::{Answer, Error};
use grammar::limits::TOKENS;
use kept_input::{KeptInput, push_event};
use kept_marks::{MARKS, Progress};
use packing::{PASSED, pack};

pub const STATE: usize = MARKS + 1;

fn progress_in(state: [u16; STATE]) -> Progress
    ensures { StateRead state result }
{
    Progress {
        length: state[0],
        marks: [
            state[1], state[2], state[3], state[4], state[5], state[6], state[7], state[8],
        ],
    }
}

fn state_of(progress: Progress) -> [u16; STATE]
    ensures { result ≡ state_of progress }
{
    let set = progress.marks;
    [
        progress.length,
        set[0],
        set[1],
        set[2],
        set[3],
        set[4],
        set[5],
        set[6],
        set[7],
    ]
}

// Writes the state that a step leaves, unless it is refused, and gives its answer packed.
#[tactic(auto, unfolding(embed_promises::specs::Packing::packed))]
fn write_back(step: Result<(), Error>, next: Progress, state: &mut [u16; STATE]) -> u64
    ensures { WrittenBack (step_at step next) state.old result state.new }
{
    match step {
        Ok(()) => {
            *state = state_of(next);
            PASSED
        }
        Err(error) => pack(Answer::Refused(error)),
    }
}

// Each step reads the state, and writes what it leaves.
pub fn add_event_in(events: &mut [u8; TOKENS], state: &mut [u16; STATE], event: u8) -> u64
    ensures { AddExported event events.old state.old result events.new state.new }
{
    let mut progress = progress_in(*state);
    let step = push_event(events, &mut progress, event);
    write_back(step, progress, state)
}

pub fn mark_in(state: &mut [u16; STATE], mark: u32) -> u64
    ensures { MoveExported (Mark mark) state.old result state.new }
{
    let mut progress = progress_in(*state);
    let step = progress.note(mark);
    write_back(step, progress, state)
}

pub fn return_in(state: &mut [u16; STATE], mark: u32) -> u64
    ensures { MoveExported (Return mark) state.old result state.new }
{
    let mut progress = progress_in(*state);
    let step = progress.cut(mark);
    write_back(step, progress, state)
}

// The log as it stands there.
pub fn kept_in(events: &[u8; TOKENS], state: &[u16; STATE]) -> KeptInput
    ensures { result ≡ kept_input events.now (progress_in state.now) }
{
    KeptInput {
        events: *events,
        progress: progress_in(*state),
    }
}
