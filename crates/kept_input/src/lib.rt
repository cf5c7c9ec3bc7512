// An input that is kept between calls and grows event by event, with marks to return to.
#![tactic(auto)]

ghost use Rattle.std.specs.Prelude.{◌≡◌};
ghost use Rattle.kept_steps.specs.Histories.{Add, Mark, Return};
ghost use Rattle.kept_marks.specs.Properties.{step_at, step_left};
ghost use Rattle.kept_input.specs.inner.Whole.{ReadWhole};
ghost use Rattle.kept_input.specs.Properties.{BeginsEmpty, Steps, Adds};

use answer::Error;
use grammar::limits::TOKENS;
use kept_marks::Progress;

const LIMIT: u16 = TOKENS as u16;

// The input is the first events, as they came, as many as the length says.
#[derive(Clone, Copy)]
pub struct KeptInput {
    pub events: [u8; TOKENS],
    pub progress: Progress,
}

impl KeptInput {
    pub fn new() -> KeptInput
        ensures { BeginsEmpty result }
    {
        KeptInput {
            events: [0u8; TOKENS],
            progress: Progress::new(),
        }
    }

    // Whatever is handed in, as it is read. An array tells the proof its length where it is handed over by value, not where it is lent.
    fn read(self) -> Progress
        ensures { ReadWhole self result }
    {
        self.progress.read()
    }

    pub fn add(self, event: u8) -> Result<KeptInput, Error>
        ensures { Steps (Add event) self result }
    {
        let mut events = self.events;
        let progress = add_event(&mut events, self.progress, event)?;
        Ok(KeptInput { events, progress })
    }

    pub fn mark(self, mark: u32) -> Result<KeptInput, Error>
        ensures { Steps (Mark mark) self result }
    {
        let progress = self.progress.mark(mark)?;
        Ok(KeptInput { progress, ..self })
    }

    pub fn return_to(self, mark: u32) -> Result<KeptInput, Error>
        ensures { Steps (Return mark) self result }
    {
        let progress = self.progress.return_to(mark)?;
        Ok(KeptInput { progress, ..self })
    }
}

// Adds an event where the events and their progress stand, and writes no other.
#[tactic(auto, unfolding(kept_steps::specs::Histories::step_fault, kept_steps::specs::Histories::after_step, kept_marks::specs::Stored::progress_of))]
pub fn push_event(
    events: &mut [u8; TOKENS],
    progress: &mut Progress,
    event: u8,
) -> Result<(), Error>
    ensures adds { Adds event events.old progress.old events.new (step_at result progress.new) }
    ensures left { progress.new ≡ step_left (step_at result progress.new) progress.old }
{
    let before = KeptInput {
        events: *events,
        progress: *progress,
    };
    let now = before.read();
    if LIMIT <= now.length {
        return Err(Error::InputFull);
    }
    events[now.length as usize] = event;
    *progress = Progress {
        length: now.length + 1,
        ..now
    };
    Ok(())
}

// The same with the progress by value.
pub fn add_event(
    events: &mut [u8; TOKENS],
    progress: Progress,
    event: u8,
) -> Result<Progress, Error>
    ensures { Adds event events.old progress events.new result }
{
    let mut next = progress;
    push_event(events, &mut next, event)?;
    Ok(next)
}
