// The length of an input that is kept between calls, and the marks to return to: what marking and returning need of it.
#![tactic(auto)]

ghost use Rattle.std.specs.Prelude.{◌≡◌, map, min};
ghost use Rattle.grammar.specs.Limits.{max_tokens};
ghost use Rattle.kept_steps.specs.Histories.{empty_input, Mark, Return};
ghost use Rattle.kept_marks.specs.inner.Stored.{cleared_beyond};
ghost use Rattle.kept_marks.specs.Stored.{progress_of};
ghost use Rattle.kept_marks.specs.Properties.{Reads, Moves, step_at, step_left};

use answer::Error;
use grammar::limits::TOKENS;

pub const MARKS: usize = 8;

const LIMIT: u16 = TOKENS as u16;

// What a mark that is not set holds: no input is that long.
const UNSET: u16 = 65535;

// How long a kept input is, and the length that each mark notes. Any value may be handed in: a length over the limit reads as the limit,
// a mark beyond the length as not set.
#[derive(Clone, Copy)]
pub struct Progress {
    pub length: u16,
    pub marks: [u16; MARKS],
}

// The length that a value tells: at most the limit.
pub fn bounded(length: u16) -> u16
    ensures { result ≡ min length max_tokens }
{
    length.min(LIMIT)
}

fn cleared(mark: u16, length: u16) -> u16
    ensures { result ≡ cleared_beyond length mark }
{
    if mark <= length { mark } else { UNSET }
}

// Those beyond a length are cleared.
fn all_cleared(mut marks: [u16; MARKS], length: u16) -> [u16; MARKS]
    ensures { result ≡ map (cleared_beyond length) marks }
{
    for mark in marks.iter_mut() {
        *mark = cleared(*mark, length);
    }
    marks
}

impl Progress {
    #[tactic(auto, unfolding(crate::specs::Stored::progress_of, crate::specs::Stored::values_of))]
    pub fn new() -> Progress
        ensures { result ≡ progress_of empty_input }
    {
        Progress {
            length: 0,
            marks: [UNSET; MARKS],
        }
    }

    // Whatever is handed in, as it is read.
    pub fn read(self) -> Progress
        ensures { Reads self result }
    {
        let length = bounded(self.length);
        let marks = all_cleared(self.marks, length);
        Progress { length, marks }
    }

    // Notes the length. The value stays where it stands: in a result, value and error share their bytes, and the compiler takes the marks apart.
    pub fn note(&mut self, mark: u32) -> Result<(), Error>
        ensures moves { Moves (Mark mark) self.old (step_at result self.new) }
        ensures left { self.new ≡ step_left (step_at result self.new) self.old }
    {
        let at = mark as usize;
        if MARKS <= at {
            return Err(Error::UnknownMark);
        }
        let mut now = self.read();
        now.marks[at] = now.length;
        *self = now;
        Ok(())
    }

    // Cuts the input where the mark was set.
    pub fn cut(&mut self, mark: u32) -> Result<(), Error>
        ensures moves { Moves (Return mark) self.old (step_at result self.new) }
        ensures left { self.new ≡ step_left (step_at result self.new) self.old }
    {
        let at = mark as usize;
        if MARKS <= at {
            return Err(Error::UnknownMark);
        }
        let now = self.read();
        let length = now.marks[at];
        if now.length < length {
            return Err(Error::MarkNotSet);
        }
        let marks = all_cleared(now.marks, length);
        *self = Progress { length, marks };
        Ok(())
    }

    // Both steps by value.
    pub fn mark(self, mark: u32) -> Result<Progress, Error>
        ensures { Moves (Mark mark) self result }
    {
        let mut next = self;
        next.note(mark)?;
        Ok(next)
    }

    pub fn return_to(self, mark: u32) -> Result<Progress, Error>
        ensures { Moves (Return mark) self result }
    {
        let mut next = self;
        next.cut(mark)?;
        Ok(next)
    }
}
