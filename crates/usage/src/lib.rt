// A record of how a judge has been used: four counters, each of which stops at the largest number of 32 bits.
#![tactic(auto)]

ghost use Rattle.std.specs.Prelude.{◌≡◌, ◌+◌};
ghost use Rattle.usage.specs.Counters.{saturated, unused};
ghost use Rattle.usage.specs.inner.Counters.{added};
ghost use Rattle.usage.specs.Histories.{counted_answer};

use answer::Answer;

// Where a counter stops.
const COUNTER_LIMIT: u32 = 4294967295;

// Calls to the judge, those refused, those accepted, and the calls that all their descents made (document 02: called pairs in all).
#[derive(Clone, Copy, Default)]
pub struct Usage {
    pub calls: u32,
    pub refusals: u32,
    pub acceptances: u32,
    pub called: u32,
}

fn add(counter: u32, n: usize) -> u32
    ensures { result ≡ saturated (counter + n) }
{
    let most = COUNTER_LIMIT as usize;
    (counter as usize).saturating_add(n).min(most) as u32
}

impl Usage {
    // The empty record.
    pub fn new() -> Usage
        ensures { result ≡ unused }
    {
        Usage::default()
    }

    // Each counter with what is added to it.
    fn plus(self, calls: usize, refusals: usize, acceptances: usize, called: usize) -> Usage
        ensures { result ≡ added self calls refusals acceptances called }
    {
        Usage {
            calls: add(self.calls, calls),
            refusals: add(self.refusals, refusals),
            acceptances: add(self.acceptances, acceptances),
            called: add(self.called, called),
        }
    }

    // The record with this answer counted.
    #[tactic(auto, unfolding(crate::specs::Histories::counted_answer, crate::specs::Counters::each_counter))]
    pub fn after(self, answer: Answer) -> Usage
        ensures { result ≡ counted_answer self answer }
    {
        match answer {
            Answer::Refused(_) => self.plus(1, 1, 0, 0),
            Answer::Passed => self.plus(1, 0, 0, 0),
            Answer::Rejected(calls) => self.plus(1, 0, 0, calls.count),
            Answer::Accepted(calls) => self.plus(1, 0, 1, calls.count),
        }
    }
}
