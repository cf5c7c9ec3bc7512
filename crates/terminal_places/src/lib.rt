// Where each terminal stands in an input.
#![tactic(auto)]

ghost use Rattle.std.specs.Prelude.{◌≡◌};
ghost use Rattle.event.specs.Events.{input_of};
ghost use Rattle.tabular_promises.specs.inner.Places.{stands_of};

use chart::places::put;
use event::terminal_of;
use grammar::limits::TERMINALS;

// For each terminal, the places where it stands.
pub const STANDS: usize = TERMINALS as usize;

// Of the input that the events are. What is no terminal stands nowhere.
pub fn standing(events: &[u8]) -> [u64; STANDS]
    ensures { result ≡ stands_of (input_of events.now) }
{
    let mut stands = [0u64; STANDS];
    for (at, event) in events.iter().enumerate() {
        let terminal = usize::from(terminal_of(*event));
        if terminal < STANDS {
            stands[terminal] = put(stands[terminal], at, true);
        }
    }
    stands
}
