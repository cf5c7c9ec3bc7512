// An event of a log, and the terminal that it is.
#![tactic(auto)]

ghost use Rattle.std.specs.Prelude.{◌≡◌};
ghost use Rattle.event.specs.Events.{terminal_of, input_of};
ghost use Rattle.event.specs.Unknown.{unknown_from};

// The weight of an event's top bit, which tells a direction; grammars ignore it.
const DIRECTION: u8 = 128;

pub fn terminal_of(event: u8) -> u8
    ensures { result ≡ terminal_of event }
{
    event % DIRECTION
}

// The first event that is no terminal of a grammar.
#[tactic(auto, using(crate::proofs::Known::unknown_here))]
pub fn first_unknown(events: &[u8], terminals: u32) -> Option<usize>
    ensures { result ≡ unknown_from terminals 0 (input_of events.now) }
{
    for (at, event) in events.iter().enumerate() {
        let terminal = terminal_of(*event);
        if terminals <= terminal as u32 {
            return Some(at);
        }
    }
    None
}
