// The tokens as the descent reads them: a word for each place.
#![tactic(auto)]

ghost use Rattle.std.specs.Prelude.{◌≡◌};
ghost use Rattle.event.specs.Events.{input_of};
ghost use Rattle.descent_tokens.specs.inner.Tokens.{token_word, tokens_of};

use columns::{column_before, column_end, column_last};
use descent_arrays::{COLUMN_WEIGHT, END_MARK};
use event::terminal_of;
use grammar::limits::PLACES;
use lookahead::Lookahead;

// A terminal, or the mark of the end, with the column of its lookahead string, of which what fits is kept.
fn word_of(column: u32, mark: u8) -> u16
    ensures { result ≡ token_word column mark }
{
    (column % COLUMN_WEIGHT * COLUMN_WEIGHT + mark as u32) as u16
}

// The terminal of each event, and the column of the lookahead string there; behind the events, the end. Events that no place is left for
// are ignored. The loop stops at the last token: before it, whether there is a next one needs no test, and the machine takes many at once.
pub fn tokens_of(events: &[u8], lookahead: Lookahead, terminals: u32) -> [u16; PLACES]
    ensures { result ≡ tokens_of lookahead terminals (input_of events.now) }
{
    let end = word_of(column_end(lookahead, terminals), END_MARK);
    let mut tokens = [end; PLACES];
    let followed = events.len().saturating_sub(1).min(PLACES);
    for place in 0..followed {
        let event = events[place];
        let next = events[place + 1];
        let terminal = terminal_of(event);
        let column = column_before(lookahead, terminal, terminal_of(next));
        tokens[place] = word_of(column, terminal);
    }
    if events.len().min(PLACES) <= followed {
        return tokens;
    }
    let last = events[followed];
    let terminal = terminal_of(last);
    tokens[followed] = word_of(column_last(lookahead, terminal), terminal);
    tokens
}
