// What is printed of the calls that a memo table holds.
#![tactic(auto)]

ghost use Rattle.text.specs.inner.Outputs.{Puts};
ghost use Rattle.calls_text.specs.Calls.{end_text, call_text, calls_text};
ghost use Rattle.calls_text.specs.inner.Cursors.{EntryPut};

use cursor::Cursor;
use grammar::codes::{FAILED, UNCALLED};
use text::Output;

mod cursor;

// How many bytes the line of a call takes at most.
pub const ROOM: usize = 13;

fn put_end(output: &mut Output<'_>, entry: u16)
    ensures { Puts (end_text entry) output.old output.new }
{
    output.put_or_dash(entry as usize, FAILED as usize);
}

fn put_call(output: &mut Output<'_>, nonterminal: usize, place: usize, entry: u16)
    ensures { Puts (call_text nonterminal place entry) output.old output.new }
{
    if entry == UNCALLED {
        return;
    }
    output.put_number(nonterminal);
    output.put_labelled(b" ", place);
    put_end(output, entry);
    output.put_bytes(b"\n");
}

// What is printed of the entry at a cursor: the nonterminal and the place of its index are the cursor's. Behind the end of the memo table nothing
// was called.
fn put_entry(output: &mut Output<'_>, cursor: Cursor, memo: &[u16])
    ensures { EntryPut cursor memo.now output.old output.new }
{
    let entry = memo.get(cursor.index).copied().unwrap_or(UNCALLED);
    put_call(output, cursor.nonterminal, cursor.place, entry);
}

pub fn put_calls(output: &mut Output<'_>, nonterminals: u32, tokens: u16, memo: &[u16])
    ensures { Puts (calls_text nonterminals tokens memo.now) output.old output.new }
{
    let entries = nonterminals as usize * (tokens as usize + 1);
    let mut cursor = Cursor::first();
    for _entry in 0..entries {
        put_entry(output, cursor, memo);
        cursor = cursor.step(tokens);
    }
}
