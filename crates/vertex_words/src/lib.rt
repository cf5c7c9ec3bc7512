// The word of a call's vertex, made of what judging left in the lent memories; and its fields.
#![tactic(auto)]

ghost use Rattle.std.specs.Prelude.{◌≡◌, ◌%◌, ltb};
ghost use Rattle.event.specs.Events.{input_of};
ghost use Rattle.tree.specs.ParseTrees.{vertex};
ghost use Rattle.tree.specs.Writing.{vertex_word};
ghost use Rattle.tree_writer_promises.specs.inner.Labels.{label_rule, label_start, label_end, kind, marked_word, label_of};

use columns::column_at;
use grammar::limits::TOKENS;
use grammar::reading::Sizes;
use lookahead::Lookahead;

// In the word of a vertex, from bit 0 on: the rule, the start and the end, by their weights; and on top the kind, which is 8.
const START: u32 = 128;

const END: u32 = 65536;

const ENDS: u32 = 512;

const KIND: u32 = 2147483648;

#[tactic(auto, unfolding(tree::specs::Writing::vertex_word))]
fn vertex_word(rule: u32, start: u16, end: u16) -> u32
    ensures { result ≡ vertex_word (vertex (label_rule rule) start (end % 512)) }
{
    KIND + end as u32 % ENDS * END + start as u32 * START + rule % START
}

// The rule of a vertex, where it begins and where it ends.
pub fn rule_of(word: u32) -> usize
    ensures { result ≡ label_rule word }
{
    (word % START) as usize
}

pub fn start_of(word: u32) -> usize
    ensures { result ≡ label_start word }
{
    (word / START % ENDS) as usize
}

pub fn end_of(word: u32) -> usize
    ensures { result ≡ label_end word }
{
    (word / END % ENDS) as usize
}

// The word that is kept of a vertex is marked once the vertex is written: it has no kind then.
pub fn marked(word: u32) -> u32
    ensures { result ≡ marked_word word }
{
    word % KIND
}

pub fn is_marked(word: u32) -> bool
    ensures { result ≡ ltb word kind }
{
    word < KIND
}

// The word for a call. Of a call that has not ended it says nothing, and it is not read. Behind the end of the table and of the memo table
// stands 0.
pub fn label(
    sizes: Sizes,
    events: &[u8],
    table: &[u32],
    memo: &[u16],
    nonterminal: u8,
    place: u16,
) -> u32
    ensures { result ≡ label_of sizes (input_of events.now) table.now memo.now nonterminal place }
{
    if TOKENS < events.len() {
        return 0;
    }
    let column = column_at(events, Lookahead::One, sizes.terminals, place as usize);
    let row = 2 * sizes.nonterminals as usize
        + nonterminal as usize * (sizes.terminals as usize + 1);
    let rule = table.get(row + column as usize).copied().unwrap_or(0);
    let entry = nonterminal as usize * (events.len() + 1) + place as usize;
    let end = memo.get(entry).copied().unwrap_or(0);
    vertex_word(rule, place, end)
}
