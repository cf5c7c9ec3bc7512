// The words of all vertices, made before the tree is written; places past the input's end have none.
#![tactic(auto)]

ghost use Rattle.std.specs.Prelude.{◌≡◌, ◌+◌, ◌*◌, ◌<◌, min};
ghost use Rattle.event.specs.Events.{input_of};
ghost use Rattle.grammar.specs.Limits.{max_nonterminals, max_places};
ghost use Rattle.grammar.specs.Reading.{reading};
ghost use Rattle.tree_writer_promises.specs.inner.Labels.{labels_of, labels_read, LabelledBelow};

use grammar::limits::{MEMO_ENTRIES, NONTERMINALS, PLACES, TOKENS};
use grammar::reading::Sizes;
use reader::read;
use vertex_words::label;

// The words of one nonterminal, at each place of the input; those of the nonterminals before it are made.
fn label_row(
    sizes: Sizes,
    events: &[u8],
    table: &[u32],
    memo: &[u16],
    nonterminal: usize,
    labels: &mut [u32; MEMO_ENTRIES],
)
    requires row { nonterminal < min sizes.nonterminals max_nonterminals }
    requires before { LabelledBelow sizes (input_of events.now) table.now memo.now (nonterminal * max_places) labels.old }
    ensures { LabelledBelow sizes (input_of events.now) table.now memo.now ((nonterminal + 1) * max_places) labels.new }
{
    let places = events.len().min(TOKENS) + 1;
    for place in 0..places {
        labels[nonterminal * PLACES + place] = label(
            sizes,
            events,
            table,
            memo,
            nonterminal as u8,
            place as u16,
        );
    }
}

// By the sizes of a grammar: a row for each nonterminal, while there is room.
fn labels_by(sizes: Sizes, events: &[u8], table: &[u32], memo: &[u16]) -> [u32; MEMO_ENTRIES]
    ensures { result ≡ labels_of sizes (input_of events.now) table.now memo.now }
{
    // An input that is too long has no words. Told before the loop; else the compiler keeps the words in two arrays.
    if TOKENS < events.len() {
        return [0; MEMO_ENTRIES];
    }
    let mut labels = [0u32; MEMO_ENTRIES];
    let rows = sizes.nonterminals.min(NONTERMINALS) as usize;
    for nonterminal in 0..rows {
        label_row(sizes, events, table, memo, nonterminal, &mut labels);
    }
    labels
}

// By an encoded grammar, and what judging left in the lent memories.
pub fn labels_of(words: &[u32], events: &[u8], table: &[u32], memo: &[u16]) -> [u32; MEMO_ENTRIES]
    ensures { result ≡ labels_read (reading words.now) (input_of events.now) table.now memo.now }
{
    let outcome = read(words);
    let Ok(sizes) = outcome else {
        return [0; MEMO_ENTRIES];
    };
    labels_by(sizes, events, table, memo)
}
