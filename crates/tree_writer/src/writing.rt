// Writing the parse tree of an accepted input into lent words: root first, each vertex once.
ghost use Rattle.event.specs.Events.{input_of};
ghost use Rattle.tree_writer_promises.specs.inner.Writer.{VertexRequires, VertexEnsures, TreeGiven, TreeDone};

use grammar::limits::{MEMO_ENTRIES, PLACES, RULES};
use rule_starts::rule_starts;
use vertex_labels::labels_of;
use vertex_words::{end_of, is_marked, marked, rule_of, start_of};
use word::{Symbol, Word, decode};

// Writes the vertex whose word is kept at an entry, and what is below it, behind the words written so far, unless it is among them; gives how many
// there are then.
fn write_vertex(
    words: &[u32],
    starts: &[usize; RULES],
    labels: &mut [u32; MEMO_ENTRIES],
    tree: &mut [u32],
    entry: usize,
    written: usize,
) -> usize
    requires { VertexRequires words.now starts.now labels.old tree.old entry written }
    ensures { VertexEnsures words.now starts.now labels.old tree.old entry written result
        labels.new tree.new }
{
    let vertex = labels[entry];
    if is_marked(vertex) {
        return written;
    }
    labels[entry] = marked(vertex);
    tree[written] = vertex;
    let start = start_of(vertex);
    let mut count = written + 1;
    let mut place = start;
    for at in starts[rule_of(vertex)] + 1..words.len() {
        match decode(words[at]) {
            Word::Positive => place = start,
            Word::Symbol(symbol) => match symbol {
                Symbol::Terminal(_) => place += 1,
                Symbol::Nonterminal(called) => {
                    let below = called as usize * PLACES + place;
                    count = write_vertex(words, starts, labels, tree, below, count);
                    place = end_of(labels[below]);
                }
            },
            _ => return count,
        }
    }
    count
}

// Writes the tree of an accepted input, by what judging left in the table and the memo table; gives the number of words.
pub(crate) fn write_tree(
    words: &[u32],
    events: &[u8],
    table: &[u32],
    memo: &[u16],
    tree: &mut [u32],
) -> usize
    requires { TreeGiven words.now (input_of events.now) table.now memo.now tree.old }
    ensures { TreeDone words.now (input_of events.now) tree.old result tree.new }
{
    let mut starts = [0usize; RULES];
    rule_starts(words, &mut starts);
    let mut labels = labels_of(words, events, table, memo);
    write_vertex(words, &starts, &mut labels, tree, 0, 0)
}
