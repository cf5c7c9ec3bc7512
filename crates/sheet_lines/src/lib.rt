// The parts of a sheet that need no sizes: its first line, the line of a nonterminal's sets, and an entry.
#![tactic(auto)]

ghost use Rattle.std.specs.Prelude.{◌≡◌, ◌++◌};
ghost use Rattle.lookahead.specs.Elements.{size as size_of};
ghost use Rattle.text.specs.Decimal.{decimal, labelled};
ghost use Rattle.text.specs.inner.Outputs.{Puts};
ghost use Rattle.sheet_lines.specs.Lines.{sheet_word_at, sizes_line, sets_line, table_entry_text};

use grammar::codes::NO_ENTRY;
use grammar::reading::Sizes;
use lookahead_sets::LookaheadSet;
use text::Output;

// A word of the table; behind its end there is none.
pub fn word_at(table: &[u32], at: usize) -> u32
    ensures { result ≡ sheet_word_at table.now at }
{
    table.get(at).copied().unwrap_or(NO_ENTRY)
}

pub fn put_sizes(output: &mut Output<'_>, sizes: Sizes)
    ensures { Puts (sizes_line sizes) output.old output.new }
{
    output.put_labelled(b"names ", sizes.nonterminals as usize);
    output.put_labelled(b" letters ", sizes.terminals as usize);
    output.put_labelled(b" rules ", sizes.rules);
    output.put_bytes(b"\n");
}

// A set in decimal behind a label, and how many elements it has.
fn put_set(output: &mut Output<'_>, label: &[u8], bits: u32)
    ensures { Puts ((label.now ++ decimal bits) ++ labelled " " (size_of bits)) output.old output.new }
{
    let set = LookaheadSet {
        bits: u64::from(bits),
    };
    output.put_labelled(label, bits as usize);
    output.put_labelled(b" ", set.size() as usize);
}

pub fn put_sets(output: &mut Output<'_>, table: &[u32], nonterminal: u32)
    ensures { Puts (sets_line table.now nonterminal) output.old output.new }
{
    let first = word_at(table, 2 * nonterminal as usize);
    let follow = word_at(table, 2 * nonterminal as usize + 1);
    output.put_labelled(b"name ", nonterminal as usize);
    put_set(output, b" first ", first);
    put_set(output, b" follow ", follow);
    output.put_bytes(b"\n");
}

pub fn put_entry(output: &mut Output<'_>, entry: u32)
    ensures { Puts (table_entry_text entry) output.old output.new }
{
    output.put_or_dash(entry as usize, NO_ENTRY as usize);
}
