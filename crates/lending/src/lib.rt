// Lending the table back: the words of what is found of a grammar, two sets for each nonterminal and then a row of entries for each, are laid
// out in the caller's memory.
#![tactic(auto)]

ghost use Rattle.std.specs.Prelude.{◌≡◌, List, ℕ, ◌+◌, ◌*◌, ◌<◌, length, replicate, refl};
ghost use Rattle.grammar.specs.Codes.{no_entry};
ghost use Rattle.grammar.specs.Limits.{max_table_words};
ghost use Rattle.grammar.specs.inner.Limits.{max_entries};
ghost use Rattle.lookahead.specs.declared.Lookahead.{Lookahead};
ghost use Rattle.lookahead.specs.declared.Lookahead.TheVariants.{One, Two};
ghost use Rattle.lent_words.specs.inner.Words.{lent_sizes};
ghost use Rattle.lending.specs.inner.Lending.{table_word_at, word_count, lent_by, SizesGiven, made_up};

use answer::Error;
use columns::count;
use families::SETS;
use grammar::codes::NO_ENTRY;
use grammar::limits::{ENTRIES, TABLE_WORDS};
use grammar::reading::Sizes;
use lent_words::{entry_word, lent_sizes};
use lookahead::Lookahead;

// The numbers that a word of 32 bits can be.
const NARROW: u64 = 4294967296;

// What is lent of a grammar: the sizes of its table, its sets, and its entries.
#[derive(Clone, Copy)]
pub struct Lent<'a> {
    pub sizes: Sizes,
    pub firsts: &'a [u64; SETS],
    pub follows: &'a [u64; SETS],
    pub entries: &'a [u8; ENTRIES],
    ghost given: { SizesGiven sizes },
}

impl Lent<'_> {
    // The word at an index.
    #[tactic(auto, unfolding(crate::specs::inner::Lending::table_word_at))]
    fn word(&self, at: usize) -> u64
        requires { at < 2 * self.now.sizes.nonterminals + max_entries }
        ensures { result ≡ table_word_at self.now.sizes.nonterminals self.now.firsts.now self.now.follows.now self.now.entries.now at }
    {
        let sets = 2 * self.sizes.nonterminals as usize;
        if sets <= at {
            return entry_word(self.entries[at - sets]);
        }
        if at % 2 == 0 {
            self.firsts[at / 2]
        } else {
            self.follows[at / 2]
        }
    }

    // How many words there are.
    fn word_count(&self, lookahead: Lookahead) -> usize
        ensures { result ≡ word_count lookahead self.now.sizes }
    {
        self.sizes.nonterminals as usize * (2 + count(lookahead, self.sizes.terminals))
    }

    // Lays out all words with one token of lookahead where there are no entries yet.
    fn lay_out(&self, words: &mut [u32; TABLE_WORDS])
        requires { words.old ≡ replicate max_table_words no_entry }
        ensures { words.new ≡ made_up self.now.sizes self.now.firsts.now self.now.follows.now self.now.entries.now }
    {
        for at in 0..self.word_count(Lookahead::One) {
            words[at] = (self.word(at) % NARROW) as u32;
        }
    }
}

// A word of a lent table: of 32 bits with one token of lookahead, of 64 with two.
pub trait TableWord: Copy + Drop {
    ghost LOOKAHEAD: { Lookahead };

    // The words of a table as numbers, which they are at both types.
    ghost numbers: { List Self → List ℕ };

    const LOOKAHEAD: Lookahead;

    // Writes all words of a table in front of what there is; nothing where there is no room for them.
    fn write_table(table: &mut [Self], lent: &Lent)
        ensures { numbers table.new
            ≡ lent_by LOOKAHEAD lent.now.sizes lent.now.firsts.now lent.now.follows.now lent.now.entries.now (numbers table.old) };

    // A number for each word.
    ghost one_each: { (words : List Self) → length (numbers words) ≡ length words };
}

impl TableWord for u32 {
    ghost LOOKAHEAD = { One };

    ghost numbers = { λ words. words };

    const LOOKAHEAD: Lookahead = Lookahead::One;

    // The words are laid out whole before any is lent back.
    fn write_table(table: &mut [u32], lent: &Lent) {
        let count = lent.word_count(Lookahead::One);
        if table.len() < count {
            return;
        }
        let mut words = [NO_ENTRY; TABLE_WORDS];
        lent.lay_out(&mut words);
        table[..count].copy_from_slice(&words[..count]);
    }

    ghost one_each = { λ words. refl };
}

impl TableWord for u64 {
    ghost LOOKAHEAD = { Two };

    ghost numbers = { λ words. words };

    const LOOKAHEAD: Lookahead = Lookahead::Two;

    fn write_table(table: &mut [u64], lent: &Lent) {
        let count = lent.word_count(Lookahead::Two);
        if table.len() < count {
            return;
        }
        for at in 0..count {
            table[at] = lent.word(at);
        }
    }

    ghost one_each = { λ words. refl };
}

// Lends the table of a grammar; nothing where the grammar is refused, or where there is no room.
pub fn lend<'a, W: TableWord>(
    finding: Result<Sizes, Error>,
    firsts: &'a [u64; SETS],
    follows: &'a [u64; SETS],
    entries: &'a [u8; ENTRIES],
    table: &mut [W],
)
    ensures { W.numbers table.new
        ≡ lent_by W.LOOKAHEAD (lent_sizes finding) firsts.now follows.now entries.now (W.numbers table.old) }
{
    let lent = Lent {
        sizes: lent_sizes(finding),
        firsts,
        follows,
        entries,
    };
    W::write_table(table, &lent);
}
