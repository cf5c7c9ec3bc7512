// What a descent starts from: what is found, the arrays that it reads, and a memo table in which no call is recorded.
#![tactic(auto)]

ghost use Rattle.std.specs.Prelude.{◌≡◌, length};
ghost use Rattle.descent_preparation.specs.inner.Preparation.{sizes_of, last_of, InputPrepared, SearchPrepared, TrialPrepared};

use answer::Error;
use descent_arrays::CHOICES;
use descent_choices::{entries_of, table_choices};
use descent_findings::{find_for_input, find_for_search};
use descent_tokens::tokens_of;
use grammar::limits::{PLACES, TOKENS};
use grammar::reading::Sizes;
use inputs::{count_inputs, write_input};
use lookahead::Lookahead;
use memo_table::clear;
use table::Found;

// For one input: what is found, the arrays, and how many entries of the lent memo table are blank, none where the descent is refused.
#[derive(Drop)]
pub struct Prepared {
    pub found: Found,
    pub choices: [u16; CHOICES],
    pub tokens: [u16; PLACES],
    pub entries: usize,
}

// For a search: what is found, the choices, how many entries each descent needs, the last terminal, and how many inputs there are.
#[derive(Drop)]
pub struct PreparedSearch {
    pub found: Found,
    pub choices: [u16; CHOICES],
    pub entries: usize,
    pub last: u8,
    pub inputs: usize,
}

// The sizes of a grammar that passed; else of one that has nothing.
fn sizes_of(finding: Result<Sizes, Error>) -> Sizes
    ensures { result ≡ sizes_of finding }
{
    match finding {
        Ok(sizes) => sizes,
        Err(_) => Sizes::default(),
    }
}

// The last of so many terminals, of which there are at most 256.
fn last_of(terminals: u32) -> u8
    ensures { result ≡ last_of terminals }
{
    (terminals.saturating_sub(1) % 256) as u8
}

// For the input that the events are. Of the lent memo table the first entries are made blank, as many as the descent needs, or as there are.
pub fn prepare_input(
    words: &[u32],
    lookahead: Lookahead,
    events: &[u8],
    memo: &mut [u16],
) -> Prepared
    ensures { InputPrepared lookahead words.now events.now memo.old result memo.new }
{
    let found = find_for_input(words, lookahead, events, memo.len());
    let finding = found.finding;
    let sizes = sizes_of(finding);
    let choices = table_choices(
        &found.starts,
        sizes,
        lookahead,
        &found.entries,
        events.len(),
    );
    let tokens = tokens_of(events, lookahead, sizes.terminals);
    let entries = entries_of(sizes.nonterminals, events.len()).min(memo.len());
    clear(&mut memo[..entries]);
    Prepared {
        found,
        choices,
        tokens,
        entries,
    }
}

// For all inputs of so many tokens, in a lent log and a lent memo table of so many bytes and entries.
pub fn prepare_search(words: &[u32], tokens: usize, log: usize, memo: usize) -> PreparedSearch
    ensures { SearchPrepared words.now tokens log memo result }
{
    let found = find_for_search(words, tokens, log, memo);
    let finding = found.finding;
    let sizes = sizes_of(finding);
    // the same for every input of the length
    let choices = table_choices(&found.starts, sizes, Lookahead::One, &found.entries, tokens);
    let entries = entries_of(sizes.nonterminals, tokens);
    let last = last_of(sizes.terminals);
    // of a length that is refused no more tokens are counted than there may be
    let inputs = count_inputs(sizes.terminals, tokens.min(TOKENS));
    PreparedSearch {
        found,
        choices,
        entries,
        last,
        inputs,
    }
}

// For the input of a number, which is written into the lent events: their tokens, which are at most `last`, with one token of lookahead. The whole
// memo table is made blank.
pub fn prepare_trial(events: &mut [u8], last: u8, number: usize, memo: &mut [u16]) -> [u16; PLACES]
    ensures { TrialPrepared last (length events.old) number memo.old events.new result memo.new }
{
    write_input(events, last, number);
    clear(memo);
    tokens_of(events, Lookahead::One, last as u32 + 1)
}
