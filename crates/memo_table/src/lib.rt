// The memo table as a whole: cleared before a descent, and the calls that it made read off it afterwards.
#![tactic(auto)]

ghost use Rattle.std.specs.Prelude.{◌≡◌, ◌+◌, ◌*◌, ◌≤◌, length, replicate};
ghost use Rattle.base.specs.Quantifiers.{one};
ghost use Rattle.grammar.specs.Codes.{uncalled_code};
ghost use Rattle.semantics.specs.Calls.{greatest_place};
ghost use Rattle.memo_table.specs.inner.Tally.{records, recorded_below, called_at, recorded_calls, recorded_tally, recorded_verdict, block_entries, RowsGiven};

use answer::{Answer, Calls};
use grammar::codes::UNCALLED;

// Makes every entry one of a call that was not made.
pub fn clear(memo: &mut [u16])
    ensures { memo.new ≡ replicate (length memo.old) uncalled_code }
{
    // The library's fill writes the last entry by itself, and each trial of a search would pay for it.
    for at in 0..memo.len() {
        memo[at] = UNCALLED;
    }
}

// Entries are counted in blocks that 16 bits can count: the fewer the bits, the more entries the machine takes at once.
const BLOCK: usize = 65535;

// How many calls an entry records.
fn calls_of(entry: u16) -> u16
    ensures { result ≡ one (records entry) }
{
    u16::from(entry != UNCALLED)
}

// How many calls the entries of a block record.
fn count_block(block: &[u16]) -> u16
    requires { length block.now ≤ block_entries }
    ensures { result ≡ recorded_below block.now (length block.now) }
{
    let mut count = 0;
    for entry in block {
        count += calls_of(*entry);
    }
    count
}

// How many calls a memo table records.
pub fn count_calls(memo: &[u16]) -> usize
    ensures { result ≡ recorded_below memo.now (length memo.now) }
{
    let mut count = 0;
    for block in memo.chunks(BLOCK) {
        count += usize::from(count_block(block));
    }
    count
}

// Whether one of the first nonterminals was called at a place.
fn called_at(memo: &[u16], nonterminals: usize, tokens: usize, place: usize) -> bool
    requires { RowsGiven memo.now nonterminals tokens place }
    ensures { result ≡ called_at memo.now nonterminals tokens place }
{
    for nonterminal in 0..nonterminals {
        if memo[nonterminal * (tokens + 1) + place] != UNCALLED {
            return true;
        }
    }
    false
}

// The farthest place at which one was called, or 0.
fn farthest(memo: &[u16], nonterminals: usize, tokens: usize) -> usize
    requires { nonterminals * (tokens + 1) ≤ length memo.now }
    ensures { result ≡ greatest_place (recorded_calls memo.now nonterminals tokens) }
{
    for place in (1..=tokens).rev() {
        if called_at(memo, nonterminals, tokens, place) {
            return place;
        }
    }
    0
}

// The calls that a memo table for an input of so many tokens records: it has as many rows as there is room for.
fn tally(memo: &[u16], tokens: u16) -> Calls
    ensures { result ≡ recorded_tally memo.now tokens }
{
    let places = tokens as usize + 1;
    let nonterminals = memo.len() / places;
    let count = count_calls(&memo[..nonterminals * places]);
    let farthest = farthest(memo, nonterminals, tokens as usize);
    Calls { count, farthest }
}

// The verdict on an input of so many tokens, by the entry of the start's call: accepted where that ends with the input.
#[tactic(auto, unfolding(crate::specs::inner::Tally::recorded_verdict))]
pub fn verdict(memo: &[u16], end: u16, tokens: u16) -> Answer
    ensures { result ≡ recorded_verdict memo.now end tokens }
{
    let calls = tally(memo, tokens);
    if end == tokens {
        Answer::Accepted(calls)
    } else {
        Answer::Rejected(calls)
    }
}
