// What is found before a descent: of a grammar, then of lent memory and of the input, or of the length of all inputs.
#![tactic(auto)]

ghost use Rattle.std.specs.Prelude.{◌≡◌};
ghost use Rattle.event.specs.Events.{input_of};
ghost use Rattle.lookahead.specs.declared.Lookahead.TheVariants.{One};
ghost use Rattle.promises.specs.inner.Lengths.{with_search};
ghost use Rattle.table.specs.inner.Analysis.{found_of};
ghost use Rattle.recognizer_promises.specs.inner.Answers.{with_memo};
ghost use Rattle.recognizer_promises.specs.inner.Judging.{refound};

use families::SETS;
use grammar::codes::NO_RULE;
use grammar::limits::{ENTRIES, RULES};
use input_findings::with_memo;
use length_findings::with_length;
use lookahead::Lookahead;
use table::{Found, find_into};

// For an input, in a lent memo table of so many entries.
pub fn find_for_input(words: &[u32], lookahead: Lookahead, events: &[u8], memo: usize) -> Found
    ensures { result ≡ refound (found_of lookahead words.now)
        (with_memo memo (found_of lookahead words.now).finding (input_of events.now)) }
{
    let mut starts = [0usize; RULES];
    let mut firsts = [0u64; SETS];
    let mut follows = [0u64; SETS];
    let mut entries = [NO_RULE; ENTRIES];
    let grammar = find_into(
        words,
        lookahead,
        &mut starts,
        &mut firsts,
        &mut follows,
        &mut entries,
    );
    let finding = with_memo(grammar, events, memo);
    Found {
        finding,
        starts,
        firsts,
        follows,
        entries,
    }
}

// For all inputs of so many tokens, in a lent log and a lent memo table of so many bytes and entries.
pub fn find_for_search(words: &[u32], tokens: usize, log: usize, memo: usize) -> Found
    ensures { result ≡ refound (found_of One words.now) (with_search log memo (found_of One words.now).finding tokens) }
{
    let mut starts = [0usize; RULES];
    let mut firsts = [0u64; SETS];
    let mut follows = [0u64; SETS];
    let mut entries = [NO_RULE; ENTRIES];
    let grammar = find_into(
        words,
        Lookahead::One,
        &mut starts,
        &mut firsts,
        &mut follows,
        &mut entries,
    );
    let finding = with_length(grammar, tokens, log, memo);
    Found {
        finding,
        starts,
        firsts,
        follows,
        entries,
    }
}
