// Checking an encoded grammar, and filling the lent table with its sets and its entries: with one token of lookahead, and with two.
#![tactic(auto)]

ghost use Rattle.lookahead.specs.declared.Lookahead.TheVariants.{Two};
ghost use Rattle.recognizer_promises.specs.Properties.{Checks};

use answer::Answer;
use check_answers::{answer, has_room, table_too_short};
use families::SETS;
use grammar::codes::NO_RULE;
use grammar::limits::{ENTRIES, RULES};
use lending::{TableWord, lend};
use table::find_into;

// Goes by the lookahead of the lent table's words: by one token with words of 32 bits, by two with words of 64.
pub fn check<W: TableWord>(words: &[u32], table: &mut [W]) -> Answer
    ensures { Checks W.LOOKAHEAD words.now (W.numbers table.old) result (W.numbers table.new) }
{
    let lookahead = W::LOOKAHEAD;
    if !has_room(table.len(), lookahead) {
        return Answer::Refused(table_too_short(lookahead));
    }
    let mut starts = [0usize; RULES];
    let mut firsts = [0u64; SETS];
    let mut follows = [0u64; SETS];
    let mut entries = [NO_RULE; ENTRIES];
    let finding = find_into(
        words,
        lookahead,
        &mut starts,
        &mut firsts,
        &mut follows,
        &mut entries,
    );
    lend(finding, &firsts, &follows, &entries, table);
    answer(finding)
}

// With two tokens, for grammars of few terminals.
pub fn check_two(words: &[u32], table: &mut [u64]) -> Answer
    ensures { Checks Two words.now table.old result table.new }
{
    check(words, table)
}
