// What the programs print: from the bytes of files to the bytes of the text.
#![tactic(auto)]

ghost use Rattle.event.specs.Events.{input_of};
ghost use Rattle.gaps_text_promises.specs.inner.Gaps.{GapsPut};
ghost use Rattle.text.specs.Writing.{Put};
ghost use Rattle.report_texts.specs.Texts.{checked_text, judged_text};
ghost use Rattle.report_texts.specs.Report.{SheetPrinted, JudgementPrinted, GapsPrinted};

use answer::Error;
use claims::analyze;
use families::SETS;
use file_words::load;
use gaps_text::put_gaps;
use grammar::codes::{NO_ENTRY, NO_RULE, UNCALLED};
use grammar::limits::{ENTRIES, MEMO_ENTRIES, RULES, TABLE_WORDS, WORDS};
use judge_answers::answer;
use judgement_text::put_judgement;
use judgement_text::sizes::{nonterminals, tokens};
use lending::lend;
use lookahead::Lookahead;
use recursive_descent::descend_words;
use refusal_text::put_refusal;
use sheet_text::put_check;
use table::find_into;

// The sheet of the grammar that a file's bytes are, or why there is none.
pub fn sheet(bytes: &[u8], out: &mut [u8]) -> usize
    ensures { SheetPrinted bytes.now out.old out.new result }
{
    let mut words = [0u32; WORDS];
    let loaded = load(bytes, &mut words);
    match loaded {
        Some(n) => put_checked(&words[..n], out),
        None => put_refusal(out, 0, Error::Length),
    }
}

// The judgement of a log's events by the grammar that a file's bytes are, or why there is none.
pub fn judgement(bytes: &[u8], events: &[u8], out: &mut [u8]) -> usize
    ensures { JudgementPrinted bytes.now events.now out.old out.new result }
{
    let mut words = [0u32; WORDS];
    let loaded = load(bytes, &mut words);
    match loaded {
        Some(n) => put_judged(&words[..n], events, out),
        None => put_refusal(out, 0, Error::Length),
    }
}

// The gaps and overlaps of the grammar that a file's bytes are, and its nonterminals that overrun; or why there are none to tell.
pub fn gaps(bytes: &[u8], out: &mut [u8]) -> usize
    ensures { GapsPrinted bytes.now out.old out.new result }
{
    let mut words = [0u32; WORDS];
    let loaded = load(bytes, &mut words);
    match loaded {
        Some(n) => put_claimed(&words[..n], out),
        None => put_refusal(out, 0, Error::Length),
    }
}

fn put_checked(words: &[u32], out: &mut [u8]) -> usize
    ensures { Put out.old 0 (checked_text words.now) out.new result }
{
    let mut table = [NO_ENTRY; TABLE_WORDS];
    let mut starts = [0usize; RULES];
    let mut firsts = [0u64; SETS];
    let mut follows = [0u64; SETS];
    let mut entries = [NO_RULE; ENTRIES];
    let finding = find_into(
        words,
        Lookahead::One,
        &mut starts,
        &mut firsts,
        &mut follows,
        &mut entries,
    );
    lend(finding, &firsts, &follows, &entries, &mut table);
    put_check(out, finding, &table)
}

fn put_judged(words: &[u32], events: &[u8], out: &mut [u8]) -> usize
    ensures { Put out.old 0 (judged_text words.now (input_of events.now)) out.new result }
{
    let mut memo = [UNCALLED; MEMO_ENTRIES];
    let found = descend_words(words, Lookahead::One, events, &mut memo);
    let finding = found.finding;
    let answered = answer(finding, events.len(), &memo);
    put_judgement(out, answered, nonterminals(finding), tokens(events), &memo)
}

fn put_claimed(words: &[u32], out: &mut [u8]) -> usize
    ensures { GapsPut words.now out.old out.new result }
{
    let mut starts = [0usize; RULES];
    let mut firsts = [0u64; SETS];
    let mut follows = [0u64; SETS];
    let mut heads = [0u8; RULES];
    let mut sets = [0u64; RULES];
    let mut overruns = [0u64; SETS];
    let finding = analyze(
        words,
        Lookahead::One,
        &mut starts,
        &mut firsts,
        &mut follows,
        &mut heads,
        &mut sets,
        &mut overruns,
    );
    put_gaps(out, finding, &heads, &sets, &overruns)
}
