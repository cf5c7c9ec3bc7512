// Document 01's limit cases and those of requests P1, P7, P8, P10 and P14. Each grammar is a file; behind its name stands what the program sheet
// prints of it, or, for each input, the first line of what the program judge prints.
#![tactic(auto)]

ghost use Rattle.std.specs.Prelude.{◌≡◌, ◌≤◌, length, take};

use file_reading::read_full;
use file_words::load;
use grammar::limits::{MEMO_ENTRIES, PLACES, TABLE_WORDS, TABLE_WORDS_OF_TWO, TOKENS, WORDS};
use judgement_text::put_judgement;
use recognizer::{judge_costliest, judge_two};
use report_texts::{FILE_BYTES, INPUT_BYTES, SHEET_ROOM};
use std::fs;
use std::rt::Files;
use text::Output;
use tree_writer::judge_tree;

// Room for a line.
const LINE: usize = 32;

// The start of a file; one that cannot be opened is read as no words.
fn read(files: &impl Files, path: &str, card: &mut [u8]) -> usize
    ensures within { result ≤ length card.new }
    ensures taken { result ≡ length (take result card.new) }
{
    let Ok(mut file) = fs::open(files, path) else {
        return 0;
    };
    read_full(&mut file, card).bytes
}

// Where the first line ends: behind its line feed.
fn first_line(text: &[u8]) -> usize
    ensures within { result ≤ length text.now }
    ensures taken { result ≡ length (take result text.now) }
{
    match text.iter().position(|byte| *byte == b'\n') {
        Some(at) => at + 1,
        None => text.len(),
    }
}

fn write_line(rt: &impl Print, text: &[u8]) {
    let length = first_line(text);
    let _ = rt.write_all(&text[..length]);
}

fn name(rt: &impl Print, path: &str) {
    let _ = rt.println(path);
}

// The sheet of a grammar.
fn checked(rt: &(impl Files + Print), path: &str) {
    name(rt, path);
    let mut card = [0u8; FILE_BYTES];
    let n = read(rt, path, &mut card);
    let mut text = [0u8; SHEET_ROOM];
    let length = report::sheet(&card[..n], &mut text);
    let _ = rt.write_all(&text[..length]);
}

// The verdict on an input, by a grammar.
fn judged(rt: &(impl Files + Print), path: &str, log: &[u8]) {
    let mut card = [0u8; FILE_BYTES];
    let n = read(rt, path, &mut card);
    let mut text = [0u8; LINE];
    let length = report::judgement(&card[..n], log, &mut text);
    write_line(rt, &text[..length]);
}

// The most of each, and one more.
fn limits_of_heading(rt: &(impl Files + Print)) {
    checked(rt, "names_32");
    checked(rt, "names_33");
    checked(rt, "letters_24");
    checked(rt, "letters_25");
}

fn limits_of_length(rt: &(impl Files + Print)) {
    checked(rt, "words_2048");
    checked(rt, "words_2049");
    checked(rt, "rules_128");
    checked(rt, "rules_129");
}

fn rules_of_names(rt: &(impl Files + Print)) {
    checked(rt, "left_recursive");
    checked(rt, "claimed_twice");
    checked(rt, "no_rule");
    checked(rt, "rules_apart");
}

fn rules_of_negatives(rt: &(impl Files + Print)) {
    checked(rt, "must_nots_alone");
    checked(rt, "letter_behind_must_nots");
}

// An empty first set: of a name that never ends, of one that nothing reaches; before a clash, and behind left recursion.
fn unproductive(rt: &(impl Files + Print)) {
    checked(rt, "never_ends");
    checked(rt, "no_rule_unreached");
    checked(rt, "no_rule_and_clash");
    checked(rt, "no_rule_and_left_recursive");
}

// No token, one, the most and one more, and four of which the third is unknown.
fn limits_of_judging(rt: &(impl Files + Print), path: &str) {
    name(rt, path);
    let mut log = [0u8; INPUT_BYTES];
    judged(rt, path, &log[..0]);
    judged(rt, path, &log[..1]);
    judged(rt, path, &log[..TOKENS]);
    judged(rt, path, &log[..PLACES]);
    log[2] = 1;
    judged(rt, path, &log[..4]);
}

// The most nested calls there can be: each nonterminal at each place.
fn deepest(rt: &(impl Files + Print), path: &str) {
    name(rt, path);
    let log = [0u8; INPUT_BYTES];
    judged(rt, path, &log[..TOKENS]);
}

// How many vertices a tree has.
fn vertices(rt: &impl Print, count: usize) {
    let mut text = [0u8; LINE];
    let mut output = Output {
        bytes: &mut text,
        at: 0,
    };
    output.put_number(count);
    output.put_bytes(b" vertices\n");
    write_line(rt, &text);
}

// The verdict on an input, by a grammar, with two tokens of lookahead.
fn judged_by_two(rt: &(impl Files + Print), path: &str, log: &[u8], table: &mut [u64]) {
    let mut card = [0u8; FILE_BYTES];
    let n = read(rt, path, &mut card);
    let mut words = [0u32; WORDS];
    let loaded = load(&card[..n], &mut words);
    let Some(count) = loaded else {
        return;
    };
    let mut memo = [0u16; MEMO_ENTRIES];
    let answer = judge_two(&words[..count], log, table, &mut memo);
    let mut text = [0u8; LINE];
    put_judgement(&mut text, answer, 0, 0, &memo);
    write_line(rt, &text);
}

fn by_two(rt: &(impl Files + Print), path: &str, log: &[u8]) {
    name(rt, path);
    let mut table = [0u64; TABLE_WORDS_OF_TWO];
    judged_by_two(rt, path, log, &mut table);
}

// One word too few for the table.
fn by_two_in_too_little(rt: &(impl Files + Print), path: &str, log: &[u8]) {
    name(rt, path);
    let mut table = [0u64; TABLE_WORDS_OF_TWO - 1];
    judged_by_two(rt, path, log, &mut table);
}

// Two tokens of lookahead: seven terminals and eight; a rule of negatives alone; a clash at a last token; a grammar that one token refuses; a
// table that is too short; and the most nested calls.
fn limits_of_two(rt: &(impl Files + Print)) {
    let last = [6u8];
    by_two(rt, "letters_7", &last);
    by_two(rt, "letters_8", &last);
    let cuts = [0u8, 2, 0, 1, 3, 0, 2];
    by_two(rt, "must_nots_alone", &cuts);
    by_two(rt, "claimed_twice", &cuts);
    by_two(rt, "ladder", &cuts);
    by_two_in_too_little(rt, "ladder", &cuts);
    let log = [0u8; TOKENS];
    by_two(rt, "chain", &log);
    by_two(rt, "chain_of_two_musts", &log);
    by_two(rt, "chain_of_must_nots", &log);
}

// The verdict on the costliest input of a length, by a grammar.
fn costliest(rt: &(impl Files + Print), path: &str, tokens: usize, log: &mut [u8]) {
    name(rt, path);
    let mut card = [0u8; FILE_BYTES];
    let n = read(rt, path, &mut card);
    let mut words = [0u32; WORDS];
    let loaded = load(&card[..n], &mut words);
    let Some(count) = loaded else {
        return;
    };
    let mut table = [0u32; TABLE_WORDS];
    let mut memo = [0u16; MEMO_ENTRIES];
    let answer = judge_costliest(&words[..count], tokens, log, &mut table, &mut memo);
    let mut text = [0u8; LINE];
    put_judgement(&mut text, answer, 0, 0, &memo);
    write_line(rt, &text);
}

// The longest input there is of one terminal, with the most nested calls, and one more token; 4,096 inputs of four terminals, and more; and a log
// that is one byte too short.
fn limits_of_searching(rt: &(impl Files + Print)) {
    let mut log = [0u8; TOKENS];
    costliest(rt, "chain", TOKENS, &mut log);
    costliest(rt, "chain", PLACES, &mut log);
    costliest(rt, "rules_128", 6, &mut log);
    costliest(rt, "rules_128", 7, &mut log);
    let mut short = [0u8; TOKENS - 1];
    costliest(rt, "chain", 0, &mut short);
}

// The deepest tree that there can be: a vertex for each nonterminal and place.
fn deepest_tree(rt: &(impl Files + Print), path: &str) {
    name(rt, path);
    let mut card = [0u8; FILE_BYTES];
    let n = read(rt, path, &mut card);
    let mut words = [0u32; WORDS];
    let loaded = load(&card[..n], &mut words);
    let Some(count) = loaded else {
        return;
    };
    let mut table = [0u32; TABLE_WORDS];
    let mut memo = [0u16; MEMO_ENTRIES];
    let mut tree = [0u32; MEMO_ENTRIES];
    let log = [0u8; TOKENS];
    let shown = judge_tree(&words[..count], &log, &mut table, &mut memo, &mut tree);
    vertices(rt, shown.written);
}

fn main(rt: HostRuntime) {
    limits_of_heading(&rt);
    limits_of_length(&rt);
    rules_of_names(&rt);
    rules_of_negatives(&rt);
    unproductive(&rt);
    limits_of_judging(&rt, "repeated");
    limits_of_judging(&rt, "no_rule");
    limits_of_judging(&rt, "must_nots_alone");
    limits_of_judging(&rt, "must_not_empty");
    deepest(&rt, "chain");
    deepest(&rt, "chain_of_two_musts");
    deepest(&rt, "chain_of_must_nots");
    deepest(&rt, "chain_of_must_nots_alone");
    deepest_tree(&rt, "chain");
    deepest_tree(&rt, "chain_of_two_musts");
    limits_of_two(&rt);
    limits_of_searching(&rt);
}
