// The gaps and overlaps of a grammar's table, line by line, and the nonterminals that overrun, from what each rule claims.
#![tactic(auto)]

ghost use Rattle.std.specs.Prelude.{◌≡◌, ◌≤◌};
ghost use Rattle.grammar.specs.Limits.{max_nonterminals, max_terminals, max_rules};
ghost use Rattle.text.specs.inner.Outputs.{Puts};
ghost use Rattle.text.specs.Writing.{Put, up_to};
ghost use Rattle.gaps_text_promises.specs.inner.Steps.{row_text, overrun_line, overruns_text, lines_text, claimant_at, overruns_by, overruns_in};
ghost use Rattle.gaps_text_promises.specs.inner.Steps.{within_limits, WithinLimits, GapsPutBy};

use answer::Error;
use claimants_text::put_entry;
use families::SETS;
use grammar::limits::{COLUMNS, NONTERMINALS, RULES, TERMINALS};
use grammar::reading::Sizes;
use lookahead_sets::LookaheadSet;
use refusal_text::put_refusal;
use text::Output;

// How many bytes the lines take at most, and all of a sheet.
const RULE_ROOM: usize = 4;

const ENTRY_ROOM: usize = 8;

const OVERRUN_ROOM: usize = 3;

// A rule stands in the row of its head alone.
pub const ROOM: usize = (NONTERMINALS as usize) * (COLUMNS * ENTRY_ROOM)
    + COLUMNS * (RULES * RULE_ROOM)
    + (NONTERMINALS as usize) * OVERRUN_ROOM;

#[tactic(auto, unfolding(gaps_text_promises::specs::inner::Steps::row_text))]
fn put_row(
    output: &mut Output<'_>,
    heads: &[u8; RULES],
    sets: &[u64; RULES],
    sizes: Sizes,
    nonterminal: u8,
)
    requires rules { sizes.rules ≤ max_rules }
    requires terminals { sizes.terminals ≤ max_terminals }
    ensures { Puts (row_text sizes (claimant_at heads.now sets.now sizes.terminals) nonterminal) output.old output.new }
{
    for column in 0..sizes.terminals + 1 {
        put_entry(output, heads, sets, sizes, nonterminal, column);
    }
}

fn put_rows(output: &mut Output<'_>, heads: &[u8; RULES], sets: &[u64; RULES], sizes: Sizes)
    requires { WithinLimits sizes }
    ensures { Puts (up_to sizes.nonterminals (row_text sizes (claimant_at heads.now sets.now sizes.terminals))) output.old output.new }
{
    for nonterminal in 0..sizes.nonterminals {
        put_row(output, heads, sets, sizes, nonterminal as u8);
    }
}

// The line of a nonterminal, unless the set that is reported of it is empty: it does not overrun.
#[tactic(auto, unfolding(gaps_text_promises::specs::inner::Steps::overrun_line))]
fn put_overrun(output: &mut Output<'_>, told: LookaheadSet, nonterminal: u32)
    ensures { Puts (overrun_line (overruns_by told.bits) nonterminal) output.old output.new }
{
    if told.is_empty() {
        return;
    }
    output.put_number(nonterminal as usize);
    output.put_bytes(b"\n");
}

fn put_overruns(output: &mut Output<'_>, overruns: &[u64; SETS], nonterminals: u32)
    requires { nonterminals ≤ max_nonterminals }
    ensures { Puts (overruns_text nonterminals (overruns_in overruns.now)) output.old output.new }
{
    for nonterminal in 0..nonterminals {
        let told = LookaheadSet {
            bits: overruns[nonterminal as usize],
        };
        put_overrun(output, told, nonterminal);
    }
}

// The entries, then the nonterminals that overrun.
fn put_lines(
    out: &mut [u8],
    heads: &[u8; RULES],
    sets: &[u64; RULES],
    overruns: &[u64; SETS],
    sizes: Sizes,
) -> usize
    requires { WithinLimits sizes }
    ensures { Put out.old 0
        (lines_text sizes (claimant_at heads.now sets.now sizes.terminals) (overruns_in overruns.now)) out.new result }
{
    let mut output = Output { bytes: out, at: 0 };
    put_rows(&mut output, heads, sets, sizes);
    put_overruns(&mut output, overruns, sizes.nonterminals);
    output.at
}

// No more of each than a grammar may have.
#[tactic(auto, unfolding(gaps_text_promises::specs::inner::Steps::within_limits))]
fn within_limits(sizes: Sizes) -> bool
    ensures { result ≡ within_limits sizes }
{
    sizes.nonterminals <= NONTERMINALS && sizes.terminals <= TERMINALS && sizes.rules <= RULES
}

// The gaps and overlaps of a grammar, and its nonterminals that overrun, by what is found of it and of its rules; or why there are none to tell.
pub fn put_gaps<'a>(
    out: &mut [u8],
    finding: Result<Sizes, Error>,
    heads: &'a [u8; RULES],
    sets: &'a [u64; RULES],
    overruns: &'a [u64; SETS],
) -> usize
    ensures { GapsPutBy finding heads.now sets.now overruns.now out.old out.new result }
{
    match finding {
        Err(error) => put_refusal(out, 0, error),
        Ok(sizes) => {
            if !within_limits(sizes) {
                return 0;
            }
            put_lines(out, heads, sets, overruns, sizes)
        }
    }
}
