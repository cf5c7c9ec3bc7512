// The line of an entry of the table: the rules that claim it.
#![tactic(auto)]

ghost use Rattle.std.specs.Prelude.{◌≡◌, ◌++◌, ◌≤◌, ◌<◌, min};
ghost use Rattle.base.specs.Quantifiers.{count_below};
ghost use Rattle.grammar.specs.Limits.{max_rules};
ghost use Rattle.claims.specs.inner.Claims.{claimant};
ghost use Rattle.text.specs.Decimal.{decimal, labelled};
ghost use Rattle.text.specs.inner.Outputs.{Puts};
ghost use Rattle.gaps_text_promises.specs.inner.Steps.{claimant_text, numbers_text, claimants_text, claimant_at, entry_line};

use columns::element;
use grammar::limits::RULES;
use grammar::reading::Sizes;
use lookahead::Lookahead;
use lookahead_sets::LookaheadSet;
use text::Output;

// Whether a rule claims an element for a nonterminal.
#[tactic(auto, unfolding(claims::specs::inner::Claims::claimant))]
fn claims_element(
    heads: &[u8; RULES],
    sets: &[u64; RULES],
    nonterminal: u8,
    element: u32,
    rule: usize,
) -> bool
    requires { rule < max_rules }
    ensures { result ≡ claimant heads.now sets.now nonterminal element rule }
{
    let claim = LookaheadSet { bits: sets[rule] };
    heads[rule] == nonterminal && claim.contains(element)
}

// How many rules claim an element for a nonterminal.
fn count_claimants(
    heads: &[u8; RULES],
    sets: &[u64; RULES],
    rules: usize,
    nonterminal: u8,
    element: u32,
) -> usize
    requires { rules ≤ max_rules }
    ensures { result ≡ count_below rules (claimant heads.now sets.now nonterminal element) }
{
    let mut n = 0;
    for rule in 0..rules {
        n += usize::from(claims_element(heads, sets, nonterminal, element, rule));
    }
    n
}

#[tactic(auto, unfolding(gaps_text_promises::specs::inner::Steps::claimant_text))]
fn put_claimant(output: &mut Output<'_>, claimed: bool, rule: usize)
    ensures { Puts (claimant_text claimed rule) output.old output.new }
{
    if claimed {
        output.put_labelled(b" ", rule);
    }
}

// The numbers of the rules that claim an element for a nonterminal, in order.
fn put_numbers(
    output: &mut Output<'_>,
    heads: &[u8; RULES],
    sets: &[u64; RULES],
    rules: usize,
    nonterminal: u8,
    element: u32,
)
    requires { rules ≤ max_rules }
    ensures { Puts (numbers_text rules (claimant heads.now sets.now nonterminal element)) output.old output.new }
{
    for rule in 0..rules {
        let claimed = claims_element(heads, sets, nonterminal, element, rule);
        put_claimant(output, claimed, rule);
    }
}

// The same, or a dash where their number is 0.
#[tactic(auto, unfolding(gaps_text_promises::specs::inner::Steps::claimants_text))]
fn put_claimants(
    output: &mut Output<'_>,
    heads: &[u8; RULES],
    sets: &[u64; RULES],
    rules: usize,
    nonterminal: u8,
    element: u32,
    number: usize,
)
    requires few { rules ≤ max_rules }
    requires counted { number ≡ count_below rules (claimant heads.now sets.now nonterminal element) }
    ensures { Puts (claimants_text rules (claimant heads.now sets.now nonterminal element)) output.old output.new }
{
    if number == 0 {
        output.put_bytes(b" -");
    } else {
        put_numbers(output, heads, sets, rules, nonterminal, element);
    }
}

// The nonterminal and the column of an entry.
fn put_place(output: &mut Output<'_>, nonterminal: u8, column: u32)
    ensures { Puts (decimal nonterminal ++ labelled " " column) output.old output.new }
{
    output.put_number(nonterminal as usize);
    output.put_labelled(b" ", column as usize);
}

// The line of an entry, unless just one rule claims it. A grammar has no more rules than the limit.
#[tactic(auto, unfolding(gaps_text_promises::specs::inner::Steps::entry_line))]
pub fn put_entry(
    output: &mut Output<'_>,
    heads: &[u8; RULES],
    sets: &[u64; RULES],
    sizes: Sizes,
    nonterminal: u8,
    column: u32,
)
    ensures { Puts
        (entry_line (min sizes.rules max_rules) (claimant_at heads.now sets.now sizes.terminals nonterminal column) nonterminal column)
        output.old output.new }
{
    let rules = sizes.rules.min(RULES);
    let element = element(Lookahead::One, sizes.terminals, column);
    let number = count_claimants(heads, sets, rules, nonterminal, element);
    if number == 1 {
        return;
    }
    put_place(output, nonterminal, column);
    put_claimants(output, heads, sets, rules, nonterminal, element, number);
    output.put_bytes(b"\n");
}
