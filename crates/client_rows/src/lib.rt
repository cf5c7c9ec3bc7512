// The records of all clients in a row: four counters for each client, one client after the other; and their totals.
#![tactic(auto)]

ghost use Rattle.std.specs.Prelude.{◌≡◌, ◌<◌};
ghost use Rattle.client_records.specs.Usages.{clients};
ghost use Rattle.embed_promises.specs.Exports.{TotalsExported};
ghost use Rattle.embed_promises.specs.Records.{usage_at, usages_in, totals_row};
ghost use Rattle.embed_promises.specs.inner.Records.{HandedBack};

use client_records::totals::{Totals, total};
use client_records::{CLIENTS, Served};
use packing::pack;
use usage::Usage;

const COUNTERS: usize = 4;

pub const ROW: usize = CLIENTS * COUNTERS;

// A client's record.
fn usage_at(row: [u32; ROW], client: usize) -> Usage
    requires { client < clients }
    ensures { result ≡ usage_at row client }
{
    let at = client * COUNTERS;
    Usage {
        calls: row[at],
        refusals: row[at + 1],
        acceptances: row[at + 2],
        called: row[at + 3],
    }
}

// One element after the other, as its promise names them: `array::from_fn` would take a proof by index.
pub fn usages_in(row: [u32; ROW]) -> [Usage; CLIENTS]
    ensures { result ≡ usages_in row }
{
    [
        usage_at(row, 0),
        usage_at(row, 1),
        usage_at(row, 2),
        usage_at(row, 3),
        usage_at(row, 4),
        usage_at(row, 5),
        usage_at(row, 6),
        usage_at(row, 7),
    ]
}

fn row_of(usages: [Usage; CLIENTS]) -> [u32; ROW]
    ensures { usages_in result ≡ usages }
{
    let mut row = [0; ROW];
    for (client, usage) in usages.iter().enumerate() {
        let at = client * COUNTERS;
        row[at] = usage.calls;
        row[at + 1] = usage.refusals;
        row[at + 2] = usage.acceptances;
        row[at + 3] = usage.called;
    }
    row
}

fn totals_row(totals: Totals) -> [u64; COUNTERS]
    ensures { result ≡ totals_row totals }
{
    [
        totals.calls,
        totals.refusals,
        totals.acceptances,
        totals.called,
    ]
}

// The sums of the records in a row.
pub fn totals_in(row: [u32; ROW]) -> [u64; COUNTERS]
    ensures { TotalsExported row result }
{
    totals_row(total(usages_in(row)))
}

// Writes the records that are handed back into a row, and gives the answer packed.
pub fn hand_back(served: Served, row: &mut [u32; ROW]) -> u64
    ensures { HandedBack served result row.new }
{
    *row = row_of(served.usages);
    pack(served.answer)
}
