// Judging for a client, with the records of all clients in a row of the caller's: four counters for each client, one client after the other.
ghost use Rattle.event.specs.Events.{input_of};
ghost use Rattle.embed_promises.specs.Exports.{ServedExported, TotalsExported};

use client_rows::{ROW, hand_back, totals_in, usages_in};
use clients::judge_for;

#[unsafe(no_mangle)]
pub extern "C" fn vinegarspit_judge_for(
    client: u32,
    share: u32,
    limit: u32,
    card: &[u32],
    log: &[u8],
    table: &mut [u32],
    memo: &mut [u16],
    usage: &mut [u32; ROW],
) -> u64
    ensures { ServedExported client share limit card.now (input_of log.now) table.old memo.old
        usage.old result table.new memo.new usage.new }
{
    let old = *usage;
    let before = usages_in(old);
    let served = judge_for(client, share, limit, card, log, table, memo, before);
    hand_back(served, usage)
}

#[unsafe(no_mangle)]
pub extern "C" fn vinegarspit_usage_totals(usage: &[u32; ROW], totals: &mut [u64; 4])
    ensures { TotalsExported usage.now totals.new }
{
    let row = *usage;
    let new = totals_in(row);
    *totals = new;
}
