// The sums of all clients' counters, in numbers of 64 bits.
ghost use Rattle.client_records.specs.inner.Sums.{TotalsSmall, AddsUsage};
ghost use Rattle.client_records.specs.Sums.{Totalled};

use super::CLIENTS;
use usage::Usage;

#[derive(Clone, Copy, Default)]
pub struct Totals {
    pub calls: u64,
    pub refusals: u64,
    pub acceptances: u64,
    pub called: u64,
}

impl Totals {
    // With one client's counters added.
    fn plus(self, usage: Usage) -> Totals
        requires { TotalsSmall self }
        ensures { AddsUsage self usage result }
    {
        Totals {
            calls: self.calls + u64::from(usage.calls),
            refusals: self.refusals + u64::from(usage.refusals),
            acceptances: self.acceptances + u64::from(usage.acceptances),
            called: self.called + u64::from(usage.called),
        }
    }
}

pub fn total(usages: [Usage; CLIENTS]) -> Totals
    ensures { Totalled usages result }
{
    let mut all = Totals::default();
    for usage in usages {
        all = all.plus(usage);
    }
    all
}
