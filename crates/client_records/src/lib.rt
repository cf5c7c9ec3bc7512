// The records of the clients of one judge, their totals, and the allowance by which a client is turned away.
#![tactic(auto)]

ghost use Rattle.std.specs.Prelude.{◌≡◌};
ghost use Rattle.client_records.specs.Usages.{nobody, called_by, sum_below, clients, exhausted};

use answer::Answer;
use totals::total;
use usage::Usage;

pub mod totals;

// Clients are numbered from 0 (document 02: boxes).
pub const CLIENTS: usize = 8;

// An answer, and the clients' records with it counted. They go by value: a refusal is counted too, and changes no lent memory.
#[derive(Clone, Copy)]
pub struct Served {
    pub answer: Answer,
    pub usages: [Usage; CLIENTS],
}

// The empty record of each client.
pub fn no_usage() -> [Usage; CLIENTS]
    ensures { result ≡ nobody }
{
    [Usage::new(); CLIENTS]
}

// Whether a client's descents have called as much as its share, and those of all clients as much as the limit.
pub fn is_exhausted(usages: [Usage; CLIENTS], own: Usage, share: u32, limit: u32) -> bool
    ensures { result ≡ exhausted own.called share (sum_below clients (called_by usages)) limit }
{
    share <= own.called && u64::from(limit) <= total(usages).called
}
