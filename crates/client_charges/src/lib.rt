// Whom the allowance turns away, and what an answer adds to the clients' records.
#![tactic(auto)]

ghost use Rattle.std.specs.Prelude.{◌≡◌};
ghost use Rattle.client_records.specs.inner.Charges.{served_with};

use answer::Answer;
use client_records::{CLIENTS, Served};
use usage::Usage;

pub mod allowance;

// Counts an answer in the record of its client; an answer to no client is counted nowhere.
#[tactic(auto, unfolding(client_records::specs::Usages::charged))]
pub fn charge(mut usages: [Usage; CLIENTS], client: u32, answer: Answer) -> Served
    ensures { result ≡ served_with client answer usages }
{
    let at = client as usize;
    if at < CLIENTS {
        usages[at] = usages[at].after(answer);
    }
    Served { answer, usages }
}
