// Judging for the clients of one judge.
#![tactic(auto)]

ghost use Rattle.event.specs.Events.{input_of};
ghost use Rattle.clients_promises.specs.Properties.{JudgesFor};

use answer::Answer;
use client_charges::allowance::allowance;
use client_charges::charge;
use client_records::{CLIENTS, Served};
use recognizer::judge;
use usage::Usage;

// Judges a log for a client as `judge` does, unless the client is none or its allowance is used up, and counts the answer for it.
pub fn judge_for(
    client: u32,
    share: u32,
    limit: u32,
    words: &[u32],
    events: &[u8],
    table: &mut [u32],
    memo: &mut [u16],
    usages: [Usage; CLIENTS],
) -> Served
    ensures { JudgesFor client share limit words.now (input_of events.now) table.old memo.old usages result
        table.new memo.new }
{
    if let Err(error) = allowance(usages, client, share, limit) {
        return charge(usages, client, Answer::Refused(error));
    }
    let answer = judge(words, events, table, memo);
    charge(usages, client, answer)
}
