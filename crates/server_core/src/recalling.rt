//! Which leases are asked for back where a change comes. `specs/Recalling.antt` says it. It knows the
//! leases, the sessions and what was asked for, and no server.

ghost use Rattle.std.specs.Prelude.{◌≡◌, ◌==◌, IfOk, filter, map};
ghost use Rattle.std.specs.List.{list_any};
ghost use Rattle.callback_core.specs.BackCalls.{asks};
ghost use Rattle.callback_core.specs.Waits.{recalls_of};
ghost use Rattle.server_core.specs.Recalling.{recall_sent};

use crate::event::Sent;
use crate::steps::recall;
use callback_core::back_calls::{Asked, Asking, BackCalls};
use callback_core::waits::Waits;
use lb_base::items::Items;
use lease_rules::change::Recall;
use send_list::SendList;
use server_rules::sessions::Sessions;
use std::alloc::{AllocError, Global};

/// What a change asks for when it comes, before any of it is sent.
#[derive(Drop)]
pub struct Recalling {
    /// What is asked for then.
    pub calls: BackCalls,
    /// The leases that are asked for, and the xids.
    pub asked: Items<Asked>,
    /// The RECALLs.
    pub send: SendList<Sent>,
}

/// Those to sessions that stand.
fn to_standing(recalls: Items<Recall>, sessions: &Sessions) -> Items<Recall>
    ensures { result ≡ filter (λ r. list_any (λ k. k == r.session) sessions.now.standing) recalls }
{
    let mut left = recalls.into_vec();
    left.retain(|recall| sessions.stands(recall.session));
    Items::from_vec(left)
}

/// The RECALLs of these leases.
fn sent_of(alloc: Global, asked: &[Asked]) -> Result<SendList<Sent>, AllocError>
    ensures { IfOk result (λ send. send ≡ map recall_sent asked.now) }
{
    let mut send = SendList::none(alloc);
    for one in asked {
        let message = recall(alloc, one)?;
        send.push(message)?;
    }
    Ok(send)
}

/// What a change of a file asks for that comes at this moment: all leases that hold it up and that no
/// RECALL asked for yet, but those of sessions that don't stand. No lease of the asker's holds it up;
/// 0 is nobody. Nothing changes. The one error is running out of memory.
pub fn recalls<P: Drop>(
    alloc: Global,
    waits: &Waits<P>,
    calls: &BackCalls,
    sessions: &Sessions,
    file: u64,
    asker: u32,
    moment: u64,
) -> Result<Recalling, AllocError>
    ensures calls { IfOk result (λ r. r.calls ≡ (asks calls.now (filter (λ w. list_any (λ k. k == w.session) sessions.now.standing) (recalls_of waits.now.leases asker file moment))).0) }
    ensures asked { IfOk result (λ r. r.asked ≡ (asks calls.now (filter (λ w. list_any (λ k. k == w.session) sessions.now.standing) (recalls_of waits.now.leases asker file moment))).1) }
    ensures send { IfOk result (λ r. r.send ≡ map recall_sent r.asked) }
{
    let due = waits.recalls_due(alloc, file, asker, moment)?;
    let due = to_standing(due, sessions);
    let Asking { calls, asked } = calls.ask(alloc, due.as_slice())?;
    let send = sent_of(alloc, asked.as_slice())?;
    Ok(Recalling { calls, asked, send })
}
