//! How a change comes to wait (`specs/Waits.antt`).

ghost use Rattle.std.specs.Prelude.{◌≡◌, ◌+◌, ◌<◌, ◌≤◌, ◌^◌, ◌∷◌, ◌++◌, [], OnOk, OnErr, IfOk, IsSome, ◌⊎◌, map, length, vec_len, vec_capacity, ℕ, false, IsOk};
ghost use Rattle.lease_table.specs.Leases.{grant, lease_at};
ghost use Rattle.callback_core.specs.BackCalls.{all_marked};
ghost use Rattle.callback_core.specs.Waits.{recall_of, recalls_of, has_wait, entries_of, bytes_of, AreBounded};

use crate::back_calls::Asked;
use lb_base::items::Items;
use lease_rules::change::{PendingChange, Recall};
use lease_table::table::Leases;
use std::alloc::{AllocError, Global};

/// The recalls of a file to these sessions.
fn recalls_to(alloc: Global, sessions: &[u32], file: u64) -> Result<Items<Recall>, AllocError>
    ensures { IfOk result (λ recalls. recalls ≡ map (recall_of file) sessions.now) }
{
    let mut recalls = Vec::new(alloc);
    for session in sessions {
        recalls.push(Recall {
            session: *session,
            file,
        })?;
    }
    Ok(Items::from_vec(recalls))
}

/// The recalls that are due where a session asks for a change of a file.
pub fn recalls_of(
    alloc: Global,
    leases: &Leases,
    file: u64,
    session: u32,
    now: u64,
) -> Result<Items<Recall>, AllocError>
    ensures { IfOk result (λ recalls. recalls ≡ recalls_of leases.now.leases session file now) }
{
    let sessions = leases.others(alloc, file, session, now)?;
    recalls_to(alloc, sessions.as_slice(), file)
}

/// Each lease that a session was asked for remembers the xid of the RECALL.
pub fn mark_all(leases: &mut Leases, asked: &[Asked])
    ensures leases { leases.new.leases ≡ all_marked leases.old.leases asked.now }
    ensures room { leases.old.room ≤ leases.new.room }
{
    for one in asked {
        leases.mark_recalled(one.session, one.file, one.xid);
    }
}

/// Makes room for one change more, and for its lease. The one error is running out of memory, which
/// never comes where there is room; nothing else changes.
pub fn make_room<P>(
    leases: &mut Leases,
    waits: &mut Vec<PendingChange<P>>,
) -> Result<(), AllocError>
    requires bounded { AreBounded waits.old.items leases.old.room }
    ensures place { OnOk result (vec_len waits.new < vec_capacity waits.new) }
    ensures lease_place { OnOk result (length waits.new.items < leases.new.room) }
    ensures sure { vec_len waits.old < vec_capacity waits.old → length waits.old.items < leases.old.room → IsOk result }
    ensures len { vec_len waits.new ≡ vec_len waits.old }
    ensures capacity { vec_capacity waits.old ≤ vec_capacity waits.new }
    ensures waits { waits.new.items ≡ waits.old.items }
    ensures leases { leases.new.leases ≡ leases.old.leases }
    ensures room { leases.old.room ≤ leases.new.room }
    ensures bounded { AreBounded waits.new.items leases.new.room }
{
    leases.reserve(waits.len() + 1)?;
    waits.reserve(1)?;
    Ok(())
}

/// A change waits, for which there is room.
pub fn push<P: Drop>(waits: &mut Vec<PendingChange<P>>, change: PendingChange<P>)
    requires new { has_wait waits.old.items change.session ≡ false }
    requires place { vec_len waits.old < vec_capacity waits.old }
    requires entries { entries_of waits.old.items + change.entries < 2 ^ 64 }
    requires bytes { bytes_of waits.old.items + change.bytes < 2 ^ 64 }
    ensures waits { waits.new.items ≡ waits.old.items ++ change ∷ [] }
    ensures len { vec_len waits.new ≡ vec_len waits.old + 1 }
    ensures capacity { vec_capacity waits.new ≡ vec_capacity waits.old }
    ensures bounded { (room : ℕ) → AreBounded waits.old.items room → length waits.old.items < room → AreBounded waits.new.items room }
{
    waits.push_reserved(change);
}

/// Makes room for so many leases beside those that the changes have their places for. The one error
/// is running out of memory, as which a count past the type's end counts too; it never comes where there is
/// room.
pub fn reserve<P>(
    leases: &mut Leases,
    waits: &Vec<PendingChange<P>>,
    count: usize,
) -> Result<(), AllocError>
    requires bounded { AreBounded waits.now.items leases.old.room }
    ensures ok { OnOk result (length waits.now.items + count ≤ leases.new.room) }
    ensures sure { length waits.now.items + count ≤ leases.old.room → IsOk result }
    ensures leases { leases.new.leases ≡ leases.old.leases }
    ensures room { leases.old.room ≤ leases.new.room }
    ensures bounded { AreBounded waits.now.items leases.new.room }
{
    if count <= leases.room() - waits.len() {
        return Ok(());
    }
    let wanted = waits.len().checked_add(count).ok_or(AllocError)?;
    leases.reserve(wanted)
}

/// Grants a lease beside those that the changes have their places for. The one error is running out
/// of memory.
pub fn grant<P>(
    leases: &mut Leases,
    waits: &Vec<PendingChange<P>>,
    session: u32,
    file: u64,
    now: u64,
    term: u32,
) -> Result<(), AllocError>
    requires ends { now + term < 2 ^ 64 }
    requires bounded { AreBounded waits.now.items leases.old.room }
    ensures ok { OnOk result (leases.new.leases ≡ grant leases.old.leases session file (now + term)) }
    ensures err { OnErr result (leases.new.leases ≡ leases.old.leases) }
    ensures sure { IsSome (lease_at leases.old.leases session file) ⊎ (length waits.now.items < leases.old.room) → IsOk result }
    ensures same_room { IsSome (lease_at leases.old.leases session file) → leases.old.room ≤ leases.new.room }
    ensures room { leases.old.room ≤ leases.new.room + 1 }
    ensures err_room { OnErr result (leases.old.room ≤ leases.new.room) }
    ensures bounded { AreBounded waits.now.items leases.new.room }
{
    if !leases.has(session, file) {
        leases.reserve(waits.len() + 1)?;
    }
    leases.grant(session, file, now, term)
}
