//! What is done to the leases (`specs/Leases.antt`), and to what stands beside them
//! (`specs/Kept.antt`).

ghost use Rattle.std.specs.Prelude.{◌≡◌, ◌+◌, ◌-◌, ◌<◌, ◌≤◌, length, is_some, IsSome, ◌⊎◌, true, false, if◌then◌else◌, OnOk, OnErr, IsOk, Option, Some, None};
ghost use Rattle.std.specs.BTreeMap.{insert_entry};
ghost use Rattle.lease_table.specs.Leases.{lease_at, with_lease, grant, lease_of, without_lease, marked, without_recalled, without_ended};
ghost use Rattle.lease_table.specs.Kept.{AreKept, by_two, held_at, leases_of};

use crate::keyed::{Ends, Keyed, Recalls, list, one_ended, one_recalled, unlist};
use lease_rules::lease::LeaseEntry;
use std::alloc::AllocError;

/// Makes room for so many further leases, and for what may stand beside each. The one error is
/// running out of memory.
pub fn reserve(
    leases: &mut Keyed,
    recalls: &mut Recalls,
    ends: &mut Ends,
    count: usize,
) -> Result<(), AllocError>
    ensures ok { OnOk result (leases.new.taken + count ≤ leases.new.places) }
    ensures ok_recalls { OnOk result (length leases.new.entries + count ≤ recalls.new.places) }
    ensures ok_ends { OnOk result (length leases.new.entries + count ≤ ends.new.places) }
    ensures leases { leases.new.entries ≡ leases.old.entries }
    ensures recalls { recalls.new.entries ≡ recalls.old.entries }
    ensures ends { ends.new.entries ≡ ends.old.entries }
    ensures taken { leases.new.taken ≡ leases.old.taken }
    ensures places { leases.old.places ≤ leases.new.places }
    ensures recalls_places { recalls.old.places ≤ recalls.new.places }
    ensures ends_places { ends.old.places ≤ ends.new.places }
    ensures sure { count ≤ leases.old.places - leases.old.taken → length leases.old.entries + count ≤ recalls.old.places → length leases.old.entries + count ≤ ends.old.places → IsOk result }
{
    let all = leases.len();
    leases.reserve(count)?;
    recalls.reserve_beyond(all, count)?;
    ends.reserve_beyond(all, count)
}

/// Whether a session has a lease on a file.
pub fn has(leases: &Keyed, session: u32, file: u64) -> bool
    ensures { result ≡ is_some (lease_at (leases_of leases.now.entries) session file) }
{
    leases.get((file, session)).is_some()
}

/// Puts in a lease, where the session has none on the file.
fn add(
    leases: &mut Keyed,
    recalls: &mut Recalls,
    ends: &mut Ends,
    session: u32,
    file: u64,
    held: LeaseEntry,
)
    requires kept { AreKept leases.old.entries recalls.old.entries ends.old.entries }
    requires new { held_at leases.old.entries session file ≡ None }
    requires room { leases.old.taken < leases.old.places }
    requires recalls_room { length leases.old.entries < recalls.old.places }
    requires ends_room { length leases.old.entries < ends.old.places }
    ensures leases { leases.new.entries ≡ insert_entry by_two leases.old.entries (file, session) held }
    ensures kept { AreKept leases.new.entries recalls.new.entries ends.new.entries }
    ensures len { length leases.new.entries ≡ length leases.old.entries + 1 }
    ensures taken { leases.new.taken ≤ leases.old.taken + 1 }
    ensures places { leases.old.places ≤ leases.new.places }
    ensures recalls_places { recalls.old.places ≤ recalls.new.places }
    ensures ends_places { ends.old.places ≤ ends.new.places }
{
    list(recalls, ends, session, file, held);
    leases.put((file, session), held);
}

/// Puts another lease in place of the one that the session has on the file.
fn replace(
    leases: &mut Keyed,
    recalls: &mut Recalls,
    ends: &mut Ends,
    session: u32,
    file: u64,
    old: LeaseEntry,
    held: LeaseEntry,
)
    requires kept { AreKept leases.old.entries recalls.old.entries ends.old.entries }
    requires there { held_at leases.old.entries session file ≡ Some old }
    requires recalls_room { length leases.old.entries ≤ recalls.old.places }
    requires ends_room { length leases.old.entries ≤ ends.old.places }
    ensures leases { leases.new.entries ≡ insert_entry by_two leases.old.entries (file, session) held }
    ensures kept { AreKept leases.new.entries recalls.new.entries ends.new.entries }
    ensures len { length leases.new.entries ≡ length leases.old.entries }
    ensures taken { leases.new.taken ≤ leases.old.taken }
    ensures places { leases.old.places ≤ leases.new.places }
    ensures recalls_places { recalls.old.places ≤ recalls.new.places }
    ensures ends_places { ends.old.places ≤ ends.new.places }
{
    unlist(recalls, ends, session, file, old);
    list(recalls, ends, session, file, held);
    leases.put((file, session), held);
}

/// Grants a lease, where there is room or room is made. The one error is running out of memory.
pub fn grant(
    leases: &mut Keyed,
    recalls: &mut Recalls,
    ends: &mut Ends,
    session: u32,
    file: u64,
    until: u64,
) -> Result<(), AllocError>
    requires kept { AreKept leases.old.entries recalls.old.entries ends.old.entries }
    requires recalls_room { length leases.old.entries ≤ recalls.old.places }
    requires ends_room { length leases.old.entries ≤ ends.old.places }
    ensures ok { OnOk result (leases_of leases.new.entries ≡ grant (leases_of leases.old.entries) session file until) }
    ensures err { OnErr result (leases.new.entries ≡ leases.old.entries) }
    ensures kept { AreKept leases.new.entries recalls.new.entries ends.new.entries }
    ensures recalls_room { length leases.new.entries ≤ recalls.new.places }
    ensures ends_room { length leases.new.entries ≤ ends.new.places }
    ensures len { length leases.new.entries ≤ length leases.old.entries + 1 }
    ensures taken { leases.new.taken ≤ leases.old.taken + 1 }
    ensures err_taken { OnErr result (leases.new.taken ≡ leases.old.taken) }
    ensures places { leases.old.places ≤ leases.new.places }
    ensures recalls_places { recalls.old.places ≤ recalls.new.places }
    ensures ends_places { ends.old.places ≤ ends.new.places }
    ensures same_len { IsSome (held_at leases.old.entries session file) → length leases.new.entries ≡ length leases.old.entries }
    ensures same_taken { IsSome (held_at leases.old.entries session file) → leases.new.taken ≤ leases.old.taken }
    ensures sure_there { IsSome (held_at leases.old.entries session file) → IsOk result }
    ensures sure { leases.old.taken < leases.old.places → length leases.old.entries < recalls.old.places → length leases.old.entries < ends.old.places → IsOk result }
{
    let held = LeaseEntry {
        ends: until,
        recall: None,
    };
    match leases.get((file, session)) {
        Some(old) => {
            replace(leases, recalls, ends, session, file, old, held);
            Ok(())
        }
        None => match reserve(leases, recalls, ends, 1) {
            Ok(()) => {
                add(leases, recalls, ends, session, file, held);
                Ok(())
            }
            Err(want) => Err(want),
        },
    }
}

/// The session has no lease on the file any more.
pub fn drop_one(leases: &mut Keyed, recalls: &mut Recalls, ends: &mut Ends, session: u32, file: u64)
    requires { AreKept leases.old.entries recalls.old.entries ends.old.entries }
    ensures leases { leases_of leases.new.entries ≡ without_lease (leases_of leases.old.entries) session file }
    ensures kept { AreKept leases.new.entries recalls.new.entries ends.new.entries }
    ensures len { length leases.new.entries ≤ length leases.old.entries }
    ensures less { IsSome (held_at leases.old.entries session file) → length leases.new.entries < length leases.old.entries }
    ensures taken { leases.new.taken ≤ leases.old.taken }
    ensures places { leases.new.places ≡ leases.old.places }
    ensures recalls_places { recalls.new.places ≡ recalls.old.places }
    ensures ends_places { ends.new.places ≡ ends.old.places }
{
    match leases.remove((file, session)) {
        Some(held) => unlist(recalls, ends, session, file, held),
        None => {}
    }
}

/// The lease that a session has on a file remembers a RECALL.
pub fn mark(
    leases: &mut Keyed,
    recalls: &mut Recalls,
    ends: &mut Ends,
    session: u32,
    file: u64,
    xid: u32,
)
    requires kept { AreKept leases.old.entries recalls.old.entries ends.old.entries }
    requires recalls_room { length leases.old.entries ≤ recalls.old.places }
    requires ends_room { length leases.old.entries ≤ ends.old.places }
    ensures leases { leases_of leases.new.entries ≡ marked (leases_of leases.old.entries) session file xid }
    ensures kept { AreKept leases.new.entries recalls.new.entries ends.new.entries }
    ensures len { length leases.new.entries ≡ length leases.old.entries }
    ensures taken { leases.new.taken ≤ leases.old.taken }
    ensures places { leases.old.places ≤ leases.new.places }
    ensures recalls_places { recalls.old.places ≤ recalls.new.places }
    ensures ends_places { ends.old.places ≤ ends.new.places }
{
    match leases.get((file, session)) {
        Some(old) => {
            let held = LeaseEntry {
                ends: old.ends,
                recall: Some(xid),
            };
            replace(leases, recalls, ends, session, file, old, held);
        }
        None => {}
    }
}

/// A session gives up one lease for which it was asked by the RECALL with this xid. Whether it had
/// one.
fn give_up_one(
    leases: &mut Keyed,
    recalls: &mut Recalls,
    ends: &mut Ends,
    session: u32,
    xid: u32,
) -> bool
    requires { AreKept leases.old.entries recalls.old.entries ends.old.entries }
    ensures same { without_recalled (leases_of leases.new.entries) session xid ≡ without_recalled (leases_of leases.old.entries) session xid }
    ensures none { result ≡ false → without_recalled (leases_of leases.new.entries) session xid ≡ leases_of leases.new.entries }
    ensures kept { AreKept leases.new.entries recalls.new.entries ends.new.entries }
    ensures less { length leases.new.entries + (if result then 1 else 0) ≤ length leases.old.entries }
    ensures taken { leases.new.taken ≤ leases.old.taken }
    ensures places { leases.new.places ≡ leases.old.places }
    ensures recalls_places { recalls.new.places ≡ recalls.old.places }
    ensures ends_places { ends.new.places ≡ ends.old.places }
{
    match one_recalled(recalls, session, xid) {
        Some(file) => {
            drop_one(leases, recalls, ends, session, file);
            true
        }
        None => false,
    }
}

/// A session gives up what it was asked for by the RECALL with this xid.
pub fn give_up(leases: &mut Keyed, recalls: &mut Recalls, ends: &mut Ends, session: u32, xid: u32)
    requires { AreKept leases.old.entries recalls.old.entries ends.old.entries }
    ensures leases { leases_of leases.new.entries ≡ without_recalled (leases_of leases.old.entries) session xid }
    ensures kept { AreKept leases.new.entries recalls.new.entries ends.new.entries }
    ensures len { length leases.new.entries ≤ length leases.old.entries }
    ensures taken { leases.new.taken ≤ leases.old.taken }
    ensures places { leases.new.places ≡ leases.old.places }
    ensures recalls_places { recalls.new.places ≡ recalls.old.places }
    ensures ends_places { ends.new.places ≡ ends.old.places }
{
    'answers: while give_up_one(leases, recalls, ends, session, xid) {}
}

/// Forgets one lease that has ended. Whether there was one.
fn forget_one(leases: &mut Keyed, recalls: &mut Recalls, ends: &mut Ends, now: u64) -> bool
    requires { AreKept leases.old.entries recalls.old.entries ends.old.entries }
    ensures same { without_ended (leases_of leases.new.entries) now ≡ without_ended (leases_of leases.old.entries) now }
    ensures none { result ≡ false → without_ended (leases_of leases.new.entries) now ≡ leases_of leases.new.entries }
    ensures kept { AreKept leases.new.entries recalls.new.entries ends.new.entries }
    ensures less { length leases.new.entries + (if result then 1 else 0) ≤ length leases.old.entries }
    ensures taken { leases.new.taken ≤ leases.old.taken }
    ensures places { leases.new.places ≡ leases.old.places }
    ensures recalls_places { recalls.new.places ≡ recalls.old.places }
    ensures ends_places { ends.new.places ≡ ends.old.places }
{
    match one_ended(ends, now) {
        Some((file, session)) => {
            drop_one(leases, recalls, ends, session, file);
            true
        }
        None => false,
    }
}

/// Forgets the leases that have ended.
pub fn forget_ended(leases: &mut Keyed, recalls: &mut Recalls, ends: &mut Ends, now: u64)
    requires { AreKept leases.old.entries recalls.old.entries ends.old.entries }
    ensures leases { leases_of leases.new.entries ≡ without_ended (leases_of leases.old.entries) now }
    ensures kept { AreKept leases.new.entries recalls.new.entries ends.new.entries }
    ensures len { length leases.new.entries ≤ length leases.old.entries }
    ensures taken { leases.new.taken ≤ leases.old.taken }
    ensures places { leases.new.places ≡ leases.old.places }
    ensures recalls_places { recalls.new.places ≡ recalls.old.places }
    ensures ends_places { ends.new.places ≡ ends.old.places }
{
    'endings: while forget_one(leases, recalls, ends, now) {}
}
