//! Leases under their keys, and what stands beside them (`specs/Kept.antt`).

ghost use Rattle.std.specs.Prelude.{◌≡◌, ◌≤◌, ◌<◌, ◌^◌, IfSome, IfNone, length, true, false, ℕ};
ghost use Rattle.std.specs.BTreeMap.{insert_entry, is_at};
ghost use Rattle.std.specs.Map.{remove_entry};
ghost use Rattle.lease_table.specs.Kept.{by_three, is_listed, listed, unlisted};

use crate::map::ReservedMap;
use lease_rules::lease::{LeaseEntry, first_recall, last_recall};

/// Leases by file, and by session within a file.
pub type Keyed = ReservedMap<(u64, u32), LeaseEntry>;

/// The RECALLs that leases remember, by session, xid and file.
pub type Recalls = ReservedMap<(u32, u32, u64), ()>;

/// When leases end, by reading, file and session.
pub type Ends = ReservedMap<(u64, u64, u32), ()>;

/// Takes out what stands beside a lease.
pub fn unlist(recalls: &mut Recalls, ends: &mut Ends, session: u32, file: u64, held: LeaseEntry)
    ensures recalls { recalls.new.entries ≡ unlisted recalls.old.entries session held.recall file }
    ensures recalls_places { recalls.new.places ≡ recalls.old.places }
    ensures ends { ends.new.entries ≡ remove_entry (is_at (by_three (held.ends, file, session))) ends.old.entries }
    ensures ends_places { ends.new.places ≡ ends.old.places }
{
    ends.remove((held.ends, file, session));
    if let Some(xid) = held.recall {
        recalls.remove((session, xid, file));
    }
}

/// Puts in what stands beside a lease. There are places.
pub fn list(recalls: &mut Recalls, ends: &mut Ends, session: u32, file: u64, held: LeaseEntry)
    requires recalls { length recalls.old.entries < recalls.old.places }
    requires ends { length ends.old.entries < ends.old.places }
    ensures recalls { recalls.new.entries ≡ listed recalls.old.entries session held.recall file }
    ensures recalls_places { recalls.old.places ≤ recalls.new.places }
    ensures ends { ends.new.entries ≡ insert_entry by_three ends.old.entries (held.ends, file, session) (record {}) }
    ensures ends_places { ends.old.places ≤ ends.new.places }
{
    ends.put((held.ends, file, session), ());
    if let Some(xid) = held.recall {
        recalls.put((session, xid, file), ());
    }
}

/// A file for whose lease the session was asked by the RECALL with this xid.
pub fn one_recalled(recalls: &Recalls, session: u32, xid: u32) -> Option<u64>
    ensures some { IfSome result (λ file. is_listed recalls.now.entries session xid file ≡ true) }
    ensures none { IfNone result ((file : ℕ) → file < 2 ^ 64 → is_listed recalls.now.entries session xid file ≡ false) }
{
    match recalls.one_between(first_recall(session, xid), last_recall(session, xid)) {
        Some((_, _, file)) => Some(file),
        None => None,
    }
}

/// The file and the session of a lease that has ended at this reading.
pub fn one_ended(ends: &Ends, now: u64) -> Option<(u64, u32)>
    ensures some { IfSome result (λ at. (reading : ℕ) × (reading ≤ now) × (is_listed ends.now.entries reading at.0 at.1 ≡ true)) }
    ensures none { IfNone result ((reading file session : ℕ) → reading ≤ now → file < 2 ^ 64 → session < 2 ^ 32 → is_listed ends.now.entries reading file session ≡ false) }
{
    match ends.one_between((0, 0, 0), (now, u64::MAX, u32::MAX)) {
        Some((_, file, session)) => Some((file, session)),
        None => None,
    }
}
