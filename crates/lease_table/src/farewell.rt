//! A session gives all of its leases up (`without_session` in `specs/Leases.antt`). They lie by file,
//! so all leases are passed over, from the file of the last one found on.

ghost use Rattle.std.specs.Prelude.{◌≡◌, ◌+◌, ◌<◌, ◌≤◌, ◌&&◌, ◌==◌, length, IsSome, IfSome, IfNone, All, find, false, if◌then◌else◌};
ghost use Rattle.std.specs.BTreeMap.Range.{range_contains};
ghost use Rattle.std.specs.Map.{keys_of};
ghost use Rattle.std.specs.Option.{option_map};
ghost use Rattle.std.specs.declared.ops.Bound.TheVariants.{Included};
ghost use Rattle.lease_table.specs.Leases.{without_session};
ghost use Rattle.lease_table.specs.Kept.{AreKept, FitsKey, by_two, held_at, leases_of};

use crate::changes::drop_one;
use crate::keyed::{Ends, Keyed, Recalls};
use crate::range::is_within;
use lease_rules::lease::LeaseEntry;
use std::collections::btree_map::Range;

/// The file of the first of these leases that is the session's.
fn held_by(leases: Range<'_, (u64, u32), LeaseEntry>, session: u32) -> Option<u64>
    ensures { result ≡ option_map (λ e. e.0.0) (find (λ e. e.0.1 == session) leases.entry) }
{
    for (key, _held) in leases {
        if key.1 == session {
            return Some(key.0);
        }
    }
    None
}

/// The file of the first of these leases that is the session's, and on this file or a later one.
fn spared_by(leases: &[((u64, u32), LeaseEntry)], session: u32, from: u64) -> Option<u64>
    ensures { result ≡ option_map (λ e. e.0.0) (find (λ e. range_contains by_two (Included (from, 0)) (Included (18446744073709551615, 4294967295)) e.0 && e.0.1 == session) leases.now) }
{
    match leases.iter().find(|(key, _)| is_within(key, &(from, 0), &(u64::MAX, u32::MAX))
        && key.1 == session)
    {
        Some((key, _)) => Some(key.0),
        None => None,
    }
}

/// A file, from this one on, on which the session has a lease.
fn one_of(leases: &Keyed, session: u32, from: u64) -> Option<u64>
    requires { All FitsKey (keys_of leases.now.entries) }
    ensures some { IfSome result (λ file. IsSome (held_at leases.now.entries session file)) }
    ensures none { IfNone result (from ≡ 0 → without_session (leases_of leases.now.entries) session ≡ leases_of leases.now.entries) }
{
    let (held, spared) = leases.parts((from, 0), (u64::MAX, u32::MAX));
    match spared_by(spared, session, from) {
        Some(file) => Some(file),
        None => held_by(held, session),
    }
}

/// A session gives up one lease, on a file from this one on. On which, if it had one there.
fn give_up_from(
    leases: &mut Keyed,
    recalls: &mut Recalls,
    ends: &mut Ends,
    session: u32,
    from: u64,
) -> Option<u64>
    requires { AreKept leases.old.entries recalls.old.entries ends.old.entries }
    ensures same { without_session (leases_of leases.new.entries) session ≡ without_session (leases_of leases.old.entries) session }
    ensures none { IfNone result (from ≡ 0 → without_session (leases_of leases.new.entries) session ≡ leases_of leases.new.entries) }
    ensures kept { AreKept leases.new.entries recalls.new.entries ends.new.entries }
    ensures less { IfSome result (λ file. length leases.new.entries < length leases.old.entries) }
    ensures len { length leases.new.entries ≤ length leases.old.entries }
    ensures taken { leases.new.taken ≤ leases.old.taken }
    ensures places { leases.new.places ≡ leases.old.places }
    ensures recalls_places { recalls.new.places ≡ recalls.old.places }
    ensures ends_places { ends.new.places ≡ ends.old.places }
{
    match one_of(leases, session, from) {
        Some(file) => {
            drop_one(leases, recalls, ends, session, file);
            Some(file)
        }
        None => None,
    }
}

/// A session gives up the leases that one pass finds. Whether it had one.
fn give_up_found(leases: &mut Keyed, recalls: &mut Recalls, ends: &mut Ends, session: u32) -> bool
    requires { AreKept leases.old.entries recalls.old.entries ends.old.entries }
    ensures same { without_session (leases_of leases.new.entries) session ≡ without_session (leases_of leases.old.entries) session }
    ensures none { result ≡ false → without_session (leases_of leases.new.entries) session ≡ leases_of leases.new.entries }
    ensures kept { AreKept leases.new.entries recalls.new.entries ends.new.entries }
    ensures less { length leases.new.entries + (if result then 1 else 0) ≤ length leases.old.entries }
    ensures taken { leases.new.taken ≤ leases.old.taken }
    ensures places { leases.new.places ≡ leases.old.places }
    ensures recalls_places { recalls.new.places ≡ recalls.old.places }
    ensures ends_places { ends.new.places ≡ ends.old.places }
{
    let mut from = 0;
    let mut found = false;
    'files: while let Some(file) = give_up_from(leases, recalls, ends, session, from) {
        from = file;
        found = true;
    }
    found
}

/// A session gives up all of its leases. A second pass finds what the first left, which is what
/// stands in reserved places on files before the last one found.
pub fn give_up_all(leases: &mut Keyed, recalls: &mut Recalls, ends: &mut Ends, session: u32)
    requires { AreKept leases.old.entries recalls.old.entries ends.old.entries }
    ensures leases { leases_of leases.new.entries ≡ without_session (leases_of leases.old.entries) session }
    ensures kept { AreKept leases.new.entries recalls.new.entries ends.new.entries }
    ensures len { length leases.new.entries ≤ length leases.old.entries }
    ensures taken { leases.new.taken ≤ leases.old.taken }
    ensures places { leases.new.places ≡ leases.old.places }
    ensures recalls_places { recalls.new.places ≡ recalls.old.places }
    ensures ends_places { ends.new.places ≡ ends.old.places }
{
    'passes: while give_up_found(leases, recalls, ends, session) {}
}
