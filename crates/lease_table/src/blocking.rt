//! Which leases hold up a change of a file (`is_blocked` and `others` in `specs/Leases.antt`). Only
//! the leases on the file are looked at, and those in reserved places.

ghost use Rattle.std.specs.Prelude.{◌≡◌, ◌<◌, ◌||◌, ◌&&◌, IfOk, filter, map, All};
ghost use Rattle.std.specs.BTreeMap.Range.{range_contains};
ghost use Rattle.std.specs.List.{list_any};
ghost use Rattle.std.specs.Map.{keys_of};
ghost use Rattle.std.specs.declared.ops.Bound.TheVariants.{Included};
ghost use Rattle.lease_table.specs.Leases.{is_blocked, others, blocks};
ghost use Rattle.lease_table.specs.Kept.{FitsKey, by_two, lease_from, leases_of};

use crate::keyed::Keyed;
use crate::range::is_within;
use lb_base::items::Items;
use lease_rules::lease::{LeaseEntry, blocks, is_wanted_back};
use std::alloc::{AllocError, Global};
use std::collections::btree_map::Range;

/// Whether one of these leases holds up a change of the file.
fn any_blocks(
    mut leases: Range<'_, (u64, u32), LeaseEntry>,
    file: u64,
    session: u32,
    now: u64,
) -> bool
    ensures { result ≡ list_any (λ e. blocks (lease_from e) session file now) leases.entry }
{
    leases.any(|(key, held)| blocks(key, held, file, session, now))
}

/// Whether one of these leases that stands on the file holds up a change of it.
fn any_spared_blocks(leases: &[((u64, u32), LeaseEntry)], file: u64, session: u32, now: u64) -> bool
    ensures { result ≡ list_any (λ e. range_contains by_two (Included (file, 0)) (Included (file, 4294967295)) e.0 && blocks (lease_from e) session file now) leases.now }
{
    leases.iter().any(|(key, held)| {
        is_within(key, &(file, 0), &(file, u32::MAX)) && blocks(key, held, file, session, now)
    })
}

/// Whether a lease holds up a change of the file.
pub fn blocked(leases: &Keyed, file: u64, session: u32, now: u64) -> bool
    requires { All FitsKey (keys_of leases.now.entries) }
    ensures { result ≡ is_blocked (leases_of leases.now.entries) session file now }
{
    let (held, spared) = leases.parts((file, 0), (file, u32::MAX));
    any_spared_blocks(spared, file, session, now) || any_blocks(held, file, session, now)
}

/// The sessions of those of these leases that are to be asked for back.
fn wanted_back(
    alloc: Global,
    leases: &[((u64, u32), LeaseEntry)],
    file: u64,
    session: u32,
    now: u64,
) -> Result<Items<u32>, AllocError>
    ensures { IfOk result (λ sessions. sessions ≡ others (leases_of leases.now) session file now) }
{
    let mut sessions = Vec::new(alloc);
    for (key, held) in leases {
        if is_wanted_back(key, held, file, session, now) {
            sessions.push(key.1)?;
        }
    }
    Ok(Items::from_vec(sessions))
}

/// The sessions whose leases are to be asked for back.
pub fn others(
    alloc: Global,
    leases: &Keyed,
    file: u64,
    session: u32,
    now: u64,
) -> Result<Items<u32>, AllocError>
    requires { All FitsKey (keys_of leases.now.entries) }
    ensures { IfOk result (λ sessions. sessions ≡ others (leases_of leases.now.entries) session file now) }
{
    let here = leases.between(alloc, (file, 0), (file, u32::MAX))?;
    wanted_back(alloc, &here, file, session, now)
}
