//! Which change may be made next (`ready` in `specs/Waits.antt`).

ghost use Rattle.std.specs.Prelude.{◌≡◌, ◌<◌, None, Some, not, take, length, slice_get, slice_index_or, IfSome, Option};
ghost use Rattle.std.specs.List.{list_any};
ghost use Rattle.callback_core.specs.Waits.{is_free, ready, change_of, has_wait, waits_on};
ghost use Rattle.lease_rules.specs.Places.{place_in};

use lease_rules::change::{PendingChange, waits_behind};
use lease_table::table::Leases;

/// Whether no lease holds a change up.
fn is_free<P>(leases: &Leases, change: &PendingChange<P>, now: u64) -> bool
    ensures { result ≡ is_free leases.now.leases now change.now }
{
    !leases.blocked(change.file, change.asker(), now)
}

/// Where the change that is made next waits.
pub fn place_of_ready<P>(waits: &Vec<PendingChange<P>>, leases: &Leases, now: u64) -> Option<usize>
    ensures within { IfSome result (λ at. at < length waits.now.items) }
    ensures ready { ready leases.now.leases now waits.now.items ≡ place_in waits.now.items result }
{
    for at in 0..waits.len() {
        let change = &waits[at];
        let behind = waits_behind(&waits[..at], change);
        if !behind && is_free(leases, change, now) {
            return Some(at);
        }
    }
    None
}

/// Where a session's change waits.
pub fn place_of<P>(waits: &Vec<PendingChange<P>>, session: u32) -> Option<usize>
    ensures within { IfSome result (λ at. at < length waits.now.items) }
    ensures change { change_of waits.now.items session ≡ place_in waits.now.items result }
{
    for at in 0..waits.len() {
        if waits[at].session == session {
            return Some(at);
        }
    }
    None
}

/// Whether a change of the session waits.
pub fn has<P>(waits: &Vec<PendingChange<P>>, session: u32) -> bool
    ensures { result ≡ has_wait waits.now.items session }
{
    waits.iter().any(|change| change.session == session)
}

/// Whether a change of the file waits.
pub fn waits_on<P>(waits: &Vec<PendingChange<P>>, file: u64) -> bool
    ensures { result ≡ waits_on waits.now.items file }
{
    waits.iter().any(|change| change.is_about(file))
}
