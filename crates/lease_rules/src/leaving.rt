//! How a change that waits leaves: it is made, or the connection of its session is lost
//! (`specs/Places.antt`). The leases are lent to the second, which may not touch them.

ghost use Rattle.std.specs.Prelude.{◌≡◌, ◌+◌, ◌<◌, ◌≤◌, ℕ, List, IfSome, length, vec_len, vec_capacity};
ghost use Rattle.lease_rules.specs.Leases.{without_ended};
ghost use Rattle.lease_rules.specs.Places.{place_in, without_place, places_of};
ghost use Rattle.lease_rules.specs.declared.lease.Lease.{Lease};

use crate::change::PendingChange;

/// Who keeps leases.
pub trait KeepsLeases {
    /// The leases.
    ghost leases: { Self → List Lease };

    /// How many more there is room for.
    ghost room: { Self → ℕ };

    /// Forgets the leases that have ended at this reading of the server's clock. It takes no
    /// memory.
    fn forget_ended(&mut self, now: u64)
        ensures leases { leases self.new ≡ without_ended (leases self.old) now }
        ensures room { room self.old ≤ room self.new };
}

/// Takes out the change at a place, if there is one.
pub fn take_out<P>(waits: &mut Vec<PendingChange<P>>, at: Option<usize>) -> Option<PendingChange<P>>
    requires { IfSome at (λ i. i < length waits.old.items) }
    ensures change { result ≡ place_in waits.old.items at }
    ensures rest { waits.new.items ≡ without_place waits.old.items at }
    ensures len { vec_len waits.new + places_of result ≡ vec_len waits.old }
    ensures capacity { vec_capacity waits.new ≡ vec_capacity waits.old }
{
    match at {
        Some(at) => Some(waits.remove(at)),
        None => None,
    }
}

/// The connection of a session is lost whose change waits at this place, if it has one. The change
/// goes. The session's leases stay: its client may go by each until it ends.
pub fn hang<L: KeepsLeases, P>(
    leases: &mut L,
    waits: &mut Vec<PendingChange<P>>,
    at: Option<usize>,
) -> Option<PendingChange<P>>
    requires { IfSome at (λ i. i < length waits.old.items) }
    ensures change { result ≡ place_in waits.old.items at }
    ensures rest { waits.new.items ≡ without_place waits.old.items at }
    ensures len { vec_len waits.new + places_of result ≡ vec_len waits.old }
    ensures capacity { vec_capacity waits.new ≡ vec_capacity waits.old }
    ensures leases { L.leases leases.new ≡ L.leases leases.old }
    ensures room { L.room leases.new ≡ L.room leases.old }
{
    // The contract alone names it.
    let _leases = leases;
    take_out(waits, at)
}
