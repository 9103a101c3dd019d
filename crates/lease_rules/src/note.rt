//! How long a client may go by a lease, by its own clock (`note_until` in `specs/Leases.antt`).

ghost use Rattle.std.specs.Prelude.{◌≡◌};
ghost use Rattle.lease_rules.specs.Leases.{note_until};

/// The first reading of its clock at which a client goes no more by a lease that an answer grants
/// for this term: the lease began at the server behind the call, which was sent at the reading
/// `sent`, and clocks drift apart. None where the term isn't above the drift. `now` is the reading
/// at which the answer came, and says nothing. All are in milliseconds, and the sum may pass 64 bits.
pub fn note_until(sent: u64, now: u64, term: u32, drift: u64) -> Option<u128>
    ensures { result ≡ note_until sent term drift }
{
    // It is lent so that a note which counts from the answer is a bug that can be tried (`must-fail`).
    let _now = now;
    let term = u64::from(term);
    let is_above = term > drift;
    if !is_above {
        return None;
    }
    Some(u128::from(sent) + u128::from(term - drift))
}
