//! A lease. `specs/Leases.antt` says until when it stands, when it holds a change up, and which answer
//! gives it up.

ghost use Rattle.std.specs.Prelude.{◌≡◌, ◌+◌, ◌<◌, ◌^◌};
ghost use Rattle.lease_rules.specs.Leases.{blocks, is_wanted_back, lease_from, first_recall, last_recall};

/// A session's lease on a file: until it ends, no change of the file is made before the session
/// gave it up.
#[derive(Clone, Copy)]
pub struct Lease {
    /// The session that has it.
    pub session: u32,
    /// The id of the file.
    pub file: u64,
    /// The first reading of the server's clock at which it stands no more, in milliseconds.
    pub ends: u64,
    /// The xid of the RECALL that asked for it back, if one did.
    pub recall: Option<u32>,
}

/// What is kept of a lease under its file and its session.
#[derive(Clone, Copy)]
pub struct LeaseEntry {
    /// The first reading of the server's clock at which it stands no more, in milliseconds.
    pub ends: u64,
    /// The xid of the RECALL that asked for it back, if one did.
    pub recall: Option<u32>,
}

/// The first reading at which a lease stands no more that is granted at this reading, for this term.
pub fn end_of(now: u64, term: u32) -> u64
    requires { now + term < 2 ^ 64 }
    ensures { result ≡ now + term }
{
    now + u64::from(term)
}

/// Whether a lease on the file holds up a change of it that the session asked for.
pub fn blocks(key: &(u64, u32), held: &LeaseEntry, file: u64, session: u32, now: u64) -> bool
    ensures { result ≡ blocks (lease_from (key.now, held.now)) session file now }
{
    key.0 == file && (session == 0 || key.1 != session) && now < held.ends
}

/// Whether a lease on the file is to be asked for back.
pub fn is_wanted_back(
    key: &(u64, u32),
    held: &LeaseEntry,
    file: u64,
    session: u32,
    now: u64,
) -> bool
    ensures { result ≡ is_wanted_back (lease_from (key.now, held.now)) session file now }
{
    blocks(key, held, file, session, now) && held.recall.is_none()
}

/// Under which session, xid and file stands what the RECALL with this xid asked the session for: the
/// first place.
pub fn first_recall(session: u32, xid: u32) -> (u32, u32, u64)
    ensures { result ≡ first_recall session xid }
{
    (session, xid, 0)
}

/// The last such place.
pub fn last_recall(session: u32, xid: u32) -> (u32, u32, u64)
    ensures { result ≡ last_recall session xid }
{
    (session, xid, u64::MAX)
}
