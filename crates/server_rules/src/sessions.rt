//! The sessions that stand: whether there is a place for one more, its number, and what goes with one
//! whose connection is lost. `specs/Sessions.antt` says it. None of this but `Sessions::join` takes memory.

ghost use Rattle.std.specs.Prelude.{◌≡◌, ◌+◌, ◌==◌, length, is_some, not, true, false, IfOk, IfSome, IfNone, OnErr};
ghost use Rattle.std.specs.List.{list_any};
ghost use Rattle.server_rules.specs.Sessions.{no_sessions, has_place, has_room, with_next, without};

use limits::{SESSIONS_EVER_MOST, SESSIONS_MOST};
use std::alloc::{AllocError, Global};
use std::collections::BTreeSet;
use std::marker::Model;

/// The sessions of a server: the numbers of those that stand, and how many were ever made. Whether one
/// stands is found by its number, and nothing is looked through for it.
#[derive(Drop)]
pub struct Sessions {
    /// The numbers of those that stand.
    standing: BTreeSet<u32>,
    /// How many were ever made. No number is higher.
    made: u32,
}

impl Model for Sessions {
    ghost use Rattle.std.specs.Prelude.{◌≤◌};
    ghost use Rattle.std.specs.List.{All};
    ghost use Rattle.server_rules.specs.Sessions.{Sessions as Seen};

    ghost Value = { Seen };

    ghost view = { λ s. record { standing = s.standing.keys; made = s.made } };

    ghost invariant = { λ s. All (λ k. k ≤ s.made) s.standing.keys };
}

/// The number of one session more, where so many stand and so many were ever made: no session had it before.
/// There is none where there is no place.
fn next_session(standing: usize, made: u32) -> Option<u32>
    ensures place { IfSome result (λ session. has_place standing made ≡ true) }
    ensures number { IfSome result (λ session. session ≡ made + 1) }
    ensures none { IfNone result (has_place standing made ≡ false) }
{
    if standing >= SESSIONS_MOST || u64::from(made) >= SESSIONS_EVER_MOST {
        return None;
    }
    Some(made + 1)
}

impl Sessions {
    /// No sessions.
    pub fn new(alloc: Global) -> Sessions
        ensures { result ≡ no_sessions }
    {
        Sessions {
            standing: BTreeSet::new(alloc),
            made: 0,
        }
    }

    /// How many stand.
    pub fn len(&self) -> usize
        ensures { result ≡ length self.now.standing }
    {
        self.standing.len()
    }

    /// Whether a session stands.
    pub fn stands(&self, session: u32) -> bool
        ensures { result ≡ list_any (λ k. k == session) self.now.standing }
    {
        self.standing.contains(&session)
    }

    /// Makes one session more and tells its number, or tells none where there is no place. The one error
    /// is running out of memory, which comes only where there is a place, and all then stays as it was.
    pub fn join(&mut self) -> Result<Option<u32>, AllocError>
        ensures room { IfOk result (λ made. is_some made ≡ has_room self.old) }
        ensures number { IfOk result (λ made. IfSome made (λ session. session ≡ self.old.made + 1)) }
        ensures joined { IfOk result (λ made. IfSome made (λ session. self.new ≡ with_next self.old)) }
        ensures full { IfOk result (λ made. IfNone made (self.new ≡ self.old)) }
        ensures sure { OnErr result (has_room self.old ≡ true) }
        ensures err { OnErr result (self.new ≡ self.old) }
    {
        let Some(session) = next_session(self.standing.len(), self.made) else {
            return Ok(None);
        };
        self.standing.insert(session)?;
        self.made = session;
        Ok(Some(session))
    }

    /// A session stands no longer, if it did; the others do.
    pub fn leave(&mut self, session: u32)
        ensures { self.new ≡ without self.old session }
    {
        self.standing.remove(&session);
    }
}

/// Whether what is a session's stays where the connection of one is lost.
pub fn stays(owner: u32, lost: u32) -> bool
    ensures { result ≡ not (owner == lost) }
{
    owner != lost
}

/// Whether what has this owner is the session's, and so goes to it and to no other.
pub fn is_of(owner: u32, session: u32) -> bool
    ensures { result ≡ (owner == session) }
{
    owner == session
}
