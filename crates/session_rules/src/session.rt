//! What is kept of a session beside the bytes on their way. `Session` in `specs/Session.antt` says
//! what that is.

ghost use Rattle.std.specs.Prelude.{◌≡◌, true};
ghost use Rattle.session_rules.specs.Session.{new_session, raw_session, is_raw};

use crate::taken_call::TakenCall;
use std::alloc::Global;
use std::marker::Model;

/// A session that was made.
pub struct Session {
    /// The number of its client, 0 where it is none's.
    pub owner: u64,
    /// The calls that the server took since the last operation began that sent some.
    pub taken: Vec<TakenCall>,
    /// The place of the last operation that sent calls on it and may change a file.
    pub closing: Option<usize>,
    /// Whether the client saw the connection lost.
    pub cut: bool,
    /// Whether the server saw the connection lost.
    pub hung: bool,
}

// Written by hand, it is proved here alone; derived, each crate above would prove how each part is let
// go.
impl Drop for Session {
    fn drop(self) {
        let Session {
            owner: _,
            taken,
            closing: _,
            cut: _,
            hung: _,
        } = self;
        drop(taken);
    }
}

impl Model for Session {
    ghost use Rattle.session_rules.specs.Session.{Session as CoreSession};

    ghost Value = { CoreSession };

    ghost view = { λ s. record { owner = s.owner; taken = s.taken.items; closing = s.closing; cut = s.cut; hung = s.hung } };
}

impl Session {
    /// A session of this client. It takes no memory.
    pub fn new(alloc: Global, owner: u64) -> Session
        ensures { result ≡ new_session owner }
    {
        Session {
            owner,
            taken: Vec::new(alloc),
            closing: None,
            cut: false,
            hung: false,
        }
    }

    /// A session that is no client's. It takes no memory.
    pub fn raw(alloc: Global) -> Session
        ensures { result ≡ raw_session }
    {
        let mut session = Session::new(alloc, 0);
        session.cut = true;
        session
    }

    /// Whether it is no client's.
    pub fn is_raw(&self) -> bool
        ensures { result ≡ is_raw self.now }
    {
        self.owner == 0
    }

    /// Whether the server saw the connection lost.
    pub fn is_hung(&self) -> bool
        ensures { result ≡ self.now.hung }
    {
        self.hung
    }

    /// The server sees the connection lost.
    pub fn hang(&mut self)
        ensures { self.new ≡ record self.old { hung = true } }
    {
        self.hung = true;
    }
}
