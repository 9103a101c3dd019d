//! The two ends of a trace, and what happens to them. `Core` in `specs/Core.antt` says what they are,
//! and `happens` what each event makes of them. An event is a method of `Core`, in a module of its own.

ghost use Rattle.std.specs.Prelude.{◌≡◌, ◌+◌, [], ◌++◌, replicate, IfOk, OnOk};
ghost use Rattle.server_core.specs.State.{empty, with_term};
ghost use Rattle.server_core.specs.Step.{opens_with};
ghost use Rattle.std.specs.List.{list_any};
ghost use Rattle.trace_ends.specs.Session.{new_seat, is_raw};
ghost use Rattle.trace_ends.specs.View.{core_of};

use crate::seat::Seat;
use lb_base::items::Name;
use register_model::op::Op;
use register_model::raw::Raw;
use server_core::server::Server;
use session_rules::session::Session;
use std::alloc::{AllocError, Global};
use tree_nodes::node::Body;

/// The server, the clients, and what the history tells of them, without the bytes between them.
pub struct Core {
    pub server: Server,
    /// How far a client's clock and the server's may drift apart while a lease lasts, in milliseconds.
    pub drift: u64,
    /// The version of LBFS that the clients speak.
    pub lbfs: u32,
    /// The clients, by their numbers.
    pub seats: Vec<Seat>,
    /// The sessions that were ever made, by their numbers.
    pub sessions: Vec<Session>,
    /// How many steps there were.
    pub steps: u64,
    pub ops: Vec<Op>,
    /// The step of each change in the server's journal.
    pub entries: Vec<u64>,
    /// Of each session the step in which the server took the last message of it while no change of it
    /// waited.
    pub came: Vec<u64>,
    /// The changes of files that sessions made which are no client's.
    pub raws: Vec<Raw>,
}

// Written by hand, it is proved here alone; derived, each crate above would prove how each part is
// dropped.
impl Drop for Core {
    fn drop(self) {
        let Core {
            server,
            drift: _,
            lbfs: _,
            seats,
            sessions,
            steps: _,
            ops,
            entries,
            came,
            raws,
        } = self;
        drop(server);
        drop(seats);
        drop(sessions);
        drop(ops);
        drop(entries);
        drop(came);
        drop(raws);
    }
}

/// The count with so many steps more. No run comes to 2^64 steps, so there it is running out of
/// memory.
pub fn count_on(steps: u64, more: u64) -> Result<u64, AllocError>
    ensures { IfOk result (λ n. n ≡ steps + more) }
{
    steps.checked_add(more).ok_or(AllocError)
}

/// Adds so many clients, none of which has joined.
fn seat_more(
    alloc: Global,
    seats: &mut Vec<Seat>,
    drift: u64,
    lbfs: u32,
    count: u64,
) -> Result<(), AllocError>
    ensures { OnOk result (seats.new.items ≡ seats.old.items ++ replicate count (new_seat drift lbfs)) }
{
    for _i in 0..count {
        seats.push(Seat::new(alloc, drift, lbfs)?)?;
    }
    Ok(())
}

/// Whether one of these sessions is no client's.
fn is_any_raw(sessions: &[Session]) -> bool
    ensures { result ≡ list_any is_raw sessions.now }
{
    for session in sessions {
        if session.is_raw() {
            return true;
        }
    }
    false
}

impl Core {
    /// No file, no client and no session. The one error is running out of memory.
    pub fn new(alloc: Global) -> Result<Core, AllocError>
        ensures { IfOk result (λ core. core_of core ≡ record { server = empty; drift = 0; lbfs = 1; seats = []; sessions = []; steps = 0; ops = []; entries = []; came = []; raws = [] }) }
    {
        let server = Server::new(alloc, 0)?;
        Ok(Core {
            server,
            drift: 0,
            lbfs: 1,
            seats: Vec::new(alloc),
            sessions: Vec::new(alloc),
            steps: 0,
            ops: Vec::new(alloc),
            entries: Vec::new(alloc),
            came: Vec::new(alloc),
            raws: Vec::new(alloc),
        })
    }

    /// The tree opens with a file or directory of this name, where that is free in the directory. The one
    /// error is running out of memory, and all then stays as it was.
    pub fn open(&mut self, dir: u64, name: Name, body: Body) -> Result<(), AllocError>
        ensures { OnOk result (core_of self.new ≡ record (core_of self.old) { server = opens_with (core_of self.old).server dir name body }) }
    {
        self.server.open(dir, name, body)
    }

    /// The server grants leases for this term from now on, in milliseconds.
    pub fn set_term(&mut self, term: u32)
        ensures { core_of self.new ≡ record (core_of self.old) { server = with_term (core_of self.old).server term } }
    {
        self.server.set_term(term);
    }

    /// The clients that come take their clocks and the server's to drift apart so far, in milliseconds.
    pub fn set_drift(&mut self, drift: u64)
        ensures { core_of self.new ≡ record (core_of self.old) { drift = drift } }
    {
        self.drift = drift;
    }

    /// The clients that come speak this version of LBFS.
    pub fn set_lbfs(&mut self, lbfs: u32)
        ensures { core_of self.new ≡ record (core_of self.old) { lbfs = lbfs } }
    {
        self.lbfs = lbfs;
    }

    /// Whether there is a session that is no client's.
    pub fn has_raw(&self) -> bool
        ensures { result ≡ list_any is_raw self.now.sessions.items }
    {
        is_any_raw(self.sessions.as_slice())
    }

    /// Puts `count` clients in the place of those that are there, none of which has joined. The one error
    /// is running out of memory.
    pub fn seat_all(&mut self, alloc: Global, count: u64) -> Result<(), AllocError>
        ensures { OnOk result (core_of self.new ≡ record (core_of self.old) { seats = replicate count (new_seat self.old.drift self.old.lbfs) }) }
    {
        self.seats.clear();
        seat_more(alloc, &mut self.seats, self.drift, self.lbfs, count)
    }

    /// The operations, the changes by sessions that are no client's, and the number of steps. The ends
    /// are dropped.
    pub fn history(self) -> (Vec<Op>, Vec<Raw>, u64)
        ensures { (result.0.items ≡ self.ops.items) × (result.1.items ≡ self.raws.items) × (result.2 ≡ self.steps) }
    {
        let Core {
            server,
            drift: _,
            lbfs: _,
            seats,
            sessions,
            steps,
            ops,
            entries,
            came,
            raws,
        } = self;
        drop(server);
        drop(seats);
        drop(sessions);
        drop(entries);
        drop(came);
        (ops, raws, steps)
    }
}
