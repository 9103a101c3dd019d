//! The client's clock, and the notes of its leases: `specs/Noting.antt`.

ghost use Rattle.std.specs.Prelude.{◌≡◌};
ghost use Rattle.client_state.specs.Noting.{at, asks_lease, unnoted, noted, noted_until};
ghost use Rattle.client_state.specs.View.{state_of, IsSound};

use crate::state::ClientState;
use lease_rules::note::note_until;

/// What an answer grants beside what it tells: a lease on a file that has this version.
#[derive(Clone, Copy, Drop)]
pub struct Granted {
    /// The file's version.
    pub version: u64,
    /// How long the lease holds, in milliseconds; 0 where there is none.
    pub term: u32,
}

impl ClientState {
    /// The client's clock shows this, in milliseconds.
    pub fn set_clock(&mut self, now: u64)
        requires { IsSound self.old }
        ensures rest { state_of self.new ≡ at (state_of self.old) now }
        ensures sound { IsSound self.new }
    {
        self.clock = now;
    }

    /// A call goes out that may bring a lease.
    pub fn mark_sent(&mut self)
        requires { IsSound self.old }
        ensures rest { state_of self.new ≡ asks_lease (state_of self.old) }
        ensures sound { IsSound self.new }
    {
        self.sent = self.clock;
    }

    /// What is noted of a file goes. It takes no memory.
    pub fn drop_note(&mut self, file: u64)
        requires { IsSound self.old }
        ensures rest { state_of self.new ≡ unnoted (state_of self.old) file }
        ensures sound { IsSound self.new }
    {
        self.cache.recall(file);
    }

    /// A lease on a file is noted, if one was granted, in answer to a call that went out at this reading. It
    /// takes no memory.
    pub fn note(&mut self, sent: u64, file: u64, granted: Option<Granted>)
        requires { IsSound self.old }
        ensures rest { state_of self.new ≡ noted (state_of self.old) sent file granted }
        ensures sound { IsSound self.new }
    {
        match granted {
            Some(granted) => {
                let until = note_until(sent, self.clock, granted.term, self.drift);
                self.note_at(file, granted.version, until);
            }
            None => {}
        }
    }

    /// A lease on a file in this version is noted until this reading, if there is one.
    fn note_at(&mut self, file: u64, version: u64, until: Option<u128>)
        requires { IsSound self.old }
        ensures rest { state_of self.new ≡ noted_until (state_of self.old) file version until }
        ensures sound { IsSound self.new }
    {
        match until {
            Some(until) => self.cache.note_lease(file, version, until),
            None => {}
        }
    }
}
