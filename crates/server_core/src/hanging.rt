//! What goes with a session whose connection is lost. `hangs` in `specs/Step.antt` says it.

ghost use Rattle.std.specs.Prelude.{◌≡◌, ◌≤◌, false};
ghost use Rattle.server_core.specs.State.{entries_held};
ghost use Rattle.server_core.specs.Step.{stands, hangs_if};
ghost use Rattle.server_core.specs.View.{state_of, IsBounded};

use crate::event::ServerStep;
use crate::state::ServerState;
use crate::steps;
use std::alloc::Global;

impl ServerState {
    /// A session's connection is lost: it goes, and with it its temporary files, and its change that
    /// waits. Its leases stay until they end. It takes no memory.
    pub fn hang(&mut self, alloc: Global, session: u32) -> ServerStep
        requires { IsBounded self.old }
        ensures exact { hangs_if (state_of self.old) (stands (state_of self.old) session) session ≡ (state_of self.new, result) }
        ensures done { result.missed ≡ false }
        ensures bounded { IsBounded self.new }
        ensures tree { self.new.tree ≡ self.old.tree }
        ensures fewer { entries_held self.new.waits.waits ≤ entries_held self.old.waits.waits }
    {
        if !self.sessions.stands(session) {
            return steps::nothing(alloc);
        }
        let change = self.waits.hang(session);
        drop(change);
        self.calls.hang(session);
        self.temps.drop_session(session);
        self.sessions.leave(session);
        steps::nothing(alloc)
    }
}
