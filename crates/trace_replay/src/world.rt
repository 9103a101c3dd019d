//! The world that a trace runs in, with its clocks. `specs/Timed.antt` says what a line makes of
//! both.

ghost use Rattle.std.specs.Prelude.{◌≡◌, length, IfOk, IfErr, OnOk};
ghost use Rattle.trace_text.specs.Reading.{IsTimely};
ghost use Rattle.trace_replay.specs.Timed.{timed_start, timed_asked};
ghost use Rattle.trace_replay.specs.World.{history_of};
ghost use Rattle.trace_replay.specs.Run.{in_header};
ghost use Rattle.trace_replay.specs.Turns.{IsApplied, IsRefused};

use crate::fault::{TraceError, refusal};
use crate::stage::Stage;
use crate::state::WorldState;
use crate::timing::{Times, timing_of};
use crate::turn::asked;
use clock_rule::rule::NoteError;
use register_model::history::History;
use std::alloc::{AllocError, Global};
use std::marker::Model;
use trace_text::line::Line;
use trace_text::refusal::LineFault;

/// The two ends of a trace, what is on its way between them, and their clocks.
pub struct World {
    state: WorldState,
    times: Times,
}

// Written by hand, it is proved here alone; derived, each crate above would prove how each part is
// dropped.
impl Drop for World {
    fn drop(self) {
        let World { state, times } = self;
        drop(state);
        drop(times);
    }
}

impl Model for World {
    ghost use Rattle.trace_replay.specs.Timed.{Timed};

    ghost Value = { Timed };

    ghost use Rattle.trace_replay.specs.WorldView.{world_of, timed_of};

    ghost view = { λ w. timed_of w.state w.times };
}

impl World {
    /// The world before the first line. The one error is running out of memory.
    pub fn new(alloc: Global) -> Result<World, AllocError>
        ensures { IfOk result (λ world. world ≡ timed_start) }
    {
        let state = WorldState::new(alloc)?;
        Ok(World {
            state,
            times: Times::new(alloc),
        })
    }

    /// Does what the line of this number says, whose readings have at most 63 bits, as those of
    /// every line that was read. `Refused` with that number: the line is outside the
    /// grammar or stands out of place, or breaks a limit, or else its readings break the clock rule,
    /// and the world stays as it was. `Memory`: the world may be left half-way, and is of no further
    /// use.
    pub fn apply(&mut self, alloc: Global, number: u64, line: Line) -> Result<(), TraceError>
        requires { IsTimely line }
        ensures ok { OnOk result (IsApplied self.old number line self.new) }
        ensures err { IfErr result (λ e. IsRefused e self.old number line self.new) }
    {
        let timing = timing_of(&self.state.core.sessions, &line);
        let turn = match asked(&self.state, number, line) {
            Ok(turn) => turn,
            Err(fault) => return Err(refusal(number, fault)),
        };
        match self.times.take(alloc, timing) {
            Ok(()) => {}
            Err(NoteError::Fault(fault)) => {
                drop(turn);
                return Err(refusal(number, LineFault::Clock(fault)));
            }
            Err(NoteError::Memory) => {
                drop(turn);
                return Err(TraceError::Memory);
            }
        }
        self.state.take(alloc, turn)?;
        Ok(())
    }

    /// Whether lines of the header are still wanted.
    pub fn in_header(&self) -> bool
        ensures { result ≡ in_header self.now.world.stage }
    {
        matches!(
            self.state.stage,
            Stage::Version | Stage::Term | Stage::Drift | Stage::Clients
        )
    }

    /// How many changes the server's journal has.
    pub fn journal(&self) -> usize
        ensures { result ≡ length self.now.world.core.server.journal }
    {
        self.state.core.server.journal().len()
    }

    /// The history that the world has come to. The ends are dropped before the bytes of the opening
    /// files are made. The one error is running out of memory.
    pub fn history(self, alloc: Global) -> Result<History, AllocError>
        ensures { IfOk result (λ history. history ≡ history_of self.world) }
    {
        let World { state, times } = self;
        drop(times);
        state.history(alloc)
    }
}
