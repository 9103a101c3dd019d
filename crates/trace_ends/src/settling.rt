//! A change that waits at the server is made. `settles` in `specs/Core.antt` says what that makes of
//! the two ends.

ghost use Rattle.std.specs.Prelude.{◌≡◌, ◌<◌, ◌^◌, IfOk, OnOk};
ghost use Rattle.trace_ends.specs.Core.{changed_entry, newest_entries, raws_on, happens, Event.Settles};
ghost use Rattle.trace_ends.specs.Numbers.{numbered};
ghost use Rattle.trace_ends.specs.View.{core_of, core_step_of};

use crate::core_step::CoreStep;
use crate::entering::{changed_by, enter};
use crate::raw_changes::put_raw;
use crate::world_core::{Core, count_on};
use server_core::event::{Event, drop_step};
use server_rules::told::Told;
use session_rules::numbers::place_of;
use session_rules::pointing::settle_session;
use std::alloc::{AllocError, Global};

/// A change of this session was made in this step, as the last `made` entries of the journal tell it,
/// where that is no client's.
fn settle_raw(alloc: Global, core: &mut Core, session: u32, made: u32) -> Result<(), AllocError>
    ensures { OnOk result (core_of core.new
        ≡ record (core_of core.old) {
          raws = raws_on core.old.raws.items
              (numbered core.old.came.items session) core.old.steps core.old.server.tree
              (changed_entry (newest_entries core.old.server.journal made))
              (numbered core.old.sessions.items session);
        }) }
{
    let number = u64::from(session);
    let Some(came) = place_of(core.came.len(), number) else {
        return Ok(());
    };
    let Some(place) = place_of(core.sessions.len(), number) else {
        return Ok(());
    };
    let (begin, step, is_raw) = (core.came[came], core.steps, core.sessions[place].is_raw());
    put_raw(
        alloc,
        &mut core.raws,
        &core.server,
        is_raw,
        made,
        begin,
        step,
    )
}

impl Core {
    /// The server makes the change that came first of those that wait, if one waits, in a step at a
    /// reading of its clock in milliseconds.
    pub fn settles(&mut self, alloc: Global, now: u64) -> Result<CoreStep, AllocError>
        requires { now < 2 ^ 63 }
        ensures { IfOk result (λ t. core_step_of self.new t ≡ happens (core_of self.old) (Settles now)) }
    {
        let at = count_on(self.steps, 1)?;
        self.steps = at;
        let step = self.server.step_unkept(alloc, Event::Settle { now });
        if step.missed {
            drop_step(step);
            return Err(AllocError);
        }
        if let Told::Settled { session, .. } = step.told {
            let changed = changed_by(self.server.journal(), step.entries);
            settle_session(&mut self.ops, &self.sessions, session, at, changed);
            match settle_raw(alloc, self, session, step.entries) {
                Ok(()) => (),
                Err(error) => {
                    drop_step(step);
                    return Err(error);
                }
            }
        }
        match enter(&mut self.entries, step.entries, at) {
            Ok(()) => Ok(CoreStep::served(alloc, step)),
            Err(error) => {
                drop_step(step);
                Err(error)
            }
        }
    }
}
