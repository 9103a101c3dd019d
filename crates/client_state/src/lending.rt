//! What comes of a file is lent to be hashed as a whole while more of it comes, by whoever has time for it: so
//! its digest is known soon after its last byte. These are hints: no state changes, and nothing is told of them.

ghost use Rattle.std.specs.Prelude.{◌≡◌};

use crate::state::ClientState;
use crate::task::{Stage, Task};
use cut_bytes::ahead::Ahead;
use std::alloc::Global;

/// What came of the file that a stage fetches is lent, and what was lent before is back.
fn lend_of(alloc: Global, stage: &mut Stage, back: Option<Ahead>) -> Option<Ahead>
    ensures { stage.new ≡ stage.old }
{
    match stage {
        Stage::Reading(fetch) => fetch.slots.lend(alloc, back, fetch.size),
        _ => None,
    }
}

/// Whether so much came of the file that a stage fetches that some should be lent.
fn may_lend_of(stage: &Stage) -> bool {
    match stage {
        Stage::Reading(fetch) => fetch.slots.may_lend(fetch.size),
        _ => false,
    }
}

impl ClientState {
    /// Whether so much came of a file that some should be lent. Not while some is.
    pub fn may_lend(&self) -> bool {
        match &self.task {
            Some(task) => may_lend_of(&task.stage),
            None => false,
        }
    }

    /// What came of a file that is being fetched is lent to be hashed, where it is much. It is given back with the
    /// next call.
    pub fn lend(&mut self, alloc: Global, back: Option<Ahead>) -> Option<Ahead>
        ensures { self.new ≡ self.old }
    {
        match &mut self.task {
            Some(task) => lend_of(alloc, &mut task.stage, back),
            None => None,
        }
    }
}
