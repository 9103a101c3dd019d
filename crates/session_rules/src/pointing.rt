//! The point of the operation whose change was made. `specs/Points.antt` says whose that is.

ghost use Rattle.std.specs.Prelude.{◌≡◌, slice_get};
ghost use Rattle.session_rules.specs.Points.{pointed, pointed_at, settled_ops};
ghost use Rattle.session_rules.specs.Numbers.{numbered};

use crate::numbers::place_of;
use crate::session::Session;
use register_model::op::Op;

/// The operation of this place, if there is one, changed this file in this step, which is its point.
fn point(ops: &mut Vec<Op>, place: usize, file: u64, step: u64)
    ensures { ops.new.items ≡ pointed ops.old.items place file step (slice_get ops.old.items place) }
{
    if ops.len() <= place {
        return;
    }
    let op = &mut ops[place];
    op.file = file;
    op.point = Some(step);
}

/// The operation at a place, if there is one, changed a file in this step, if one was changed.
pub fn point_at(ops: &mut Vec<Op>, place: Option<usize>, step: u64, changed: Option<u64>)
    ensures { ops.new.items ≡ pointed_at ops.old.items place step changed }
{
    match (place, changed) {
        (Some(place), Some(file)) => point(ops, place, file, step),
        _ => (),
    }
}

/// Where a file was changed, the last operation that sent calls on its session and may change one
/// has its point at this step.
pub fn settle_session(
    ops: &mut Vec<Op>,
    sessions: &[Session],
    session: u32,
    step: u64,
    changed: Option<u64>,
)
    ensures { ops.new.items ≡ settled_ops ops.old.items step changed (numbered sessions.now session) }
{
    match place_of(sessions.len(), u64::from(session)) {
        Some(place) => {
            let own = &sessions[place];
            point_at(ops, own.closing, step, changed)
        }
        None => (),
    }
}
