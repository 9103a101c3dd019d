//! What the pending changes need. `specs/State.antt` says how much.

ghost use Rattle.std.specs.Prelude.{◌≡◌};
ghost use Rattle.std.specs.List.{AllByRecursion};
ghost use Rattle.server_core.specs.State.{held};
ghost use Rattle.server_core.specs.View.{IsMade};

use crate::change::Wanted;
use callback_core::waits::Waits;
use tree_reading::call::Reservation;

/// What the pending changes need.
pub fn held(waits: &Waits<Wanted>) -> Reservation
    requires { AllByRecursion IsMade waits.now.waits }
    ensures { result ≡ held waits.now.waits }
{
    let (entries, bytes) = waits.sizes();
    Reservation { entries, bytes }
}
