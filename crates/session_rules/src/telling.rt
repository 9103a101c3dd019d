//! How an operation of a client ended, where the history tells it.

ghost use Rattle.std.specs.Prelude.{◌≡◌};

use register_model::op::Outcome;

/// An operation ended so: this stands in the place of the outcome of one that runs. It takes no
/// memory.
pub fn tell(place: &mut Outcome, outcome: Outcome)
    ensures { place.new ≡ outcome }
{
    *place = outcome;
}
