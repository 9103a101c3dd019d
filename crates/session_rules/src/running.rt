//! The operation under way of a client of the trace, of which nothing else is known here.

ghost use Rattle.std.specs.Prelude.{◌≡◌, ◌<◌, ℕ, Option, length, slice_get, IfSome};

/// Who may have an operation under way.
pub trait Runs {
    /// The place of that operation.
    ghost running: { Self → Option ℕ };

    /// The place of its operation under way, if it has one.
    fn place(&self) -> Option<usize>
        ensures { result ≡ running self.now };
}

/// Where the operation under way of the one at this place stands, if it has one.
pub fn running_at<S: Runs>(seats: &[S], place: usize) -> Option<usize>
    requires { place < length seats.now }
    ensures { IfSome (slice_get seats.now place) (λ seat. result ≡ S.running seat) }
{
    seats[place].place()
}
