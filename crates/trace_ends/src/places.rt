//! The place of the operation under way of a client. `specs/Ops.antt` says where it is.

ghost use Rattle.std.specs.Prelude.{◌≡◌};
ghost use Rattle.trace_ends.specs.Ops.{place_after, place_with, closing_with};

use client_state::step::Ended;
use register_model::op::Word;

/// The place of the operation under way, after a step of its client.
pub fn place_after(place: Option<usize>, ended: &Option<Ended>) -> Option<usize>
    ensures { result ≡ place_after place ended.now }
{
    match ended {
        None => place,
        Some(_) => None,
    }
}

/// The operation under way after a command, whose own operation is at this place: the one that was
/// under way before, if any.
pub fn place_with(running: Option<usize>, place: usize, ended: &Option<Ended>) -> Option<usize>
    ensures { result ≡ place_with running place ended.now }
{
    match running {
        None => place_after(Some(place), ended),
        Some(under) => Some(under),
    }
}

/// The place of the last operation that sent calls and may change a file, after a command whose own
/// operation is at this place.
pub fn closing_with(
    closing: Option<usize>,
    place: usize,
    word: Word,
    ended: &Option<Ended>,
) -> Option<usize>
    ensures { result ≡ closing_with closing place word ended.now }
{
    match ended {
        None if word.changes() => Some(place),
        _ => closing,
    }
}
