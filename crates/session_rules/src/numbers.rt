//! Numbers from 1 as places in a list. Clients and sessions have such numbers, and each step of a trace
//! finds here whom it is about, and each message its session. What stands at a number is `numbered` in
//! `specs/Numbers.antt`.

ghost use Rattle.std.specs.Prelude.{◌≡◌, ◌+◌, ◌<◌, ◌⊎◌, MatchOption};

/// The place of a number in a list of so many, if it is there.
pub fn place_of(len: usize, number: u64) -> Option<usize>
    ensures { MatchOption result ((number ≡ 0) ⊎ (len < number)) (λ place. (number ≡ place + 1) × (place < len)) }
{
    let place = number.checked_sub(1)?;
    if place < len as u64 {
        Some(place as usize)
    } else {
        None
    }
}
