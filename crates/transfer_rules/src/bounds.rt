//! How many calls of one operation may be under way, and how many attempts an open may make:
//! `specs/Limits.antt`.

ghost use Rattle.std.specs.Prelude.{◌≡◌, ◌-◌, ◌<◌, nat_lt, true};
ghost use Rattle.transfer_rules.specs.Limits.{calls_most, tries_most};

/// The most calls of one operation that are under way at once.
pub const CALLS_MOST: usize = 16;

/// The most attempts of an open.
const TRIES_MOST: u32 = limits::ATTEMPTS_MOST;

/// Whether a further attempt may follow this one.
pub fn may_try_again(tries: u32) -> bool
    ensures may { result ≡ nat_lt tries tries_most }
    ensures below { result ≡ true → tries < tries_most }
{
    tries < TRIES_MOST
}

/// Whether one more call may go out beside so many that are under way.
#[tactic(auto, unfolding(crate::specs::Limits::calls_most))]
pub fn has_room(under: usize) -> bool
    ensures { result ≡ nat_lt under calls_most }
{
    under < CALLS_MOST
}

/// How many calls may go out beside so many that are under way.
#[tactic(auto, unfolding(crate::specs::Limits::calls_most))]
pub fn room_beside(under: usize) -> usize
    ensures { result ≡ calls_most - under }
{
    CALLS_MOST.saturating_sub(under)
}
