//! Whether the host slept, or its clock was set: the monotonic clock stands still while it sleeps, and
//! the wall clock doesn't. Whoever keeps something for a time must then let it go.

ghost use Rattle.std.specs.Prelude.{◌≡◌, ◌+◌, ◌-◌, ◌^◌, ◌≤◌, ◌||◌, nat_le, IfSome};
ghost use Rattle.limits.specs.declared.TheConstants.{READING_MOST};
ghost use Rattle.host.specs.declared.sleeping.TheConstants.{PARTED};

use limits::READING_MOST;
use std::io;
use std::rt::Clock as HostTime;
use std::sync::atomic::{AtomicU64, Ordering};
use std::time::Duration;

/// By how many milliseconds one clock has to move against the other.
const PARTED: u64 = 50;

/// By how many milliseconds a reading then jumps: no lease is granted for as long.
const JUMP: u64 = 1 << 32;

/// Added to the wall clock, so that it is before no other.
const AHEAD: u64 = 1 << 62;

/// How often the clocks are read until that took no time.
const READINGS: u32 = 16;

/// By how much the wall clock is ahead of the other: so much at least, and at most.
#[derive(Clone, Copy)]
struct Distance {
    least: u64,
    most: u64,
}

/// A reading in milliseconds.
pub(crate) fn millis(read: io::Result<Duration>) -> Option<u64>
    ensures { IfSome result (λ now. now ≤ READING_MOST) }
{
    match read {
        Ok(since) => match u64::try_from(since.as_millis()) {
            Ok(now) => Some(now.min(READING_MOST)),
            Err(_) => Some(READING_MOST),
        },
        Err(_) => None,
    }
}

/// What is known of clocks of which the wall clock was read between two readings of the other. It may have
/// taken long, as where the program was stopped meanwhile.
fn distance_of(before: u64, wall: u64, after: u64) -> Distance
    requires { wall ≤ READING_MOST }
    ensures { (result.least ≡ (wall + 2 ^ 62) - after) × (result.most ≡ (wall + 2 ^ 62) - before) }
{
    let wall = wall + AHEAD;
    Distance {
        least: wall.saturating_sub(after),
        most: wall.saturating_sub(before),
    }
}

/// Whether clocks that were so far apart before have moved, whatever they are now within these bounds.
fn has_parted(before: u64, now: Distance) -> bool
    ensures { result ≡ (nat_le PARTED (now.least - before) || nat_le PARTED (before - now.most)) }
{
    PARTED <= now.least.saturating_sub(before) || PARTED <= before.saturating_sub(now.most)
}

/// What is known of a host's clocks now; nothing where one can't be read.
fn look<R: HostTime>(rt: &R) -> Option<Distance> {
    let before = millis(rt.monotonic())?;
    let wall = millis(rt.since_1970())?;
    let after = millis(rt.monotonic())?;
    Some(distance_of(before, wall, after))
}

/// By how much the wall clock is ahead, as exactly as a few looks tell.
fn measure<R: HostTime>(rt: &R) -> u64 {
    let mut nearest = Distance {
        least: 0,
        most: u64::MAX,
    };
    for _look in 0..READINGS {
        if let Some(now) = look(rt) {
            if now.most.saturating_sub(now.least) < nearest.most.saturating_sub(nearest.least) {
                nearest = now;
            }
        }
    }
    nearest.least
}

/// How far readings have jumped.
#[derive(Drop)]
pub(crate) struct Jumps {
    /// By how much the wall clock was ahead when that was looked at first, or behind the last jump.
    before: AtomicU64,
    all: AtomicU64,
}

impl Jumps {
    /// None yet.
    pub(crate) fn new<R: HostTime>(rt: &R) -> Jumps {
        Jumps {
            before: AtomicU64::new(measure(rt)),
            all: AtomicU64::new(0),
        }
    }

    /// By how much a reading that is taken behind this call is ahead. It jumps where the clocks have moved,
    /// or where one can't be read.
    pub(crate) fn now<R: HostTime>(&self, rt: &R) -> u64 {
        let parted = match look(rt) {
            Some(now) => has_parted(self.before.load(Ordering::SeqCst), now),
            None => true,
        };
        if parted {
            // First the jump: whoever sees the new distance has jumped too.
            self.all.fetch_add(JUMP, Ordering::SeqCst);
            self.before.store(measure(rt), Ordering::SeqCst);
        }
        self.all.load(Ordering::SeqCst)
    }
}
