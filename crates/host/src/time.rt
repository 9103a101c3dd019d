//! The host's clock, and a rest.

use crate::sleeping::{Jumps, millis};
use limits::READING_MOST;
use links::clock::Clock;
use links::rest::Rest;
use std::rt::Clock as HostTime;
use std::sync::atomic::{AtomicU64, Ordering};
use std::thread;
use std::time::Duration;

/// The host's clock that never goes back, in milliseconds. Where it can't be read it stands at the
/// last reading that it gave.
#[derive(Drop)]
pub struct HostClock<R> {
    rt: R,
    last: AtomicU64,
    /// How far it has jumped, where it does.
    jumps: Option<Jumps>,
}

impl<R> HostClock<R> {
    /// A clock that gave no reading yet. It stands still while the host sleeps.
    pub fn new(rt: R) -> HostClock<R> {
        HostClock {
            rt,
            last: AtomicU64::new(0),
            jumps: None,
        }
    }
}

impl<R: HostTime> HostClock<R> {
    /// One that jumps past the end of each lease where the host slept, or its wall clock was set.
    pub fn jumping(rt: R) -> HostClock<R> {
        let jumps = Some(Jumps::new(&rt));
        HostClock {
            rt,
            last: AtomicU64::new(0),
            jumps,
        }
    }
}

impl<R: HostTime> Clock for HostClock<R> {
    fn now(&self) -> u64 {
        let ahead = match &self.jumps {
            Some(jumps) => jumps.now(&self.rt),
            None => 0,
        };
        let read = match millis(self.rt.monotonic()) {
            Some(read) => read.saturating_add(ahead),
            None => 0,
        };
        self.last
            .fetch_max(read, Ordering::SeqCst)
            .max(read)
            .min(READING_MOST)
    }
}

/// How many milliseconds a rest takes.
const REST: u64 = 1;

/// A rest of a millisecond.
#[derive(Drop)]
pub struct HostRest<R> {
    rt: R,
}

impl<R> HostRest<R> {
    /// A rest by this runtime's clock. It takes no memory.
    pub fn new(rt: R) -> HostRest<R> {
        HostRest { rt }
    }
}

impl<R: HostTime> Rest for HostRest<R> {
    fn rest(&self) {
        thread::sleep(&self.rt, Duration::from_millis(REST));
    }
}

/// How many milliseconds a pause takes.
const PAUSE: u64 = 20;

/// A pause between two looks at what threads do, of 20 milliseconds.
#[derive(Drop)]
pub struct HostPause<R> {
    rt: R,
}

impl<R> HostPause<R> {
    /// A pause by this runtime's clock. It takes no memory.
    pub fn new(rt: R) -> HostPause<R> {
        HostPause { rt }
    }
}

impl<R: HostTime> Rest for HostPause<R> {
    fn rest(&self) {
        thread::sleep(&self.rt, Duration::from_millis(PAUSE));
    }
}
