//! What wakes the threads that put out what further events have to say: a bell for each place that a
//! session's box can have, so that each thread hears its own. And what wakes the ticker. A bell is a
//! number that is raised and then woken on. No clause speaks of it.

use server_held::turns::Turns;
use std::array;
use std::sync::Wait;
use std::sync::atomic::{AtomicU64, Ordering};

/// How many places there are: so many boxes stand at most, and a box takes a place that is free before a
/// new one is made.
pub(crate) const PLACES: usize = 64;

/// A bell for each place, and the ticker's.
#[derive(Drop)]
pub(crate) struct Bells {
    bells: [AtomicU64; PLACES],
    ticker: AtomicU64,
}

/// How often the bell of a place had been rung in a turn.
#[derive(Clone, Copy)]
pub(crate) struct Rung {
    place: usize,
    count: u64,
}

/// The bit of a place.
pub(crate) fn bit(place: usize) -> u64 {
    1 << (place % PLACES)
}

impl Bells {
    /// None was rung. It takes no memory.
    pub(crate) fn new() -> Bells {
        Bells {
            bells: array::from_fn(|_| AtomicU64::new(0)),
            ticker: AtomicU64::new(0),
        }
    }

    /// The bell of a place.
    fn at(&self, place: usize) -> &AtomicU64 {
        &self.bells[place % PLACES]
    }

    /// How often the bell of a place was rung. It is counted while a turn lends what is shared, and so
    /// never behind the turn: what a later one has to say rings behind the count.
    pub(crate) fn rung<H: Turns>(&self, _lent: &H, place: usize) -> Rung {
        Rung {
            place,
            count: self.at(place).load(Ordering::SeqCst),
        }
    }

    /// Sleeps until a bell is rung, where it has been rung so often alone.
    pub(crate) fn wait<W: Wait>(&self, rt: &W, rung: Rung) {
        let Rung { place, count } = rung;
        self.at(place).park(rt, (count & 0xffff_ffff) as u32);
    }

    /// How often the ticker's bell was rung.
    pub(crate) fn ticks(&self) -> u64 {
        self.ticker.load(Ordering::SeqCst)
    }

    /// Sleeps until the ticker's bell is rung, where it has been rung so often alone.
    pub(crate) fn wait_tick<W: Wait>(&self, rt: &W, count: u64) {
        self.ticker.park(rt, (count & 0xffff_ffff) as u32);
    }

    /// Rings the ticker's bell.
    pub(crate) fn ring_ticker(&self) {
        self.ticker.fetch_add(1, Ordering::SeqCst);
        self.ticker.wake_all();
    }

    /// Rings the bells of the places whose bits are set.
    pub(crate) fn ring(&self, places: u64) {
        if places == 0 {
            return;
        }
        for place in 0..PLACES {
            if places & bit(place) != 0 {
                let bell = self.at(place);
                bell.fetch_add(1, Ordering::SeqCst);
                bell.wake_all();
            }
        }
    }
}
