//! How much memory the temporary files of all sessions may hold together. No clause of a call speaks of it:
//! a piece for which there is no room is refused as one for which memory runs out.
//!
//! Half of the room is shared out: each session may always hold its share. The other half is for whoever
//! comes first, so that few sessions can hold large contents, and those that hold much keep nobody from a
//! small one.

ghost use Rattle.std.specs.Prelude.{◌≡◌, OnErr};

use std::alloc::AllocError;

/// What a piece costs beside its bytes.
const PIECE_COST: u64 = 64;

/// Each of the 64 sessions that may stand has a share of half of the room.
const SHARES: u64 = 128;

/// What so many pieces cost, of so many bytes together.
pub fn cost_of(pieces: usize, bytes: u64) -> u64 {
    (pieces as u64)
        .saturating_mul(PIECE_COST)
        .saturating_add(bytes)
}

/// What is held, counted.
#[derive(Clone, Copy)]
pub struct Usage {
    /// By all sessions.
    pub all: u64,
    /// By all sessions but the one that asks, above their shares.
    pub above: u64,
    /// By the one that asks.
    pub own: u64,
}

/// How much may be held, and how much is at most.
#[derive(Clone, Copy)]
pub struct Room {
    most: u64,
    held: u64,
}

impl Room {
    /// There is no bound.
    pub fn unbounded() -> Room {
        Room {
            most: u64::MAX,
            held: 0,
        }
    }

    /// So much may be held from now on.
    pub fn bound(&mut self, most: u64)
        ensures { (self.new.most ≡ most) × (self.new.held ≡ self.old.held) }
    {
        self.most = most;
    }

    /// What each session may always hold.
    pub fn share(&self) -> u64 {
        self.most / SHARES
    }

    /// What is for whoever comes first.
    fn common(&self) -> u64 {
        self.most / 2
    }

    /// Takes room for so much more where there is plenty, whatever is whose; it answers whether there was.
    pub fn take_plenty(&mut self, more: u64) -> bool {
        let held = self.held.saturating_add(more);
        if held > self.common() {
            return false;
        }
        self.held = held;
        true
    }

    /// Takes room for so much more of one session, by what is held. An `Err` changes nothing.
    pub fn take(&mut self, held: Usage, more: u64) -> Result<(), AllocError>
        ensures err { OnErr result (self.new ≡ self.old) }
    {
        let own = held.own.saturating_add(more).saturating_sub(self.share());
        if own > 0 && held.above.saturating_add(own) > self.common() {
            return Err(AllocError);
        }
        self.held = held.all.saturating_add(more);
        Ok(())
    }
}
