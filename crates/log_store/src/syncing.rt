//! What was made is made sure: changes that wait at once share a flush of the log. The flush stands beside
//! the store, so that others may change it meanwhile.

ghost use Rattle.std.specs.Prelude.{◌≡◌, ℕ, ◌≤◌, true, OnOk, IsErr};

use crate::folder::Fault;

/// What flushes a log.
pub trait Flush {
    /// How many of the changes that the log was given are on the disk, at least.
    ghost firm: { Self → ℕ };

    /// All that the log was given is on the disk; these are so many changes at least.
    fn flush(&mut self, given: u64) -> Result<(), Fault>
        ensures stays { firm self.old ≤ firm self.new }
        ensures done { OnOk result (given ≤ firm self.new) };
}

/// How far the flushes have come.
#[derive(Drop)]
pub struct Syncing<F: Flush> {
    flush: F,
    /// How many changes are sure.
    sure: u64,
    /// Whether a flush failed: of what it wasn't done for no later one makes sure.
    lost: bool,
    ghost held: { sure ≤ F.firm flush },
}

impl<F: Flush> Syncing<F> {
    /// Nothing was flushed yet.
    pub fn new(flush: F) -> Syncing<F>
        ensures { (result.flush ≡ flush) × (result.sure ≡ 0) }
    {
        Syncing {
            flush,
            sure: 0,
            lost: false,
        }
    }

    /// What flushes.
    pub fn flusher(&self) -> &F
        ensures { result.now ≡ self.now.flush }
    {
        &self.flush
    }

    /// So many changes are on the disk, of those that were given, which were so many by now. `Ok` says that
    /// they are; one that failed fails for ever.
    pub fn sync(&mut self, wanted: u64, given: u64) -> Result<(), Fault>
        ensures done { OnOk result (wanted ≤ F.firm self.new.flush) }
        ensures lost { IsErr result → self.new.lost ≡ true }
        ensures stays { self.old.lost ≡ true → IsErr result }
    {
        if self.lost {
            return Err(Fault);
        }
        if wanted <= self.sure {
            return Ok(());
        }
        let given = if given < wanted { wanted } else { given };
        match self.flush.flush(given) {
            Ok(()) => {
                self.sure = given;
                Ok(())
            }
            Err(Fault) => {
                self.lost = true;
                Err(Fault)
            }
        }
    }
}
