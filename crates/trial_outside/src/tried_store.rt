//! A store in memory that has to be made sure of what it is given, and what does so: the call that a row
//! names fails, and so does each one behind it.

ghost use Rattle.std.specs.Prelude.{None};

use lb_base::faults::one_more;
use lb_base::source::Failed;
use row_text::out::Out;
use std::alloc::{AllocError, Global};
use std::sync::atomic::{AtomicBool, AtomicU64, Ordering};
use std::sync::{Arc, Wait};
use store::mem_store::MemStore;
use store::record::{Head, Kept, RecordChange};
use store::store::{Store, StoreError};
use synced_store::checks::{CheckedStore, Checks};
use synced_store::syncs::{Synced, Syncs};

/// How often the store was to be made sure, and whether that failed once.
#[derive(Drop)]
struct Settles {
    made: AtomicU64,
    /// The call that fails, numbered from 0, if one does.
    failing: Option<u64>,
    has_failed: AtomicBool,
}

/// What makes a store sure.
pub struct TriedSyncs {
    settles: Arc<Settles>,
}

// By hand, as below: docs/proving/dropping.md.
impl Drop for TriedSyncs {
    fn drop(self) {
        let TriedSyncs { settles } = self;
        drop(settles)
    }
}

impl Syncs for TriedSyncs {
    ghost is_sure = { λ _. Unit {0} };

    fn sync<W: Wait>(&self, _rt: &W) -> Result<(), Failed> {
        let made = self.settles.made.fetch_add(1, Ordering::SeqCst);
        if self.settles.failing == Some(made) {
            self.settles.has_failed.store(true, Ordering::SeqCst);
        }
        if self.settles.has_failed.load(Ordering::SeqCst) {
            return Err(Failed);
        }
        Ok(())
    }
}

/// The store. It tells nothing of its records.
pub struct TriedStore {
    store: MemStore,
    settles: Arc<Settles>,
    faults: u64,
}

impl Drop for TriedStore {
    fn drop(self) {
        let TriedStore {
            store,
            settles,
            faults: _,
        } = self;
        drop(store);
        drop(settles)
    }
}

impl TriedStore {
    /// A store over another; of the calls that are to make it sure the one of this number fails, if one
    /// does, and all behind it.
    pub fn new(
        alloc: Global,
        store: MemStore,
        failing: Option<u64>,
    ) -> Result<TriedStore, AllocError> {
        let settles = Settles {
            made: AtomicU64::new(0),
            failing,
            has_failed: AtomicBool::new(false),
        };
        Ok(TriedStore {
            store,
            settles: Arc::new(alloc, settles)?,
            faults: 0,
        })
    }

    /// How many records there are, and, where it is asked for, how often they were to be made sure.
    pub fn put(&self, is_counted: bool, out: &mut Out) {
        out.say(" records", &[self.store.records().len() as u64]);
        if is_counted {
            out.say(" settles", &[self.settles.made.load(Ordering::SeqCst)]);
        }
    }
}

impl Store for TriedStore {
    ghost records = { λ _. None };

    ghost there = { λ _ _. None };

    ghost spare = { λ s. s.store.spare };

    ghost faults = { λ s. s.faults };

    fn load(&mut self, alloc: Global, place: &str) -> Result<Vec<Kept>, StoreError> {
        match self.store.load(alloc, place) {
            Ok(records) => Ok(records),
            Err(StoreError::Memory) => Err(StoreError::Memory),
            Err(StoreError::Failed) => {
                self.faults = one_more(self.faults);
                Err(StoreError::Failed)
            }
        }
    }

    fn reserve(&mut self, count: u32) -> Result<(), AllocError> {
        self.store.reserve(count)
    }

    fn apply(
        &mut self,
        head: Head,
        first: RecordChange,
        second: Option<RecordChange>,
    ) -> Result<(), Failed> {
        match self.store.apply(head, first, second) {
            Ok(()) => Ok(()),
            Err(Failed) => {
                self.faults = one_more(self.faults);
                Err(Failed)
            }
        }
    }
}

impl Synced for TriedStore {
    type Y = TriedSyncs;

    fn syncs(&self) -> Result<TriedSyncs, AllocError> {
        Ok(TriedSyncs {
            settles: self.settles.clone()?,
        })
    }

    fn leave_unflushed(&mut self) {}

    fn close(&mut self) -> Result<(), StoreError> {
        if self.settles.has_failed.load(Ordering::SeqCst) {
            self.faults = one_more(self.faults);
            return Err(StoreError::Failed);
        }
        Ok(())
    }

    fn fault_count(&self) -> u64 {
        self.faults
    }
}

impl Checks for TriedStore {
    fn check(&mut self, alloc: Global, place: &str) -> Result<CheckedStore, StoreError> {
        match self.store.check(alloc, place) {
            Ok(found) => Ok(found),
            Err(StoreError::Memory) => Err(StoreError::Memory),
            Err(StoreError::Failed) => {
                self.faults = one_more(self.faults);
                Err(StoreError::Failed)
            }
        }
    }
}
