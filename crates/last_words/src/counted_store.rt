//! A store that tells each change that it was given. It is in all else the one that it stands over.

ghost use Rattle.std.specs.Prelude.{◌≡◌};

use crate::counts::Done;
use lb_base::source::Failed;
use std::alloc::{AllocError, Global};
use std::sync::{Arc, Wait};
use store::record::{Head, Kept, RecordChange};
use store::store::{Store, StoreError};
use synced_store::checks::{CheckedStore, Checks};
use synced_store::syncs::Synced;

/// A store whose changes are counted.
#[derive(Drop)]
pub struct CountedStore<R, S> {
    rt: R,
    store: S,
    /// Who counts, if anybody does.
    done: Option<Arc<Done>>,
}

impl<R, S> CountedStore<R, S> {
    /// This store, whose changes are counted there.
    pub fn new(rt: R, store: S, done: Option<Arc<Done>>) -> CountedStore<R, S>
        ensures { result ≡ record { rt = rt; store = store; done = done } }
    {
        CountedStore { rt, store, done }
    }
}

impl<R: Wait, S> CountedStore<R, S> {
    /// It was given a change.
    fn note_change(&self) {
        if let Some(done) = &self.done {
            done.note_change(&self.rt);
        }
    }
}

impl<R: Wait, S: Store> Store for CountedStore<R, S> {
    ghost records = { λ s. S.records s.store };

    ghost there = { λ s place. S.there s.store place };

    ghost spare = { λ s. S.spare s.store };

    ghost faults = { λ s. S.faults s.store };

    fn load(&mut self, alloc: Global, place: &str) -> Result<Vec<Kept>, StoreError> {
        self.store.load(alloc, place)
    }

    fn reserve(&mut self, count: u32) -> Result<(), AllocError> {
        self.store.reserve(count)
    }

    fn apply(
        &mut self,
        head: Head,
        first: RecordChange,
        second: Option<RecordChange>,
    ) -> Result<(), Failed> {
        match self.store.apply(head, first, second) {
            Ok(()) => {
                self.note_change();
                Ok(())
            }
            Err(Failed) => Err(Failed),
        }
    }
}

impl<R: Wait, S: Checks> Checks for CountedStore<R, S> {
    fn check(&mut self, alloc: Global, place: &str) -> Result<CheckedStore, StoreError> {
        self.store.check(alloc, place)
    }
}

impl<R: Wait + Drop, S: Synced + Drop> Synced for CountedStore<R, S> {
    type Y = S::Y;

    fn syncs(&self) -> Result<S::Y, AllocError> {
        self.store.syncs()
    }

    fn leave_unflushed(&mut self) {
        self.store.leave_unflushed();
    }

    fn close(&mut self) -> Result<(), StoreError> {
        self.store.close()
    }

    fn fault_count(&self) -> u64 {
        self.store.fault_count()
    }
}
