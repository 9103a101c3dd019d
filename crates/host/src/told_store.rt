//! A store that notes, once it is loaded, how many files it has and whether anything was ever changed, for who tells
//! what is served. Then it waits for leases of the run before (`terms`). It is in all else the one that it stands over.

ghost use Rattle.std.specs.Prelude.{◌≡◌};

use crate::serving::Serving;
use lb_base::source::Failed;
use std::alloc::{AllocError, Global};
use std::rt::{Clock as HostTime, Files as HostDisk};
use std::sync::Arc;
use store::record::{Head, Kept, NodeKind, RecordChange};
use store::store::{Store, StoreError};
use synced_store::checks::{CheckedStore, Checks};
use synced_store::syncs::Synced;

/// A store whose files are counted.
#[derive(Drop)]
pub struct ToldStore<R, S> {
    rt: R,
    store: S,
    /// What is served, if anything is: it gets the number of files.
    serving: Option<Arc<Serving>>,
}

impl<R, S> ToldStore<R, S> {
    /// This store, whose waiting is told by that runtime.
    pub fn new(rt: R, store: S, serving: Option<Arc<Serving>>) -> ToldStore<R, S>
        ensures { result ≡ record { rt = rt; store = store; serving = serving } }
    {
        ToldStore { rt, store, serving }
    }
}

/// Whether a record is that of a file.
fn is_file(kept: &Kept) -> bool {
    match kept {
        Kept::Node(node) => match node.kind {
            NodeKind::File => true,
            NodeKind::Directory => false,
        },
        Kept::Head(_) | Kept::Content(_) => false,
    }
}

/// How many files there are.
fn files_in(records: &[Kept]) -> u64 {
    records.iter().filter(|kept| is_file(kept)).count() as u64
}

/// Whether anything was ever changed. Records that load begin with the head, or there are none.
fn is_changed(records: &[Kept]) -> bool {
    match records.first() {
        Some(Kept::Head(head)) => head.changes > 0,
        _ => false,
    }
}

impl<R: HostDisk + HostTime + Eprint, S: Store> Store for ToldStore<R, S> {
    ghost records = { λ s. S.records s.store };

    ghost there = { λ s place. S.there s.store place };

    ghost spare = { λ s. S.spare s.store };

    ghost faults = { λ s. S.faults s.store };

    fn load(&mut self, alloc: Global, place: &str) -> Result<Vec<Kept>, StoreError> {
        match self.store.load(alloc, place) {
            Ok(records) => {
                if let Some(serving) = &self.serving {
                    let records = records.as_slice();
                    serving.note_store(files_in(records), is_changed(records));
                    serving.await_leases(&self.rt);
                }
                Ok(records)
            }
            Err(why) => Err(why),
        }
    }

    fn reserve(&mut self, count: u32) -> Result<(), AllocError> {
        self.store.reserve(count)
    }

    fn apply(
        &mut self,
        head: Head,
        first: RecordChange,
        second: Option<RecordChange>,
    ) -> Result<(), Failed> {
        self.store.apply(head, first, second)
    }
}

impl<R: HostDisk + HostTime + Eprint, S: Checks> Checks for ToldStore<R, S> {
    fn check(&mut self, alloc: Global, place: &str) -> Result<CheckedStore, StoreError> {
        self.store.check(alloc, place)
    }
}

impl<R: HostDisk + HostTime + Eprint + Drop, S: Synced + Drop> Synced for ToldStore<R, S> {
    type Y = S::Y;

    fn syncs(&self) -> Result<S::Y, AllocError> {
        self.store.syncs()
    }

    fn leave_unflushed(&mut self) {
        self.store.leave_unflushed();
    }

    fn close(&mut self) -> Result<(), StoreError> {
        self.store.close()
    }

    fn fault_count(&self) -> u64 {
        self.store.fault_count()
    }
}
