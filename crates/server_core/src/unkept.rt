//! A store for a server that no store keeps: it keeps nothing, never fails, and takes no memory.

ghost use Rattle.std.specs.Prelude.{◌≡◌, ℕ, ◌+◌, ◌≤◌, ◌^◌, List, Option, Some, None, Result, Ok, IfOk, OnOk, OnErr, IsErrOf};
ghost use Rattle.std.specs.Option.{option_map};
ghost use Rattle.lb_base.specs.Causes.{Rose};
ghost use Rattle.store.specs.Records.{applied, places};
ghost use Rattle.store.specs.declared.record.Kept.{Kept};
ghost use Rattle.store.specs.declared.store.StoreError.TheVariants as errors;

use lb_base::source::Failed;
use std::alloc::{AllocError, Global};
use store::record::{Head, Kept, RecordChange};
use store::store::{Store, StoreError};

/// A store that keeps nothing.
#[derive(Drop)]
pub struct NoStore;

impl Store for NoStore {
    ghost records = { λ s. None };

    ghost there = { λ s _. None };

    ghost spare = { λ s. 2 ^ 64 };

    ghost faults = { λ s. 0 };

    fn load(&mut self, alloc: Global, _place: &str) -> Result<Vec<Kept>, StoreError> {
        Ok(Vec::new(alloc))
    }

    fn reserve(&mut self, _count: u32) -> Result<(), AllocError> {
        Ok(())
    }

    fn apply(
        &mut self,
        head: Head,
        first: RecordChange,
        second: Option<RecordChange>,
    ) -> Result<(), Failed> {
        let _head = head;
        drop(first);
        drop(second);
        Ok(())
    }
}
