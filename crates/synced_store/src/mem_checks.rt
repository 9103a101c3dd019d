//! A store in memory can be looked at, too: it has the records that it has, and nothing else to find.

use crate::checks::{CheckedStore, Checks};
use std::alloc::Global;
use store::mem_store::MemStore;
use store::store::{Store, StoreError};

impl Checks for MemStore {
    fn check(&mut self, alloc: Global, place: &str) -> Result<CheckedStore, StoreError> {
        match self.load(alloc, place) {
            Ok(records) => Ok(CheckedStore {
                records,
                findings: Vec::new(alloc),
            }),
            Err(why) => Err(why),
        }
    }
}
