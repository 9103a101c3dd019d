//! Stores in memory, which tell their records: one that fails when told to, and its twin that
//! never fails. Each change looks through the records, so these are for tests and small trees.
//! `specs/Memory.antt` states what contracts see of them.

ghost use Rattle.std.specs.Prelude.{◌≡◌, ℕ, ◌+◌, ◌-◌, ◌^◌, ◌≤◌, ◌↔◌, if◌then◌else◌, List, [], min, Contains, Option, Some, Ok, IfOk, OnOk, OnErr, IsOk, IsErr, IsErrOf, is_err, IsTrue, length};
ghost use Rattle.std.specs.Option.{option_map};
ghost use Rattle.lb_base.specs.Causes.{Rose};
ghost use Rattle.store.specs.Records.{applied, places};
ghost use Rattle.store.specs.declared.record.Kept.{Kept};
ghost use Rattle.store.specs.declared.store.StoreError.TheVariants as errors;

use crate::edits;
use crate::record::{Head, Kept, RecordChange};
use crate::store::{Store, StoreError};
use lb_base::faults::one_more;
use lb_base::items::Items;
use lb_base::source::Failed;
use std::alloc::{AllocError, Global};
use std::marker::Model;

/// A store in memory that never fails.
pub struct SureStore {
    records: Vec<Kept>,
}

// By hand: docs/proving/dropping.md.
impl Drop for SureStore {
    fn drop(self) {
        let SureStore { records } = self;
        drop(records);
    }
}

impl Model for SureStore {
    ghost use Rattle.std.specs.Prelude.{◌+◌, ◌-◌, length};
    ghost use Rattle.std.specs.Vec.{vec_capacity};
    ghost use Rattle.store.specs.Records.{headless};
    ghost use Rattle.store.specs.Memory.{SureKept};

    ghost Value = { SureKept };

    // The head, of which there is one after any change, always has its place.
    ghost view = { λ s. record { records = s.records.items; spare = vec_capacity s.records - (length (headless s.records.items) + 1) } };
}

impl SureStore {
    /// A store of these records. It takes no memory.
    pub fn new(records: Items<Kept>) -> SureStore
        ensures { result.records ≡ records }
    {
        SureStore {
            records: records.into_vec(),
        }
    }

    /// The records.
    pub fn records(&self) -> &[Kept]
        ensures { result.now ≡ self.now.records }
    {
        self.records.as_slice()
    }
}

#[tactic(auto, using(crate::proofs::Putting::spare_room))]
impl Store for SureStore {
    ghost records = { λ s. Some s.records };

    ghost there = { λ s _. Some s.records };

    ghost spare = { λ s. s.spare };

    ghost faults = { λ _. 0 };

    fn load(&mut self, alloc: Global, _place: &str) -> Result<Vec<Kept>, StoreError>
        ensures told { IfOk result (λ v. (held : List Kept) → Some self.old.records ≡ Some held → v.items ≡ held) }
        ensures unchanged { self.new ≡ self.old }
        ensures sure { IsErrOf result errors.Failed → ⊥ }
    {
        let records = edits::copies(alloc, &self.records)?;
        Ok(records)
    }

    fn reserve(&mut self, count: u32) -> Result<(), AllocError>
        ensures room { OnOk result (count ≤ self.new.spare) }
        ensures spare { self.old.spare ≤ self.new.spare }
        ensures kept { self.new.records ≡ self.old.records }
    {
        edits::reserve(&mut self.records, count)
    }

    fn apply(
        &mut self,
        head: Head,
        first: RecordChange,
        second: Option<RecordChange>,
    ) -> Result<(), Failed>
        requires { places second ≤ self.old.spare }
        ensures done { self.new.records ≡ applied head first second self.old.records }
        ensures spare { self.old.spare ≤ self.new.spare + places second }
        ensures sure { IsOk result }
    {
        edits::apply(&mut self.records, head, first, second);
        Ok(())
    }
}

/// A store in memory, of which some calls fail.
pub struct MemStore {
    store: SureStore,
    calls: u64,
    failing: Items<u64>,
    faults: u64,
}

// By hand: docs/proving/dropping.md.
impl Drop for MemStore {
    fn drop(self) {
        let MemStore {
            store,
            calls: _calls,
            failing,
            faults: _faults,
        } = self;
        drop(store);
        drop(failing);
    }
}

impl Model for MemStore {
    ghost use Rattle.store.specs.Memory.{StoreState};

    ghost Value = { StoreState };

    ghost view = { λ s. record { records = s.store.records; spare = s.store.spare; calls = s.calls; failing = s.failing; faults = s.faults } };
}

impl MemStore {
    /// A store of these records. The calls of `load` and `apply` whose numbers are listed fail; the
    /// first is number 0. It takes no memory.
    pub fn new(records: Items<Kept>, failing: Items<u64>) -> MemStore
        ensures records { result.records ≡ records }
        ensures calls { (result.calls ≡ 0) × (result.failing ≡ failing) × (result.faults ≡ 0) }
    {
        MemStore {
            store: SureStore::new(records),
            calls: 0,
            failing,
            faults: 0,
        }
    }

    /// The records.
    pub fn records(&self) -> &[Kept]
        ensures { result.now ≡ self.now.records }
    {
        self.store.records()
    }

    /// How many faults there were.
    pub fn faults(&self) -> u64
        ensures { result ≡ self.now.faults }
    {
        self.faults
    }

    /// Counts a call, and whether it fails.
    fn call(&mut self) -> bool
        ensures fails { IsTrue result ↔ Contains self.old.failing self.old.calls }
        ensures later { self.old.faults ≤ self.new.faults }
        ensures counts { self.new ≡ record self.old { calls = min (self.old.calls + 1) (2 ^ 64 - 1); faults = if result then min (self.old.faults + 1) (2 ^ 64 - 1) else self.old.faults } }
    {
        let fails = self.failing.as_slice().contains(&self.calls);
        self.calls = one_more(self.calls);
        if fails {
            self.faults = one_more(self.faults);
        }
        fails
    }
}

impl Store for MemStore {
    ghost records = { λ s. Some s.records };

    ghost there = { λ s _. Some s.records };

    ghost spare = { λ s. s.spare };

    ghost faults = { λ s. s.faults };

    fn load(&mut self, alloc: Global, place: &str) -> Result<Vec<Kept>, StoreError>
        ensures told { IfOk result (λ v. (held : List Kept) → Some self.old.records ≡ Some held → v.items ≡ held) }
        ensures kept { Some self.new.records ≡ Some self.old.records }
        ensures spare { self.old.spare ≤ self.new.spare }
        ensures later { self.old.faults ≤ self.new.faults }
        ensures cause { IsErrOf result errors.Failed → Rose self.old.faults self.new.faults }
        ensures fails { IsErrOf result errors.Failed ↔ Contains self.old.failing self.old.calls }
        ensures calls { self.new.calls ≡ min (self.old.calls + 1) (2 ^ 64 - 1) }
        ensures rest { self.new ≡ record self.old { calls = self.new.calls; faults = self.new.faults } }
    {
        if self.call() {
            return Err(StoreError::Failed);
        }
        self.store.load(alloc, place)
    }

    fn reserve(&mut self, count: u32) -> Result<(), AllocError>
        ensures room { OnOk result (count ≤ self.new.spare) }
        ensures spare { self.old.spare ≤ self.new.spare }
        ensures rest { self.new ≡ record self.old { spare = self.new.spare } }
    {
        self.store.reserve(count)
    }

    fn apply(
        &mut self,
        head: Head,
        first: RecordChange,
        second: Option<RecordChange>,
    ) -> Result<(), Failed>
        requires { places second ≤ self.old.spare }
        ensures ok { OnOk result (self.new.records ≡ applied head first second self.old.records) }
        ensures err { OnErr result (self.new.records ≡ self.old.records) }
        ensures spare { self.old.spare ≤ self.new.spare + places second }
        ensures later { self.old.faults ≤ self.new.faults }
        ensures cause { OnErr result (Rose self.old.faults self.new.faults) }
        ensures fails { IsErr result ↔ Contains self.old.failing self.old.calls }
        ensures calls { (self.new.calls ≡ min (self.old.calls + 1) (2 ^ 64 - 1)) × (self.new.failing ≡ self.old.failing) }
        ensures faults { self.new.faults ≡ (if is_err result then min (self.old.faults + 1) (2 ^ 64 - 1) else self.old.faults) }
    {
        if self.call() {
            return Err(Failed);
        }
        self.store.apply(head, first, second)
    }
}
