//! Stores: what keeps a tree from one start to the next. What a change makes of the records states
//! `specs/Records.antt`, when a fault may be answered `Causes.antt` of `lb_base`.

ghost use Rattle.std.specs.Prelude.{◌≡◌, ℕ, ◌+◌, ◌≤◌, List, Option, Some, IfOk, OnOk, OnErr, IsErrOf};
ghost use Rattle.std.specs.Option.{option_map};
ghost use Rattle.lb_base.specs.Causes.{Rose};
ghost use Rattle.store.specs.Records.{applied, places};
ghost use Rattle.store.specs.declared.record.Kept.{Kept};
ghost use Rattle.store.specs.declared.store.StoreError.TheVariants as errors;

use crate::record::{Head, Kept, RecordChange};
use lb_base::source::Failed;
use std::alloc::{AllocError, Global};

/// Why a store's records were not given.
#[derive(Clone, Copy)]
pub enum StoreError {
    /// The store failed.
    Failed,
    /// Memory ran out.
    Memory,
}

impl From<AllocError> for StoreError {
    ghost from_gives = { λ _ e. e ≡ errors.Memory };

    fn from(_want: AllocError) -> StoreError {
        StoreError::Memory
    }
}

/// A store of records.
pub trait Store {
    /// The records, where it tells.
    ghost records: { Self → Option (List Kept) };

    /// The records that stand at a place of the outside, where it tells.
    ghost there: { Self → List ℕ → Option (List Kept) };

    /// How many changes there is room for.
    ghost spare: { Self → ℕ };

    /// How many faults there were.
    ghost faults: { Self → ℕ };

    /// Gives the records of the store at a place of the outside; a store in memory has but one.
    /// `Ok` comes only where its records are those that stand there, `Failed` only where the count of
    /// faults rose. What is kept stays, whatever is answered.
    fn load(&mut self, alloc: Global, place: &str) -> Result<Vec<Kept>, StoreError>
        ensures told { IfOk result (λ v. (held : List Kept) → records self.old ≡ Some held → v.items ≡ held) }
        ensures there { OnOk result (records self.old ≡ there self.old place.now) }
        ensures kept { records self.new ≡ records self.old }
        ensures spare { spare self.old ≤ spare self.new }
        ensures later { faults self.old ≤ faults self.new }
        ensures cause { IsErrOf result errors.Failed → Rose (faults self.old) (faults self.new) };

    /// Makes room for at least this many changes. The one error is running out of memory.
    fn reserve(&mut self, count: u32) -> Result<(), AllocError>
        ensures room { OnOk result (count ≤ spare self.new) }
        ensures spare { spare self.old ≤ spare self.new }
        ensures kept { records self.new ≡ records self.old }
        ensures later { faults self.old ≤ faults self.new };

    /// Makes the head the only one, in front of all records, and then one change or two, in their
    /// order. Each takes one place of what was reserved, and no memory. `Failed` comes only where
    /// the count of faults rose, and all records are then as before.
    fn apply(
        &mut self,
        head: Head,
        first: RecordChange,
        second: Option<RecordChange>,
    ) -> Result<(), Failed>
        requires { places second ≤ spare self.old }
        ensures ok { OnOk result (records self.new ≡ option_map (λ held. applied head first second held) (records self.old)) }
        ensures err { OnErr result (records self.new ≡ records self.old) }
        ensures spare { spare self.old ≤ spare self.new + places second }
        ensures later { faults self.old ≤ faults self.new }
        ensures cause { OnErr result (Rose (faults self.old) (faults self.new)) };
}
