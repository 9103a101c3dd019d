//! The trait of a store that can be looked over (`check`): it tells what is wrong with its records, and
//! leaves them as they are. It stands beside `Synced`, since a run asks both of its store.

ghost use Rattle.std.specs.Prelude.{◌≡◌, ℕ, ◌≤◌, List, [], Some, IfOk, OnOk, IsErrOf};
ghost use Rattle.lb_base.specs.Causes.{Rose};
ghost use Rattle.store.specs.declared.record.Kept.{Kept};
ghost use Rattle.store.specs.declared.store.StoreError.TheVariants as errors;

use std::alloc::Global;
use store::record::Kept;
use store::store::{Store, StoreError};

/// What was found at a place.
#[derive(Drop)]
pub struct CheckedStore {
    /// The records that a start would load; what can't be read is left out.
    pub records: Vec<Kept>,
    /// A line for each part that breaks a rule, without its line feed.
    pub findings: Vec<String>,
}

/// A store whose places can be looked at.
pub trait Checks: Store {
    /// The records at a place, and a line for each part that breaks a rule. Nothing there changes.
    /// Of a store that tells its records they are these, which stand there, and nothing was found.
    /// `Failed` comes only where the count of faults rose.
    fn check(&mut self, alloc: Global, place: &str) -> Result<CheckedStore, StoreError>
        ensures told { IfOk result (λ c. (held : List Kept) → Self.records self.old ≡ Some held → (c.records.items ≡ held) × (c.findings.items ≡ [])) }
        ensures there { OnOk result (Self.records self.old ≡ Self.there self.old place.now) }
        ensures kept { Self.records self.new ≡ Self.records self.old }
        ensures later { Self.faults self.old ≤ Self.faults self.new }
        ensures cause { IsErrOf result errors.Failed → Rose (Self.faults self.old) (Self.faults self.new) };
}
