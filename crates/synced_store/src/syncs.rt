//! What makes sure what a store was given. A server holds an answer back until the change that it
//! tells of outlasts a cut of power; it waits for that beside the store, so that others go on
//! meanwhile, and changes that wait at once share a flush.

ghost use Rattle.std.specs.Prelude.{◌≡◌, ℕ, ◌≤◌, OnOk, IsErrOf};
ghost use Rattle.lb_base.specs.Causes.{Rose};
ghost use Rattle.store.specs.declared.store.StoreError.TheVariants as errors;

use lb_base::source::Failed;
use std::alloc::AllocError;
use std::sync::Wait;
use store::store::{Store, StoreError};

/// Makes sure what a store was given. Threads share it, beside the store.
pub trait Syncs {
    /// What is known once `sync` has answered `Ok`; only `sync` tells it.
    ghost is_sure: { Self → Type 0 };

    /// `Ok` comes only once all that the store was given before the call outlasts a cut of power; where
    /// nothing is flushed, once the store is known not to be in doubt. One that failed fails for ever.
    fn sync<W: Wait>(&self, rt: &W) -> Result<(), Failed>
        ensures { OnOk result (is_sure self.now) };
}

/// A store with such an object.
pub trait Synced: Store {
    /// The object.
    type Y: Syncs + Drop + Sync;

    /// The object, which threads share. The one error is running out of memory.
    fn syncs(&self) -> Result<Self::Y, AllocError>;

    /// From now on nothing is flushed. It is for before the store is loaded.
    fn leave_unflushed(&mut self)
        ensures kept { Self.records self.new ≡ Self.records self.old }
        ensures spare { Self.spare self.new ≡ Self.spare self.old }
        ensures faults { Self.faults self.new ≡ Self.faults self.old };

    /// Nothing more will be given: all is made sure. An error comes where anything that the store was
    /// given could not be made sure, by the object too: running out of memory, or `Failed`, where the count of
    /// faults rose.
    fn close(&mut self) -> Result<(), StoreError>
        ensures kept { Self.records self.new ≡ Self.records self.old }
        ensures later { Self.faults self.old ≤ Self.faults self.new }
        ensures cause { IsErrOf result errors.Failed → Rose (Self.faults self.old) (Self.faults self.new) };

    /// How many faults there were.
    fn fault_count(&self) -> u64
        ensures { result ≡ Self.faults self.now };
}
