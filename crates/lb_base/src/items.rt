//! Lists of values, which contracts see as lists.

ghost use Rattle.std.specs.Prelude.{◌≡◌, ℕ, ◌+◌, ◌<◌, ◌↔◌, List, [], ◌∷◌, ◌++◌, length, remove, IsTrue, IfOk, IfErr, OnOk, OnErr, slice_index_or};

use std::alloc::{AllocError, AllocFailed, Global};
use std::marker::Model;

/// A list that grows at its end. Contracts see it as the list of its items, so that it may stand
/// in a field or a variant of what they compare.
pub struct Items<T> {
    held: Vec<T>,
}

// Written by hand, it is proved here alone, for all items.
impl<T: Drop> Drop for Items<T> {
    fn drop(self) {
        let Items { held } = self;
        drop(held)
    }
}

/// Bytes, as messages and files hold them.
pub type Bytes = Items<u8>;

/// The bytes of a name.
pub type Name = Items<u8>;

impl<T> Model for Items<T> {
    ghost use Rattle.std.specs.Prelude.{List};

    ghost Value = { List T };

    ghost view = { λ a. a.held.items };
}

impl<T> Items<T> {
    /// The empty list. It takes no memory.
    pub fn new(alloc: Global) -> Items<T>
        ensures { result ≡ [] }
    {
        Items {
            held: Vec::new(alloc),
        }
    }

    /// The items of a vector. It takes no memory.
    pub fn from_vec(held: Vec<T>) -> Items<T>
        ensures { result ≡ held.items }
    {
        Items { held }
    }

    /// The items as a vector. It takes no memory.
    pub fn into_vec(self) -> Vec<T>
        ensures { result.items ≡ self }
    {
        let Items { held } = self;
        held
    }

    /// The items as a slice.
    pub fn as_slice(&self) -> &[T]
        ensures { result.now ≡ self.now }
    {
        self.held.as_slice()
    }

    /// The number of items.
    pub fn len(&self) -> usize
        ensures { result ≡ length self.now }
    {
        self.held.len()
    }

    /// Whether there is no item.
    pub fn is_empty(&self) -> bool
        ensures { IsTrue result ↔ (self.now ≡ []) }
    {
        self.held.is_empty()
    }

    /// Adds an item at the end. The one error is running out of memory: the item comes back in it,
    /// and the list stays as it was.
    pub fn push(&mut self, item: T) -> Result<(), AllocFailed<T>>
        ensures ok { OnOk result (self.new ≡ self.old ++ item ∷ []) }
        ensures err { OnErr result (self.new ≡ self.old) }
        ensures back { IfErr result (λ e. e.value ≡ item) }
    {
        self.held.push(item)
    }

    /// Takes out the item at an index; those behind it move up.
    pub fn remove(&mut self, index: usize) -> T
        requires { index < length self.old }
        ensures rest { self.new ≡ remove self.old index }
        ensures item { result ≡ slice_index_or self.old index result }
    {
        self.held.remove(index)
    }
}

impl<T: Copy> Items<T> {
    /// A list of the items of a slice. The one error is running out of memory.
    pub fn copy_of(alloc: Global, items: &[T]) -> Result<Items<T>, AllocError>
        ensures { IfOk result (λ copy. copy ≡ items.now) }
    {
        let mut held = Vec::new(alloc);
        held.extend_from_slice(items)?;
        Ok(Items { held })
    }

    /// A second list of the same items. The one error is running out of memory.
    pub fn try_clone(&self, alloc: Global) -> Result<Items<T>, AllocError>
        ensures { IfOk result (λ copy. copy ≡ self.now) }
    {
        Items::copy_of(alloc, self.as_slice())
    }

    /// Adds the items of a slice at the end. The one error is running out of memory, and the list
    /// then stays as it was.
    pub fn extend_from_slice(&mut self, items: &[T]) -> Result<(), AllocError>
        ensures ok { OnOk result (self.new ≡ self.old ++ items.now) }
        ensures err { OnErr result (self.new ≡ self.old) }
    {
        self.held.extend_from_slice(items)
    }
}

impl<T: PartialEq> PartialEq for Items<T> {
    ghost use Rattle.std.specs.Cmp.Lexicographic.{pointwise, lists_per};

    ghost eq = { λ x y. pointwise T.eq x y };

    ghost laws = { lists_per T.laws };

    fn eq(&self, other: &Self) -> bool {
        self.held == other.held
    }
}

impl<T: Eq> Eq for Items<T> {
    ghost use Rattle.std.specs.Cmp.Lexicographic.{lists_equiv};

    ghost laws = { lists_equiv T.Eq.laws };
}
