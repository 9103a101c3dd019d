//! A name that is needed twice, by the tree and by the store.

ghost use Rattle.std.specs.Prelude.{◌≡◌, IfOk};

use lb_base::items::Name;
use std::alloc::{AllocError, Global};
use std::marker::Model;

/// A name, and a copy of it. Contracts see the name.
pub struct NamePair {
    name: Name,
    copy: Name,
}

impl Drop for NamePair {
    fn drop(self) {
        let NamePair { name, copy } = self;
        drop(name);
        drop(copy);
    }
}

impl Model for NamePair {
    ghost use Rattle.std.specs.Prelude.{List, ℕ, ◌≡◌};

    ghost Value = { List ℕ };

    ghost view = { λ p. p.name };

    ghost invariant = { λ p. p.copy ≡ p.name };
}

impl NamePair {
    /// Two copies of a name. The one error is running out of memory.
    pub fn copy_of(alloc: Global, name: &Name) -> Result<NamePair, AllocError>
        ensures { IfOk result (λ p. p ≡ name.now) }
    {
        let copy = name.try_clone(alloc)?;
        let name = name.try_clone(alloc)?;
        Ok(NamePair { name, copy })
    }

    /// The name's bytes.
    pub fn as_slice(&self) -> &[u8]
        ensures { result.now ≡ self.now }
    {
        self.name.as_slice()
    }

    /// The name and its copy.
    pub fn split(self) -> (Name, Name)
        ensures name { result.0 ≡ self }
        ensures copy { result.1 ≡ self }
    {
        let NamePair { name, copy } = self;
        (name, copy)
    }
}
