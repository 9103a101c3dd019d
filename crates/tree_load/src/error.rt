//! Why records are not loaded (`Loads` in `specs/Loads.antt`).

ghost use Rattle.std.specs.Prelude.{◌≡◌};
ghost use Rattle.tree_load.specs.declared.error.LoadError.TheVariants.{Memory};

use std::alloc::AllocError;

/// Why there is no tree.
#[derive(Clone, Copy)]
pub enum LoadError {
    /// Memory ran out.
    Memory,
    /// This record, counted from 0, is the first that breaks a rule.
    BadRecord { which: usize },
}

impl From<AllocError> for LoadError {
    ghost from_gives = { λ _ e. e ≡ Memory };

    fn from(_want: AllocError) -> LoadError {
        LoadError::Memory
    }
}
