//! A history with an index of its changes, by which its legality is tested: `IsIndexOf` of
//! `specs/Index.antt`. Who only writes a history down makes none.

ghost use Rattle.std.specs.Prelude.{◌≡◌, ◌↔◌, ℕ, IfOk, IsTrue};
ghost use Rattle.std.specs.List.Sorted.{IsNonDecreasingBy};
ghost use Rattle.register_model.specs.Index.{IsIndexOf};

use crate::history::History;
use crate::index::Index;
use crate::op::{Op, Opening};
use crate::openings::is_by_file;
use std::alloc::{AllocError, Global};
use std::marker::Model;

/// A history, and where its changes stand. Contracts see it as the history.
pub struct IndexedHistory {
    history: History,
    index: Index,
    is_by_file: bool,
}

// Written by hand, it is proved here alone; derived, each crate above would prove how each part is
// dropped.
impl Drop for IndexedHistory {
    fn drop(self) {
        let IndexedHistory {
            history,
            index,
            is_by_file: _,
        } = self;
        drop(history);
        drop(index);
    }
}

impl Model for IndexedHistory {
    ghost use Rattle.register_model.specs.Register as register;
    ghost use Rattle.std.specs.Prelude.{IsTrue, ◌↔◌};
    ghost use Rattle.std.specs.List.Sorted.{IsNonDecreasingBy};
    ghost use Rattle.register_model.specs.Index.{IsIndexOf};

    ghost Value = { register.History };

    ghost view = { λ h. h.history };

    ghost invariant = { λ h. IsIndexOf h.history.ops h.index.by_point.items h.index.by_file.items × (IsTrue h.is_by_file ↔ IsNonDecreasingBy (λ f. f.file) h.history.opening) };
}

impl History {
    /// The history with its index, in the time of sorting its changes. The one error is running out
    /// of memory.
    pub fn indexed(self, alloc: Global) -> Result<IndexedHistory, AllocError>
        ensures { IfOk result (λ h. h ≡ self) }
    {
        let index = Index::new(alloc, self.ops())?;
        let is_by_file = is_by_file(self.opening());
        Ok(IndexedHistory {
            history: self,
            index,
            is_by_file,
        })
    }
}

impl IndexedHistory {
    /// The files that were there before the first step.
    pub(crate) fn opening(&self) -> &[Opening]
        ensures { result.now ≡ self.now.opening }
    {
        self.history.opening()
    }

    /// The operations, in the order of their begins.
    pub(crate) fn ops(&self) -> &[Op]
        ensures { result.now ≡ self.now.ops }
    {
        self.history.ops()
    }

    /// Where the changes stand.
    pub(crate) fn index(&self) -> &Index
        ensures { IsIndexOf self.now.ops result.now.by_point.items result.now.by_file.items }
    {
        &self.index
    }

    /// Whether the files that were there at first stand in the order of their ids.
    pub(crate) fn is_by_file(&self) -> bool
        ensures { IsTrue result ↔ IsNonDecreasingBy (λ f. f.file) self.now.opening }
    {
        self.is_by_file
    }
}
