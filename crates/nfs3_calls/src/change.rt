//! What a directory's state was before and after a change: the answers of REMOVE, RMDIR and RENAME.
//! `specs/Calls.antt` states its form.

ghost use Rattle.std.specs.Prelude.{◌≡◌, ◌++◌, OnOk};

use std::alloc::{AllocError, Global};
use xdr_codec::attr::{Attr, Time};
use xdr_codec::fault::ReadError;
use xdr_codec::item::Item;
use xdr_codec::reader::Reader;
use xdr_codec::writer::Writer;

/// What tells a state from a later one (RFC 1813, section 2.6: wcc_attr).
#[derive(Clone, Copy, Drop)]
pub struct Before {
    /// The size in bytes, as in the attributes (RFC 1813, section 2.6: size).
    pub size: u64,
    /// When the content changed last (RFC 1813, section 2.6: mtime).
    pub mtime: Time,
    /// When the attributes changed last (RFC 1813, section 2.6: ctime).
    pub ctime: Time,
}

/// The state on both sides of a change, as far as it is told (RFC 1813, section 2.6: wcc_data).
#[derive(Clone, Copy, Drop)]
pub struct Wcc {
    /// Before the change (RFC 1813, section 2.6: before).
    pub before: Option<Before>,
    /// After it (RFC 1813, section 2.6: after).
    pub after: Option<Attr>,
}

/// The changes of a RENAME's two directories, whether it was done or not (RFC 1813,
/// section 3.3.14: RENAME3resok and RENAME3resfail).
#[derive(Clone, Copy, Drop)]
pub struct Moved {
    /// Of the directory that the name left (RFC 1813, section 3.3.14: fromdir_wcc).
    pub from: Wcc,
    /// Of the directory that it came into (RFC 1813, section 3.3.14: todir_wcc).
    pub to: Wcc,
}

#[tactic(auto, unfolding(crate::specs::Calls::before_form))]
impl Item for Before {
    ghost use Rattle.nfs3_calls.specs.Calls.{before_form};

    ghost form = { before_form };

    ghost short = { λ _. Unit {0} };

    fn read(alloc: Global, reader: &mut Reader) -> Result<Before, ReadError> {
        let (size, (mtime, ctime)) = Item::read(alloc, reader)?;
        Ok(Before { size, mtime, ctime })
    }

    fn write(&self, writer: &mut Writer) -> Result<(), AllocError> {
        (self.size, (self.mtime, self.ctime)).write(writer)
    }
}

#[tactic(auto, unfolding(crate::specs::Calls::wcc_form))]
impl Item for Wcc {
    ghost use Rattle.nfs3_calls.specs.Calls.{wcc_form};

    ghost form = { wcc_form };

    ghost short = { λ _. Unit {0} };

    fn read(alloc: Global, reader: &mut Reader) -> Result<Wcc, ReadError> {
        let (before, after) = Item::read(alloc, reader)?;
        Ok(Wcc { before, after })
    }

    fn write(&self, writer: &mut Writer) -> Result<(), AllocError> {
        (self.before, self.after).write(writer)
    }
}

#[tactic(auto, unfolding(crate::specs::Calls::moved_form))]
impl Item for Moved {
    ghost use Rattle.nfs3_calls.specs.Calls.{moved_form};

    ghost form = { moved_form };

    ghost short = { λ _. Unit {0} };

    fn read(alloc: Global, reader: &mut Reader) -> Result<Moved, ReadError> {
        let (from, to) = Item::read(alloc, reader)?;
        Ok(Moved { from, to })
    }

    fn write(&self, writer: &mut Writer) -> Result<(), AllocError> {
        (self.from, self.to).write(writer)
    }
}
