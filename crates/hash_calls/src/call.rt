//! The arguments and the answer of each call. `specs/Calls.antt` states their forms, some of which
//! hang on the version of LBFS.

ghost use Rattle.std.specs.Prelude.{◌≡◌, ◌++◌, OnOk};

use digests::Dig;
use lb_base::items::{Bytes, Items, Name};
use std::alloc::{AllocError, Global};
use xdr_codec::attr::{Attr, Kind};
use xdr_codec::fault::ReadError;
use xdr_codec::handle::Handle;
use xdr_codec::item::Item;
use xdr_codec::reader::Reader;
use xdr_codec::writer::Writer;

/// The file that a GETLEASE is about.
#[derive(Clone, Copy, Drop)]
pub struct LeaseOn {
    /// The version of LBFS that the call is of, as its header tells it.
    pub lbfs: u32,
    /// The file.
    pub handle: Handle,
}

/// What a GETLEASE gave.
#[derive(Clone, Copy, Drop)]
pub struct Leased {
    /// The file's attributes.
    pub attr: Attr,
    /// The file's version.
    pub version: u64,
    /// How long the lease holds, in milliseconds; 0 where there is none.
    pub term: u32,
}

/// What a GETHASH asks for: the chunks of a file that meet `count` bytes from `offset` on.
#[derive(Clone, Copy, Drop)]
pub struct HashRange {
    /// The version of LBFS that the call is of, which says by which digests chunks are named.
    pub lbfs: u32,
    /// The file.
    pub handle: Handle,
    /// The place of the range's first byte in the file.
    pub offset: u64,
    /// How many bytes the range has; it may reach past the file's end.
    pub count: u32,
}

/// A chunk of a file.
#[derive(Clone, Copy, Drop)]
pub struct Pair {
    /// The digest of the chunk's bytes: by SHA-1, and from version 3 of LBFS on by SHA-256.
    pub digest: Dig,
    /// How many bytes the chunk has.
    pub size: u32,
}

/// What a GETHASH gave.
#[derive(Drop)]
pub struct Hashes {
    /// The file's version.
    pub version: u64,
    /// How long the lease holds, in milliseconds; 0 where there is none.
    pub term: u32,
    /// How many bytes the file has.
    pub size: u64,
    /// The chunks in their order, at most `PAIRS_MOST`.
    pub pairs: Items<Pair>,
    /// Whether the file's last chunk is among them, or the range began at or past the file's end.
    pub eof: bool,
}

/// What a MKTMPFILE asks for: a temporary file with nothing in it.
#[derive(Clone, Copy, Drop)]
pub struct NewTemp {
    /// The version of LBFS that the call is of.
    pub lbfs: u32,
    /// The number under which the asker will name the temporary file.
    pub fd: u32,
    /// A file that is there.
    pub handle: Handle,
}

/// What a TMPWRITE asks for: bytes put into a temporary file.
#[derive(Drop)]
pub struct TempPiece {
    /// The version of LBFS that the call is of.
    pub lbfs: u32,
    /// The number of the temporary file.
    pub fd: u32,
    /// The place of the first byte in the temporary file.
    pub offset: u64,
    /// At most `PIECE_MOST` bytes.
    pub bytes: Bytes,
}

/// What a CONDWRITE asks for: bytes put into a temporary file that are told by their digest, where
/// the other end knows such bytes.
#[derive(Clone, Copy, Drop)]
pub struct CondPiece {
    /// The version of LBFS that the call is of.
    pub lbfs: u32,
    /// The number of the temporary file.
    pub fd: u32,
    /// The place of the first byte in the temporary file.
    pub offset: u64,
    /// How many bytes.
    pub count: u32,
    /// The digest of the bytes: by SHA-1, and from version 3 of LBFS on by SHA-256.
    pub digest: Dig,
}

/// What a COMMITTMP asks for: a file's content replaced by that of a temporary file.
#[derive(Clone, Copy, Drop)]
pub struct Commit {
    /// The version of LBFS that the call is of.
    pub lbfs: u32,
    /// The number of the temporary file, which ends.
    pub fd: u32,
    /// The file that gets the content.
    pub handle: Handle,
    /// How many bytes the temporary file is to have.
    pub size: u64,
    /// From version 2 of LBFS on, the version of the file that is to be replaced.
    pub base: Option<u64>,
}

/// What a COMMITTMP gave.
#[derive(Clone, Copy, Drop)]
pub struct Committed {
    /// The file's version from now on.
    pub version: u64,
    /// How long the lease holds, in milliseconds; 0 where there is none.
    pub term: u32,
}

/// The name that a LOOKLEASE asks for.
#[derive(Drop)]
pub struct LookOn {
    /// The version of LBFS that the call is of, which is 4 or more.
    pub lbfs: u32,
    /// The directory.
    pub dir: Handle,
    /// The name: any bytes, fewer than 2^32.
    pub name: Name,
}

/// What a name of a directory stands for.
#[derive(Clone, Copy, Drop)]
pub struct Entry {
    /// Its handle.
    pub handle: Handle,
    /// What it is.
    pub kind: Kind,
}

/// What a LOOKLEASE gave.
#[derive(Clone, Copy, Drop)]
pub struct Looked {
    /// The directory's version.
    pub version: u64,
    /// How long the lease on the directory holds, in milliseconds; 0 where there is none.
    pub term: u32,
    /// What the name stands for, if it stands for anything.
    pub entry: Option<Entry>,
}

#[tactic(auto, unfolding(crate::specs::Calls::leased_form))]
impl Item for Leased {
    ghost use Rattle.hash_calls.specs.Calls.{leased_form};

    ghost form = { leased_form };

    ghost short = { λ _. Unit {0} };

    fn read(alloc: Global, reader: &mut Reader) -> Result<Leased, ReadError> {
        let (attr, (version, term)) = Item::read(alloc, reader)?;
        Ok(Leased {
            attr,
            version,
            term,
        })
    }

    fn write(&self, writer: &mut Writer) -> Result<(), AllocError> {
        (self.attr, (self.version, self.term)).write(writer)
    }
}

#[tactic(auto, unfolding(crate::specs::Calls::committed_form))]
impl Item for Committed {
    ghost use Rattle.hash_calls.specs.Calls.{committed_form};

    ghost form = { committed_form };

    ghost short = { λ _. Unit {0} };

    fn read(alloc: Global, reader: &mut Reader) -> Result<Committed, ReadError> {
        let (version, term) = Item::read(alloc, reader)?;
        Ok(Committed { version, term })
    }

    fn write(&self, writer: &mut Writer) -> Result<(), AllocError> {
        (self.version, self.term).write(writer)
    }
}

#[tactic(auto, unfolding(crate::specs::Calls::entry_form))]
impl Item for Entry {
    ghost use Rattle.hash_calls.specs.Calls.{entry_form};

    ghost form = { entry_form };

    ghost short = { λ _. Unit {0} };

    fn read(alloc: Global, reader: &mut Reader) -> Result<Entry, ReadError> {
        let (handle, kind) = Item::read(alloc, reader)?;
        Ok(Entry { handle, kind })
    }

    fn write(&self, writer: &mut Writer) -> Result<(), AllocError> {
        (self.handle, self.kind).write(writer)
    }
}

#[tactic(auto, unfolding(crate::specs::Calls::looked_form))]
impl Item for Looked {
    ghost use Rattle.hash_calls.specs.Calls.{looked_form};

    ghost form = { looked_form };

    ghost short = { λ _. Unit {0} };

    fn read(alloc: Global, reader: &mut Reader) -> Result<Looked, ReadError> {
        let (version, (term, entry)) = Item::read(alloc, reader)?;
        Ok(Looked {
            version,
            term,
            entry,
        })
    }

    fn write(&self, writer: &mut Writer) -> Result<(), AllocError> {
        (self.version, (self.term, self.entry)).write(writer)
    }
}
