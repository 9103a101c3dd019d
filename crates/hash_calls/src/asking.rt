//! What a call asks for, read and written in a version of LBFS. `specs/Calls.antt` states the forms,
//! and `specs/Version.antt` what differs between versions.

ghost use Rattle.std.specs.Prelude.{◌≡◌, ◌++◌, ◌<◌, ◌≤◌, ◌^◌, Bool, length, OnOk, None};
ghost use Rattle.limits.specs.declared.TheConstants.{PIECE_MOST};
ghost use Rattle.xdr_codec.specs.Format.{Gives};
ghost use Rattle.xdr_codec.specs.Xdr.{fixed_form};
ghost use Rattle.hash_calls.specs.Version.{digest_length, has_base, base_spell, base_form, IsBased};
ghost use Rattle.hash_calls.specs.Calls.{lease_on_form, range_form, new_temp_form, temp_piece_form, cond_piece_form, commit_form, look_on_form};

use crate::call::{Commit, CondPiece, HashRange, LeaseOn, LookOn, NewTemp, TempPiece};
use crate::version::{BASES_SINCE, LONG_DIGESTS_SINCE};
use digests::Dig;
use limits::PIECE_MOST;
use std::alloc::{AllocError, Global};
use xdr_codec::fault::ReadError;
use xdr_codec::handle::Handle;
use xdr_codec::item::Item;
use xdr_codec::read_as;
use xdr_codec::reader::{NO_MAXIMUM, Reader};
use xdr_codec::writer::Writer;

/// A digest that names a chunk, in a version of LBFS.
pub fn read_digest(lbfs: u32, reader: &mut Reader) -> Result<Dig, ReadError>
    ensures { Gives result reader.new ((fixed_form (digest_length lbfs)).read reader.old) }
{
    if lbfs < LONG_DIGESTS_SINCE {
        read_as!(Dig::sha1, reader.digest())
    } else {
        read_as!(Dig::sha256, reader.long_digest())
    }
}

/// The version of a file that a COMMITTMP names, in a version of LBFS.
fn read_base(lbfs: u32, reader: &mut Reader) -> Result<Option<u64>, ReadError>
    ensures { Gives result reader.new ((base_form (has_base lbfs)).read reader.old) }
{
    if lbfs < BASES_SINCE {
        Ok(None)
    } else {
        read_as!(Some, reader.u64())
    }
}

fn write_base(writer: &mut Writer, base: Option<u64>) -> Result<(), AllocError>
    ensures spelled { OnOk result (writer.new ≡ writer.old ++ base_spell base) }
    ensures fits { OnOk result ((b : Bool) → IsBased b base → (base_form b).Fits base) }
{
    match base {
        None => Ok(()),
        Some(version) => writer.u64(version),
    }
}

impl LeaseOn {
    /// Reads it from the front of a record. After an `Err` the reader is left inside it.
    #[tactic(auto, unfolding(crate::specs::Calls::lease_on_form))]
    pub fn read_in(alloc: Global, lbfs: u32, reader: &mut Reader) -> Result<LeaseOn, ReadError>
        ensures { Gives result reader.new ((lease_on_form lbfs).read reader.old) }
    {
        let handle = Item::read(alloc, reader)?;
        Ok(LeaseOn { lbfs, handle })
    }

    /// Writes its spelling; only memory can run out. After an `Err` the writer may hold a part of
    /// it.
    #[tactic(auto, unfolding(crate::specs::Calls::lease_on_form))]
    pub fn write_in(&self, writer: &mut Writer) -> Result<(), AllocError>
        ensures spelled { OnOk result (writer.new ≡ writer.old ++ (lease_on_form self.now.lbfs).spell self.now) }
        ensures fits { OnOk result ((lease_on_form self.now.lbfs).Fits self.now) }
    {
        self.handle.write(writer)
    }
}

impl HashRange {
    /// Reads it from the front of a record. After an `Err` the reader is left inside it.
    #[tactic(auto, unfolding(crate::specs::Calls::range_form))]
    pub fn read_in(alloc: Global, lbfs: u32, reader: &mut Reader) -> Result<HashRange, ReadError>
        ensures { Gives result reader.new ((range_form lbfs).read reader.old) }
    {
        let (handle, (offset, count)) = Item::read(alloc, reader)?;
        Ok(HashRange {
            lbfs,
            handle,
            offset,
            count,
        })
    }

    /// Writes its spelling; only memory can run out. After an `Err` the writer may hold a part of
    /// it.
    #[tactic(auto, unfolding(crate::specs::Calls::range_form))]
    pub fn write_in(&self, writer: &mut Writer) -> Result<(), AllocError>
        ensures spelled { OnOk result (writer.new ≡ writer.old ++ (range_form self.now.lbfs).spell self.now) }
        ensures fits { OnOk result ((range_form self.now.lbfs).Fits self.now) }
    {
        (self.handle, (self.offset, self.count)).write(writer)
    }
}

impl NewTemp {
    /// Reads it from the front of a record. After an `Err` the reader is left inside it.
    #[tactic(auto, unfolding(crate::specs::Calls::new_temp_form))]
    pub fn read_in(alloc: Global, lbfs: u32, reader: &mut Reader) -> Result<NewTemp, ReadError>
        ensures { Gives result reader.new ((new_temp_form lbfs).read reader.old) }
    {
        let (fd, handle) = Item::read(alloc, reader)?;
        Ok(NewTemp { lbfs, fd, handle })
    }

    /// Writes its spelling; only memory can run out. After an `Err` the writer may hold a part of
    /// it.
    #[tactic(auto, unfolding(crate::specs::Calls::new_temp_form))]
    pub fn write_in(&self, writer: &mut Writer) -> Result<(), AllocError>
        ensures spelled { OnOk result (writer.new ≡ writer.old ++ (new_temp_form self.now.lbfs).spell self.now) }
        ensures fits { OnOk result ((new_temp_form self.now.lbfs).Fits self.now) }
    {
        (self.fd, self.handle).write(writer)
    }
}

impl TempPiece {
    /// Reads it from the front of a record. After an `Err` the reader is left inside it.
    #[tactic(auto, unfolding(crate::specs::Calls::temp_piece_form))]
    pub fn read_in(alloc: Global, lbfs: u32, reader: &mut Reader) -> Result<TempPiece, ReadError>
        ensures { Gives result reader.new ((temp_piece_form lbfs).read reader.old) }
    {
        let fd = reader.u32()?;
        let offset = reader.u64()?;
        let bytes = reader.opaque(alloc, PIECE_MOST)?;
        Ok(TempPiece {
            lbfs,
            fd,
            offset,
            bytes,
        })
    }

    /// Writes its spelling; only memory can run out. After an `Err` the writer may hold a part of
    /// it.
    #[tactic(auto, unfolding(crate::specs::Calls::temp_piece_form))]
    pub fn write_in(&self, writer: &mut Writer) -> Result<(), AllocError>
        ensures spelled { OnOk result (writer.new ≡ writer.old ++ (temp_piece_form self.now.lbfs).spell self.now) }
        ensures fits { OnOk result (length self.now.bytes ≤ PIECE_MOST → (temp_piece_form self.now.lbfs).Fits self.now) }
    {
        (self.fd, self.offset).write(writer)?;
        writer.opaque(self.bytes.as_slice())
    }
}

impl CondPiece {
    /// Reads it from the front of a record. After an `Err` the reader is left inside it.
    #[tactic(auto, unfolding(crate::specs::Calls::cond_piece_form))]
    pub fn read_in(lbfs: u32, reader: &mut Reader) -> Result<CondPiece, ReadError>
        ensures { Gives result reader.new ((cond_piece_form lbfs).read reader.old) }
    {
        let fd = reader.u32()?;
        let offset = reader.u64()?;
        let count = reader.u32()?;
        let digest = read_digest(lbfs, reader)?;
        Ok(CondPiece {
            lbfs,
            fd,
            offset,
            count,
            digest,
        })
    }

    /// Writes its spelling; only memory can run out. After an `Err` the writer may hold a part of
    /// it.
    #[tactic(auto, unfolding(crate::specs::Calls::cond_piece_form, xdr_codec::specs::Xdr::fixed_form))]
    pub fn write_in(&self, writer: &mut Writer) -> Result<(), AllocError>
        ensures spelled { OnOk result (writer.new ≡ writer.old ++ (cond_piece_form self.now.lbfs).spell self.now) }
        ensures fits { OnOk result (length self.now.digest ≡ digest_length self.now.lbfs → (cond_piece_form self.now.lbfs).Fits self.now) }
    {
        (self.fd, (self.offset, self.count)).write(writer)?;
        writer.fixed(self.digest.as_slice())
    }
}

impl Commit {
    /// Reads it from the front of a record. After an `Err` the reader is left inside it.
    #[tactic(auto, unfolding(crate::specs::Calls::commit_form))]
    pub fn read_in(alloc: Global, lbfs: u32, reader: &mut Reader) -> Result<Commit, ReadError>
        ensures { Gives result reader.new ((commit_form lbfs).read reader.old) }
    {
        let fd = reader.u32()?;
        let handle = Handle::read(alloc, reader)?;
        let size = reader.u64()?;
        let base = read_base(lbfs, reader)?;
        Ok(Commit {
            lbfs,
            fd,
            handle,
            size,
            base,
        })
    }

    /// Writes its spelling; only memory can run out. After an `Err` the writer may hold a part of
    /// it.
    #[tactic(auto, unfolding(crate::specs::Calls::commit_form))]
    pub fn write_in(&self, writer: &mut Writer) -> Result<(), AllocError>
        ensures spelled { OnOk result (writer.new ≡ writer.old ++ (commit_form self.now.lbfs).spell self.now) }
        ensures fits { OnOk result (IsBased (has_base self.now.lbfs) self.now.base → (commit_form self.now.lbfs).Fits self.now) }
    {
        (self.fd, (self.handle, self.size)).write(writer)?;
        write_base(writer, self.base)
    }
}

impl LookOn {
    /// Reads it from the front of a record. After an `Err` the reader is left inside it.
    #[tactic(auto, unfolding(crate::specs::Calls::look_on_form))]
    pub fn read_in(alloc: Global, lbfs: u32, reader: &mut Reader) -> Result<LookOn, ReadError>
        ensures { Gives result reader.new ((look_on_form lbfs).read reader.old) }
    {
        let dir = Handle::read(alloc, reader)?;
        let name = reader.opaque(alloc, NO_MAXIMUM)?;
        Ok(LookOn { lbfs, dir, name })
    }

    /// Writes its spelling; only memory can run out. After an `Err` the writer may hold a part of
    /// it.
    #[tactic(auto, unfolding(crate::specs::Calls::look_on_form))]
    pub fn write_in(&self, writer: &mut Writer) -> Result<(), AllocError>
        ensures spelled { OnOk result (writer.new ≡ writer.old ++ (look_on_form self.now.lbfs).spell self.now) }
        ensures fits { OnOk result (length self.now.name < 2 ^ 32 → (look_on_form self.now.lbfs).Fits self.now) }
    {
        self.dir.write(writer)?;
        writer.opaque(self.name.as_slice())
    }
}
