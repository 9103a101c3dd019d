//! The calls on one file: ACCESS and READ. `specs/Calls.antt` states their forms.

ghost use Rattle.std.specs.Prelude.{◌≡◌, ◌++◌, OnOk};

use lb_base::items::Bytes;
use std::alloc::{AllocError, Global};
use xdr_codec::attr::Attr;
use xdr_codec::fault::ReadError;
use xdr_codec::handle::Handle;
use xdr_codec::item::Item;
use xdr_codec::reader::{NO_MAXIMUM, Reader};
use xdr_codec::writer::Writer;

/// What an ACCESS asks for (RFC 1813, section 3.3.4: ACCESS3args).
#[derive(Clone, Copy, Drop)]
pub struct Access {
    /// The file or directory (RFC 1813, section 3.3.4: object).
    pub handle: Handle,
    /// A bit for each right that is asked for (RFC 1813, section 3.3.4: access).
    pub bits: u32,
}

/// What an ACCESS gave (RFC 1813, section 3.3.4: ACCESS3resok).
#[derive(Clone, Copy, Drop)]
pub struct Granted {
    /// The attributes of the file or directory (RFC 1813, section 3.3.4: obj_attributes).
    pub attr: Option<Attr>,
    /// A bit for each right that is granted (RFC 1813, section 3.3.4: access).
    pub bits: u32,
}

/// What a READ asks for (RFC 1813, section 3.3.6: READ3args).
#[derive(Clone, Copy, Drop)]
pub struct Range {
    /// The file (RFC 1813, section 3.3.6: file).
    pub handle: Handle,
    /// The place of the first byte, counted from 0 (RFC 1813, section 3.3.6: offset).
    pub offset: u64,
    /// How many bytes (RFC 1813, section 3.3.6: count).
    pub count: u32,
}

/// What a READ gave (RFC 1813, section 3.3.6: READ3resok).
#[derive(Drop)]
pub struct Piece {
    /// The file's attributes (RFC 1813, section 3.3.6: file_attributes).
    pub attr: Option<Attr>,
    /// How many bytes were read (RFC 1813, section 3.3.6: count).
    pub count: u32,
    /// Whether they reach the file's end (RFC 1813, section 3.3.6: eof).
    pub eof: bool,
    /// The bytes, fewer than 2^32 (RFC 1813, section 3.3.6: data).
    pub bytes: Bytes,
}

#[tactic(auto, unfolding(crate::specs::Calls::access_form))]
impl Item for Access {
    ghost use Rattle.nfs3_calls.specs.Calls.{access_form};

    ghost form = { access_form };

    ghost short = { λ _. Unit {0} };

    fn read(alloc: Global, reader: &mut Reader) -> Result<Access, ReadError> {
        let (handle, bits) = Item::read(alloc, reader)?;
        Ok(Access { handle, bits })
    }

    fn write(&self, writer: &mut Writer) -> Result<(), AllocError> {
        (self.handle, self.bits).write(writer)
    }
}

#[tactic(auto, unfolding(crate::specs::Calls::granted_form))]
impl Item for Granted {
    ghost use Rattle.nfs3_calls.specs.Calls.{granted_form};

    ghost form = { granted_form };

    ghost short = { λ _. Unit {0} };

    fn read(alloc: Global, reader: &mut Reader) -> Result<Granted, ReadError> {
        let (attr, bits) = Item::read(alloc, reader)?;
        Ok(Granted { attr, bits })
    }

    fn write(&self, writer: &mut Writer) -> Result<(), AllocError> {
        (self.attr, self.bits).write(writer)
    }
}

#[tactic(auto, unfolding(crate::specs::Calls::range_form))]
impl Item for Range {
    ghost use Rattle.nfs3_calls.specs.Calls.{range_form};

    ghost form = { range_form };

    ghost short = { λ _. Unit {0} };

    fn read(alloc: Global, reader: &mut Reader) -> Result<Range, ReadError> {
        let (handle, (offset, count)) = Item::read(alloc, reader)?;
        Ok(Range {
            handle,
            offset,
            count,
        })
    }

    fn write(&self, writer: &mut Writer) -> Result<(), AllocError> {
        (self.handle, (self.offset, self.count)).write(writer)
    }
}

#[tactic(auto, unfolding(crate::specs::Calls::piece_form))]
impl Item for Piece {
    ghost use Rattle.std.specs.Prelude.{length, ◌<◌, ◌^◌};
    ghost use Rattle.nfs3_calls.specs.Calls.{piece_form};

    ghost form = { piece_form };

    ghost short = { λ p. length p.bytes < 2 ^ 32 };

    fn read(alloc: Global, reader: &mut Reader) -> Result<Piece, ReadError> {
        let attr = Option::read(alloc, reader)?;
        let count = reader.u32()?;
        let eof = reader.bool()?;
        let bytes = reader.opaque(alloc, NO_MAXIMUM)?;
        Ok(Piece {
            attr,
            count,
            eof,
            bytes,
        })
    }

    fn write(&self, writer: &mut Writer) -> Result<(), AllocError> {
        (self.attr, (self.count, self.eof)).write(writer)?;
        writer.opaque(self.bytes.as_slice())
    }
}
