//! What a file system can do: what FSINFO gives. `specs/Calls.antt` states its form.

ghost use Rattle.std.specs.Prelude.{◌≡◌, ◌++◌, OnOk};

use std::alloc::{AllocError, Global};
use xdr_codec::attr::{Attr, Time};
use xdr_codec::fault::ReadError;
use xdr_codec::item::Item;
use xdr_codec::reader::Reader;
use xdr_codec::writer::Writer;

/// How many bytes one call may move (RFC 1813, section 3.3.19: FSINFO3resok).
#[derive(Clone, Copy, Drop)]
pub struct Sizes {
    /// The most (RFC 1813, section 3.3.19: rtmax or wtmax).
    pub most: u32,
    /// The best number (RFC 1813, section 3.3.19: rtpref or wtpref).
    pub best: u32,
    /// What the number is best a multiple of (RFC 1813, section 3.3.19: rtmult or wtmult).
    pub multiple: u32,
}

/// What an FSINFO gave; sizes are in bytes (RFC 1813, section 3.3.19: FSINFO3resok).
#[derive(Clone, Copy, Drop)]
pub struct FsInfo {
    /// The attributes of what was asked about (RFC 1813, section 3.3.19: obj_attributes).
    pub attr: Option<Attr>,
    /// The sizes of READ (RFC 1813, section 3.3.19: rtmax, rtpref and rtmult).
    pub reading: Sizes,
    /// The sizes of WRITE (RFC 1813, section 3.3.19: wtmax, wtpref and wtmult).
    pub writing: Sizes,
    /// The best size of a READDIR (RFC 1813, section 3.3.19: dtpref).
    pub dtpref: u32,
    /// The most that a file holds (RFC 1813, section 3.3.19: maxfilesize).
    pub maxfilesize: u64,
    /// How exact times are (RFC 1813, section 3.3.19: time_delta).
    pub time_delta: Time,
    /// A bit for each thing that the file system can do (RFC 1813, section 3.3.19: properties).
    pub properties: u32,
}

#[tactic(auto, unfolding(crate::specs::Calls::sizes_form))]
impl Item for Sizes {
    ghost use Rattle.nfs3_calls.specs.Calls.{sizes_form};

    ghost form = { sizes_form };

    ghost short = { λ _. Unit {0} };

    fn read(alloc: Global, reader: &mut Reader) -> Result<Sizes, ReadError> {
        let (most, (best, multiple)) = Item::read(alloc, reader)?;
        Ok(Sizes {
            most,
            best,
            multiple,
        })
    }

    fn write(&self, writer: &mut Writer) -> Result<(), AllocError> {
        (self.most, (self.best, self.multiple)).write(writer)
    }
}

#[tactic(auto, unfolding(crate::specs::Calls::fs_info_form))]
impl Item for FsInfo {
    ghost use Rattle.nfs3_calls.specs.Calls.{fs_info_form};

    ghost form = { fs_info_form };

    ghost short = { λ _. Unit {0} };

    fn read(alloc: Global, reader: &mut Reader) -> Result<FsInfo, ReadError> {
        let (attr, sizes) = Item::read(alloc, reader)?;
        let (reading, (writing, (dtpref, limits))) = sizes;
        let (maxfilesize, (time_delta, properties)) = limits;
        Ok(FsInfo {
            attr,
            reading,
            writing,
            dtpref,
            maxfilesize,
            time_delta,
            properties,
        })
    }

    fn write(&self, writer: &mut Writer) -> Result<(), AllocError> {
        let limits = (self.maxfilesize, (self.time_delta, self.properties));
        let sizes = (self.reading, (self.writing, (self.dtpref, limits)));
        (self.attr, sizes).write(writer)
    }
}
