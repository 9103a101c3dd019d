//! The entries of a directory: what READDIR asks for and gives. `specs/Calls.antt` states the
//! forms.

ghost use Rattle.std.specs.Prelude.{◌≡◌, ◌++◌, OnOk};

use lb_base::items::{Items, Name};
use std::alloc::{AllocError, Global};
use xdr_codec::attr::Attr;
use xdr_codec::fault::ReadError;
use xdr_codec::handle::Handle;
use xdr_codec::item::{Item, read_chain, write_chain};
use xdr_codec::reader::{NO_MAXIMUM, Reader};
use xdr_codec::writer::Writer;

/// What a READDIR asks for (RFC 1813, section 3.3.16: READDIR3args).
#[derive(Clone, Copy, Drop)]
pub struct ListRange {
    /// The directory (RFC 1813, section 3.3.16: dir).
    pub dir: Handle,
    /// Behind which entry to begin, 0 for the first (RFC 1813, section 3.3.16: cookie).
    pub cookie: u64,
    /// The eight bytes that came with the cookie, as one number (RFC 1813, section 3.3.16:
    /// cookieverf).
    pub verifier: u64,
    /// How many bytes the answer may have (RFC 1813, section 3.3.16: count).
    pub count: u32,
}

/// An entry of a directory (RFC 1813, section 3.3.16: entry3).
#[derive(Drop)]
pub struct Entry {
    /// The number of the file or directory (RFC 1813, section 3.3.16: fileid).
    pub fileid: u64,
    /// Its name: any bytes, fewer than 2^32 (RFC 1813, section 3.3.16: name).
    pub name: Name,
    /// What to begin behind it with (RFC 1813, section 3.3.16: cookie).
    pub cookie: u64,
}

/// What a READDIR gave (RFC 1813, section 3.3.16: READDIR3resok).
#[derive(Drop)]
pub struct Listing {
    /// The directory's attributes (RFC 1813, section 3.3.16: dir_attributes).
    pub attr: Option<Attr>,
    /// The eight bytes that go with the cookies, as one number (RFC 1813, section 3.3.16:
    /// cookieverf).
    pub verifier: u64,
    /// The entries in their order (RFC 1813, section 3.3.16: reply.entries).
    pub entries: Items<Entry>,
    /// Whether the directory's last entry is among them (RFC 1813, section 3.3.16: reply.eof).
    pub eof: bool,
}

#[tactic(auto, unfolding(crate::specs::Calls::list_range_form))]
impl Item for ListRange {
    ghost use Rattle.nfs3_calls.specs.Calls.{list_range_form};

    ghost form = { list_range_form };

    ghost short = { λ _. Unit {0} };

    fn read(alloc: Global, reader: &mut Reader) -> Result<ListRange, ReadError> {
        let (dir, (cookie, (verifier, count))) = Item::read(alloc, reader)?;
        Ok(ListRange {
            dir,
            cookie,
            verifier,
            count,
        })
    }

    fn write(&self, writer: &mut Writer) -> Result<(), AllocError> {
        (self.dir, (self.cookie, (self.verifier, self.count))).write(writer)
    }
}

#[tactic(auto, unfolding(crate::specs::Calls::entry_form))]
impl Item for Entry {
    ghost use Rattle.std.specs.Prelude.{length, ◌<◌, ◌^◌};
    ghost use Rattle.nfs3_calls.specs.Calls.{entry_form};

    ghost form = { entry_form };

    ghost short = { λ e. length e.name < 2 ^ 32 };

    fn read(alloc: Global, reader: &mut Reader) -> Result<Entry, ReadError> {
        let fileid = reader.u64()?;
        let name = reader.opaque(alloc, NO_MAXIMUM)?;
        let cookie = reader.u64()?;
        Ok(Entry {
            fileid,
            name,
            cookie,
        })
    }

    fn write(&self, writer: &mut Writer) -> Result<(), AllocError> {
        writer.u64(self.fileid)?;
        writer.opaque(self.name.as_slice())?;
        writer.u64(self.cookie)
    }
}

#[tactic(auto, unfolding(crate::specs::Calls::listing_form))]
impl Item for Listing {
    ghost use Rattle.std.specs.Prelude.{length, ◌<◌, ◌^◌, All};
    ghost use Rattle.nfs3_calls.specs.Calls.{listing_form};

    ghost form = { listing_form };

    ghost short = { λ l. All (λ e. length e.name < 2 ^ 32) l.entries };

    fn read(alloc: Global, reader: &mut Reader) -> Result<Listing, ReadError> {
        let attr = Option::read(alloc, reader)?;
        let verifier = reader.u64()?;
        let entries = read_chain(alloc, reader)?;
        let eof = reader.bool()?;
        Ok(Listing {
            attr,
            verifier,
            entries,
            eof,
        })
    }

    fn write(&self, writer: &mut Writer) -> Result<(), AllocError> {
        (self.attr, self.verifier).write(writer)?;
        write_chain(writer, self.entries.as_slice())?;
        writer.bool(self.eof)
    }
}
