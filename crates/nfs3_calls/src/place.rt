//! Names in directories: what LOOKUP, REMOVE, RMDIR and RENAME ask for, and what LOOKUP found.
//! `specs/Calls.antt` states their forms.

ghost use Rattle.std.specs.Prelude.{◌≡◌, ◌++◌, OnOk};

use lb_base::items::Name;
use std::alloc::{AllocError, Global};
use xdr_codec::attr::Attr;
use xdr_codec::fault::ReadError;
use xdr_codec::handle::Handle;
use xdr_codec::item::Item;
use xdr_codec::reader::{NO_MAXIMUM, Reader};
use xdr_codec::writer::Writer;

/// A name in a directory (RFC 1813, section 2.6: diropargs3).
#[derive(Drop)]
pub struct Place {
    /// The directory (RFC 1813, section 2.6: dir).
    pub dir: Handle,
    /// The name: any bytes, fewer than 2^32 (RFC 1813, section 2.6: name). Which names a
    /// directory takes is the server's to say.
    pub name: Name,
}

/// What a LOOKUP found (RFC 1813, section 3.3.3: LOOKUP3resok).
#[derive(Clone, Copy, Drop)]
pub struct Found {
    /// What the name stands for (RFC 1813, section 3.3.3: object).
    pub handle: Handle,
    /// Its attributes (RFC 1813, section 3.3.3: obj_attributes).
    pub attr: Option<Attr>,
    /// The directory's attributes (RFC 1813, section 3.3.3: dir_attributes).
    pub dir: Option<Attr>,
}

/// What a RENAME asks for (RFC 1813, section 3.3.14: RENAME3args).
#[derive(Drop)]
pub struct Rename {
    /// The name that goes (RFC 1813, section 3.3.14: from).
    pub from: Place,
    /// The name that comes (RFC 1813, section 3.3.14: to).
    pub to: Place,
}

#[tactic(auto, unfolding(crate::specs::Calls::place_form))]
impl Item for Place {
    ghost use Rattle.std.specs.Prelude.{length, ◌<◌, ◌^◌};
    ghost use Rattle.nfs3_calls.specs.Calls.{place_form};

    ghost form = { place_form };

    ghost short = { λ p. length p.name < 2 ^ 32 };

    fn read(alloc: Global, reader: &mut Reader) -> Result<Place, ReadError> {
        let dir = Handle::read(alloc, reader)?;
        let name = reader.opaque(alloc, NO_MAXIMUM)?;
        Ok(Place { dir, name })
    }

    fn write(&self, writer: &mut Writer) -> Result<(), AllocError> {
        self.dir.write(writer)?;
        writer.opaque(self.name.as_slice())
    }
}

#[tactic(auto, unfolding(crate::specs::Calls::found_form))]
impl Item for Found {
    ghost use Rattle.nfs3_calls.specs.Calls.{found_form};

    ghost form = { found_form };

    ghost short = { λ _. Unit {0} };

    fn read(alloc: Global, reader: &mut Reader) -> Result<Found, ReadError> {
        let (handle, (attr, dir)) = Item::read(alloc, reader)?;
        Ok(Found { handle, attr, dir })
    }

    fn write(&self, writer: &mut Writer) -> Result<(), AllocError> {
        (self.handle, (self.attr, self.dir)).write(writer)
    }
}

#[tactic(auto, unfolding(crate::specs::Calls::rename_form))]
impl Item for Rename {
    ghost use Rattle.std.specs.Prelude.{length, ◌<◌, ◌^◌};
    ghost use Rattle.nfs3_calls.specs.Calls.{rename_form};

    ghost form = { rename_form };

    ghost short = { λ r. (length r.from.name < 2 ^ 32) × (length r.to.name < 2 ^ 32) };

    fn read(alloc: Global, reader: &mut Reader) -> Result<Rename, ReadError> {
        let (from, to) = Item::read(alloc, reader)?;
        Ok(Rename { from, to })
    }

    fn write(&self, writer: &mut Writer) -> Result<(), AllocError> {
        self.from.write(writer)?;
        self.to.write(writer)
    }
}
