//! What CREATE and MKDIR ask for, and what they made. `specs/Calls.antt` states the forms, and
//! `specs/Choices.antt` what a number in them chooses.

ghost use Rattle.std.specs.Prelude.{◌≡◌, ◌++◌, OnOk};

use crate::change::Wcc;
use crate::place::Place;
use std::alloc::{AllocError, Global};
use xdr_codec::attr::{Attr, Time};
use xdr_codec::fault::{Fault, ReadError};
use xdr_codec::handle::Handle;
use xdr_codec::item::Item;
use xdr_codec::read_as;
use xdr_codec::reader::Reader;
use xdr_codec::writer::Writer;

/// What a time is set to (RFC 1813, section 2.6: set_atime and set_mtime). Other numbers of
/// time_how are refused as `BadValue`.
#[derive(Clone, Copy, Drop)]
pub enum SetTime {
    /// It stays (RFC 1813, section 2.6: DONT_CHANGE, 0).
    Keep,
    /// The server's time (RFC 1813, section 2.6: SET_TO_SERVER_TIME, 1).
    Server,
    /// This time (RFC 1813, section 2.6: SET_TO_CLIENT_TIME, 2).
    Client(Time),
}

/// Attributes to set; none stays as it is (RFC 1813, section 2.6: sattr3).
#[derive(Clone, Copy, Drop)]
pub struct SetAttr {
    /// The mode's bits (RFC 1813, section 2.6: set_mode3).
    pub mode: Option<u32>,
    /// The owner (RFC 1813, section 2.6: set_uid3).
    pub uid: Option<u32>,
    /// The group (RFC 1813, section 2.6: set_gid3).
    pub gid: Option<u32>,
    /// The size in bytes (RFC 1813, section 2.6: set_size3).
    pub size: Option<u64>,
    /// When it was read last (RFC 1813, section 2.6: set_atime).
    pub atime: SetTime,
    /// When it was changed last (RFC 1813, section 2.6: set_mtime).
    pub mtime: SetTime,
}

/// How a file is made (RFC 1813, section 3.3.8: createhow3). Other numbers of createmode3 are
/// refused as `BadValue`.
#[derive(Clone, Copy, Drop)]
pub enum HowMade {
    /// Also where the name is taken (RFC 1813, section 3.3.8: UNCHECKED, 0).
    Unchecked(SetAttr),
    /// Not where the name is taken (RFC 1813, section 3.3.8: GUARDED, 1).
    Guarded(SetAttr),
    /// Not where the name is taken but by this very call, which the eight bytes of the verifier
    /// tell, here as one number (RFC 1813, section 3.3.8: EXCLUSIVE, 2, and createverf3).
    Exclusive(u64),
}

/// What a CREATE asks for (RFC 1813, section 3.3.8: CREATE3args).
#[derive(Drop)]
pub struct NewFile {
    /// The file's name (RFC 1813, section 3.3.8: where).
    pub place: Place,
    /// How it is made (RFC 1813, section 3.3.8: how).
    pub how: HowMade,
}

/// What a MKDIR asks for (RFC 1813, section 3.3.9: MKDIR3args).
#[derive(Drop)]
pub struct NewDir {
    /// The directory's name (RFC 1813, section 3.3.9: where).
    pub place: Place,
    /// Its first attributes (RFC 1813, section 3.3.9: attributes).
    pub attr: SetAttr,
}

/// What a CREATE or a MKDIR made (RFC 1813, sections 3.3.8 and 3.3.9: CREATE3resok and
/// MKDIR3resok).
#[derive(Clone, Copy, Drop)]
pub struct Made {
    /// What was made (RFC 1813, section 3.3.8: obj).
    pub handle: Option<Handle>,
    /// Its attributes (RFC 1813, section 3.3.8: obj_attributes).
    pub attr: Option<Attr>,
    /// The change of the directory that holds it (RFC 1813, section 3.3.8: dir_wcc).
    pub dir: Wcc,
}

#[tactic(auto, unfolding(crate::specs::Choices::set_time_form))]
impl Item for SetTime {
    ghost use Rattle.nfs3_calls.specs.Choices.{set_time_form};

    ghost form = { set_time_form };

    ghost short = { λ _. Unit {0} };

    fn read(alloc: Global, reader: &mut Reader) -> Result<SetTime, ReadError> {
        let at = reader.at();
        match reader.u32()? {
            0 => Ok(SetTime::Keep),
            1 => Ok(SetTime::Server),
            2 => read_as!(SetTime::Client, Time::read(alloc, reader)),
            value => Err(ReadError::Fault(Fault::BadValue { at, value })),
        }
    }

    fn write(&self, writer: &mut Writer) -> Result<(), AllocError> {
        match self {
            SetTime::Keep => writer.u32(0),
            SetTime::Server => writer.u32(1),
            SetTime::Client(time) => (2u32, *time).write(writer),
        }
    }
}

#[tactic(auto, unfolding(crate::specs::Choices::set_attr_form))]
impl Item for SetAttr {
    ghost use Rattle.nfs3_calls.specs.Choices.{set_attr_form};

    ghost form = { set_attr_form };

    ghost short = { λ _. Unit {0} };

    fn read(alloc: Global, reader: &mut Reader) -> Result<SetAttr, ReadError> {
        let (mode, (uid, (gid, (size, (atime, mtime))))) = Item::read(alloc, reader)?;
        Ok(SetAttr {
            mode,
            uid,
            gid,
            size,
            atime,
            mtime,
        })
    }

    fn write(&self, writer: &mut Writer) -> Result<(), AllocError> {
        let times = (self.atime, self.mtime);
        (self.mode, (self.uid, (self.gid, (self.size, times)))).write(writer)
    }
}

#[tactic(auto, unfolding(crate::specs::Choices::how_made_form))]
impl Item for HowMade {
    ghost use Rattle.nfs3_calls.specs.Choices.{how_made_form};

    ghost form = { how_made_form };

    ghost short = { λ _. Unit {0} };

    fn read(alloc: Global, reader: &mut Reader) -> Result<HowMade, ReadError> {
        let at = reader.at();
        match reader.u32()? {
            0 => read_as!(HowMade::Unchecked, SetAttr::read(alloc, reader)),
            1 => read_as!(HowMade::Guarded, SetAttr::read(alloc, reader)),
            2 => read_as!(HowMade::Exclusive, reader.u64()),
            value => Err(ReadError::Fault(Fault::BadValue { at, value })),
        }
    }

    fn write(&self, writer: &mut Writer) -> Result<(), AllocError> {
        match self {
            HowMade::Unchecked(attr) => (0u32, *attr).write(writer),
            HowMade::Guarded(attr) => (1u32, *attr).write(writer),
            HowMade::Exclusive(verifier) => (2u32, *verifier).write(writer),
        }
    }
}

#[tactic(auto, unfolding(crate::specs::Calls::new_file_form))]
impl Item for NewFile {
    ghost use Rattle.std.specs.Prelude.{length, ◌<◌, ◌^◌};
    ghost use Rattle.nfs3_calls.specs.Calls.{new_file_form};

    ghost form = { new_file_form };

    ghost short = { λ f. length f.place.name < 2 ^ 32 };

    fn read(alloc: Global, reader: &mut Reader) -> Result<NewFile, ReadError> {
        let (place, how) = Item::read(alloc, reader)?;
        Ok(NewFile { place, how })
    }

    fn write(&self, writer: &mut Writer) -> Result<(), AllocError> {
        self.place.write(writer)?;
        self.how.write(writer)
    }
}

#[tactic(auto, unfolding(crate::specs::Calls::new_dir_form))]
impl Item for NewDir {
    ghost use Rattle.std.specs.Prelude.{length, ◌<◌, ◌^◌};
    ghost use Rattle.nfs3_calls.specs.Calls.{new_dir_form};

    ghost form = { new_dir_form };

    ghost short = { λ d. length d.place.name < 2 ^ 32 };

    fn read(alloc: Global, reader: &mut Reader) -> Result<NewDir, ReadError> {
        let (place, attr) = Item::read(alloc, reader)?;
        Ok(NewDir { place, attr })
    }

    fn write(&self, writer: &mut Writer) -> Result<(), AllocError> {
        self.place.write(writer)?;
        self.attr.write(writer)
    }
}

#[tactic(auto, unfolding(crate::specs::Calls::made_form))]
impl Item for Made {
    ghost use Rattle.nfs3_calls.specs.Calls.{made_form};

    ghost form = { made_form };

    ghost short = { λ _. Unit {0} };

    fn read(alloc: Global, reader: &mut Reader) -> Result<Made, ReadError> {
        let (handle, (attr, dir)) = Item::read(alloc, reader)?;
        Ok(Made { handle, attr, dir })
    }

    fn write(&self, writer: &mut Writer) -> Result<(), AllocError> {
        (self.handle, (self.attr, self.dir)).write(writer)
    }
}
