//! Times and attributes (RFC 1813, section 2.6: nfstime3 and fattr3). `specs/Attr.antt` states
//! their forms.

ghost use Rattle.std.specs.Prelude.{◌≡◌, ◌++◌, OnOk};

use crate::fault::{Fault, ReadError};
use crate::item::Item;
use crate::reader::Reader;
use crate::writer::Writer;
use std::alloc::{AllocError, Global};

/// What a node is (ftype3). Other numbers than 1 and 2 are refused as `BadValue`.
#[derive(Clone, Copy, Drop)]
pub enum Kind {
    /// The number 1 (NF3REG).
    File,
    /// The number 2 (NF3DIR).
    Directory,
}

/// A time since the first moment of 1970, UTC (nfstime3).
#[derive(Clone, Copy, Drop)]
pub struct Time {
    /// Whole seconds.
    pub seconds: u32,
    /// And so many nanoseconds; any number is read.
    pub nanoseconds: u32,
}

/// The attributes of a file or a directory: 84 bytes, in the order of fattr3.
#[derive(Clone, Copy, Drop)]
pub struct Attr {
    /// What it is (type).
    pub kind: Kind,
    /// Who may do what with it, as bits.
    pub mode: u32,
    /// How many names it has.
    pub nlink: u32,
    /// The owner's number.
    pub uid: u32,
    /// The group's number.
    pub gid: u32,
    /// Its size in bytes.
    pub size: u64,
    /// How many bytes of the disk it takes.
    pub used: u64,
    /// The first number of a device (rdev.specdata1).
    pub rdev_major: u32,
    /// The second number of a device (rdev.specdata2).
    pub rdev_minor: u32,
    /// The file system's number.
    pub fsid: u64,
    /// Its number within the file system.
    pub fileid: u64,
    /// When it was last read.
    pub atime: Time,
    /// When its content last changed.
    pub mtime: Time,
    /// When its attributes last changed.
    pub ctime: Time,
}

#[tactic(auto, unfolding(crate::specs::Attr::time_form))]
impl Item for Time {
    ghost use Rattle.xdr_codec.specs.Attr.{time_form};

    ghost form = { time_form };

    ghost short = { λ _. Unit {0} };

    fn read(alloc: Global, reader: &mut Reader) -> Result<Time, ReadError> {
        let (seconds, nanoseconds) = Item::read(alloc, reader)?;
        Ok(Time {
            seconds,
            nanoseconds,
        })
    }

    fn write(&self, writer: &mut Writer) -> Result<(), AllocError> {
        (self.seconds, self.nanoseconds).write(writer)
    }
}

#[tactic(auto, unfolding(crate::specs::Attr::kind_form))]
impl Item for Kind {
    ghost use Rattle.xdr_codec.specs.Attr.{kind_form};

    ghost form = { kind_form };

    ghost short = { λ _. Unit {0} };

    fn read(_alloc: Global, reader: &mut Reader) -> Result<Kind, ReadError> {
        let at = reader.at();
        match reader.u32()? {
            1 => Ok(Kind::File),
            2 => Ok(Kind::Directory),
            value => Err(ReadError::Fault(Fault::BadValue { at, value })),
        }
    }

    fn write(&self, writer: &mut Writer) -> Result<(), AllocError> {
        writer.u32(match self {
            Kind::File => 1,
            Kind::Directory => 2,
        })
    }
}

#[tactic(auto, unfolding(crate::specs::Attr::attr_form))]
impl Item for Attr {
    ghost use Rattle.xdr_codec.specs.Attr.{attr_form};

    ghost form = { attr_form };

    ghost short = { λ _. Unit {0} };

    fn read(alloc: Global, reader: &mut Reader) -> Result<Attr, ReadError> {
        let (kind, (mode, owners)) = Item::read(alloc, reader)?;
        let (nlink, (uid, (gid, sizes))) = owners;
        let (size, (used, device)) = sizes;
        let (rdev_major, (rdev_minor, numbers)) = device;
        let (fsid, (fileid, times)) = numbers;
        let (atime, (mtime, ctime)) = times;
        Ok(Attr {
            kind,
            mode,
            nlink,
            uid,
            gid,
            size,
            used,
            rdev_major,
            rdev_minor,
            fsid,
            fileid,
            atime,
            mtime,
            ctime,
        })
    }

    fn write(&self, writer: &mut Writer) -> Result<(), AllocError> {
        let times = (self.atime, (self.mtime, self.ctime));
        let numbers = (self.fsid, (self.fileid, times));
        let device = (self.rdev_major, (self.rdev_minor, numbers));
        let sizes = (self.size, (self.used, device));
        let owners = (self.nlink, (self.uid, (self.gid, sizes)));
        (self.kind, (self.mode, owners)).write(writer)
    }
}
