//! Any call and any answer. `specs/Nfs.antt` states the numbers of the procedures.

ghost use Rattle.std.specs.Prelude.{◌≡◌};
ghost use Rattle.nfs3_calls.specs.Nfs.{proc_number, proc_of, nfs_proc};

use crate::call::{Access, Granted, Piece, Range};
use crate::change::{Moved, Wcc};
use crate::fs_info::FsInfo;
use crate::listing::{ListRange, Listing};
use crate::making::{Made, NewDir, NewFile};
use crate::place::{Found, Place, Rename};
use xdr_codec::answer::Answer;
use xdr_codec::attr::Attr;
use xdr_codec::handle::Handle;

/// The procedures that are known (RFC 1813, section 3.3).
#[derive(Clone, Copy, Drop)]
pub enum NfsProc {
    /// Does nothing (RFC 1813, section 3.3.0: NULL).
    Null,
    /// Gives the attributes of a file or directory (RFC 1813, section 3.3.1: GETATTR).
    GetAttr,
    /// Finds a name in a directory (RFC 1813, section 3.3.3: LOOKUP).
    Lookup,
    /// Asks for rights (RFC 1813, section 3.3.4: ACCESS).
    Access,
    /// Reads from a file (RFC 1813, section 3.3.6: READ).
    Read,
    /// Makes a file (RFC 1813, section 3.3.8: CREATE).
    Create,
    /// Makes a directory (RFC 1813, section 3.3.9: MKDIR).
    MkDir,
    /// Removes a file (RFC 1813, section 3.3.12: REMOVE).
    Remove,
    /// Removes a directory (RFC 1813, section 3.3.13: RMDIR).
    RmDir,
    /// Gives a file or directory another name (RFC 1813, section 3.3.14: RENAME).
    Rename,
    /// Lists the entries of a directory (RFC 1813, section 3.3.16: READDIR).
    ReadDir,
    /// Tells what the file system can do (RFC 1813, section 3.3.19: FSINFO).
    FsInfo,
}

impl NfsProc {
    /// The number of the procedure.
    pub fn number(self) -> u32
        ensures { result ≡ proc_number self }
    {
        match self {
            NfsProc::Null => 0,
            NfsProc::GetAttr => 1,
            NfsProc::Lookup => 3,
            NfsProc::Access => 4,
            NfsProc::Read => 6,
            NfsProc::Create => 8,
            NfsProc::MkDir => 9,
            NfsProc::Remove => 12,
            NfsProc::RmDir => 13,
            NfsProc::Rename => 14,
            NfsProc::ReadDir => 16,
            NfsProc::FsInfo => 19,
        }
    }

    /// The procedure that has the number.
    pub fn of_number(number: u32) -> Option<NfsProc>
        ensures { result ≡ proc_of number }
    {
        match number {
            0 => Some(NfsProc::Null),
            1 => Some(NfsProc::GetAttr),
            3 => Some(NfsProc::Lookup),
            4 => Some(NfsProc::Access),
            6 => Some(NfsProc::Read),
            8 => Some(NfsProc::Create),
            9 => Some(NfsProc::MkDir),
            12 => Some(NfsProc::Remove),
            13 => Some(NfsProc::RmDir),
            14 => Some(NfsProc::Rename),
            16 => Some(NfsProc::ReadDir),
            19 => Some(NfsProc::FsInfo),
            _ => None,
        }
    }
}

/// The arguments of a call, or what it gave.
pub enum Nfs {
    /// No arguments (RFC 1813, section 3.3.0: NULL).
    Null,
    /// No answer, and no status (RFC 1813, section 3.3.0: NULL).
    NullAnswer,
    /// RFC 1813, section 3.3.1: GETATTR3args.
    GetAttr(Handle),
    /// RFC 1813, section 3.3.1: GETATTR3res.
    GetAttrAnswer(Answer<Attr, ()>),
    /// RFC 1813, section 3.3.3: LOOKUP3args.
    Lookup(Place),
    /// RFC 1813, section 3.3.3: LOOKUP3res.
    LookupAnswer(Answer<Found, Option<Attr>>),
    /// RFC 1813, section 3.3.4: ACCESS3args.
    Access(Access),
    /// RFC 1813, section 3.3.4: ACCESS3res.
    AccessAnswer(Answer<Granted, Option<Attr>>),
    /// RFC 1813, section 3.3.6: READ3args.
    Read(Range),
    /// RFC 1813, section 3.3.6: READ3res.
    ReadAnswer(Answer<Piece, Option<Attr>>),
    /// RFC 1813, section 3.3.8: CREATE3args.
    Create(NewFile),
    /// RFC 1813, section 3.3.8: CREATE3res.
    CreateAnswer(Answer<Made, Wcc>),
    /// RFC 1813, section 3.3.9: MKDIR3args.
    MkDir(NewDir),
    /// RFC 1813, section 3.3.9: MKDIR3res.
    MkDirAnswer(Answer<Made, Wcc>),
    /// RFC 1813, section 3.3.12: REMOVE3args.
    Remove(Place),
    /// RFC 1813, section 3.3.12: REMOVE3res.
    RemoveAnswer(Answer<Wcc, Wcc>),
    /// RFC 1813, section 3.3.13: RMDIR3args.
    RmDir(Place),
    /// RFC 1813, section 3.3.13: RMDIR3res.
    RmDirAnswer(Answer<Wcc, Wcc>),
    /// RFC 1813, section 3.3.14: RENAME3args.
    Rename(Rename),
    /// RFC 1813, section 3.3.14: RENAME3res.
    RenameAnswer(Answer<Moved, Moved>),
    /// RFC 1813, section 3.3.16: READDIR3args.
    ReadDir(ListRange),
    /// RFC 1813, section 3.3.16: READDIR3res.
    ReadDirAnswer(Answer<Listing, Option<Attr>>),
    /// RFC 1813, section 3.3.19: FSINFO3args.
    FsInfo(Handle),
    /// RFC 1813, section 3.3.19: FSINFO3res.
    FsInfoAnswer(Answer<FsInfo, Option<Attr>>),
}

// Written by hand, it is proved here alone; derived, each crate above would prove how each part is
// dropped.
impl Drop for Nfs {
    fn drop(self) {
        match self {
            Nfs::Null | Nfs::NullAnswer | Nfs::GetAttr(_) | Nfs::FsInfo(_) => (),
            Nfs::Access(_) | Nfs::Read(_) | Nfs::ReadDir(_) => (),
            Nfs::Lookup(place) | Nfs::Remove(place) | Nfs::RmDir(place) => drop(place),
            Nfs::Create(file) => drop(file),
            Nfs::MkDir(dir) => drop(dir),
            Nfs::Rename(rename) => drop(rename),
            Nfs::ReadAnswer(answer) => drop(answer),
            Nfs::CreateAnswer(answer) | Nfs::MkDirAnswer(answer) => drop(answer),
            Nfs::ReadDirAnswer(answer) => drop(answer),
            Nfs::GetAttrAnswer(answer) => drop(answer),
            Nfs::LookupAnswer(answer) => drop(answer),
            Nfs::AccessAnswer(answer) => drop(answer),
            Nfs::RemoveAnswer(answer) | Nfs::RmDirAnswer(answer) => drop(answer),
            Nfs::RenameAnswer(answer) => drop(answer),
            Nfs::FsInfoAnswer(answer) => drop(answer),
        }
    }
}

impl Nfs {
    /// The procedure that is called or answered.
    pub fn procedure(&self) -> NfsProc
        ensures { result ≡ nfs_proc self.now }
    {
        match self {
            Nfs::Null | Nfs::NullAnswer => NfsProc::Null,
            Nfs::GetAttr(_) | Nfs::GetAttrAnswer(_) => NfsProc::GetAttr,
            Nfs::Lookup(_) | Nfs::LookupAnswer(_) => NfsProc::Lookup,
            Nfs::Access(_) | Nfs::AccessAnswer(_) => NfsProc::Access,
            Nfs::Read(_) | Nfs::ReadAnswer(_) => NfsProc::Read,
            Nfs::Create(_) | Nfs::CreateAnswer(_) => NfsProc::Create,
            Nfs::MkDir(_) | Nfs::MkDirAnswer(_) => NfsProc::MkDir,
            Nfs::Remove(_) | Nfs::RemoveAnswer(_) => NfsProc::Remove,
            Nfs::RmDir(_) | Nfs::RmDirAnswer(_) => NfsProc::RmDir,
            Nfs::Rename(_) | Nfs::RenameAnswer(_) => NfsProc::Rename,
            Nfs::ReadDir(_) | Nfs::ReadDirAnswer(_) => NfsProc::ReadDir,
            Nfs::FsInfo(_) | Nfs::FsInfoAnswer(_) => NfsProc::FsInfo,
        }
    }
}
