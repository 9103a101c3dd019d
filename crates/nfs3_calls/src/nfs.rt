//! Any call and any answer, read from a record and written to it. `specs/Nfs.antt` states which they
//! are.

ghost use Rattle.std.specs.Prelude.{◌≡◌, ◌++◌, OnOk};

use crate::call::{Access, Range};
use crate::listing::ListRange;
use crate::making::{NewDir, NewFile};
use crate::message::{Nfs, NfsProc};
use crate::place::{Place, Rename};
use std::alloc::{AllocError, Global};
use xdr_codec::answer::Answer;
use xdr_codec::fault::ReadError;
use xdr_codec::handle::Handle;
use xdr_codec::item::Item;
use xdr_codec::program::ProgramBody;
use xdr_codec::read_as;
use xdr_codec::reader::Reader;
use xdr_codec::writer::Writer;

impl ProgramBody for Nfs {
    ghost use Rattle.nfs3_calls.specs.Nfs.{args_form, answer_of, nfs_spell, IsArgs, IsAnswer, IsShort, NfsFits, args_fit, fits_args, args_same, answer_fits, fits_answer, answer_same};

    type Procedure = NfsProc;

    ghost args_form = { args_form };

    ghost results_form = { answer_of };

    ghost IsArgs = { IsArgs };

    ghost IsResults = { IsAnswer };

    ghost spell = { nfs_spell };

    ghost Fits = { NfsFits };

    ghost IsShort = { IsShort };

    ghost MayWant = { λ _. Unit {0} };

    ghost args_fit = { args_fit };

    ghost fits_args = { fits_args };

    ghost args_same = { args_same };

    ghost results_fit = { answer_fits };

    ghost fits_results = { fits_answer };

    ghost results_same = { answer_same };

    fn read_args_in(
        alloc: Global,
        procedure: NfsProc,
        reader: &mut Reader,
    ) -> Result<Nfs, ReadError> {
        match procedure {
            NfsProc::Null => Ok(Nfs::Null),
            NfsProc::GetAttr => read_as!(Nfs::GetAttr, Handle::read(alloc, reader)),
            NfsProc::Lookup => read_as!(Nfs::Lookup, Place::read(alloc, reader)),
            NfsProc::Access => read_as!(Nfs::Access, Access::read(alloc, reader)),
            NfsProc::Read => read_as!(Nfs::Read, Range::read(alloc, reader)),
            NfsProc::Create => read_as!(Nfs::Create, NewFile::read(alloc, reader)),
            NfsProc::MkDir => read_as!(Nfs::MkDir, NewDir::read(alloc, reader)),
            NfsProc::Remove => read_as!(Nfs::Remove, Place::read(alloc, reader)),
            NfsProc::RmDir => read_as!(Nfs::RmDir, Place::read(alloc, reader)),
            NfsProc::Rename => read_as!(Nfs::Rename, Rename::read(alloc, reader)),
            NfsProc::ReadDir => read_as!(Nfs::ReadDir, ListRange::read(alloc, reader)),
            NfsProc::FsInfo => read_as!(Nfs::FsInfo, Handle::read(alloc, reader)),
        }
    }

    fn read_results_in(
        alloc: Global,
        procedure: NfsProc,
        reader: &mut Reader,
    ) -> Result<Nfs, ReadError> {
        match procedure {
            NfsProc::Null => Ok(Nfs::NullAnswer),
            NfsProc::GetAttr => read_as!(Nfs::GetAttrAnswer, Answer::read(alloc, reader)),
            NfsProc::Lookup => read_as!(Nfs::LookupAnswer, Answer::read(alloc, reader)),
            NfsProc::Access => read_as!(Nfs::AccessAnswer, Answer::read(alloc, reader)),
            NfsProc::Read => read_as!(Nfs::ReadAnswer, Answer::read(alloc, reader)),
            NfsProc::Create => read_as!(Nfs::CreateAnswer, Answer::read(alloc, reader)),
            NfsProc::MkDir => read_as!(Nfs::MkDirAnswer, Answer::read(alloc, reader)),
            NfsProc::Remove => read_as!(Nfs::RemoveAnswer, Answer::read(alloc, reader)),
            NfsProc::RmDir => read_as!(Nfs::RmDirAnswer, Answer::read(alloc, reader)),
            NfsProc::Rename => read_as!(Nfs::RenameAnswer, Answer::read(alloc, reader)),
            NfsProc::ReadDir => read_as!(Nfs::ReadDirAnswer, Answer::read(alloc, reader)),
            NfsProc::FsInfo => read_as!(Nfs::FsInfoAnswer, Answer::read(alloc, reader)),
        }
    }

    fn write_in(&self, writer: &mut Writer) -> Result<(), AllocError> {
        match self {
            Nfs::Null | Nfs::NullAnswer => Ok(()),
            Nfs::GetAttr(handle) => handle.write(writer),
            Nfs::GetAttrAnswer(answer) => answer.write(writer),
            Nfs::Lookup(place) => place.write(writer),
            Nfs::LookupAnswer(answer) => answer.write(writer),
            Nfs::Access(access) => access.write(writer),
            Nfs::AccessAnswer(answer) => answer.write(writer),
            Nfs::Read(range) => range.write(writer),
            Nfs::ReadAnswer(answer) => answer.write(writer),
            Nfs::Create(file) => file.write(writer),
            Nfs::CreateAnswer(answer) => answer.write(writer),
            Nfs::MkDir(dir) => dir.write(writer),
            Nfs::MkDirAnswer(answer) => answer.write(writer),
            Nfs::Remove(place) => place.write(writer),
            Nfs::RemoveAnswer(answer) => answer.write(writer),
            Nfs::RmDir(place) => place.write(writer),
            Nfs::RmDirAnswer(answer) => answer.write(writer),
            Nfs::Rename(rename) => rename.write(writer),
            Nfs::RenameAnswer(answer) => answer.write(writer),
            Nfs::ReadDir(range) => range.write(writer),
            Nfs::ReadDirAnswer(answer) => answer.write(writer),
            Nfs::FsInfo(handle) => handle.write(writer),
            Nfs::FsInfoAnswer(answer) => answer.write(writer),
        }
    }
}
