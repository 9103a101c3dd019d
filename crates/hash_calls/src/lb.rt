//! Any call of LBFS and any answer, read from a record and written to it. `specs/Lb.antt` states which
//! they are.

ghost use Rattle.std.specs.Prelude.{◌≡◌, ◌++◌, OnOk};

use crate::call::{Commit, CondPiece, HashRange, LeaseOn, LookOn, NewTemp, TempPiece};
use crate::hashing::{read_hashes, write_hashes};
use crate::message::{Lb, LbIn, LbProc};
use std::alloc::{AllocError, Global};
use xdr_codec::answer::Answer;
use xdr_codec::fault::ReadError;
use xdr_codec::item::Item;
use xdr_codec::program::ProgramBody;
use xdr_codec::read_as;
use xdr_codec::reader::Reader;
use xdr_codec::writer::Writer;

impl ProgramBody for Lb {
    ghost use Rattle.hash_calls.specs.Lb.{args_form, answer_of, lb_spell, IsArgs, IsAnswer, IsShort, LbFits, args_fit, fits_args, args_same, answer_fits, fits_answer, answer_same};

    type Procedure = LbIn;

    ghost args_form = { args_form };

    ghost results_form = { answer_of };

    ghost IsArgs = { IsArgs };

    ghost IsResults = { IsAnswer };

    ghost spell = { lb_spell };

    ghost Fits = { LbFits };

    ghost IsShort = { IsShort };

    ghost MayWant = { λ _. Unit {0} };

    ghost args_fit = { args_fit };

    ghost fits_args = { fits_args };

    ghost args_same = { args_same };

    ghost results_fit = { answer_fits };

    ghost fits_results = { fits_answer };

    ghost results_same = { answer_same };

    fn read_args_in(alloc: Global, procedure: LbIn, reader: &mut Reader) -> Result<Lb, ReadError> {
        let lbfs = procedure.lbfs;
        match procedure.procedure {
            LbProc::Null => Ok(Lb::Null(lbfs)),
            LbProc::GetLease => read_as!(Lb::GetLease, LeaseOn::read_in(alloc, lbfs, reader)),
            LbProc::GetHash => read_as!(Lb::GetHash, HashRange::read_in(alloc, lbfs, reader)),
            LbProc::MkTmpFile => read_as!(Lb::MkTmpFile, NewTemp::read_in(alloc, lbfs, reader)),
            LbProc::TmpWrite => read_as!(Lb::TmpWrite, TempPiece::read_in(alloc, lbfs, reader)),
            LbProc::CondWrite => read_as!(Lb::CondWrite, CondPiece::read_in(lbfs, reader)),
            LbProc::CommitTmp => read_as!(Lb::CommitTmp, Commit::read_in(alloc, lbfs, reader)),
            LbProc::LookLease => read_as!(Lb::LookLease, LookOn::read_in(alloc, lbfs, reader)),
        }
    }

    fn read_results_in(
        alloc: Global,
        procedure: LbIn,
        reader: &mut Reader,
    ) -> Result<Lb, ReadError> {
        let lbfs = procedure.lbfs;
        match procedure.procedure {
            LbProc::Null => Ok(Lb::NullAnswer),
            LbProc::GetLease => read_as!(Lb::GetLeaseAnswer, Answer::read(alloc, reader)),
            LbProc::GetHash => read_as!(Lb::GetHashAnswer, read_hashes(alloc, lbfs, reader)),
            LbProc::MkTmpFile => read_as!(Lb::MkTmpFileAnswer, Answer::read(alloc, reader)),
            LbProc::TmpWrite => read_as!(Lb::TmpWriteAnswer, Answer::read(alloc, reader)),
            LbProc::CondWrite => read_as!(Lb::CondWriteAnswer, Answer::read(alloc, reader)),
            LbProc::CommitTmp => read_as!(Lb::CommitTmpAnswer, Answer::read(alloc, reader)),
            LbProc::LookLease => read_as!(Lb::LookLeaseAnswer, Answer::read(alloc, reader)),
        }
    }

    fn write_in(&self, writer: &mut Writer) -> Result<(), AllocError> {
        match self {
            Lb::Null(_) | Lb::NullAnswer => Ok(()),
            Lb::GetLease(call) => call.write_in(writer),
            Lb::GetLeaseAnswer(answer) => answer.write(writer),
            Lb::GetHash(call) => call.write_in(writer),
            Lb::GetHashAnswer(answer) => write_hashes(writer, answer),
            Lb::MkTmpFile(call) => call.write_in(writer),
            Lb::MkTmpFileAnswer(answer) => answer.write(writer),
            Lb::TmpWrite(call) => call.write_in(writer),
            Lb::TmpWriteAnswer(answer) => answer.write(writer),
            Lb::CondWrite(call) => call.write_in(writer),
            Lb::CondWriteAnswer(answer) => answer.write(writer),
            Lb::CommitTmp(call) => call.write_in(writer),
            Lb::CommitTmpAnswer(answer) => answer.write(writer),
            Lb::LookLease(call) => call.write_in(writer),
            Lb::LookLeaseAnswer(answer) => answer.write(writer),
        }
    }
}
