//! Any call of the callback program and any answer, read from a record and written to it.
//! `specs/Back.antt` states which they are.

ghost use Rattle.std.specs.Prelude.{◌≡◌, ◌++◌, OnOk};

use crate::message::{Back, BackProc};
use std::alloc::{AllocError, Global};
use xdr_codec::fault::ReadError;
use xdr_codec::handle::Handle;
use xdr_codec::item::Item;
use xdr_codec::program::ProgramBody;
use xdr_codec::read_as;
use xdr_codec::reader::Reader;
use xdr_codec::writer::Writer;

impl ProgramBody for Back {
    ghost use Rattle.hash_calls.specs.Back.{args_form, answer_of, back_spell, IsArgs, IsAnswer, BackFits, args_fit, fits_args, args_same, answer_fits, fits_answer, answer_same};

    type Procedure = BackProc;

    ghost args_form = { args_form };

    ghost results_form = { answer_of };

    ghost IsArgs = { IsArgs };

    ghost IsResults = { IsAnswer };

    ghost spell = { back_spell };

    ghost Fits = { BackFits };

    ghost IsShort = { λ _. Unit {0} };

    ghost MayWant = { λ _. ⊥ };

    ghost args_fit = { args_fit };

    ghost fits_args = { fits_args };

    ghost args_same = { args_same };

    ghost results_fit = { answer_fits };

    ghost fits_results = { fits_answer };

    ghost results_same = { answer_same };

    fn read_args_in(
        alloc: Global,
        procedure: BackProc,
        reader: &mut Reader,
    ) -> Result<Back, ReadError> {
        match procedure {
            BackProc::Null => Ok(Back::Null),
            BackProc::Recall => read_as!(Back::Recall, Handle::read(alloc, reader)),
        }
    }

    fn read_results_in(
        _alloc: Global,
        procedure: BackProc,
        _reader: &mut Reader,
    ) -> Result<Back, ReadError> {
        match procedure {
            BackProc::Null => Ok(Back::NullAnswer),
            BackProc::Recall => Ok(Back::RecallAnswer),
        }
    }

    fn write_in(&self, writer: &mut Writer) -> Result<(), AllocError> {
        match self {
            Back::Recall(handle) => handle.write(writer),
            Back::Null | Back::NullAnswer | Back::RecallAnswer => Ok(()),
        }
    }
}
