//! Answers behind their status (RFC 1813, section 3: a union on nfsstat3; RFC 4506, section 4.15).
//! `specs/Answers.antt` states both forms.

ghost use Rattle.std.specs.Prelude.{◌≡◌, ◌++◌, OnOk};
ghost use Rattle.xdr_codec.specs.Format.{Gives};
ghost use Rattle.xdr_codec.specs.Answers.{outcome_form, outcome_of, outcome_number, answer_form, short_answer};

use crate::fault::{Fault, ReadError};
use crate::item::Item;
use crate::read_as;
use crate::reader::Reader;
use crate::status::{Status, from_number, number};
use crate::writer::Writer;
use std::alloc::{AllocError, Global};

/// An answer. A number that is no status is refused as `BadValue`.
pub enum Answer<T, F> {
    /// Status OK, the number 0, and the body.
    Done(T),
    /// Why not, and what goes with it.
    Failed(Status, F),
}

// Written by hand, it is proved here alone, for all bodies.
impl<T: Drop, F: Drop> Drop for Answer<T, F> {
    fn drop(self) {
        match self {
            Answer::Done(body) => drop(body),
            Answer::Failed(_, body) => drop(body),
        }
    }
}

/// Whether the call was done, or why not. After an `Err` the reader is left inside the number.
#[tactic(auto, unfolding(crate::specs::Answers::outcome_form))]
pub fn read_outcome(reader: &mut Reader) -> Result<Option<Status>, ReadError>
    ensures { Gives result reader.new (outcome_form.read reader.old) }
{
    let at = reader.at();
    let value = reader.u32()?;
    if value == 0 {
        return Ok(None);
    }
    match from_number(value) {
        Some(status) => Ok(Some(status)),
        None => Err(ReadError::Fault(Fault::BadValue { at, value })),
    }
}

/// Writes whether the call was done, or why not; only memory can run out.
#[tactic(auto, unfolding(crate::specs::Answers::outcome_form))]
pub fn write_outcome(writer: &mut Writer, outcome: Option<Status>) -> Result<(), AllocError>
    ensures { OnOk result (writer.new ≡ writer.old ++ outcome_form.spell outcome) }
{
    match outcome {
        None => writer.u32(0),
        Some(status) => writer.u32(number(status)),
    }
}

impl<T: Item, F: Item> Item for Answer<T, F> {
    ghost form = { answer_form T.form F.form };

    ghost short = { short_answer T.short F.short };

    fn read(alloc: Global, reader: &mut Reader) -> Result<Answer<T, F>, ReadError> {
        match read_outcome(reader)? {
            None => read_as!(Answer::Done, T::read(alloc, reader)),
            Some(status) => match F::read(alloc, reader) {
                Ok(body) => Ok(Answer::Failed(status, body)),
                Err(why) => Err(why),
            },
        }
    }

    fn write(&self, writer: &mut Writer) -> Result<(), AllocError> {
        match self {
            Answer::Done(body) => {
                write_outcome(writer, None)?;
                body.write(writer)
            }
            Answer::Failed(status, body) => {
                write_outcome(writer, Some(*status))?;
                body.write(writer)
            }
        }
    }
}
