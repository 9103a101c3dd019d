//! The calls of a program (RFC 5531, section 8): what its procedures are called with, and what they
//! give. `specs/Format.antt` states what reading the whole of a record's rest is.

ghost use Rattle.std.specs.Prelude.{◌≡◌, ◌++◌, Ok, IfOk, OnOk, OnErr, IsErrOf};
ghost use Rattle.xdr_codec.specs.Format.{Gives, GivesAll, IsBytes, ended, whole_at, ◌>>=◌ as ◌and_then◌};

use crate::fault::ReadError;
use crate::reader::Reader;
use crate::writer::Writer;
use lb_base::items::Bytes;
use std::alloc::{AllocError, Global};

/// The arguments of a procedure of some program, or its results.
pub trait ProgramBody: Sized + Drop {
    ghost use Rattle.std.specs.Prelude.{◌≡◌, ℕ, List};
    ghost use Rattle.xdr_codec.specs.Format.{Format};

    /// The procedures of the program.
    type Procedure: Copy + Drop;

    // how the arguments of a procedure are spelled and read, and how its results are
    ghost args_form: { Self.Procedure → Format Self };

    ghost results_form: { Self.Procedure → Format Self };

    // which they are
    ghost IsArgs: { Self.Procedure → Self → Type 0 };

    ghost IsResults: { Self.Procedure → Self → Type 0 };

    // the one spelling of either
    ghost spell: { Self → List ℕ };

    // within its maxima; and so where its numbers are known to be those of their types
    ghost Fits: { Self → Type 0 };

    ghost IsShort: { Self → Type 0 };

    // memory may run out to read the results
    ghost MayWant: { Self.Procedure → Type 0 };

    ghost args_fit: { (p : Self.Procedure) (m : Self) → (args_form p).Fits m → IsArgs p m };

    ghost fits_args: { (p : Self.Procedure) (m : Self) → IsArgs p m → (args_form p).Fits m };

    ghost args_same: { (p : Self.Procedure) (m : Self) → spell m ≡ (args_form p).spell m };

    ghost results_fit: { (p : Self.Procedure) (m : Self) → (results_form p).Fits m → IsResults p m };

    ghost fits_results: { (p : Self.Procedure) (m : Self) → IsResults p m → (results_form p).Fits m };

    ghost results_same: { (p : Self.Procedure) (m : Self) → spell m ≡ (results_form p).spell m };

    /// Reads the arguments of a procedure from the front of a record. After an `Err` the reader is
    /// left inside them.
    fn read_args_in(
        alloc: Global,
        procedure: Self::Procedure,
        reader: &mut Reader,
    ) -> Result<Self, ReadError>
        ensures { Gives result reader.new ((args_form procedure).read reader.old) };

    /// Reads the results of a procedure from the front of a record. After an `Err` the reader is left
    /// inside them.
    fn read_results_in(
        alloc: Global,
        procedure: Self::Procedure,
        reader: &mut Reader,
    ) -> Result<Self, ReadError>
        ensures gives { Gives result reader.new ((results_form procedure).read reader.old) }
        ensures calm { IsErrOf result ReadError.Memory → MayWant procedure };

    /// Writes the spelling; only memory can run out. After an `Err` the writer may hold a part of
    /// it.
    fn write_in(&self, writer: &mut Writer) -> Result<(), AllocError>
        ensures spelled { OnOk result (writer.new ≡ writer.old ++ spell self.now) }
        ensures fits { OnOk result (IsShort self.now → Fits self.now) };
}

/// The item, where nothing is left behind it.
fn at_end<T: Drop>(item: T, rest: &Reader) -> Result<T, ReadError>
    ensures gives { GivesAll result ((ended rest.now) and_then (λ _. Ok item)) }
    ensures same { IfOk result (λ t. t ≡ item) }
    ensures no_memory { ¬ IsErrOf result ReadError.Memory }
{
    rest.end()?;
    Ok(item)
}

fn all_args<M: ProgramBody>(
    alloc: Global,
    procedure: M::Procedure,
    rest: &mut Reader,
) -> Result<M, ReadError>
    ensures exact { GivesAll result (whole_at rest.old.at (M.args_form procedure) rest.old.rest) }
    ensures ends { IfOk result (λ m. (M.args_form procedure).read rest.old ≡ Ok (m, rest.new)) }
{
    let body = M::read_args_in(alloc, procedure, rest)?;
    at_end(body, rest)
}

/// The arguments of a procedure, which fill what is left of a record. After an `Err`, running out of memory
/// too, the reader is where it was.
pub fn read_args<M: ProgramBody>(
    alloc: Global,
    procedure: M::Procedure,
    rest: &mut Reader,
) -> Result<M, ReadError>
    // What is read is spelled so.
    ensures found { IfOk result (λ m. IsBytes rest.old.rest → M.IsArgs procedure m × (rest.old.rest ≡ M.spell m)) }
    // What is spelled so is read, unless memory runs out.
    ensures only { (m : M) → M.IsArgs procedure m → rest.old.rest ≡ M.spell m → GivesAll result (Ok m) }
    // Which fault it is, and where.
    ensures exact { GivesAll result (whole_at rest.old.at (M.args_form procedure) rest.old.rest) }
    // The reader then stands behind them, at the end.
    ensures ends { IfOk result (λ m. (M.args_form procedure).read rest.old ≡ Ok (m, rest.new)) }
    ensures stays { OnErr result (rest.new ≡ rest.old) }
{
    let start = rest.here();
    let read = all_args(alloc, procedure, rest);
    if read.is_err() {
        *rest = start;
    }
    read
}

fn all_results<M: ProgramBody>(
    alloc: Global,
    procedure: M::Procedure,
    rest: &mut Reader,
) -> Result<M, ReadError>
    ensures exact { GivesAll result (whole_at rest.old.at (M.results_form procedure) rest.old.rest) }
    ensures ends { IfOk result (λ m. (M.results_form procedure).read rest.old ≡ Ok (m, rest.new)) }
    ensures calm { IsErrOf result ReadError.Memory → M.MayWant procedure }
{
    let body = M::read_results_in(alloc, procedure, rest)?;
    at_end(body, rest)
}

/// What a procedure gave, which fills what is left of a record. After an `Err`, running out of
/// memory too, the reader is where it was.
pub fn read_results<M: ProgramBody>(
    alloc: Global,
    procedure: M::Procedure,
    rest: &mut Reader,
) -> Result<M, ReadError>
    // What is read is spelled so.
    ensures found { IfOk result (λ m. IsBytes rest.old.rest → M.IsResults procedure m × (rest.old.rest ≡ M.spell m)) }
    // What is spelled so is read, unless memory runs out.
    ensures only { (m : M) → M.IsResults procedure m → rest.old.rest ≡ M.spell m → GivesAll result (Ok m) }
    // Which fault it is, and where.
    ensures exact { GivesAll result (whole_at rest.old.at (M.results_form procedure) rest.old.rest) }
    // The reader then stands behind them, at the end.
    ensures ends { IfOk result (λ m. (M.results_form procedure).read rest.old ≡ Ok (m, rest.new)) }
    ensures stays { OnErr result (rest.new ≡ rest.old) }
    // Where results hold nothing that is copied, no memory is taken.
    ensures calm { IsErrOf result ReadError.Memory → M.MayWant procedure }
{
    let start = rest.here();
    let read = all_results(alloc, procedure, rest);
    if read.is_err() {
        *rest = start;
    }
    read
}

/// The one spelling. The one error is running out of memory; then nothing is left of what was
/// written.
pub fn write<M: ProgramBody>(alloc: Global, body: &M) -> Result<Bytes, AllocError>
    ensures spelled { IfOk result (λ bytes. bytes ≡ M.spell body.now) }
    ensures fits { OnOk result (M.IsShort body.now → M.Fits body.now) }
{
    let mut writer = Writer::new(alloc);
    body.write_in(&mut writer)?;
    Ok(writer.done())
}
