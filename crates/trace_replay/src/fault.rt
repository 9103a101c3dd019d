//! Why a trace is not run. `specs/Run.antt` says which line is refused.

ghost use Rattle.std.specs.Prelude.{◌≡◌};
ghost use Rattle.trace_replay.specs.declared.fault.TraceError.TheVariants as errors;

use std::alloc::AllocError;
use trace_text::refusal::LineFault;

/// A line that is refused.
#[derive(Clone, Copy)]
pub struct Refused {
    /// Its number, from 1. All lines count, skipped ones too.
    pub line: u64,
    /// Why.
    pub fault: LineFault,
}

/// Why a trace is not run.
#[derive(Clone, Copy)]
pub enum TraceError {
    /// The first line that is refused.
    Refused(Refused),
    /// Memory ran out.
    Memory,
}

/// The refusal of the line of this number.
pub fn refusal(line: u64, fault: LineFault) -> TraceError
    ensures { result ≡ errors.Refused (record { line = line; fault = fault }) }
{
    TraceError::Refused(Refused { line, fault })
}

impl From<AllocError> for TraceError {
    ghost from_gives = { λ _ e. e ≡ errors.Memory };

    fn from(_e: AllocError) -> TraceError {
        TraceError::Memory
    }
}
