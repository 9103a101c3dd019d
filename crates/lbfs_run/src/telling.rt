//! What is written as a server or a mount ends: `Tells` of `specs/Telling.antt`.

ghost use Rattle.std.specs.Prelude.{◌≡◌, ◌≤◌, ◌⊎◌};
ghost use Rattle.lb_base.specs.Causes.{Rose};
ghost use Rattle.exit_status.specs.declared.status.Status.TheVariants as status;
ghost use Rattle.lbfs_run.specs.Telling.{Tells};

use crate::output::Output;
use exit_status::status::Status;
use lb_base::sink::{GiveError, Sink, give_all};

/// Writes the output, and answers its status, or that of what went wrong.
pub(crate) fn tell<K: Sink>(output: &Output, sink: &mut K) -> Status
    ensures told { Tells result (K.held sink.old) (K.held sink.new) (output.now.status, output.now.text) }
    ensures later { K.faults sink.old ≤ K.faults sink.new }
    ensures fault { result ≡ status.WriteFault → (output.now.status ≡ status.WriteFault) ⊎ Rose (K.faults sink.old) (K.faults sink.new) }
{
    match give_all(sink, output.text.as_slice()) {
        Ok(()) => output.status,
        Err(GiveError::Failed) => Status::WriteFault,
        Err(GiveError::Memory) => Status::Memory,
    }
}
