//! What a `get` does once its file is open: `Fetched` of `specs/Walks.antt`; and what files of the host
//! are asked for: `specs/Host.antt`.

ghost use Rattle.std.specs.Prelude.{◌≡◌, IfOk};
ghost use Rattle.client_state.specs.State.{local_bytes};
ghost use Rattle.lbfs_client.specs.Host.{Host, HasRead, HasWritten};
ghost use Rattle.lbfs_client.specs.Walks.{kept_answer, Keeps, Fetched};

use crate::answer::Answer;
use crate::commanding::opened_file;
use crate::local::LocalName;
use crate::said::{Said, answer_of, says_end};
use crate::storing::abandon;
use client_state::step::Outcome;
use lb_base::items::{Bytes, Items};
use lb_base::sink::GiveError;
use links::files::{Files, FilesError};
use open_close::client::Client;
use register_model::op::Outcome as Told;
use std::alloc::{AllocError, Global};
use wire::message::Message;

/// Reads a file of the host.
pub(crate) fn read<F: Files>(
    alloc: Global,
    files: &mut F,
    name: &LocalName,
) -> Result<Bytes, FilesError>
    ensures { HasRead (record { files = F.files files.old; faults = F.faults files.old }) name.now result (record { files = F.files files.new; faults = F.faults files.new }) }
{
    files.get(alloc, name.as_str())
}

/// Puts bytes into a file of the host.
fn write<F: Files>(
    alloc: Global,
    files: &mut F,
    name: &LocalName,
    bytes: &[u8],
) -> Result<(), GiveError>
    ensures { HasWritten (record { files = F.files files.old; faults = F.faults files.old }) name.now bytes.now result (record { files = F.files files.new; faults = F.faults files.new }) }
{
    files.put(alloc, name.as_str(), bytes)
}

/// The bytes of an open file; none where it isn't open.
fn local(client: &Client, file: u64) -> &[u8]
    ensures { result.now ≡ local_bytes client.now.opened file }
{
    match client.local(file) {
        Some(bytes) => bytes,
        None => &[],
    }
}

/// What is told of an open whose bytes were put into a file of the host, or weren't.
fn kept_answer(
    alloc: Global,
    outcome: &Outcome,
    wrote: Result<(), GiveError>,
) -> Result<Answer, AllocError>
    ensures { IfOk result (λ answer. answer ≡ kept_answer outcome.now wrote) }
{
    match wrote {
        Ok(()) => answer_of(alloc, outcome),
        Err(GiveError::Failed) => Ok(Answer::LocalFault),
        Err(GiveError::Memory) => Ok(Answer::Ended(Told::Memory)),
    }
}

/// The bytes of the open file go into one of the host, and it is abandoned.
fn keep<F: Files>(
    alloc: Global,
    files: &mut F,
    client: &mut Client,
    file: u64,
    name: &LocalName,
    outcome: &Outcome,
    now: u64,
    send: Items<Message>,
) -> Result<Said, AllocError>
    ensures { IfOk result (λ said.
        Keeps (record {
          files = F.files files.old;
          faults = F.faults files.old;
        }) client.old file name.now outcome.now now send
        (record { files = F.files files.new; faults = F.faults files.new }) client.new said) }
{
    let wrote = write(alloc, files, name, local(client, file));
    let answer = kept_answer(alloc, outcome, wrote)?;
    abandon(alloc, client, file, &answer, now, send)
}

/// The open of a get has ended so.
pub(crate) fn fetched<F: Files>(
    alloc: Global,
    files: &mut F,
    client: &mut Client,
    name: &LocalName,
    outcome: &Outcome,
    now: u64,
    send: Items<Message>,
) -> Result<Said, AllocError>
    ensures { IfOk result (λ said.
        Fetched (record {
          files = F.files files.old;
          faults = F.faults files.old;
        }) client.old name.now outcome.now now send
        (record { files = F.files files.new; faults = F.faults files.new }) client.new said) }
{
    match opened_file(outcome) {
        Some(file) => keep(alloc, files, client, file, name, outcome, now, send),
        None => says_end(alloc, send, outcome),
    }
}
