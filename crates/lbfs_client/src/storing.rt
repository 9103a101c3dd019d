//! What a `put` does to its open file, and how a file is abandoned: `specs/Walks.antt`.

ghost use Rattle.std.specs.Prelude.{◌≡◌, IfOk, None, [], ◌∷◌};
ghost use Rattle.command_text.specs.declared.content.Part.TheVariants as part;
ghost use Rattle.lbfs_client.specs.Walks.{Stores, Abandons, Closed, Closes, Puts, renewed_file, Renewed};

use crate::answer::Answer;
use crate::commanding::{go, go_put, has_done, is_closed};
use crate::said::{Said, answer_of, says, says_end, sends};
use crate::walk::Walk;
use client_state::step::{Ended, Outcome};
use command_text::command::Command;
use cut_bytes::CutBytes;
use lb_base::items::Items;
use open_close::client::Client;
use std::alloc::{AllocError, Global};
use wire::message::Message;

/// A file that is open with nothing in it gets its content and is closed; a write that isn't done is
/// the last.
fn store(
    alloc: Global,
    client: &mut Client,
    file: u64,
    bytes: CutBytes,
    now: u64,
    send: &mut Items<Message>,
) -> Result<Option<Ended>, AllocError>
    ensures { IfOk result (λ ended. Stores client.old file (part.Bytes bytes ∷ []) now send.old client.new ended send.new) }
{
    let written = go_put(alloc, client, file, bytes, now, send)?;
    if !has_done(&written) {
        return Ok(written);
    }
    drop(written);
    go(alloc, client, Command::Close(file), now, send)
}

/// The file is abandoned, and this is said.
pub(crate) fn abandon(
    alloc: Global,
    client: &mut Client,
    file: u64,
    answer: &Answer,
    now: u64,
    mut send: Items<Message>,
) -> Result<Said, AllocError>
    ensures { IfOk result (λ said. Abandons client.old file answer.now now send client.new said) }
{
    let gone = go(alloc, client, Command::Abandon(file), now, &mut send)?;
    drop(gone);
    says(alloc, send, answer)
}

/// The close of a put has ended so.
pub(crate) fn closed(
    alloc: Global,
    client: &mut Client,
    file: u64,
    outcome: &Outcome,
    now: u64,
    send: Items<Message>,
) -> Result<Said, AllocError>
    ensures { IfOk result (λ said. Closed client.old file outcome.now now send client.new said) }
{
    if is_closed(outcome) {
        return says_end(alloc, send, outcome);
    }
    let answer = answer_of(alloc, outcome)?;
    abandon(alloc, client, file, &answer, now, send)
}

/// The close of a put is under way, or has ended.
fn closes(
    alloc: Global,
    client: &mut Client,
    walk: &mut Option<Walk>,
    file: u64,
    ended: &Option<Ended>,
    now: u64,
    send: Items<Message>,
) -> Result<Said, AllocError>
    requires { walk.old ≡ None }
    ensures { IfOk result (λ said. Closes client.old file ended.now now send client.new walk.new said) }
{
    match ended {
        None => {
            *walk = Some(Walk::Closes(file));
            Ok(sends(send))
        }
        Some(ended) => closed(alloc, client, file, &ended.outcome, now, send),
    }
}

/// The file of a put is open with nothing in it, and is stored.
fn put(
    alloc: Global,
    client: &mut Client,
    walk: &mut Option<Walk>,
    file: u64,
    bytes: CutBytes,
    now: u64,
    mut send: Items<Message>,
) -> Result<Said, AllocError>
    requires { walk.old ≡ None }
    ensures { IfOk result (λ said. Puts client.old file (part.Bytes bytes ∷ []) now send client.new walk.new said) }
{
    let ended = store(alloc, client, file, bytes, now, &mut send)?;
    let said = closes(alloc, client, walk, file, &ended, now, send);
    drop(ended);
    said
}

/// The file that a rewrite opened, which is this one if it was done.
fn renewed_file(file: Option<u64>, outcome: &Outcome) -> Option<u64>
    ensures { result ≡ renewed_file file outcome.now }
{
    match outcome {
        Outcome::Done => file,
        _ => None,
    }
}

/// The rewrite of a put, of this file if its path was found, has ended so.
pub(crate) fn renewed(
    alloc: Global,
    client: &mut Client,
    walk: &mut Option<Walk>,
    file: Option<u64>,
    bytes: CutBytes,
    outcome: &Outcome,
    now: u64,
    send: Items<Message>,
) -> Result<Said, AllocError>
    requires { walk.old ≡ None }
    ensures { IfOk result (λ said. Renewed client.old file (part.Bytes bytes ∷ []) outcome.now now send client.new walk.new said) }
{
    match renewed_file(file, outcome) {
        Some(file) => put(alloc, client, walk, file, bytes, now, send),
        None => {
            drop(bytes);
            says_end(alloc, send, outcome)
        }
    }
}
