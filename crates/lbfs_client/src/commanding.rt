//! What the client does: its own steps, as `specs/Client.antt` has them, and what one of them came to.

ghost use Rattle.std.specs.Prelude.{◌≡◌, ◌++◌, IfOk, OnOk};
ghost use Rattle.open_close.specs.Putting.{put_of};
ghost use Rattle.lbfs_client.specs.Client.{Goes};
ghost use Rattle.lbfs_client.specs.Walks.{is_done, has_done, is_closed, opened_file};

use client_state::step::{ClientStep, Ended, Outcome};
use command_text::command::Command;
use cut_bytes::CutBytes;
use lb_base::items::Items;
use open_close::client::Client;
use send_list::append;
use std::alloc::{AllocError, Global};
use wire::message::Message;

/// The messages of a step go behind those that there are; how its operation ended, if it did.
fn gather(
    alloc: Global,
    step: ClientStep,
    send: &mut Items<Message>,
) -> Result<Option<Ended>, AllocError>
    ensures ended { IfOk result (λ ended. ended ≡ step.ended) }
    ensures sent { OnOk result (send.new ≡ send.old ++ step.send) }
{
    let (more, ended) = step.into_parts();
    // Errors are handed on by a `match`, which is proved more cheaply than `?` (docs/PROVING.md, Code).
    match append(alloc, send, more) {
        Ok(()) => Ok(ended),
        Err(want) => {
            drop(ended);
            Err(want)
        }
    }
}

/// The client takes a command, whose messages go behind those that there are.
pub(crate) fn go(
    alloc: Global,
    client: &mut Client,
    command: Command,
    now: u64,
    send: &mut Items<Message>,
) -> Result<Option<Ended>, AllocError>
    ensures { IfOk result (λ ended. Goes client.old command now send.old client.new ended send.new) }
{
    let step = client.command(alloc, command, now);
    gather(alloc, step, send)
}

/// The same of a write of these bytes, from a file's first byte on.
pub(crate) fn go_put(
    alloc: Global,
    client: &mut Client,
    file: u64,
    bytes: CutBytes,
    now: u64,
    send: &mut Items<Message>,
) -> Result<Option<Ended>, AllocError>
    ensures { IfOk result (λ ended. Goes client.old (put_of file bytes) now send.old client.new ended send.new) }
{
    let step = client.put(alloc, file, bytes, now);
    gather(alloc, step, send)
}

/// Whether an operation was done.
fn is_done(outcome: &Outcome) -> bool
    ensures { result ≡ is_done outcome.now }
{
    matches!(outcome, Outcome::Done)
}

/// Whether an operation has ended, and was done.
pub(crate) fn has_done(ended: &Option<Ended>) -> bool
    ensures { result ≡ has_done ended.now }
{
    match ended {
        None => false,
        Some(ended) => is_done(&ended.outcome),
    }
}

/// Whether a close stored its file.
pub(crate) fn is_closed(outcome: &Outcome) -> bool
    ensures { result ≡ is_closed outcome.now }
{
    matches!(outcome, Outcome::Closed { .. })
}

/// The file that an open opened.
pub(crate) fn opened_file(outcome: &Outcome) -> Option<u64>
    ensures { result ≡ opened_file outcome.now }
{
    match outcome {
        Outcome::Opened { file, .. } => Some(*file),
        _ => None,
    }
}
