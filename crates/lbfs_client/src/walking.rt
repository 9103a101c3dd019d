//! What a step of the client leads to: `specs/Mounting.antt`, over the fields of a mounted client.

ghost use Rattle.std.specs.Prelude.{◌≡◌, IfOk, Some, None};
ghost use Rattle.client_state.specs.Ending.{cut};
ghost use Rattle.lbfs_client.specs.Mounting.{Walks, Leads, Hearing, Receives, Loses};
ghost use Rattle.lbfs_client.specs.Walks.{noted};

use crate::fetching::fetched;
use crate::paging::bound;
use crate::said::{Said, says_end, sends};
use crate::storing::{closed, renewed};
use crate::walk::Walk;
use client_state::step::{ClientStep, Ended, Outcome};
use lb_base::items::Items;
use links::files::Files;
use open_close::client::Client;
use send_list::append;
use std::alloc::{AllocError, Global};
use wire::fault::WireFault;
use wire::message::Message;
use wire::parse::message_of;

/// An operation of the client has ended so, and this is what the line under way has left to do.
fn walk_with<F: Files>(
    alloc: Global,
    files: &mut F,
    client: &mut Client,
    walk: &mut Option<Walk>,
    held: Walk,
    outcome: &Outcome,
    now: u64,
    send: Items<Message>,
) -> Result<Said, AllocError>
    requires { walk.old ≡ None }
    ensures { IfOk result (λ said.
        Walks (record {
          host = record {
            files = F.files files.old;
            faults = F.faults files.old;
          };
          client = client.old;
          walk = Some held;
        })
        (Some held) outcome.now now send
        (record {
          host = record { files = F.files files.new; faults = F.faults files.new };
          client = client.new;
          walk = walk.new;
        }) said) }
{
    match held {
        Walk::Joins => {
            *walk = Some(Walk::Joins);
            says_end(alloc, send, outcome)
        }
        Walk::Reads(place, bytes) => {
            *walk = Some(Walk::Reads(place, bytes));
            says_end(alloc, send, outcome)
        }
        Walk::Renews(file, bytes) => renewed(alloc, client, walk, file, bytes, outcome, now, send),
        Walk::Closes(file) => closed(alloc, client, file, outcome, now, send),
        Walk::Gets(name) => {
            let said = fetched(alloc, files, client, &name, outcome, now, send);
            drop(name);
            said
        }
    }
}

/// An operation of the client has ended, and the line under way goes on, or none has.
pub(crate) fn lead<F: Files>(
    alloc: Global,
    files: &mut F,
    client: &mut Client,
    walk: &mut Option<Walk>,
    ended: &Option<Ended>,
    now: u64,
    send: Items<Message>,
) -> Result<Said, AllocError>
    ensures { IfOk result (λ said.
        Leads (record {
          host = record {
            files = F.files files.old;
            faults = F.faults files.old;
          };
          client = client.old;
          walk = walk.old;
        }) ended.now now send
        (record {
          host = record { files = F.files files.new; faults = F.faults files.new };
          client = client.new;
          walk = walk.new;
        }) said) }
{
    match ended {
        None => Ok(sends(send)),
        Some(ended) => match walk.take() {
            None => says_end(alloc, send, &ended.outcome),
            Some(held) => walk_with(alloc, files, client, walk, held, &ended.outcome, now, send),
        },
    }
}

/// What the line under way has left to do notes the file that was found in a step, if one was.
fn note(walk: &mut Option<Walk>, found: Option<u64>)
    ensures { walk.new ≡ noted walk.old found }
{
    match walk.take() {
        None => {}
        Some(held) => *walk = Some(held.noting(found)),
    }
}

/// The client has done a step.
fn follow<F: Files>(
    alloc: Global,
    files: &mut F,
    client: &mut Client,
    walk: &mut Option<Walk>,
    step: ClientStep,
    now: u64,
) -> Result<Said, AllocError>
    ensures { IfOk result (λ said.
        Leads (record {
          host = record {
            files = F.files files.old;
            faults = F.faults files.old;
          };
          client = client.old;
          walk = noted walk.old step.found;
        }) step.ended now step.send
        (record {
          host = record { files = F.files files.new; faults = F.faults files.new };
          client = client.new;
          walk = walk.new;
        }) said) }
{
    note(walk, step.found);
    let (more, ended) = step.into_parts();
    let mut send = Items::new(alloc);
    // Errors are handed on by a `match`, which is proved more cheaply than `?` (docs/PROVING.md, Code).
    match append(alloc, &mut send, more) {
        Ok(()) => {
            let said = lead(alloc, files, client, walk, &ended, now, send);
            drop(ended);
            said
        }
        Err(want) => {
            drop(ended);
            Err(want)
        }
    }
}

/// Something came from the other end.
pub(crate) fn hear<F: Files>(
    alloc: Global,
    files: &mut F,
    client: &mut Client,
    walk: &mut Option<Walk>,
    message: Result<Message, WireFault>,
    now: u64,
) -> Result<Said, AllocError>
    ensures { IfOk result (λ said.
        Hearing (record {
          host = record {
            files = F.files files.old;
            faults = F.faults files.old;
          };
          client = client.old;
          walk = walk.old;
        }) message now
        (record {
          host = record { files = F.files files.new; faults = F.faults files.new };
          client = client.new;
          walk = walk.new;
        }) said) }
{
    let step = client.got(alloc, message, now);
    follow(alloc, files, client, walk, step, now)
}

/// A record came, with which the answers to the line under way have so many bytes.
pub(crate) fn receive<F: Files>(
    alloc: Global,
    files: &mut F,
    client: &mut Client,
    walk: &mut Option<Walk>,
    listed: u64,
    bytes: &[u8],
    now: u64,
) -> Result<Said, AllocError>
    ensures { IfOk result (λ said.
        Receives (record {
          host = record {
            files = F.files files.old;
            faults = F.faults files.old;
          };
          client = client.old;
          walk = walk.old;
        }) listed bytes.now now
        (record {
          host = record { files = F.files files.new; faults = F.faults files.new };
          client = client.new;
          walk = walk.new;
        }) said) }
{
    let mut message = message_of(alloc, bytes, client.waiting())?;
    bound(alloc, listed, &mut message);
    hear(alloc, files, client, walk, message, now)
}

/// The connection is lost.
pub(crate) fn lose<F: Files>(
    alloc: Global,
    files: &mut F,
    client: &mut Client,
    walk: &mut Option<Walk>,
    now: u64,
) -> Result<Said, AllocError>
    ensures { IfOk result (λ said.
        Loses (record {
          host = record {
            files = F.files files.old;
            faults = F.faults files.old;
          };
          client = client.old;
          walk = walk.old;
        })
        (cut client.old) now (record {
          host = record {
            files = F.files files.new;
            faults = F.faults files.new;
          };
          client = client.new;
          walk = walk.new;
        }) said) }
{
    let step = client.cut(alloc);
    follow(alloc, files, client, walk, step, now)
}
