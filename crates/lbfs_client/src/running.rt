//! What each kind of line of the script comes to: `specs/Mounting.antt`, over the fields of a mounted client;
//! and what becomes of it once a connection is joined.

ghost use Rattle.std.specs.Prelude.{◌≡◌, IfOk, Some, None};
ghost use Rattle.std.specs.Option.{option_copied};
ghost use Rattle.lbfs_client.specs.Mounting.{Commands, Begins, unread_answer, PutsRead, PutLine, GoesOn, read_bytes, GetLine, JoinLine, is_joining, joined_walk};
ghost use Rattle.client_state.specs.Ending.{joined};

use crate::answer::Answer;
use crate::commanding::go;
use crate::fetching::read;
use crate::line::Place;
use crate::local::LocalName;
use crate::said::{Said, says, says_step, sends};
use crate::walk::Walk;
use crate::walking::lead;
use command_text::command::Command;
use cut_bytes::CutBytes;
use lb_base::items::{Bytes, Items};
use links::files::{Files, FilesError};
use open_close::client::Client;
use register_model::op::Outcome;
use shared_bytes::SharedBytes;
use std::alloc::{AllocError, Global};

/// A command that is all of its line.
pub(crate) fn plain(
    alloc: Global,
    client: &mut Client,
    command: Command,
    now: u64,
) -> Result<Said, AllocError>
    ensures { IfOk result (λ said. Commands client.old command now client.new said) }
{
    let mut send = Items::new(alloc);
    let ended = go(alloc, client, command, now, &mut send)?;
    let said = says_step(alloc, send, &ended);
    drop(ended);
    said
}

/// A line that takes several operations begins with this one.
fn begin<F: Files>(
    alloc: Global,
    files: &mut F,
    client: &mut Client,
    walk: &mut Option<Walk>,
    next: Walk,
    command: Command,
    now: u64,
) -> Result<Said, AllocError>
    ensures { IfOk result (λ said.
        Begins (record {
          host = record {
            files = F.files files.old;
            faults = F.faults files.old;
          };
          client = client.old;
          walk = walk.old;
        }) next command now
        (record {
          host = record { files = F.files files.new; faults = F.faults files.new };
          client = client.new;
          walk = walk.new;
        }) said) }
{
    let mut send = Items::new(alloc);
    // Errors are handed on by a `match`, which is proved more cheaply than `?` (docs/PROVING.md, Code).
    match go(alloc, client, command, now, &mut send) {
        Ok(ended) => {
            *walk = Some(next);
            let said = lead(alloc, files, client, walk, &ended, now, send);
            drop(ended);
            said
        }
        Err(want) => {
            drop(next);
            Err(want)
        }
    }
}

/// What is said where a file of the host wasn't read.
pub(crate) fn unread_answer(error: FilesError) -> Answer
    ensures { result ≡ unread_answer error }
{
    match error {
        FilesError::Failed => Answer::LocalFault,
        FilesError::TooBig { len } => Answer::Ended(Outcome::TooBig(u128::from(len))),
        FilesError::Memory => Answer::Ended(Outcome::Memory),
    }
}

/// A file of the host was read for a put, or wasn't.
fn put_read(
    alloc: Global,
    walk: &mut Option<Walk>,
    place: Place,
    read: Result<Bytes, FilesError>,
) -> Result<Said, AllocError>
    requires { walk.old ≡ None }
    ensures { IfOk result (λ said. PutsRead place read walk.new said) }
{
    match read {
        Ok(bytes) => {
            let bytes = SharedBytes::new(alloc, bytes)?;
            *walk = Some(Walk::Reads(place, CutBytes::whole(bytes)));
            Ok(sends(Items::new(alloc)))
        }
        Err(error) => {
            drop(place);
            says(alloc, Items::new(alloc), &unread_answer(error))
        }
    }
}

/// `put LOCAL PLACE`.
pub(crate) fn put<F: Files>(
    alloc: Global,
    files: &mut F,
    walk: &mut Option<Walk>,
    name: &LocalName,
    place: Place,
) -> Result<Said, AllocError>
    ensures { IfOk result (λ said.
        PutLine (record {
          files = F.files files.old;
          faults = F.faults files.old;
        }) walk.old name.now place
        (record { files = F.files files.new; faults = F.faults files.new }) walk.new said) }
{
    if walk.is_some() {
        drop(place);
        return says(alloc, Items::new(alloc), &Answer::Ended(Outcome::Busy));
    }
    let bytes = read(alloc, files, name);
    put_read(alloc, walk, place, bytes)
}

/// A put that waits goes on, with what was found of its bytes ahead.
pub(crate) fn go_on_with<F: Files>(
    alloc: Global,
    files: &mut F,
    client: &mut Client,
    walk: &mut Option<Walk>,
    held: Walk,
    found: Option<CutBytes>,
    now: u64,
) -> Result<Said, AllocError>
    requires { walk.old ≡ None }
    ensures { IfOk result (λ said.
        GoesOn (record {
          host = record {
            files = F.files files.old;
            faults = F.faults files.old;
          };
          client = client.old;
          walk = Some held;
        }) (Some held) now
        (record {
          host = record { files = F.files files.new; faults = F.faults files.new };
          client = client.new;
          walk = walk.new;
        }) said) }
{
    match held {
        Walk::Reads(place, bytes) => {
            let next = Walk::Renews(place.file(), with_found(bytes, found));
            begin(alloc, files, client, walk, next, place.renewing(), now)
        }
        Walk::Joins => {
            *walk = Some(Walk::Joins);
            Ok(sends(Items::new(alloc)))
        }
        Walk::Renews(file, bytes) => {
            *walk = Some(Walk::Renews(file, bytes));
            Ok(sends(Items::new(alloc)))
        }
        Walk::Closes(file) => {
            *walk = Some(Walk::Closes(file));
            Ok(sends(Items::new(alloc)))
        }
        Walk::Gets(name) => {
            *walk = Some(Walk::Gets(name));
            Ok(sends(Items::new(alloc)))
        }
    }
}

/// Bytes, with what was found of them ahead, if anything was.
fn with_found(bytes: CutBytes, found: Option<CutBytes>) -> CutBytes
    ensures { result ≡ bytes }
{
    match found {
        Some(found) => bytes.with(found),
        None => bytes,
    }
}

/// The bytes of a put that waits to go on.
pub(crate) fn read_bytes(walk: &Option<Walk>) -> Option<&CutBytes>
    ensures { option_copied result ≡ read_bytes walk.now }
{
    match walk {
        Some(Walk::Reads(_place, bytes)) => Some(bytes),
        _ => None,
    }
}

/// `get PLACE LOCAL`.
pub(crate) fn get<F: Files>(
    alloc: Global,
    files: &mut F,
    client: &mut Client,
    walk: &mut Option<Walk>,
    place: Place,
    name: LocalName,
    now: u64,
) -> Result<Said, AllocError>
    ensures { IfOk result (λ said.
        GetLine (record {
          host = record {
            files = F.files files.old;
            faults = F.faults files.old;
          };
          client = client.old;
          walk = walk.old;
        }) walk.old place name now
        (record {
          host = record { files = F.files files.new; faults = F.faults files.new };
          client = client.new;
          walk = walk.new;
        }) said) }
{
    if walk.is_some() {
        drop(place);
        drop(name);
        return says(alloc, Items::new(alloc), &Answer::Ended(Outcome::Busy));
    }
    let next = Walk::Gets(name);
    begin(alloc, files, client, walk, next, place.opening(), now)
}

/// `join`.
pub(crate) fn join(
    alloc: Global,
    client: &Client,
    walk: &mut Option<Walk>,
) -> Result<Said, AllocError>
    ensures { IfOk result (λ said. JoinLine client.now.linked walk.old walk.new said) }
{
    if walk.is_some() {
        return says(alloc, Items::new(alloc), &Answer::Ended(Outcome::Busy));
    }
    if client.linked() {
        return says(alloc, Items::new(alloc), &Answer::Ended(Outcome::Done));
    }
    *walk = Some(Walk::Joins);
    Ok(sends(Items::new(alloc)))
}

/// Whether a line waits for a connection.
fn is_joining(walk: &Option<Walk>) -> bool
    ensures { result ≡ is_joining walk.now }
{
    matches!(walk, Some(Walk::Joins))
}

/// A connection is joined, as a line may have wanted.
pub(crate) fn joined(
    alloc: Global,
    client: &mut Client,
    walk: &mut Option<Walk>,
) -> Result<Said, AllocError>
    ensures client { client.new ≡ joined client.old }
    ensures said { IfOk result (λ said. joined_walk walk.old ≡ (walk.new, said)) }
{
    client.joined(alloc);
    if !is_joining(walk) {
        return Ok(sends(Items::new(alloc)));
    }
    *walk = None;
    let said = says(alloc, Items::new(alloc), &Answer::Ended(Outcome::Done))?;
    Ok(said)
}
