//! What a shell makes of how a command ended, and which commands may be asked again: `specs/Asking.antt`.

ghost use Rattle.std.specs.Prelude.{◌≡◌, true, IfOk, IfSome};
ghost use Rattle.shell_link.specs.Asking.{fault_number, is_directory, done_as, answer_of, makes, is_lost, is_local, said_of, stops, reads, rereads, fresh_if, look_if, wants_look};

use crate::hearing::{Heard, listed_as};
use client_state::step::{BadPeer, Outcome};
use command_text::command::Command;
use command_text::path::{PathCommand, Spot};
use shell_walks::remote::{Answer, Seen, Why};
use shell_words::path::copy_of;
use std::alloc::{AllocError, Global};
use xdr_codec::attr::Kind;
use xdr_codec::status;

/// The number of a peer's fault.
fn fault_number(fault: &BadPeer) -> u32
    ensures { result ≡ fault_number fault.now }
{
    match fault {
        BadPeer::Garbage { .. } => 1,
        BadPeer::UnknownXid { .. } => 2,
        BadPeer::Digest { .. } => 3,
        BadPeer::Denied { .. } => 4,
        BadPeer::Shape { .. } => 5,
    }
}

/// Whether a kind is a directory's.
fn is_directory(kind: Kind) -> bool
    ensures { result ≡ is_directory kind }
{
    matches!(kind, Kind::Directory)
}

/// Whether a command makes a file.
pub(crate) fn makes(command: &Command) -> bool
    ensures { result ≡ makes command.now }
{
    matches!(command, Command::Named(PathCommand::Make(_)))
}

/// What was done, and has nothing to tell but the id of a file that was made.
fn done_as(makes: bool, made: Option<u64>) -> Answer
    ensures { result ≡ done_as makes made }
{
    match made {
        Some(file) if makes => Answer::Made(file),
        _ => Answer::Done,
    }
}

/// How a command ended, as a shell is told it.
pub(crate) fn answer_of(alloc: Global, makes: bool, heard: Heard, outcome: Outcome) -> Answer
    ensures { result ≡ answer_of makes heard outcome }
{
    match outcome {
        Outcome::Opened { file, .. } => Answer::Opened(file),
        Outcome::Closed { version, .. } => Answer::Closed(version),
        Outcome::Done => done_as(makes, heard.made),
        Outcome::Piece { .. } => Answer::Done,
        Outcome::Names(names) => Answer::Names(listed_as(alloc, names, heard.ids)),
        Outcome::Seen {
            id,
            kind,
            version,
            len,
        } => Answer::Seen(Seen {
            id,
            is_dir: is_directory(kind),
            version,
            len,
        }),
        Outcome::Busy | Outcome::NotOpen | Outcome::AlreadyOpen => Answer::Failed(Why::Order),
        Outcome::TooBig(_) => Answer::Failed(Why::TooBig),
        Outcome::Lost => Answer::Failed(Why::Lost),
        Outcome::Changed { .. } => Answer::Failed(Why::Changed),
        Outcome::NoLink => Answer::Failed(Why::NoLink),
        Outcome::Refused(status) => Answer::Failed(Why::Refused(status::number(status))),
        Outcome::PeerMemory => Answer::Failed(Why::PeerMemory),
        Outcome::BadPeer(fault) => Answer::Failed(Why::BadPeer(fault_number(&fault))),
        Outcome::Memory => Answer::Failed(Why::Memory),
    }
}

/// Whether the connection was lost meanwhile.
pub(crate) fn is_lost(answer: &Answer) -> bool
    ensures { result ≡ is_lost answer.now }
{
    matches!(answer, Answer::Failed(Why::Lost))
}

/// Whether a command is on an open file, and no server is asked for it.
pub(crate) fn is_local(command: &Command) -> bool
    ensures { result ≡ is_local command.now }
{
    matches!(
        command,
        Command::Write { .. } | Command::Trunc { .. } | Command::Read { .. } | Command::Abandon(_)
    )
}

/// Why nothing else is asked for on a connection, by what the look came to by which it was tried.
pub(crate) fn stops(looked: &Answer) -> Option<Why>
    ensures { result ≡ stops looked.now }
{
    match looked {
        Answer::Failed(Why::Lost) => Some(Why::NoLink),
        Answer::Failed(Why::BadPeer(fault)) => Some(Why::BadPeer(*fault)),
        Answer::Failed(Why::Memory) => Some(Why::Memory),
        _ => None,
    }
}

/// Whether a command on names changes nothing.
fn reads(command: &PathCommand) -> bool
    ensures { result ≡ reads command.now }
{
    matches!(
        command,
        PathCommand::Find(_)
            | PathCommand::Rewrite(_)
            | PathCommand::Look(_)
            | PathCommand::LookRoot
            | PathCommand::List(_)
    )
}

/// Whether a command changes nothing.
pub(crate) fn rereads(command: &Command) -> bool
    ensures { result ≡ rereads command.now }
{
    match command {
        Command::Named(command) => reads(command),
        Command::Open(_) | Command::Rewrite(_) => true,
        _ => false,
    }
}

/// Whether a connection is fresh still, behind a command for which something came on it, or didn't.
pub(crate) fn fresh_if(came: bool, is_fresh: bool) -> bool
    ensures { result ≡ fresh_if came is_fresh }
{
    is_fresh && !came
}

/// Whether a connection is tried before a command is asked for: before a change, where nothing came on it yet.
pub(crate) fn wants_look(is_fresh: bool, command: &Command) -> bool
    ensures { result ≡ wants_look is_fresh command.now }
{
    is_fresh && !is_local(command) && !rereads(command)
}

/// What is told of a command: of one that changes nothing it needn't be said that it may have been done.
pub(crate) fn said_of(changes_nothing: bool, answer: Answer) -> Answer
    ensures { result ≡ said_of changes_nothing answer }
{
    if changes_nothing && is_lost(&answer) {
        return Answer::Failed(Why::Cut);
    }
    answer
}

/// The same name in the same directory.
fn copy_of_spot(alloc: Global, spot: &Spot) -> Result<Spot, AllocError>
    ensures { IfOk result (λ copy. copy ≡ spot.now) }
{
    let dirs = copy_of(alloc, spot.dirs.as_slice())?;
    let name = spot.name.try_clone(alloc)?;
    Ok(Spot { dirs, name })
}

/// The same command on names, where it changes nothing; else none.
fn copy_of_reading(alloc: Global, command: &PathCommand) -> Result<Option<PathCommand>, AllocError>
    ensures { IfOk result (λ again. IfSome again (λ copy. (copy ≡ command.now) × (reads command.now ≡ true))) }
{
    match command {
        PathCommand::Find(spot) => Ok(Some(PathCommand::Find(copy_of_spot(alloc, spot)?))),
        PathCommand::Rewrite(spot) => Ok(Some(PathCommand::Rewrite(copy_of_spot(alloc, spot)?))),
        PathCommand::Look(spot) => Ok(Some(PathCommand::Look(copy_of_spot(alloc, spot)?))),
        PathCommand::LookRoot => Ok(Some(PathCommand::LookRoot)),
        PathCommand::List(path) => Ok(Some(PathCommand::List(copy_of(alloc, path.as_slice())?))),
        _ => Ok(None),
    }
}

/// The same command, where it may be asked again; none where it may not, or where memory runs out.
pub(crate) fn again_of(alloc: Global, command: &Command) -> Option<Command>
    ensures { IfSome result (λ copy. (copy ≡ command.now) × (rereads command.now ≡ true)) }
{
    match command {
        Command::Named(command) => match copy_of_reading(alloc, command) {
            Ok(Some(command)) => Some(Command::Named(command)),
            _ => None,
        },
        Command::Open(file) => Some(Command::Open(*file)),
        Command::Rewrite(file) => Some(Command::Rewrite(*file)),
        _ => None,
    }
}
