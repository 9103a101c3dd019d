//! The commands of a client that stand for a path, and asking for them: `specs/Asking.antt`.

ghost use Rattle.std.specs.Prelude.{◌≡◌, ◌<◌, length, IfOk};
ghost use Rattle.command_text.specs.Paths.{spot_at};
ghost use Rattle.shell_walks.specs.Asking.{command_at, command_on, AsksOn, Finds, FindsListed, is_gone, rename_of};

use crate::remote::{Answer, Remote, Why};
use command_text::command::Command;
use command_text::path::{Path, PathCommand, Spot};
use lb_base::items::Name;
use shell_words::path::copy_of;
use std::alloc::{AllocError, Global};

/// What is done with the one path that a command is about.
#[derive(Clone, Copy)]
pub enum Deed {
    /// Its file is opened, with its content.
    Find,
    /// What it stands for is told.
    Look,
    /// A file is made.
    Make,
    /// A directory is made.
    MakeDir,
    /// A file is removed.
    Remove,
    /// A directory that has no entry is removed.
    RemoveDir,
    /// The names in a directory are told.
    List,
}

/// The statuses of a file that would have the root's place: NFS3ERR_EXIST, NFS3ERR_ISDIR.
const EXIST: u32 = 17;

const ISDIR: u32 = 21;

/// The status of an id that nothing has any more: NFS3ERR_STALE.
const STALE: u32 = 70;

/// The last name of a path, in the directory of those before it. It takes no memory.
fn spot_at(mut names: Path) -> Spot
    requires { 0 < length names }
    ensures { result ≡ spot_at names }
{
    let last = names.len() - 1;
    let name = names.remove(last);
    Spot { dirs: names, name }
}

/// The command on a path other than the root.
fn command_at(deed: Deed, path: Path) -> Command
    requires { 0 < length path }
    ensures { result ≡ command_at deed path }
{
    Command::Named(match deed {
        Deed::Find => PathCommand::Find(spot_at(path)),
        Deed::Look => PathCommand::Look(spot_at(path)),
        Deed::Make => PathCommand::Make(spot_at(path)),
        Deed::MakeDir => PathCommand::MakeDir(spot_at(path)),
        Deed::Remove => PathCommand::Remove(spot_at(path)),
        Deed::RemoveDir => PathCommand::RemoveDir(spot_at(path)),
        Deed::List => PathCommand::List(path),
    })
}

/// The command on a path, or why there is none.
fn command_on(deed: Deed, path: Path) -> Result<Command, Why>
    ensures { result ≡ command_on deed path }
{
    if path.len() > 0 {
        return Ok(command_at(deed, path));
    }
    match deed {
        Deed::Look => Ok(Command::Named(PathCommand::LookRoot)),
        Deed::List => Ok(Command::Named(PathCommand::List(path))),
        Deed::Find => Err(Why::Refused(ISDIR)),
        Deed::Make | Deed::MakeDir => Err(Why::Refused(EXIST)),
        Deed::Remove | Deed::RemoveDir => Err(Why::Root),
    }
}

/// Asks for what is done with a path.
pub fn ask_on<R: Remote>(
    alloc: Global,
    remote: &mut R,
    deed: Deed,
    path: &[Name],
) -> Result<Answer, AllocError>
    ensures { IfOk result (λ answer. AsksOn R.asks remote.old (command_on deed path.now) answer remote.new) }
{
    let path = copy_of(alloc, path)?;
    match command_on(deed, path) {
        Ok(command) => Ok(remote.ask(alloc, command)),
        Err(why) => Ok(Answer::Failed(why)),
    }
}

/// Whether there is no file of that id any more.
pub(crate) fn is_gone(answer: &Answer) -> bool
    ensures { result ≡ is_gone answer.now }
{
    matches!(answer, Answer::Failed(Why::Refused(STALE)))
}

/// Opens the file that a listing told, and where that is gone the one that has the path.
fn open_listed<R: Remote>(
    alloc: Global,
    remote: &mut R,
    id: u64,
    path: &[Name],
) -> Result<Answer, AllocError>
    ensures { IfOk result (λ answer. FindsListed R.asks remote.old id path.now answer remote.new) }
{
    let answer = remote.ask(alloc, Command::Open(id));
    if is_gone(&answer) {
        drop(answer);
        return ask_on(alloc, remote, Deed::Find, path);
    }
    Ok(answer)
}

/// Opens a file, with its content: by the id that a listing told, which takes no look-ups, and else by its path.
pub fn open<R: Remote>(
    alloc: Global,
    remote: &mut R,
    id: Option<u64>,
    path: &[Name],
) -> Result<Answer, AllocError>
    ensures { IfOk result (λ answer. Finds R.asks remote.old id path.now answer remote.new) }
{
    match id {
        Some(id) => open_listed(alloc, remote, id, path),
        None => ask_on(alloc, remote, Deed::Find, path),
    }
}

/// The command that gives one path's file or directory another, or why there is none.
fn rename_of(from: Path, to: Path) -> Result<Command, Why>
    ensures { result ≡ rename_of from to }
{
    if from.len() > 0 && to.len() > 0 {
        Ok(Command::Named(PathCommand::Rename(spot_at(from), spot_at(to))))
    } else {
        Err(Why::Root)
    }
}

/// Asks for another name.
pub fn ask_rename<R: Remote>(
    alloc: Global,
    remote: &mut R,
    from: &[Name],
    to: &[Name],
) -> Result<Answer, AllocError>
    ensures { IfOk result (λ answer. AsksOn R.asks remote.old (rename_of from.now to.now) answer remote.new) }
{
    let from = copy_of(alloc, from)?;
    let to = copy_of(alloc, to)?;
    match rename_of(from, to) {
        Ok(command) => Ok(remote.ask(alloc, command)),
        Err(why) => Ok(Answer::Failed(why)),
    }
}
