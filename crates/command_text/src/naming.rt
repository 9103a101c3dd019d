//! Commands on names, `open` and `rewrite`, as `specs/Commands.antt` has their words.

ghost use Rattle.std.specs.Prelude.{◌≡◌};
ghost use Rattle.command_text.specs.Commands.{find_of, open_of, renew_of, rewrite_of, spot_command, command_on, rename_of, list_of, look_of, path_command_of};
ghost use Rattle.command_text.specs.Reading.{Gives};

use crate::command::Command;
use crate::fields;
use crate::line_error::LineError;
use crate::parts::Words;
use crate::path::{self, PathCommand};
use crate::words::{is, one, two};
use std::alloc::Global;

/// `open PATH`.
fn find(alloc: Global, word: &[u8]) -> Result<Command, LineError>
    ensures { Gives result (find_of word.now) }
{
    Ok(Command::Named(PathCommand::Find(path::read_spot(alloc, word)?)))
}

/// `open #ID`, or `open PATH`.
pub fn open(alloc: Global, words: &mut Words) -> Result<Command, LineError>
    ensures { Gives result (open_of words.old) }
{
    let Some(word) = one(words) else {
        return Err(LineError::BadLine);
    };
    match fields::id(word) {
        Some(file) => Ok(Command::Open(file)),
        None => find(alloc, word),
    }
}

/// `rewrite PATH`.
fn renew(alloc: Global, word: &[u8]) -> Result<Command, LineError>
    ensures { Gives result (renew_of word.now) }
{
    Ok(Command::Named(PathCommand::Rewrite(path::read_spot(alloc, word)?)))
}

/// `rewrite #ID`, or `rewrite PATH`.
pub fn rewrite(alloc: Global, words: &mut Words) -> Result<Command, LineError>
    ensures { Gives result (rewrite_of words.old) }
{
    let Some(word) = one(words) else {
        return Err(LineError::BadLine);
    };
    match fields::id(word) {
        Some(file) => Ok(Command::Rewrite(file)),
        None => renew(alloc, word),
    }
}

/// What a command does with the one name that it is about.
#[derive(Clone, Copy, Drop)]
enum Deed {
    Make,
    MakeDir,
    Remove,
    RemoveDir,
}

/// A command on one name.
fn on_spot(alloc: Global, deed: Deed, words: &mut Words) -> Result<Command, LineError>
    ensures { Gives result (spot_command (command_on deed) words.old) }
{
    let Some(word) = one(words) else {
        return Err(LineError::BadLine);
    };
    let spot = path::read_spot(alloc, word)?;
    Ok(Command::Named(match deed {
        Deed::Make => PathCommand::Make(spot),
        Deed::MakeDir => PathCommand::MakeDir(spot),
        Deed::Remove => PathCommand::Remove(spot),
        Deed::RemoveDir => PathCommand::RemoveDir(spot),
    }))
}

/// `rename PATH PATH`.
fn rename(alloc: Global, words: &mut Words) -> Result<Command, LineError>
    ensures { Gives result (rename_of words.old) }
{
    let Some((from, to)) = two(words) else {
        return Err(LineError::BadLine);
    };
    let from = path::read_spot(alloc, from)?;
    let to = path::read_spot(alloc, to)?;
    Ok(Command::Named(PathCommand::Rename(from, to)))
}

/// `list PATH`.
fn list(alloc: Global, words: &mut Words) -> Result<Command, LineError>
    ensures { Gives result (list_of words.old) }
{
    let Some(word) = one(words) else {
        return Err(LineError::BadLine);
    };
    Ok(Command::Named(PathCommand::List(path::read_path(alloc, word)?)))
}

/// `look PATH`.
fn look(alloc: Global, words: &mut Words) -> Result<Command, LineError>
    ensures { Gives result (look_of words.old) }
{
    let Some(word) = one(words) else {
        return Err(LineError::BadLine);
    };
    if is(word, b"/") {
        return Ok(Command::Named(PathCommand::LookRoot));
    }
    Ok(Command::Named(PathCommand::Look(path::read_spot(alloc, word)?)))
}

/// A command on names that begins with this word.
pub fn command(alloc: Global, word: &[u8], words: &mut Words) -> Result<Command, LineError>
    ensures { Gives result (path_command_of word.now words.old) }
{
    if is(word, b"make") {
        on_spot(alloc, Deed::Make, words)
    } else if is(word, b"mkdir") {
        on_spot(alloc, Deed::MakeDir, words)
    } else if is(word, b"remove") {
        on_spot(alloc, Deed::Remove, words)
    } else if is(word, b"rmdir") {
        on_spot(alloc, Deed::RemoveDir, words)
    } else if is(word, b"rename") {
        rename(alloc, words)
    } else if is(word, b"list") {
        list(alloc, words)
    } else if is(word, b"look") {
        look(alloc, words)
    } else {
        Err(LineError::BadLine)
    }
}
