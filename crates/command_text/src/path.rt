//! Paths, and commands on names. `specs/Paths.antt` says what the words of a path stand for.

ghost use Rattle.std.specs.Prelude.{◌≡◌, ◌<◌, ◌-◌, length};
ghost use Rattle.command_text.specs.Fields.{name_of};
ghost use Rattle.command_text.specs.Parts.{cut_at};
ghost use Rattle.command_text.specs.Paths.{names_of, within_path, names_in, spot_at, spot_of, path_of};
ghost use Rattle.command_text.specs.Reading.{Gives};

use crate::fields;
use crate::line_error::LineError;
use crate::parts::first_part;
use crate::words::is;
use lb_base::items::{Items, Name};
use limits::PATH_NAMES_MOST;
use std::alloc::Global;

/// The names from the root on; none is the root itself.
pub type Path = Items<Name>;

/// A name in the directory that a path leads to.
#[derive(Drop)]
pub struct Spot {
    /// The directory's path.
    pub dirs: Path,
    pub name: Name,
}

/// A command on names.
#[derive(Drop)]
pub enum PathCommand {
    /// `open PATH`: opens the file of this name.
    Find(Spot),
    /// `rewrite PATH`: opens the file of this name with no bytes in it, to be written anew.
    Rewrite(Spot),
    /// `look PATH`: tells what a name stands for.
    Look(Spot),
    /// `look /`: tells of the root.
    LookRoot,
    /// `list PATH`: lists the names in a directory.
    List(Path),
    /// `make PATH`: makes a file with no bytes, where the name is free.
    Make(Spot),
    /// `mkdir PATH`: makes a directory, where the name is free.
    MakeDir(Spot),
    /// `remove PATH`: removes a file.
    Remove(Spot),
    /// `rmdir PATH`: removes a directory that has no entry.
    RemoveDir(Spot),
    /// `rename PATH PATH`: gives the first name's file or directory the second name.
    Rename(Spot, Spot),
}

/// A name.
fn name(alloc: Global, word: &[u8]) -> Result<Name, LineError>
    ensures { Gives result (name_of word.now) }
{
    if fields::is_name(word) {
        Ok(Name::copy_of(alloc, word)?)
    } else {
        Err(LineError::BadLine)
    }
}

/// Names joined by `/`, any number of them.
fn joined_names(alloc: Global, word: &[u8]) -> Result<Path, LineError>
    ensures { Gives result (names_of (cut_at 47 word.now)) }
{
    let mut names = Items::new(alloc);
    let mut rest = Some(word);
    'names: while let Some(text) = rest {
        let (one, after) = first_part(b'/', text);
        names.push(name(alloc, one)?)?;
        rest = after;
    }
    Ok(names)
}

/// A path other than the root.
fn names(alloc: Global, word: &[u8]) -> Result<Path, LineError>
    ensures { Gives result (names_in word.now) }
{
    let names = joined_names(alloc, word)?;
    if names.len() <= PATH_NAMES_MOST {
        Ok(names)
    } else {
        Err(LineError::BadLine)
    }
}

/// The last of these names, in the directory of those before it. It takes no memory.
fn spot_at(mut names: Path) -> Spot
    requires { 0 < length names }
    ensures { result ≡ spot_at names }
{
    let last = names.len() - 1;
    let name = names.remove(last);
    Spot { dirs: names, name }
}

/// A path other than the root, as a name in a directory.
pub fn read_spot(alloc: Global, word: &[u8]) -> Result<Spot, LineError>
    ensures { Gives result (spot_of word.now) }
{
    let names = names(alloc, word)?;
    if names.is_empty() {
        return Err(LineError::BadLine);
    }
    Ok(spot_at(names))
}

/// Any path.
pub fn read_path(alloc: Global, word: &[u8]) -> Result<Path, LineError>
    ensures { Gives result (path_of word.now) }
{
    if is(word, b"/") {
        Ok(Items::new(alloc))
    } else {
        names(alloc, word)
    }
}
