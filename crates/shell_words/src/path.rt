//! Paths of the server's tree, as words name them: `path_of` of `specs/Paths.antt`.

ghost use Rattle.std.specs.Prelude.{◌≡◌, [], ◌∷◌, ◌++◌, IfOk};
ghost use Rattle.command_text.specs.Parts.{cut_at, parts_left};
ghost use Rattle.shell_words.specs.Giving.{Gives};
ghost use Rattle.shell_words.specs.Paths.{stays, above, within, stepped, walked, is_absolute, from_of, path_of, last_from, last_of};

use crate::mistake::{Mistake, ReadError};
use command_text::parts::first_part;
use command_text::path::Path;
use command_text::words::is;
use lb_base::items::{Items, Name};
use limits::{NAME_MOST, PATH_NAMES_MOST};
use std::alloc::{AllocError, Global};

/// A second path of the same names.
pub fn copy_of(alloc: Global, names: &[Name]) -> Result<Path, AllocError>
    ensures { IfOk result (λ path. path ≡ names.now) }
{
    let mut path = Items::new(alloc);
    for name in names {
        path.push(name.try_clone(alloc)?)?;
    }
    Ok(path)
}

/// Whether a part stays where it is.
fn stays(part: &[u8]) -> bool
    ensures { result ≡ stays part.now }
{
    part.is_empty() || is(part, b".")
}

/// One directory up. It takes no memory.
pub fn above(mut names: Path) -> Path
    ensures { result ≡ above names }
{
    if !names.is_empty() {
        let last = names.len() - 1;
        drop(names.remove(last));
    }
    names
}

/// The names, where they are no more than a path may have.
fn within(names: Path) -> Result<Path, ReadError>
    ensures { Gives result (within names) }
{
    if names.len() <= PATH_NAMES_MOST {
        Ok(names)
    } else {
        Err(ReadError::Mistaken(Mistake::LongPath))
    }
}

/// A name more.
fn deeper(alloc: Global, mut names: Path, part: &[u8]) -> Result<Path, AllocError>
    ensures { IfOk result (λ more. more ≡ names ++ part.now ∷ []) }
{
    names.push(Name::copy_of(alloc, part)?)?;
    Ok(names)
}

/// What a part makes of the names so far.
fn stepped(alloc: Global, names: Path, part: &[u8]) -> Result<Path, ReadError>
    ensures { Gives result (stepped names part.now) }
{
    if stays(part) {
        Ok(names)
    } else if is(part, b"..") {
        Ok(above(names))
    } else if part.len() <= NAME_MOST {
        Ok(deeper(alloc, names, part)?)
    } else {
        Err(ReadError::Mistaken(Mistake::LongName))
    }
}

/// The names behind those of a directory, part by part.
fn walked(alloc: Global, from: Path, word: &[u8]) -> Result<Path, ReadError>
    ensures { Gives result (walked from (cut_at 47 word.now)) }
{
    let mut names = from;
    let mut rest = Some(word);
    'parts: while let Some(text) = rest {
        let (part, after) = first_part(b'/', text);
        names = stepped(alloc, names, part)?;
        rest = after;
    }
    within(names)
}

/// Whether a word's path goes from the root.
fn is_absolute(word: &[u8]) -> bool
    ensures { result ≡ is_absolute word.now }
{
    word.starts_with(b"/")
}

/// The directory from which a word's path goes.
fn from_of(alloc: Global, dir: &[Name], word: &[u8]) -> Result<Path, AllocError>
    ensures { IfOk result (λ from. from ≡ from_of dir.now word.now) }
{
    if is_absolute(word) {
        Ok(Items::new(alloc))
    } else {
        copy_of(alloc, dir)
    }
}

/// The path that a word names, in a directory. The error is the mistake that is in it, or `Memory`.
pub fn path_of(alloc: Global, dir: &[Name], word: &[u8]) -> Result<Path, ReadError>
    ensures { Gives result (path_of dir.now word.now) }
{
    let from = from_of(alloc, dir, word)?;
    walked(alloc, from, word)
}

/// The last part of a word that isn't empty; nothing where there is none. It takes no memory.
pub fn last_of(word: &[u8]) -> &[u8]
    ensures { result.now ≡ last_of word.now }
{
    let mut last: &[u8] = &[];
    let mut rest = Some(word);
    'parts: while let Some(text) = rest {
        let (part, after) = first_part(b'/', text);
        if !part.is_empty() {
            last = part;
        }
        rest = after;
    }
    last
}
