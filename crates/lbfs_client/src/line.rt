//! What a line of a mount's script says: `line_of` of `specs/Lines.antt`.

ghost use Rattle.std.specs.Prelude.{◌≡◌, [], ◌∷◌, MatchOption};
ghost use Rattle.command_text.specs.Reading.{Gives};
ghost use Rattle.lbfs_client.specs.Lines.{place_of, AreNotTwo, put_of, get_of, join_of, line_from, is_skipped, line_of, opening, renewing, file_of};

use crate::local::LocalName;
use command_text::command::Command;
use command_text::fields;
use command_text::line_error::LineError;
use command_text::parts::Words;
use command_text::path::{self, PathCommand, Spot};
use std::alloc::Global;

/// A file of the tree, as a line names it.
#[derive(Drop)]
pub enum Place {
    /// `#ID`: the file with this id.
    File(u64),
    /// `PATH`, other than `/`: the file of this name.
    Named(Spot),
}

/// A line of a script.
#[derive(Drop)]
pub enum MountLine {
    /// A command of a client.
    Plain(Command),
    /// `put LOCAL PLACE`: stores the bytes of a file of the host.
    Put { local: LocalName, place: Place },
    /// `get PLACE LOCAL`: fetches a file, and makes its bytes those of a file of the host.
    Get { place: Place, local: LocalName },
    /// `join`: joins a connection, where none is joined.
    Join,
    /// An empty line, or one that begins with `#`, whatever bytes follow: it says nothing.
    Skipped,
}

/// A file of the tree.
fn read_place(alloc: Global, word: &[u8]) -> Result<Place, LineError>
    ensures { Gives result (place_of word.now) }
{
    match fields::id(word) {
        Some(file) => Ok(Place::File(file)),
        None => Ok(Place::Named(path::read_spot(alloc, word)?)),
    }
}

/// The two words that are left.
fn two<'a>(words: &mut Words<'a>) -> Option<(&'a [u8], &'a [u8])>
    ensures { MatchOption result (AreNotTwo words.old) (λ p. words.old ≡ p.0.now ∷ p.1.now ∷ []) }
{
    match (words.next(), words.next(), words.next()) {
        (Some(first), Some(second), None) => Some((first, second)),
        _ => None,
    }
}

/// `put LOCAL PLACE`.
fn put(alloc: Global, words: &mut Words) -> Result<MountLine, LineError>
    ensures { Gives result (put_of words.old) }
{
    let Some((name, word)) = two(words) else {
        return Err(LineError::BadLine);
    };
    let local = LocalName::read(alloc, name)?;
    let place = read_place(alloc, word)?;
    Ok(MountLine::Put { local, place })
}

/// `get PLACE LOCAL`.
fn get(alloc: Global, words: &mut Words) -> Result<MountLine, LineError>
    ensures { Gives result (get_of words.old) }
{
    let Some((word, name)) = two(words) else {
        return Err(LineError::BadLine);
    };
    let place = read_place(alloc, word)?;
    let local = LocalName::read(alloc, name)?;
    Ok(MountLine::Get { place, local })
}

/// `join`.
fn join(words: &mut Words) -> Option<MountLine>
    ensures { result ≡ join_of words.old }
{
    match words.next() {
        None => Some(MountLine::Join),
        Some(_) => None,
    }
}

/// A line that begins with this word.
fn read_kind(alloc: Global, kind: &[u8], words: &mut Words) -> Result<MountLine, LineError>
    ensures { Gives result (line_from kind.now words.old) }
{
    if kind == b"put".as_slice() {
        put(alloc, words)
    } else if kind == b"get".as_slice() {
        get(alloc, words)
    } else if kind == b"join".as_slice() {
        join(words).ok_or(LineError::BadLine)
    } else {
        let command = Command::read(alloc, kind, words)?;
        Ok(MountLine::Plain(command))
    }
}

/// Whether a line is empty or begins with `#`. It says nothing then.
pub fn is_skipped(line: &[u8]) -> bool
    ensures { result ≡ is_skipped line.now }
{
    line.is_empty() || line.starts_with(b"#")
}

impl MountLine {
    /// Reads a line, which stands here without its line feed, in time linear in its length. The
    /// error is `BadLine` where the line is not in the grammar, or `Memory`.
    pub fn read(alloc: Global, line: &[u8]) -> Result<MountLine, LineError>
        ensures { Gives result (line_of line.now) }
    {
        if is_skipped(line) {
            return Ok(MountLine::Skipped);
        }
        let mut words = Words::new(line);
        let kind = words.next().ok_or(LineError::BadLine)?;
        read_kind(alloc, kind, &mut words)
    }
}

impl Place {
    /// The command that opens it.
    pub fn opening(self) -> Command
        ensures { result ≡ opening self }
    {
        match self {
            Place::File(file) => Command::Open(file),
            Place::Named(spot) => Command::Named(PathCommand::Find(spot)),
        }
    }

    /// The command that writes it anew.
    pub fn renewing(self) -> Command
        ensures { result ≡ renewing self }
    {
        match self {
            Place::File(file) => Command::Rewrite(file),
            Place::Named(spot) => Command::Named(PathCommand::Rewrite(spot)),
        }
    }

    /// Its id, where the line has it.
    pub fn file(&self) -> Option<u64>
        ensures { result ≡ file_of self.now }
    {
        match self {
            Place::File(file) => Some(*file),
            Place::Named(_spot) => None,
        }
    }
}
