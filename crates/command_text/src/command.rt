//! A command of a client, and how it is read from words: `command_of` of `specs/Commands.antt`.

ghost use Rattle.std.specs.Prelude.{◌≡◌, None, MatchOption};
ghost use Rattle.command_text.specs.Commands.{write_with, write_of, trunc_of, read_of, close_of, abandon_of, command_of};
ghost use Rattle.command_text.specs.Fields.{content_of};
ghost use Rattle.command_text.specs.Reading.{Gives};

use crate::content::Content;
use crate::line_error::LineError;
use crate::parts::Words;
use crate::path::PathCommand;
use crate::words::{is, one, three, two};
use crate::{fields, naming, pieces};
use std::alloc::Global;

/// A command of a client. Offsets, sizes and counts are in bytes; they and the ids are any numbers
/// of 64 bits. Whether the file is open and what then comes of it is the client's business.
#[derive(Drop)]
pub enum Command {
    /// `open #ID`: opens the file with this id. (`open PATH` is a command on names.)
    Open(u64),
    /// `rewrite #ID`: opens that file with no bytes in it, to be written anew: what the server has of
    /// it isn't fetched. (`rewrite PATH` is a command on names.)
    Rewrite(u64),
    /// `write #ID OFFSET CONTENT`: puts the content into the open file, from the offset on. The
    /// content may be of any length, also none, and its bytes are not built yet.
    Write {
        file: u64,
        offset: u64,
        content: Content,
    },
    /// `trunc #ID SIZE`: gives the open file this size.
    Trunc {
        file: u64,
        size: u64,
    },
    /// `read #ID OFFSET COUNT`: gives at most so many bytes of the open file, from the offset on.
    Read {
        file: u64,
        offset: u64,
        count: u64,
    },
    /// `close #ID`: commits the content of the open file, and closes it.
    Close(u64),
    /// `abandon #ID`: closes the open file, and forgets what was written.
    Abandon(u64),
    /// A command on names.
    Named(PathCommand),
}

/// The file and the offset of a write, and the word of its content.
fn write_words<'a>(words: &mut Words<'a>) -> Option<(u64, u64, &'a [u8])>
    ensures { MatchOption result (write_of words.old ≡ None) (λ p. write_of words.old ≡ write_with p.0 p.1 (content_of p.2.now)) }
{
    let (place, offset, content) = three(words)?;
    match (fields::id(place), fields::number(offset)) {
        (Some(file), Some(offset)) => Some((file, offset, content)),
        _ => None,
    }
}

/// `write #ID OFFSET CONTENT`.
fn write(alloc: Global, words: &mut Words) -> Result<Command, LineError>
    ensures { Gives result (write_of words.old) }
{
    let Some((file, offset, content)) = write_words(words) else {
        return Err(LineError::BadLine);
    };
    Ok(Command::Write {
        file,
        offset,
        content: pieces::content(alloc, content)?,
    })
}

/// `trunc #ID SIZE`.
fn trunc(words: &mut Words) -> Option<Command>
    ensures { result ≡ trunc_of words.old }
{
    let (place, size) = two(words)?;
    match (fields::id(place), fields::number(size)) {
        (Some(file), Some(size)) => Some(Command::Trunc { file, size }),
        _ => None,
    }
}

/// `read #ID OFFSET COUNT`.
fn read(words: &mut Words) -> Option<Command>
    ensures { result ≡ read_of words.old }
{
    let (place, offset, count) = three(words)?;
    match (
        fields::id(place),
        fields::number(offset),
        fields::number(count),
    ) {
        (Some(file), Some(offset), Some(count)) => Some(Command::Read {
            file,
            offset,
            count,
        }),
        _ => None,
    }
}

/// `close #ID`.
fn close(words: &mut Words) -> Option<Command>
    ensures { result ≡ close_of words.old }
{
    let place = one(words)?;
    Some(Command::Close(fields::id(place)?))
}

/// `abandon #ID`.
fn abandon(words: &mut Words) -> Option<Command>
    ensures { result ≡ abandon_of words.old }
{
    let place = one(words)?;
    Some(Command::Abandon(fields::id(place)?))
}

impl Command {
    /// Reads a command that begins with this word, in time linear in the length of its words. The
    /// error is `BadLine` where it is not in the grammar, or `Memory`.
    pub fn read(alloc: Global, word: &[u8], words: &mut Words) -> Result<Command, LineError>
        ensures { Gives result (command_of word.now words.old) }
    {
        if is(word, b"open") {
            naming::open(alloc, words)
        } else if is(word, b"rewrite") {
            naming::rewrite(alloc, words)
        } else if is(word, b"write") {
            write(alloc, words)
        } else if is(word, b"trunc") {
            trunc(words).ok_or(LineError::BadLine)
        } else if is(word, b"read") {
            read(words).ok_or(LineError::BadLine)
        } else if is(word, b"close") {
            close(words).ok_or(LineError::BadLine)
        } else if is(word, b"abandon") {
            abandon(words).ok_or(LineError::BadLine)
        } else {
            naming::command(alloc, word, words)
        }
    }
}
