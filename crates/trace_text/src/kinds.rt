//! Each kind of line, from the words behind its first: the lines that say what there is at first, and the
//! one with what a client begins with.
//! The rule is `line_from` of `specs/Grammar.antt`.

ghost use Rattle.std.specs.Prelude.{◌≡◌, false, bytes_eq, codes};
ghost use Rattle.command_text.specs.Reading.{Gives};
ghost use Rattle.trace_text.specs.Grammar.{version_of, term_of, drift_of, clients_of, dir_of, file_of, warm_of, line_from};

use crate::events::{command_line, event, raw};
use crate::fields::lbfs;
use crate::line::Line;
use command_text::line_error::LineError;
use command_text::parts::Words;
use command_text::words::{is, one, two};
use command_text::{fields, path, pieces};
use limits::{CLIENTS_MOST, DRIFT_MOST, TERM_MOST};
use std::alloc::Global;

/// `lbfs-trace V`.
fn version(words: &mut Words) -> Option<Line>
    ensures { result ≡ version_of words.old }
{
    let version = one(words)?;
    Some(Line::Version(lbfs(version)?))
}

/// `term T`.
fn term(words: &mut Words) -> Option<Line>
    ensures { result ≡ term_of words.old }
{
    let term = one(words)?;
    Some(Line::Term(fields::number_within(1, TERM_MOST, term)?))
}

/// `drift E`.
fn drift(words: &mut Words) -> Option<Line>
    ensures { result ≡ drift_of words.old }
{
    let drift = one(words)?;
    Some(Line::Drift(fields::number_within(0, DRIFT_MOST, drift)?))
}

/// `clients N`.
fn clients(words: &mut Words) -> Option<Line>
    ensures { result ≡ clients_of words.old }
{
    let count = one(words)?;
    Some(Line::Clients(fields::number_within(1, CLIENTS_MOST, count)?))
}

/// `dir PATH`.
fn dir(alloc: Global, words: &mut Words) -> Result<Line, LineError>
    ensures { Gives result (dir_of words.old) }
{
    let Some(path) = one(words) else {
        return Err(LineError::BadLine);
    };
    Ok(Line::Dir(path::read_spot(alloc, path)?))
}

/// `file PATH CONTENT`.
fn file(alloc: Global, words: &mut Words) -> Result<Line, LineError>
    ensures { Gives result (file_of words.old) }
{
    let Some((path, content)) = two(words) else {
        return Err(LineError::BadLine);
    };
    let spot = path::read_spot(alloc, path)?;
    let content = pieces::content(alloc, content)?;
    Ok(Line::File { spot, content })
}

/// `warm C CONTENT`.
fn warm(alloc: Global, words: &mut Words) -> Result<Line, LineError>
    ensures { Gives result (warm_of words.old) }
{
    let Some((client, content)) = two(words) else {
        return Err(LineError::BadLine);
    };
    let Some(client) = fields::number(client) else {
        return Err(LineError::BadLine);
    };
    let content = pieces::content(alloc, content)?;
    Ok(Line::Warm { client, content })
}

/// A line without a path, a content, bytes or a command that begins with this word.
fn read_small(kind: &[u8], words: &mut Words) -> Option<Line>
    requires dir { bytes_eq kind.now (codes "dir") ≡ false }
    requires file { bytes_eq kind.now (codes "file") ≡ false }
    requires command { bytes_eq kind.now (codes "do") ≡ false }
    requires warm { bytes_eq kind.now (codes "warm") ≡ false }
    requires raw { bytes_eq kind.now (codes "raw") ≡ false }
    ensures { result ≡ line_from kind.now words.old }
{
    if is(kind, b"lbfs-trace") {
        version(words)
    } else if is(kind, b"term") {
        term(words)
    } else if is(kind, b"drift") {
        drift(words)
    } else if is(kind, b"clients") {
        clients(words)
    } else {
        event(kind, words)
    }
}

/// A line that begins with this word.
pub(crate) fn read_kind(alloc: Global, kind: &[u8], words: &mut Words) -> Result<Line, LineError>
    ensures { Gives result (line_from kind.now words.old) }
{
    if is(kind, b"dir") {
        dir(alloc, words)
    } else if is(kind, b"file") {
        file(alloc, words)
    } else if is(kind, b"do") {
        command_line(alloc, words)
    } else if is(kind, b"warm") {
        warm(alloc, words)
    } else if is(kind, b"raw") {
        raw(alloc, words)
    } else {
        read_small(kind, words).ok_or(LineError::BadLine)
    }
}
