//! The words of a line: `words_of` of `specs/Words.antt`.

ghost use Rattle.std.specs.Prelude.{◌≡◌, IfOk};
ghost use Rattle.shell_words.specs.Giving.{Gives};
ghost use Rattle.shell_words.specs.Words.{nothing_read, read_from, closed, ended, without_blanks, is_comment, without_return, words_in, words_of};

use crate::mistake::{Mistake, ReadError};
use crate::reading::{Escape, Reading, all_words, is_blank};
use lb_base::items::{Items, Name};
use std::alloc::{AllocError, Global};

/// How far a line has been read behind all of its bytes.
fn read_whole(alloc: Global, line: &[u8]) -> Result<Reading, AllocError>
    ensures { IfOk result (λ r. r ≡ read_from nothing_read line.now) }
{
    let mut reading = Reading::new(alloc);
    for byte in line {
        reading.take(alloc, *byte)?;
    }
    Ok(reading)
}

/// The words of a line whose escapes have ended.
fn closed(reading: Reading) -> Result<Items<Name>, ReadError>
    ensures { Gives result (closed reading reading.quote) }
{
    let Reading {
        words,
        word,
        quote,
        ..
    } = reading;
    match quote {
        Some(_) => Err(ReadError::Mistaken(Mistake::OpenQuote)),
        None => Ok(all_words(words, word)?),
    }
}

/// The words of a line that was read to its end.
fn ended(reading: Reading) -> Result<Items<Name>, ReadError>
    ensures { Gives result (ended reading) }
{
    match reading.escape {
        Escape::No => closed(reading),
        _ => Err(ReadError::Mistaken(Mistake::BadEscape)),
    }
}

/// What a text has from its first byte on that is no blank.
pub fn without_blanks(text: &[u8]) -> &[u8]
    ensures { result.now ≡ without_blanks text.now }
{
    let mut rest = text;
    'blanks: while let [first, more @ ..] = rest {
        if !is_blank(*first) {
            return rest;
        }
        rest = more;
    }
    rest
}

/// Whether a line begins with `#`, or has blanks alone before it, and so says nothing.
fn is_comment(line: &[u8]) -> bool
    ensures { result ≡ is_comment line.now }
{
    without_blanks(line).starts_with(b"#")
}

/// A line without the carriage return that ends it, if one does.
fn without_return(line: &[u8]) -> &[u8]
    ensures { result.now ≡ without_return line.now }
{
    match line.strip_suffix(b"\r") {
        Some(text) => text,
        None => line,
    }
}

/// The words of a text.
fn words_in(alloc: Global, text: &[u8]) -> Result<Items<Name>, ReadError>
    ensures { Gives result (words_in text.now) }
{
    if is_comment(text) {
        return Ok(Items::new(alloc));
    }
    let reading = read_whole(alloc, text)?;
    ended(reading)
}

/// The words of a line, which stands here without its line feed, and with the carriage return before that, if
/// there was one: parted by spaces and tabs, any number of them, with quotes of either kind and with escapes, in
/// time linear in its length. The error is the mistake that is in it, or `Memory`.
pub fn words_of(alloc: Global, line: &[u8]) -> Result<Items<Name>, ReadError>
    ensures { Gives result (words_of line.now) }
{
    words_in(alloc, without_return(line))
}
