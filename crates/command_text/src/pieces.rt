//! The content of a file, read part by part: `content_of` of `specs/Fields.antt`.

ghost use Rattle.std.specs.Prelude.{◌≡◌, false, take, bytes_eq, codes};
ghost use Rattle.std.specs.List.{list_all};
ghost use Rattle.command_text.specs.Fields.{is_lower_digit, is_hex, text_of, pairs_of, hex_of, count_of, random_of, part_of, parts_of, content_of};
ghost use Rattle.command_text.specs.Parts.{cut_at};
ghost use Rattle.command_text.specs.Reading.{Gives};

use crate::content::{Content, Part};
use crate::fields;
use crate::line_error::LineError;
use crate::parts::{cut, first_part};
use crate::words::is;
use hex::FromHexError;
use lb_base::items::{Bytes, Items};
use std::alloc::Global;

/// `t:TEXT`.
fn text(alloc: Global, text: &[u8]) -> Result<Part, LineError>
    ensures { Gives result (text_of text.now) }
{
    if fields::is_text(text) {
        Ok(Part::Bytes(Bytes::copy_of(alloc, text)?))
    } else {
        Err(LineError::BadLine)
    }
}

/// Whether these are lower-case hex digits alone.
fn are_lower_digits(text: &[u8]) -> bool
    ensures { result ≡ list_all is_lower_digit text.now }
{
    for byte in text {
        if !matches!(*byte, b'0'..=b'9' | b'a'..=b'f') {
            return false;
        }
    }
    true
}

/// The bytes of pairs of hex digits.
fn pairs(alloc: Global, text: &[u8]) -> Result<Part, LineError>
    ensures { Gives result (pairs_of text.now) }
{
    match hex::decode(alloc, text) {
        Ok(bytes) => Ok(Part::Bytes(Items::from_vec(bytes))),
        Err(FromHexError::OutOfMemory) => Err(LineError::Memory),
        Err(_) => Err(LineError::BadLine),
    }
}

/// `x:HEX`. The crate `hex` takes upper-case digits too, so they are refused first.
fn hex_pairs(alloc: Global, text: &[u8]) -> Result<Part, LineError>
    ensures { Gives result (hex_of text.now) }
{
    if !text.is_empty() && are_lower_digits(text) {
        pairs(alloc, text)
    } else {
        Err(LineError::BadLine)
    }
}

/// How often.
fn count(word: &[u8]) -> Option<u64>
    ensures { result ≡ count_of word.now }
{
    fields::number_within(1, u64::MAX, word)
}

/// `r:S:N`, from the seed on.
fn random(word: &[u8]) -> Option<Part>
    ensures { result ≡ random_of word.now }
{
    let (seed, times) = cut(b':', word)?;
    Some(Part::Random {
        seed: fields::number(seed)?,
        count: count(times)?,
    })
}

/// A part that holds numbers alone.
fn small_part(word: &[u8]) -> Option<Part>
    requires text { bytes_eq (take 2 word.now) (codes "t:") ≡ false }
    requires pairs { bytes_eq (take 2 word.now) (codes "x:") ≡ false }
    ensures { result ≡ part_of word.now }
{
    if let Some(times) = word.strip_prefix(b"z:") {
        Some(Part::Zeros(count(times)?))
    } else if let Some(times) = word.strip_prefix(b"m:") {
        Some(Part::Marks(count(times)?))
    } else {
        random(word.strip_prefix(b"r:")?)
    }
}

/// A part.
fn part(alloc: Global, word: &[u8]) -> Result<Part, LineError>
    ensures { Gives result (part_of word.now) }
{
    if let Some(letters) = word.strip_prefix(b"t:") {
        text(alloc, letters)
    } else if let Some(digits) = word.strip_prefix(b"x:") {
        hex_pairs(alloc, digits)
    } else {
        small_part(word).ok_or(LineError::BadLine)
    }
}

/// Parts joined by `+`.
fn parts(alloc: Global, word: &[u8]) -> Result<Content, LineError>
    ensures { Gives result (parts_of (cut_at 43 word.now)) }
{
    let mut parts = Items::new(alloc);
    let mut rest = Some(word);
    'parts: while let Some(text) = rest {
        let (one, after) = first_part(b'+', text);
        parts.push(part(alloc, one)?)?;
        rest = after;
    }
    Ok(parts)
}

/// A content.
pub fn content(alloc: Global, word: &[u8]) -> Result<Content, LineError>
    ensures { Gives result (content_of word.now) }
{
    if is(word, b"-") {
        Ok(Items::new(alloc))
    } else {
        parts(alloc, word)
    }
}
