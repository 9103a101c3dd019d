//! What the words of a line stand for, beyond what they stand for in commands: `specs/Fields.antt`.

ghost use Rattle.std.specs.Prelude.{◌≡◌, ◌+◌, ◌*◌, ◌≤◌, ◌^◌, true, MatchOption};
ghost use Rattle.std.specs.List.{list_all};
ghost use Rattle.std.specs.Result.{result_ok};
ghost use Rattle.hex.specs.Hex.{decode_of};
ghost use Rattle.command_text.specs.Fields.{is_lower_digit};
ghost use Rattle.command_text.specs.Reading.{Gives};
ghost use Rattle.trace_text.specs.Fields.{lbfs_of, reading_of, amount_of, bytes_of, who_of, digit_of, hex_of, is_key, key_of};

use crate::line::{Amount, LBFS_TRACED, Who};
use command_text::fields::{number, number_within};
use command_text::line_error::LineError;
use command_text::words::is;
use hex::FromHexError;
use lb_base::items::{Bytes, Items};
use std::alloc::Global;

/// The last reading of a clock, in milliseconds.
const LAST_READING: u64 = limits::READING_MOST;

/// A version of LBFS of which there are traces.
#[tactic(auto, using(crate::proofs::Versions::version_small))]
pub(crate) fn lbfs(word: &[u8]) -> Option<u32>
    ensures { result ≡ lbfs_of word.now }
{
    let version = number_within(1, LBFS_TRACED, word)?;
    Some(version as u32)
}

/// A reading of a clock.
pub(crate) fn reading(word: &[u8]) -> Option<u64>
    ensures { result ≡ reading_of word.now }
{
    number_within(0, LAST_READING, word)
}

/// How many bytes: `all`, or a number.
pub(crate) fn amount(word: &[u8]) -> Option<Amount>
    ensures { result ≡ amount_of word.now }
{
    if is(word, b"all") {
        Some(Amount::All)
    } else {
        Some(Amount::Bytes(number(word)?))
    }
}

/// Whose index: `server`, or a client's number.
pub(crate) fn who(word: &[u8]) -> Option<Who>
    ensures { result ≡ who_of word.now }
{
    if is(word, b"server") {
        Some(Who::Server)
    } else {
        Some(Who::Client(number(word)?))
    }
}

/// Whether these are lower-case hex digits alone.
fn are_lower_digits(text: &[u8]) -> bool
    ensures { result ≡ list_all is_lower_digit text.now }
{
    for byte in text {
        if !matches!(*byte, b'0'..=b'9' | b'a'..=b'f') {
            return false;
        }
    }
    true
}

/// The bytes of pairs of hex digits.
fn pairs(alloc: Global, digits: &[u8]) -> Result<Bytes, LineError>
    ensures { Gives result (result_ok (decode_of digits.now)) }
{
    match hex::decode(alloc, digits) {
        Ok(bytes) => Ok(Items::from_vec(bytes)),
        Err(FromHexError::OutOfMemory) => Err(LineError::Memory),
        Err(_) => Err(LineError::BadLine),
    }
}

/// The bytes that pairs of lower-case hex digits stand for. The crate `hex` takes upper-case digits
/// too, so they are refused first.
pub(crate) fn bytes(alloc: Global, word: &[u8]) -> Result<Bytes, LineError>
    ensures { Gives result (bytes_of word.now) }
{
    if !word.is_empty() && are_lower_digits(word) {
        pairs(alloc, word)
    } else {
        Err(LineError::BadLine)
    }
}

/// Whether these are the sixteen digits of a key.
fn is_key(word: &[u8]) -> bool
    ensures { result ≡ is_key word.now }
{
    word.len() == 16 && are_lower_digits(word)
}

/// What a hex digit stands for.
fn digit_of(digit: u8) -> u8
    requires { is_lower_digit digit ≡ true }
    ensures { result ≡ digit_of digit }
{
    if digit <= b'9' {
        digit - b'0'
    } else {
        digit - (b'a' - 10)
    }
}

/// A number with one more hex digit, if it has at most 64 bits.
fn with_digit(number: u64, digit: u8) -> Option<u64>
    requires { is_lower_digit digit ≡ true }
    ensures { MatchOption result (2 ^ 64 ≤ 16 * number + digit_of digit) (λ n. n ≡ 16 * number + digit_of digit) }
{
    number
        .checked_mul(16)?
        .checked_add(u64::from(digit_of(digit)))
}

/// The number that hex digits stand for, if it has at most 64 bits.
fn hex_number(digits: &[u8]) -> Option<u64>
    requires { list_all is_lower_digit digits.now ≡ true }
    ensures { result ≡ hex_of digits.now }
{
    let mut value = 0u64;
    for digit in digits {
        value = with_digit(value, *digit)?;
    }
    Some(value)
}

/// A key of an index.
pub(crate) fn key(word: &[u8]) -> Option<u64>
    ensures { result ≡ key_of word.now }
{
    if is_key(word) { hex_number(word) } else { None }
}
