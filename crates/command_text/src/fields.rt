//! Words that are a number, an id (`#N`) or a name: `specs/Fields.antt`. Words by themselves are
//! `words.rt`'s, commands `command.rt`'s.

ghost use Rattle.std.specs.Prelude.{◌≡◌, ℕ, ◌+◌, ◌-◌, ◌*◌, ◌<◌, ◌≤◌, ◌^◌, ◌==◌, true, List, [], ◌∷◌, length, MatchOption};
ghost use Rattle.std.specs.List.{list_all};
ghost use Rattle.std.specs.Char.{is_ascii_digit};
ghost use Rattle.command_text.specs.Fields.{has_leading_zero, is_decimal, value_from, value_of, number_of, number_within, is_letter, is_text, is_name, id_of};

use crate::words::is;

/// The longest name, in bytes.
const LONGEST_NAME: usize = limits::NAME_MOST;

/// Whether these are digits alone.
fn are_digits(word: &[u8]) -> bool
    ensures { result ≡ list_all is_ascii_digit word.now }
{
    for byte in word {
        if !byte.is_ascii_digit() {
            return false;
        }
    }
    true
}

/// Whether a 0 stands before another digit.
fn has_leading_zero(word: &[u8]) -> bool
    ensures { result ≡ has_leading_zero word.now }
{
    word.len() > 1 && word[0] == b'0'
}

/// Whether these are digits, at least one, without leading zeros.
fn is_decimal(word: &[u8]) -> bool
    ensures { result ≡ is_decimal word.now }
{
    !word.is_empty() && are_digits(word) && !has_leading_zero(word)
}

/// A number with one more digit, if it has at most 64 bits.
fn with_digit(number: u64, digit: u8) -> Option<u64>
    requires { 48 ≤ digit }
    ensures { MatchOption result (2 ^ 64 ≤ 10 * number + (digit - 48)) (λ n. n ≡ 10 * number + (digit - 48)) }
{
    number.checked_mul(10)?.checked_add(u64::from(digit - b'0'))
}

/// The number that digits stand for, if it has at most 64 bits.
fn value(digits: &[u8]) -> Option<u64>
    requires { list_all is_ascii_digit digits.now ≡ true }
    ensures { result ≡ value_of digits.now }
{
    let mut value = 0u64;
    for digit in digits {
        value = with_digit(value, *digit)?;
    }
    Some(value)
}

/// A number of at most 64 bits.
pub fn number(word: &[u8]) -> Option<u64>
    ensures { result ≡ number_of word.now }
{
    if is_decimal(word) { value(word) } else { None }
}

/// A number from `low` to `high`.
pub fn number_within(low: u64, high: u64, word: &[u8]) -> Option<u64>
    ensures { result ≡ number_within low high word.now }
{
    let number = number(word)?;
    if low <= number && number <= high {
        Some(number)
    } else {
        None
    }
}

/// Whether a byte is a letter of names.
fn is_letter(b: u8) -> bool
    ensures { result ≡ is_letter b }
{
    b.is_ascii_alphanumeric() || b == b'.' || b == b'_' || b == b'-'
}

/// Whether these are letters alone.
fn are_letters(text: &[u8]) -> bool
    ensures { result ≡ list_all is_letter text.now }
{
    for byte in text {
        if !is_letter(*byte) {
            return false;
        }
    }
    true
}

/// Whether these are letters, at least one.
pub fn is_text(text: &[u8]) -> bool
    ensures { result ≡ is_text text.now }
{
    !text.is_empty() && are_letters(text)
}

/// Whether this is the name of a file.
pub fn is_name(word: &[u8]) -> bool
    ensures { result ≡ is_name word.now }
{
    is_text(word) && word.len() <= LONGEST_NAME && !is(word, b".") && !is(word, b"..")
}

/// The id of a file.
pub fn id(word: &[u8]) -> Option<u64>
    ensures { result ≡ id_of word.now }
{
    number(word.strip_prefix(b"#")?)
}
