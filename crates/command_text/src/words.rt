//! Words of a line: whether one is a given word, and the one, two or three that are left.

ghost use Rattle.std.specs.Prelude.{◌≡◌, [], ◌∷◌, bytes_eq, MatchOption};
ghost use Rattle.command_text.specs.Commands.{AreNotOne, AreNotTwo, AreNotThree};

use crate::parts::Words;

/// Whether a word is this one.
pub fn is(word: &[u8], name: &[u8]) -> bool
    ensures { result ≡ bytes_eq word.now name.now }
{
    word == name
}

/// The one word that is left.
pub fn one<'a>(words: &mut Words<'a>) -> Option<&'a [u8]>
    ensures { MatchOption result (AreNotOne words.old) (λ w. words.old ≡ w.now ∷ []) }
{
    match (words.next(), words.next()) {
        (Some(word), None) => Some(word),
        _ => None,
    }
}

/// The two words that are left.
pub fn two<'a>(words: &mut Words<'a>) -> Option<(&'a [u8], &'a [u8])>
    ensures { MatchOption result (AreNotTwo words.old) (λ p. words.old ≡ p.0.now ∷ p.1.now ∷ []) }
{
    match (words.next(), words.next(), words.next()) {
        (Some(first), Some(second), None) => Some((first, second)),
        _ => None,
    }
}

/// The three words that are left.
pub fn three<'a>(words: &mut Words<'a>) -> Option<(&'a [u8], &'a [u8], &'a [u8])>
    ensures { MatchOption result (AreNotThree words.old) (λ p. words.old ≡ p.0.now ∷ p.1.now ∷ p.2.now ∷ []) }
{
    match (words.next(), words.next(), words.next(), words.next()) {
        (Some(first), Some(second), Some(third), None) => Some((first, second, third)),
        _ => None,
    }
}
