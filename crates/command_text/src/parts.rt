//! The lines of a text, and the words of a line: `lines_of` and `words_of` of `specs/Parts.antt`.

ghost use Rattle.std.specs.Prelude.{◌≡◌, ℕ, ◌<◌, ◌≤◌, ◌==◌, List, [], ◌∷◌, length, MatchOption, IfSome, position};
ghost use Rattle.std.specs.List.{position_or_len, before_first, after_first};
ghost use Rattle.command_text.specs.Parts.{cut_at, lines_of, parts_left, words_of};

use std::marker::Model;

/// The place of the first such byte.
fn place_of(byte: u8, text: &[u8]) -> Option<usize>
    ensures { result ≡ position (λ b. b == byte) text.now }
{
    text.iter().position(|b| *b == byte)
}

/// What stands before the first such byte, and after it.
pub fn cut(byte: u8, text: &[u8]) -> Option<(&[u8], &[u8])>
    ensures { MatchOption result (length text.now ≤ position_or_len (λ b. b == byte) text.now)
        (λ p. (position_or_len (λ b. b == byte) text.now < length text.now)
        × (p.0.now ≡ before_first (λ b. b == byte) text.now)
        × (p.1.now ≡ after_first (λ b. b == byte) text.now)) }
{
    let place = place_of(byte, text)?;
    Some((&text[..place], &text[place + 1..]))
}

/// The first line of a text, without its line feed, and the text after it; `None` where the text is
/// empty.
pub fn first_line(text: &[u8]) -> Option<(&[u8], &[u8])>
    ensures line { MatchOption result (text.now ≡ []) (λ p. lines_of text.now ≡ p.0.now ∷ lines_of p.1.now) }
    ensures shorter { IfSome result (λ p. length p.1.now < length text.now) }
{
    if text.is_empty() {
        return None;
    }
    match cut(b'\n', text) {
        Some((line, after)) => Some((line, after)),
        None => Some((text, &[])),
    }
}

/// What stands before the first such byte, and what is left behind it, if there is one.
pub fn first_part(byte: u8, text: &[u8]) -> (&[u8], Option<&[u8]>)
    ensures parts { cut_at byte text.now ≡ result.0.now ∷ parts_left byte result.1 }
    ensures shorter { IfSome result.1 (λ rest. length rest.now < length text.now) }
{
    match cut(byte, text) {
        Some((part, rest)) => (part, Some(rest)),
        None => (text, None),
    }
}

/// The words of a line that are left.
#[derive(Drop)]
pub struct Words<'a> {
    left: Option<&'a [u8]>,
}

impl<'a> Model for Words<'a> {
    ghost use Rattle.std.specs.Prelude.{ℕ, List};
    ghost use Rattle.command_text.specs.Parts.{words_left};

    ghost Value = { List (List ℕ) };

    ghost view = { λ w. words_left w.left };
}

impl<'a> Words<'a> {
    /// All words of the line.
    pub fn new(line: &'a [u8]) -> Words<'a>
        ensures { result ≡ words_of line.now }
    {
        Words { left: Some(line) }
    }

    /// Takes a word.
    pub fn next(&mut self) -> Option<&'a [u8]>
        ensures { MatchOption result (self.old ≡ []) (λ w. self.old ≡ w.now ∷ self.new) }
    {
        let (word, rest) = first_part(b' ', self.left?);
        self.left = rest;
        Some(word)
    }

    /// That no word is left.
    pub fn end(&self) -> Option<()>
        ensures { MatchOption result ((w : List ℕ) × (ws : List (List ℕ)) × (self.now ≡ w ∷ ws)) (λ _. self.now ≡ []) }
    {
        match self.left {
            None => Some(()),
            Some(_) => None,
        }
    }
}
