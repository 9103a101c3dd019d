//! How far a line has been read: `Reading` of `specs/Words.antt`, byte by byte.

ghost use Rattle.std.specs.Prelude.{◌≡◌, IfOk, OnOk};
ghost use Rattle.shell_words.specs.Words.{is_blank, is_quote, effect_of, hex_value, first_of, digit_of, both_of, escape_of, nothing_read, word_so_far, with_byte, all_words, does, escaped, stepped};

use lb_base::items::{Items, Name};
use std::alloc::{AllocError, Global};

/// What a byte of a line does, where no escape is under way.
#[derive(Clone, Copy)]
pub enum Effect {
    /// It belongs to the word.
    Stands(u8),
    /// It opens a quote, which the same byte closes.
    Opens(u8),
    /// It closes the quote.
    Closes,
    /// It begins an escape.
    Escapes,
    /// It parts words.
    Parts,
}

/// How far an escape has come.
#[derive(Clone, Copy)]
pub enum Escape {
    /// None is under way.
    No,
    /// Behind the backslash.
    Begun,
    /// Behind `\x`.
    Hex,
    /// Behind `\x` and a first digit, whose value this is.
    Digit(u8),
    /// It stands for this byte.
    Gives(u8),
    /// It stands for none.
    Bad,
}

/// How far a line has been read.
#[derive(Drop)]
pub struct Reading {
    /// The words before the one under way.
    pub words: Items<Name>,
    /// The word under way, if one is.
    pub word: Option<Name>,
    /// The quote that is open, if one is.
    pub quote: Option<u8>,
    pub escape: Escape,
}

/// Whether a byte parts words.
pub fn is_blank(b: u8) -> bool
    ensures { result ≡ is_blank b }
{
    b == b' ' || b == b'\t'
}

/// Whether a byte opens a quote.
fn is_quote(b: u8) -> bool
    ensures { result ≡ is_quote b }
{
    b == b'\'' || b == b'"'
}

/// What a byte does.
fn effect_of(quote: Option<u8>, b: u8) -> Effect
    ensures { result ≡ effect_of quote b }
{
    match quote {
        Some(q) => {
            if b == q {
                Effect::Closes
            } else if b == b'\\' {
                Effect::Escapes
            } else {
                Effect::Stands(b)
            }
        }
        None => {
            if is_blank(b) {
                Effect::Parts
            } else if is_quote(b) {
                Effect::Opens(b)
            } else if b == b'\\' {
                Effect::Escapes
            } else {
                Effect::Stands(b)
            }
        }
    }
}

/// The value of a hexadecimal digit.
fn hex_value(b: u8) -> Option<u8>
    ensures { result ≡ hex_value b }
{
    if b'0' <= b && b <= b'9' {
        Some(b - b'0')
    } else if b'a' <= b && b <= b'f' {
        Some(b - 87)
    } else if b'A' <= b && b <= b'F' {
        Some(b - 55)
    } else {
        None
    }
}

/// What an escape has come to behind its first byte.
fn first_of(b: u8) -> Escape
    ensures { result ≡ first_of b }
{
    if b == b'x' {
        Escape::Hex
    } else if b == b'n' {
        Escape::Gives(b'\n')
    } else if b == b't' {
        Escape::Gives(b'\t')
    } else if b == b'r' {
        Escape::Gives(b'\r')
    } else if b.is_ascii_alphanumeric() {
        Escape::Bad
    } else {
        Escape::Gives(b)
    }
}

/// What `\x` has come to behind its first digit.
fn digit_of(high: Option<u8>) -> Escape
    ensures { result ≡ digit_of high }
{
    match high {
        Some(high) => Escape::Digit(high),
        None => Escape::Bad,
    }
}

/// What `\x` has come to behind its second digit.
fn both_of(high: u8, low: Option<u8>) -> Escape
    ensures { result ≡ both_of high low }
{
    match low {
        Some(low) => Escape::Gives(high % 16 * 16 + low % 16),
        None => Escape::Bad,
    }
}

/// What an escape that is under way has come to behind a byte.
fn escape_of(escape: Escape, b: u8) -> Escape
    ensures { result ≡ escape_of escape b }
{
    match escape {
        Escape::Begun => first_of(b),
        Escape::Hex => digit_of(hex_value(b)),
        Escape::Digit(high) => both_of(high, hex_value(b)),
        Escape::No | Escape::Gives(_) | Escape::Bad => Escape::Bad,
    }
}

/// The word under way, or one without bytes.
fn word_so_far(alloc: Global, word: Option<Name>) -> Name
    ensures { result ≡ word_so_far word }
{
    match word {
        Some(word) => word,
        None => Items::new(alloc),
    }
}

/// The words, with the one under way.
pub fn all_words(mut words: Items<Name>, word: Option<Name>) -> Result<Items<Name>, AllocError>
    ensures { IfOk result (λ all. all ≡ all_words words word) }
{
    match word {
        Some(word) => {
            words.push(word)?;
            Ok(words)
        }
        None => Ok(words),
    }
}

impl Reading {
    /// Nothing has been read. It takes no memory.
    pub fn new(alloc: Global) -> Reading
        ensures { result ≡ nothing_read }
    {
        Reading {
            words: Items::new(alloc),
            word: None,
            quote: None,
            escape: Escape::No,
        }
    }

    /// A byte belongs to the word.
    fn stand(&mut self, alloc: Global, b: u8) -> Result<(), AllocError>
        ensures { OnOk result (self.new ≡ with_byte self.old b) }
    {
        let mut word = word_so_far(alloc, self.word.take());
        word.push(b)?;
        self.word = Some(word);
        self.escape = Escape::No;
        Ok(())
    }

    /// The word under way has ended.
    fn part(&mut self) -> Result<(), AllocError>
        ensures { OnOk result (self.new ≡ record self.old { words = all_words self.old.words self.old.word; word = None }) }
    {
        match self.word.take() {
            Some(word) => {
                self.words.push(word)?;
                Ok(())
            }
            None => Ok(()),
        }
    }

    /// A byte does this.
    fn obey(&mut self, alloc: Global, effect: Effect) -> Result<(), AllocError>
        ensures { OnOk result (self.new ≡ does self.old effect) }
    {
        match effect {
            Effect::Stands(b) => self.stand(alloc, b),
            Effect::Opens(quote) => {
                self.word = Some(word_so_far(alloc, self.word.take()));
                self.quote = Some(quote);
                Ok(())
            }
            Effect::Closes => {
                self.quote = None;
                Ok(())
            }
            Effect::Escapes => {
                self.escape = Escape::Begun;
                Ok(())
            }
            Effect::Parts => self.part(),
        }
    }

    /// An escape has come to this.
    fn escaped(&mut self, alloc: Global, escape: Escape) -> Result<(), AllocError>
        ensures { OnOk result (self.new ≡ escaped self.old escape) }
    {
        match escape {
            Escape::Gives(b) => self.stand(alloc, b),
            _ => {
                self.escape = escape;
                Ok(())
            }
        }
    }

    /// The next byte of the line. The one error is running out of memory, and nothing is known of the reading
    /// then.
    pub fn take(&mut self, alloc: Global, b: u8) -> Result<(), AllocError>
        ensures { OnOk result (self.new ≡ stepped self.old b) }
    {
        match self.escape {
            Escape::No => self.obey(alloc, effect_of(self.quote, b)),
            _ => self.escaped(alloc, escape_of(self.escape, b)),
        }
    }
}
