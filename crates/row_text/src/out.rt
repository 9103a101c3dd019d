//! What is printed, as it grows.
//!
//! Each part is added by a call that never fails: where memory runs out for one, what stands here is
//! short of it from then on, and `done` gives the error. So what prints has no early exits; each would
//! be one more way for the prover to follow, with all that is dropped of there.

use std::alloc::{AllocError, Global};
use std::fmt::{Debug, Write};

/// A text that grows.
pub struct Out {
    text: String,
    is_short: bool,
}

/// Written by hand, so that no crate above proves it again for its parts.
impl Drop for Out {
    fn drop(self) {
        let Out { text, is_short: _ } = self;
        drop(text)
    }
}

impl Out {
    /// Nothing yet.
    pub fn new(alloc: Global) -> Out {
        Out {
            text: String::new(alloc),
            is_short: false,
        }
    }

    /// Memory ran out for a part.
    pub fn lack(&mut self) {
        self.is_short = true;
    }

    /// Memory ran out for a part, where this says so.
    pub fn note(&mut self, done: Result<(), AllocError>) {
        if done.is_err() {
            self.is_short = true;
        }
    }

    /// Adds an item to others. One for which memory runs out is dropped by a call, so that the compiler
    /// doesn't do it part by part.
    pub fn push<T: Drop>(&mut self, all: &mut Vec<T>, item: T) {
        let pushed = all.push(item);
        if pushed.is_err() {
            self.is_short = true;
        }
        drop(pushed)
    }

    /// A text as it is.
    pub fn text(&mut self, text: &str) {
        let done = self.text.push_str(text);
        self.note(done)
    }

    /// A text, and the end of its line.
    pub fn line(&mut self, text: &str) {
        self.text(text);
        self.text("\n")
    }

    /// A number as it is.
    pub fn bare(&mut self, number: u64) {
        let done = write!(self.text, "{number}");
        self.note(done)
    }

    /// A number behind a blank.
    pub fn number(&mut self, number: u64) {
        self.text(" ");
        self.bare(number)
    }

    /// Numbers, each behind a blank.
    pub fn numbers(&mut self, numbers: &[u64]) {
        for number in numbers {
            self.number(*number);
        }
    }

    /// A name, and numbers behind it.
    pub fn say(&mut self, name: &str, numbers: &[u64]) {
        self.text(name);
        self.numbers(numbers)
    }

    /// What `Debug` makes of a value.
    pub fn value<T: Debug>(&mut self, value: &T) {
        let done = write!(self.text, "{value:?}");
        self.note(done)
    }

    /// Bytes in hexadecimal.
    pub fn bytes(&mut self, bytes: &[u8]) {
        for byte in bytes.iter() {
            let done = write!(self.text, "{byte:02x}");
            self.note(done)
        }
    }

    /// Bytes as text, those beyond ASCII as the characters of their numbers.
    pub fn letters(&mut self, bytes: &[u8]) {
        for byte in bytes.iter() {
            let done = self.text.push(char::from(*byte));
            self.note(done)
        }
    }

    /// What another text has.
    pub fn join(&mut self, other: &Out) {
        self.text(other.text.as_str());
        if other.is_short {
            self.is_short = true;
        }
    }

    /// The text so far.
    pub fn as_str(&self) -> &str {
        self.text.as_str()
    }

    /// The text, where it is whole.
    pub fn done(self) -> Result<String, AllocError> {
        let Out { text, is_short } = self;
        if is_short {
            return Err(AllocError);
        }
        Ok(text)
    }
}
