//! What a run reads and writes: an input that is typed, and a screen on which answers appear. A call of
//! each fails where it is told to.

ghost use Rattle.std.specs.Prelude.{◌≡◌, None};

use crate::trial::Trial;
use lb_base::faults::one_more;
use lb_base::sink::{GiveError, Sink};
use lb_base::source::{Failed, Source};
use std::alloc::Global;
use std::sync::atomic::{AtomicU64, Ordering};

/// How many bytes the first line of a text has, with its end.
fn line_len(text: &[u8]) -> usize {
    for (at, byte) in text.iter().enumerate() {
        if *byte == b'\n' {
            return at.saturating_add(1);
        }
    }
    text.len()
}

/// Zeros, which are nowhere held, and behind them an input that is given in pieces, or line by line. It
/// notes how many answers had appeared before each call.
pub struct Typist<'a> {
    /// What is left of it.
    pub(crate) text: &'a [u8],
    zeros: usize,
    piece: usize,
    is_by_line: bool,
    /// The call that fails, numbered from 0.
    failing: Option<u64>,
    calls: u64,
    answers: &'a AtomicU64,
    /// How many answers had appeared before each call.
    pub seen: Vec<u64>,
    pub(crate) faults: u64,
}

// By hand, as below: docs/proving/dropping.md.
impl<'a> Drop for Typist<'a> {
    fn drop(self) {
        let Typist {
            text: _,
            zeros: _,
            piece: _,
            is_by_line: _,
            failing: _,
            calls: _,
            answers: _,
            seen,
            faults: _,
        } = self;
        drop(seen)
    }
}

impl<'a> Typist<'a> {
    /// Nothing was typed yet.
    pub fn new(
        alloc: Global,
        trial: &Trial<'_>,
        text: &'a [u8],
        answers: &'a AtomicU64,
    ) -> Typist<'a> {
        Typist {
            text,
            zeros: trial.setting("zeros").unwrap_or(0) as usize,
            piece: trial.setting("gives").unwrap_or(1000) as usize,
            is_by_line: trial.setting("typed").is_some(),
            failing: trial.setting("source"),
            calls: 0,
            answers,
            seen: Vec::new(alloc),
            faults: 0,
        }
    }

    /// Gives what is typed next.
    fn type_on(&mut self, into: &mut [u8]) -> usize
        ensures { self.new.faults ≡ self.old.faults }
    {
        let piece = if self.is_by_line {
            line_len(self.text)
        } else {
            self.piece
        };
        let count = piece.min(self.text.len()).min(into.len());
        for at in 0..count {
            into[at] = self.text[at];
        }
        self.text = &self.text[count..];
        count
    }
}

impl<'a> Source for Typist<'a> {
    ghost left = { λ _. None };

    ghost faults = { λ t. t.faults };

    fn take(&mut self, into: &mut [u8]) -> Result<usize, Failed> {
        let noted = self.seen.push(self.answers.load(Ordering::SeqCst));
        drop(noted);
        let fails = self.failing == Some(self.calls);
        self.calls = one_more(self.calls);
        if fails {
            self.faults = one_more(self.faults);
            return Err(Failed);
        }
        if self.zeros == 0 {
            return Ok(self.type_on(into).min(into.len()));
        }
        let count = into.len().min(self.zeros);
        into[..count].fill(0);
        self.zeros -= count;
        Ok(count.min(into.len()))
    }
}

/// What was written. It counts how many answers have appeared, one a call.
pub struct Screen<'a> {
    pub text: Vec<u8>,
    piece: usize,
    /// The call that fails, and the one that answers that memory ran out, numbered from 0.
    failing: Option<u64>,
    starved: Option<u64>,
    calls: u64,
    answers: &'a AtomicU64,
    pub(crate) faults: u64,
}

impl<'a> Drop for Screen<'a> {
    fn drop(self) {
        let Screen {
            text,
            piece: _,
            failing: _,
            starved: _,
            calls: _,
            answers: _,
            faults: _,
        } = self;
        drop(text)
    }
}

impl<'a> Screen<'a> {
    /// Nothing was written yet.
    pub fn new(alloc: Global, trial: &Trial<'_>, answers: &'a AtomicU64) -> Screen<'a> {
        Screen {
            text: Vec::new(alloc),
            piece: trial.setting("takes").unwrap_or(1000) as usize,
            failing: trial.setting("sink"),
            starved: trial.setting("starved"),
            calls: 0,
            answers,
            faults: 0,
        }
    }
}

impl<'a> Sink for Screen<'a> {
    ghost held = { λ _. None };

    ghost faults = { λ s. s.faults };

    fn give(&mut self, from: &[u8]) -> Result<usize, GiveError> {
        let call = self.calls;
        self.calls = one_more(call);
        if self.failing == Some(call) {
            self.faults = one_more(self.faults);
            return Err(GiveError::Failed);
        }
        if self.starved == Some(call) {
            return Err(GiveError::Memory);
        }
        let count = from.len().min(self.piece.max(1));
        self.text.extend_from_slice(&from[..count])?;
        self.answers.fetch_add(1, Ordering::SeqCst);
        Ok(count)
    }
}
