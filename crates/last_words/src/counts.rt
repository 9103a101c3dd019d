//! What a server that is shared did so far, and the line that says it: `specs/Counts.antt`.

ghost use Rattle.std.specs.Prelude.{◌≡◌, ◌++◌, IfOk, OnOk, decimal};
ghost use Rattle.last_words.specs.Counts.{no_counts, with_connection, with_change, counts_line};

use crate::keeping::{Keeps, LastWords};
use lb_base::faults::one_more;
use lb_base::items::{Bytes, Items};
use std::alloc::{AllocError, Global};
use std::fmt::Write;
use std::sync::{Mutex, Wait};

/// What was done so far.
#[derive(Clone, Copy)]
pub struct Counts {
    /// How many connections were taken.
    pub connections: u64,
    /// How many changes the store was given.
    pub changes: u64,
}

impl Counts {
    /// Nothing was done yet.
    fn new() -> Counts
        ensures { result ≡ no_counts }
    {
        Counts {
            connections: 0,
            changes: 0,
        }
    }

    /// The same with a connection more.
    fn with_connection(self) -> Counts
        ensures { result ≡ with_connection self }
    {
        Counts {
            connections: one_more(self.connections),
            ..self
        }
    }

    /// The same with a change more.
    fn with_change(self) -> Counts
        ensures { result ≡ with_change self }
    {
        Counts {
            changes: one_more(self.changes),
            ..self
        }
    }
}

/// A number behind what is there.
fn put_count(alloc: Global, line: &mut Bytes, count: u64) -> Result<(), AllocError>
    ensures { OnOk result (line.new ≡ line.old ++ decimal count) }
{
    let mut text = String::new(alloc);
    write!(text, "{count}")?;
    line.extend_from_slice(text.as_bytes())
}

/// The line that says what was done with the store at a place.
fn counts_line(alloc: Global, place: &str, counts: Counts) -> Result<Bytes, AllocError>
    ensures { IfOk result (λ line. line ≡ counts_line place.now counts) }
{
    let mut line = Items::copy_of(alloc, b"lbfs: ")?;
    line.extend_from_slice(place.as_bytes())?;
    line.extend_from_slice(b": no longer served; connections: ")?;
    put_count(alloc, &mut line, counts.connections)?;
    line.extend_from_slice(b"; changes: ")?;
    put_count(alloc, &mut line, counts.changes)?;
    line.extend_from_slice(b"\n")?;
    Ok(line)
}

/// What a server did so far, which its network and its store share.
#[derive(Drop)]
pub struct Done {
    alloc: Global,
    place: String,
    words: LastWords,
    counts: Mutex<Counts>,
}

impl Done {
    /// Nothing was done yet with the store at this place, and nothing is said of it before it is served.
    pub fn new(alloc: Global, place: &str, words: LastWords) -> Result<Done, AllocError> {
        Ok(Done {
            alloc,
            place: String::from_str(alloc, place)?,
            words,
            counts: Mutex::new(Counts::new()),
        })
    }

    /// These are the counts. Where memory has run out the line stays the one before.
    fn keep(&self, counts: Counts) {
        if let Ok(line) = counts_line(self.alloc, self.place.as_str(), counts) {
            self.words.keep(line.as_slice());
        }
    }

    /// It is served from now on.
    pub fn begin<W: Wait>(&self, rt: &W) {
        let counts = self.counts.lock(rt);
        self.keep(*counts);
    }

    /// A connection was taken.
    pub fn note_connection<W: Wait>(&self, rt: &W) {
        let mut counts = self.counts.lock(rt);
        *counts = counts.with_connection();
        self.keep(*counts);
    }

    /// The store was given a change.
    pub fn note_change<W: Wait>(&self, rt: &W) {
        let mut counts = self.counts.lock(rt);
        *counts = counts.with_change();
        self.keep(*counts);
    }

    /// It ended by itself, and nothing is to be said.
    pub fn end(&self) {
        self.words.keep(b"\n");
    }
}
