//! What a person is told on standard error of what happens outside, one line each: what failed, on which
//! file or port, and the system's reason. All these words stand here, in one enum for each subject, since
//! the proof of a `Display` grows by more than its arms. Nothing of it goes to standard output, and no
//! contract speaks of it.

use std::fmt::{Debug, Display, Formatter};
use std::{fmt, io};
use thiserror::Error;

/// What a person is told of a standard stream.
#[derive(Clone, Copy, Error)]
pub enum StreamNote {
    #[error("standard input can't be read: {0}")]
    Input(io::Error),
    #[error("standard output can't be written: {0}")]
    Output(io::Error),
}

/// What a person is told of a file.
#[derive(Clone, Copy, Error)]
pub enum FileNote<'a> {
    #[error("{name} can't be read: {why}")]
    Read { name: &'a str, why: io::Error },
    #[error("{name} is no regular file")]
    NotRegular { name: &'a str },
    #[error("{name} changed while it was read")]
    Changed { name: &'a str },
    #[error("{name} isn't taken for a cache file, and stays as it is \
         (name another one, or remove it)")]
    Left { name: &'a str },
    #[error("{name} can't be written: {why}")]
    Written { name: &'a str, why: io::Error },
    #[error("{path}: removed: a get that is stopped leaves such names")]
    LeftOver { path: &'a str },
}

/// What a person is told of a port of this host, and of the connections there.
#[derive(Clone, Copy, Error)]
pub enum PortNote {
    #[error("127.0.0.1, port {port}: can't listen there: {why}")]
    Listen { port: u16, why: io::Error },
    #[error("127.0.0.1, port {port}: can't connect there: {why}")]
    Dial { port: u16, why: io::Error },
    #[error("127.0.0.1, port {port}: no server answers (is lbfs share, or ssh -L, running yet?)")]
    Unreached { port: u16 },
    #[error("127.0.0.1, port {port}: the connection is lost: {why}")]
    Lost { port: u16, why: io::Error },
    #[error("127.0.0.1, port {port}: the server ended the connection")]
    Ended { port: u16 },
}

/// What a person is told of a run: how far a server is that begins, and what it ran out of.
#[derive(Clone, Copy, Error)]
pub enum RunNote<'a> {
    #[error("{place}: loading")]
    Loading {
        place: &'a str,
    },
    #[error("{place}: waiting {more} ms for leases of the run before (not with --term {before})")]
    Waiting {
        place: &'a str,
        more: u64,
        before: u64,
    },
    #[error("{place}: served at 127.0.0.1, port {port}; files: {files}")]
    Serving {
        place: &'a str,
        port: u16,
        files: u64,
    },
    #[error("{place}: for the first {term} ms, puts, removals of files and renames over them wait \
         (leases of the run before)")]
    Quiet {
        place: &'a str,
        term: u64,
    },
    #[error("memory ran out")]
    Memory,
    #[error("no thread could be started")]
    NoThread,
}

// Each `Debug` is by the `Display`: a derived one would be as long as all these words, and nobody prints it.

impl Debug for StreamNote {
    fn fmt<W: fmt::Write>(&self, f: &mut Formatter<W>) -> fmt::Result {
        Display::fmt(self, f)
    }
}

impl Debug for FileNote<'_> {
    fn fmt<W: fmt::Write>(&self, f: &mut Formatter<W>) -> fmt::Result {
        Display::fmt(self, f)
    }
}

impl Debug for PortNote {
    fn fmt<W: fmt::Write>(&self, f: &mut Formatter<W>) -> fmt::Result {
        Display::fmt(self, f)
    }
}

impl Debug for RunNote<'_> {
    fn fmt<W: fmt::Write>(&self, f: &mut Formatter<W>) -> fmt::Result {
        Display::fmt(self, f)
    }
}

/// Tells it on standard error. Where that can't be written either nobody is there to be told.
pub fn tell<R: Eprint, D: Display>(rt: &R, what: &D) {
    let _told = eprintln!(rt; "lbfs: {what}");
}
