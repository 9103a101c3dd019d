//! For how long leases were granted of a served folder: its file `.term`, which holds that number of
//! milliseconds and a line feed. A server that grants them for a shorter time waits out the difference
//! before it listens. So none that the run before granted lasts longer than the new term from then on. It
//! notes its own term once it listens, before anybody is served: one that can't listen leaves what was noted.

ghost use Rattle.std.specs.Prelude.{◌≡◌, ◌≤◌, ◌-◌, IfSome};
ghost use Rattle.limits.specs.declared.TheConstants.{TERM_MOST};

use crate::notes::{FileNote, RunNote, tell};
use command_text::fields::number;
use limits::TERM_MOST;
use std::alloc::{AllocError, Global};
use std::fs::OpenFile;
use std::io::{ErrorKind, Read, Write};
use std::rt::{Clock as HostTime, Files as HostDisk};
use std::time::Duration;
use std::{fs, io, thread};

/// How many bytes are read of the file: more than any term has.
const ROOM: usize = 16;

/// The term that a word tells; the longest, where it tells none.
fn term_of(word: &[u8]) -> u64
    ensures { result ≤ TERM_MOST }
{
    match number(word) {
        Some(term) if term > 0 => term.min(TERM_MOST),
        _ => TERM_MOST,
    }
}

/// The term that a file's bytes tell; the longest, where they tell none.
fn term_in(bytes: &[u8]) -> u64
    ensures { result ≤ TERM_MOST }
{
    match bytes.split_last() {
        Some((last, word)) if *last == b'\n' => term_of(word),
        _ => TERM_MOST,
    }
}

/// The term that the file at a path tells; the longest, where it can't be read.
fn read_term<R: HostDisk>(rt: &R, path: &str) -> u64
    ensures { result ≤ TERM_MOST }
{
    let Ok(mut file) = fs::open(rt, path) else {
        return TERM_MOST;
    };
    let mut bytes = [0u8; ROOM];
    match file.read(&mut bytes) {
        Ok(count) => {
            let (front, _rest) = bytes.split_at(count.min(ROOM));
            term_in(front)
        }
        Err(_) => TERM_MOST,
    }
}

/// The term of the run before: none where none was noted, and the longest where it can't be read.
fn noted_term<R: HostDisk>(rt: &R, path: &str) -> Option<u64>
    ensures { IfSome result (λ term. term ≤ TERM_MOST) }
{
    match fs::metadata(rt, path) {
        Ok(facts) if facts.is_file() => Some(read_term(rt, path)),
        Err(why) if why.kind() == ErrorKind::NotFound => None,
        _ => Some(TERM_MOST),
    }
}

/// By how much leases of the run before may last longer than those of this one.
fn longer(before: u64, term: u64) -> u64
    ensures { result ≡ before - term }
{
    before.saturating_sub(term)
}

/// Writes a file of a folder beside the one at a path, and puts it in its place once it is whole. Behind this
/// a cut of power doesn't bring the one before back.
fn write_whole<R: HostDisk>(
    rt: &R,
    folder: &str,
    beside: &str,
    path: &str,
    bytes: &[u8],
) -> io::Result<()> {
    let mut file = fs::create(rt, beside)?;
    file.write_all(bytes)?;
    file.sync_data()?;
    drop(file);
    fs::rename(rt, beside, path)?;
    fs::open(rt, folder)?.sync_all()
}

/// A file of a folder is on the disk, and its name: a run that was killed may have only written it.
fn flush_left<R: HostDisk>(rt: &R, folder: &str, path: &str) -> io::Result<()> {
    fs::open(rt, path)?.sync_data()?;
    fs::open(rt, folder)?.sync_all()
}

/// Whether a shorter term is noted than that of this run.
fn is_shorter(before: Option<u64>, term: u64) -> bool {
    match before {
        Some(before) => before < term,
        None => false,
    }
}

/// For how many milliseconds leases are granted of a served folder, and where that is noted.
#[derive(Drop)]
pub(crate) struct Term {
    place: String,
    term: u64,
    path: String,
    beside: String,
    text: String,
}

impl Term {
    /// That of a folder. Nothing is noted yet.
    pub(crate) fn new(alloc: Global, place: &str, term: u64) -> Result<Term, AllocError> {
        Ok(Term {
            place: String::from_str(alloc, place)?,
            term,
            path: format!(in alloc; "{place}/.term")?,
            beside: format!(in alloc; "{place}/.term~")?,
            text: format!(in alloc; "{term}\n")?,
        })
    }

    /// The folder.
    pub(crate) fn place(&self) -> &str {
        self.place.as_str()
    }

    /// For how many milliseconds leases are granted.
    pub(crate) fn millis(&self) -> u64 {
        self.term
    }

    /// Waits until no lease of the run before lasts longer than this term. Nobody else may serve the folder.
    pub(crate) fn await_longer<R: HostDisk + HostTime + Eprint>(&self, rt: &R) {
        let before = noted_term(rt, self.path.as_str()).unwrap_or(0);
        let more = longer(before, self.term);
        if more > 0 {
            let place = self.place.as_str();
            tell(
                rt,
                &RunNote::Waiting {
                    place,
                    more,
                    before,
                },
            );
            thread::sleep(rt, Duration::from_millis(more));
        }
    }

    /// Notes the term for the run behind, and answers whether leases may be granted: not where a shorter one
    /// stays noted, since the disk is full or fails. A longer one may stay.
    pub(crate) fn note<R: HostDisk + Eprint>(&self, rt: &R) -> bool {
        let path = self.path.as_str();
        let before = noted_term(rt, path);
        let stands = before == Some(self.term) && flush_left(rt, self.place(), path).is_ok();
        stands || self.is_written(rt) || !is_shorter(before, self.term)
    }

    /// Puts the term into the place of the one that was noted, and answers whether it could be.
    fn is_written<R: HostDisk + Eprint>(&self, rt: &R) -> bool {
        let (path, beside) = (self.path.as_str(), self.beside.as_str());
        match write_whole(rt, self.place(), beside, path, self.text.as_bytes()) {
            Ok(()) => true,
            Err(why) => {
                tell(rt, &FileNote::Written { name: path, why });
                let _gone = fs::remove_file(rt, beside);
                false
            }
        }
    }
}
