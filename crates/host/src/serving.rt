//! What is served, for the one line that tells it once the server listens: the store knows how many
//! files there are, and the network when that is. And where it is, for the network's bell; and for how long
//! leases are granted, which the store waits for and the network notes. And whether changes wait so long behind
//! the start, as they do where anything was ever changed (`quiet_from` of `lbfs_server`).

use crate::notes::{RunNote, tell};
use crate::terms::Term;
use std::alloc::{AllocError, Global};
use std::rt::{Clock as HostTime, Files as HostDisk};
use std::sync::atomic::{AtomicBool, AtomicU64, Ordering};

/// What is served.
#[derive(Drop)]
pub struct Serving {
    term: Term,
    files: AtomicU64,
    /// Whether anything was ever changed.
    is_changed: AtomicBool,
    /// The port, once it listens; else 0.
    port: AtomicU64,
}

impl Serving {
    /// The store at this place, of which nothing is known yet; leases are granted for so many milliseconds.
    pub fn new(alloc: Global, place: &str, term: u64) -> Result<Serving, AllocError> {
        Ok(Serving {
            term: Term::new(alloc, place, term)?,
            files: AtomicU64::new(0),
            is_changed: AtomicBool::new(false),
            port: AtomicU64::new(0),
        })
    }

    /// The store has so many files, and whether anything was ever changed.
    pub fn note_store(&self, files: u64, is_changed: bool) {
        self.files.store(files, Ordering::SeqCst);
        self.is_changed.store(is_changed, Ordering::SeqCst);
    }

    /// Waits until no lease of the run before lasts longer than those of this one. Nobody else may serve the
    /// store.
    pub fn await_leases<R: HostDisk + HostTime + Eprint>(&self, rt: &R) {
        self.term.await_longer(rt);
    }

    /// Notes for how long leases are granted, and answers whether they may be. The port is had by then.
    pub fn may_grant<R: HostDisk + Eprint>(&self, rt: &R) -> bool {
        self.term.note(rt)
    }

    /// The port that is served, if one is.
    pub fn port(&self) -> Option<u16> {
        match u16::try_from(self.port.load(Ordering::SeqCst)) {
            Ok(port) if port != 0 => Some(port),
            _ => None,
        }
    }

    /// It is served at this port, which is told, and that changes wait, where they do.
    pub fn tell_at<R: Eprint>(&self, rt: &R, port: u16) {
        self.port.store(u64::from(port), Ordering::SeqCst);
        let place = self.term.place();
        let files = self.files.load(Ordering::SeqCst);
        tell(rt, &RunNote::Serving { place, port, files });
        if self.is_changed.load(Ordering::SeqCst) {
            let term = self.term.millis();
            tell(rt, &RunNote::Quiet { place, term });
        }
    }
}
