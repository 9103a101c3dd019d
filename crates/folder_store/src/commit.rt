//! What makes sure what a store was given: changes that wait at once share a flush of the log (`Syncing` of
//! `log_store`).

ghost use Rattle.std.specs.Prelude.{◌≡◌};

use lb_base::source::Failed;
use log_store::folder::Fault;
use log_store::syncing::{Flush, Syncing};
use std::alloc::{AllocError, Global};
use std::fs::File;
use std::io::Error;
use std::sync::atomic::{AtomicBool, AtomicU64, Ordering};
use std::sync::{Arc, Mutex, Wait};
use synced_store::syncs::Syncs;

/// Flushes a log.
#[derive(Drop)]
pub struct LogFlush {
    /// The log, unless nothing is flushed.
    log: Option<File>,
    /// How many changes were given before a flush that went through.
    flushed: u64,
    /// Why the last one didn't.
    why: Option<Error>,
}

impl Flush for LogFlush {
    ghost firm = { λ s. s.flushed };

    fn flush(&mut self, given: u64) -> Result<(), Fault> {
        let done = match &self.log {
            Some(log) => log.sync_data(),
            None => Ok(()),
        };
        match done {
            Ok(()) => {
                self.flushed = self.flushed.max(given);
                Ok(())
            }
            Err(why) => {
                self.why = Some(why);
                Err(Fault)
            }
        }
    }
}

/// What is sure of a store's changes.
pub struct GroupFlush<R> {
    rt: R,
    /// The log's path, for who is told of it.
    path: String,
    /// How many changes the log was given.
    given: AtomicU64,
    /// Whether it isn't known what the folder holds: a flush failed, or a change was neither made nor left.
    doubt: AtomicBool,
    /// How many of the changes are known to be on the disk.
    sure: AtomicU64,
    /// Whether one flushes.
    is_flushing: AtomicBool,
    /// How many flushes have ended; who waits for one sleeps on it.
    ended: AtomicU64,
    /// Who flushes has this.
    syncing: Mutex<Syncing<LogFlush>>,
}

// By hand: docs/proving/dropping.md.
impl<R: Drop> Drop for GroupFlush<R> {
    fn drop(self) {
        let GroupFlush {
            rt,
            path,
            given,
            doubt,
            sure,
            is_flushing,
            ended,
            syncing,
        } = self;
        drop(rt);
        drop(path);
        drop(given);
        drop(doubt);
        drop(sure);
        drop(is_flushing);
        drop(ended);
        drop(syncing);
    }
}

impl<R> GroupFlush<R> {
    /// Nothing was given. Without a log nothing is flushed.
    pub fn new(rt: R, path: String, log: Option<File>) -> GroupFlush<R> {
        GroupFlush {
            rt,
            path,
            given: AtomicU64::new(0),
            doubt: AtomicBool::new(false),
            sure: AtomicU64::new(0),
            is_flushing: AtomicBool::new(false),
            ended: AtomicU64::new(0),
            syncing: Mutex::new(Syncing::new(LogFlush {
                log,
                flushed: 0,
                why: None,
            })),
        }
    }

    /// A change was given.
    pub fn note_given(&self) {
        self.given.fetch_add(1, Ordering::SeqCst);
    }

    /// It isn't known any more what the folder holds.
    pub fn note_doubt(&self) {
        self.doubt.store(true, Ordering::SeqCst);
    }

    /// Whether it isn't known what the folder holds.
    pub fn is_in_doubt(&self) -> bool {
        self.doubt.load(Ordering::SeqCst)
    }
}

impl<R: Eprint> GroupFlush<R> {
    /// A flush failed, for this reason.
    fn fail(&self, why: &Option<Error>) {
        if let Some(why) = why {
            let rt = &self.rt;
            let path = self.path.as_str();
            let _told = eprintln!(rt; "lbfs: {path}: {why}");
        }
        self.note_doubt();
    }

    /// Waits until all is sure that was given before the call. Where nobody flushes the caller does. Those who come
    /// meanwhile sleep, and not for a lock, which the next who flushes might have before them: once the flush has
    /// ended all whose changes it made sure go on at once, and one of the others flushes for all of these.
    fn sync<W: Wait>(&self, rt: &W) -> Result<(), Failed> {
        let wanted = self.given.load(Ordering::SeqCst);
        for _turn in rt.forever() {
            let ended = self.ended.load(Ordering::SeqCst);
            if self.is_in_doubt() {
                return Err(Failed);
            }
            if wanted <= self.sure.load(Ordering::SeqCst) {
                return Ok(());
            }
            if !self.is_flushing.swap(true, Ordering::SeqCst) {
                return self.flush(rt);
            }
            self.ended.park(rt, (ended & 0xffff_ffff) as u32);
        }
        unreachable!()
    }

    /// Flushes all that was given, for whoever waits; then another may.
    fn flush<W: Wait>(&self, rt: &W) -> Result<(), Failed> {
        let mut syncing = self.syncing.lock(rt);
        let given = self.given.load(Ordering::SeqCst);
        let done = match syncing.sync(given, given) {
            Ok(()) => {
                self.sure.store(given, Ordering::SeqCst);
                Ok(())
            }
            Err(Fault) => {
                self.fail(&syncing.flusher().why);
                Err(Failed)
            }
        };
        drop(syncing);
        self.is_flushing.store(false, Ordering::SeqCst);
        self.ended.fetch_add(1, Ordering::SeqCst);
        self.ended.wake_all();
        done
    }
}

/// One owner of a group, for the threads of a server.
pub struct FolderSyncs<R> {
    group: Arc<GroupFlush<R>>,
}

// By hand: docs/proving/dropping.md.
impl<R: Drop> Drop for FolderSyncs<R> {
    fn drop(self) {
        let FolderSyncs { group } = self;
        drop(group);
    }
}

impl<R: Drop> FolderSyncs<R> {
    /// The first owner. The one error is running out of memory.
    pub fn new(
        rt: R,
        alloc: Global,
        path: &str,
        log: Option<File>,
    ) -> Result<FolderSyncs<R>, AllocError> {
        let path = String::from_str(alloc, path)?;
        match Arc::new(alloc, GroupFlush::new(rt, path, log)) {
            Ok(group) => Ok(FolderSyncs { group }),
            Err(_want) => Err(AllocError),
        }
    }

    /// One owner more.
    pub fn share(&self) -> Result<FolderSyncs<R>, AllocError> {
        let group = Arc::try_clone(&self.group)?;
        Ok(FolderSyncs { group })
    }

    /// What is sure.
    pub fn group_flush(&self) -> &GroupFlush<R> {
        &self.group
    }
}

impl<R: Eprint + Drop> Syncs for FolderSyncs<R> {
    ghost is_sure = { λ _. Unit {0} };

    fn sync<W: Wait>(&self, rt: &W) -> Result<(), Failed> {
        self.group.sync(rt)
    }
}
