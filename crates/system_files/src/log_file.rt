//! The log's file. It is as long as its room from its beginning, so that an entry needs no more, and a flush
//! writes its bytes alone. Its frames stand one behind the other from the file's beginning; what stands behind
//! the last is zeros, or frames of an earlier round, whose numbers are lower.

use crate::disk_files::{is_full, open_to_write};
use crate::needs::{Need, Needs};
use log_store::edit::Edit;
use log_store::entry::put_entry;
use log_store::frame::{FRONT, put_frame};
use log_store::which::Which;
use std::alloc::{AllocError, Global};
use std::fs::File;
use std::io;
use std::io::{Error, ErrorKind, Seek, SeekFrom, Write};
use std::os::unix::fs::FileExt;
use std::rt::Files;

/// How many bytes the file has from its beginning.
const ROOM: u64 = 128 << 10;

/// How many bytes are written at once as the file is made.
const PIECE: usize = 4096;

/// A log of so many entries, bytes or records is to be carried out: more are slow to read at a start, and
/// each record's file is flushed by itself meanwhile.
const LONG_COUNT: usize = 2048;

const LONG_BYTES: u64 = 8 << 20;

const LONG_RECORDS: usize = 512;

/// Past so many it takes no more.
const COUNT_MOST: usize = 4096;

const BYTES_MOST: u64 = 12 << 20;

/// The log, and where it ends.
pub struct LogFile {
    file: File,
    /// Where the next frame goes.
    end: u64,
    /// The number of the next frame.
    next: u64,
    /// How many frames there are.
    count: usize,
    /// What carrying them out needs.
    needs: Needs,
    /// Whether room is scarce, so that a log that was carried out gives back what it has beyond its own.
    is_scarce: bool,
    entry: Vec<u8>,
    frame: Vec<u8>,
}

// By hand: docs/proving/dropping.md.
impl Drop for LogFile {
    fn drop(self) {
        let LogFile {
            file,
            end: _end,
            next: _next,
            count: _count,
            needs,
            is_scarce: _is_scarce,
            entry,
            frame,
        } = self;
        drop(file);
        drop(needs);
        drop(entry);
        drop(frame);
    }
}

/// Fills the file with zeros, as far as there is room.
fn fill(file: &mut File) -> io::Result<()> {
    let zeros = [0u8; PIECE];
    file.seek(SeekFrom::Start(0))?;
    for _piece in 0..ROOM / PIECE as u64 {
        match file.write_all(&zeros) {
            Ok(()) => {}
            // An entry past the room asks for more.
            Err(error) if is_full(&error) => return Ok(()),
            Err(error) => return Err(error),
        }
    }
    Ok(())
}

/// Empties the file, and gives it its room; both are on the disk then.
fn empty(file: &mut File) -> io::Result<()> {
    // The first frame goes first: what is left without it is no log, however much of it goes.
    file.write_all_at(&[0; FRONT], 0)?;
    file.sync_data()?;
    file.set_len(ROOM)?;
    fill(file)?;
    file.sync_all()
}

impl LogFile {
    /// An empty log in the place of any that was there. Once this is done the file is on the disk; its name
    /// may not be.
    pub fn make<R: Files<File = File>>(rt: &R, alloc: Global, path: &str) -> io::Result<LogFile> {
        let mut file = open_to_write(rt, path)?;
        empty(&mut file)?;
        Ok(LogFile {
            file,
            end: 0,
            next: 1,
            count: 0,
            needs: Needs::new(alloc),
            is_scarce: false,
            entry: Vec::new(alloc),
            frame: Vec::new(alloc),
        })
    }

    /// How many entries there are.
    pub fn count(&self) -> usize {
        self.count
    }

    /// Carrying out a record needs so much, once the next entry is there.
    pub fn add_need(&mut self, which: Which, need: Need) -> Result<(), AllocError> {
        self.needs.add(which, need)
    }

    /// Room is scarce: what the log has beyond its own goes, at once where it is empty. Whether any went.
    pub fn note_scarce(&mut self) -> io::Result<bool> {
        self.is_scarce = true;
        let is_long = ROOM < self.file.metadata()?.len();
        self.give_back()?;
        Ok(is_long && self.count == 0)
    }

    /// Writes an entry behind the others, which needs so much when it is carried out, where so much is kept. Where
    /// that fails there is none.
    pub fn append(&mut self, edits: &[Edit<'_>], need: Need, reserve: Need) -> io::Result<()> {
        self.entry.clear();
        put_entry(&mut self.entry, edits)?;
        self.frame.clear();
        put_frame(&mut self.frame, self.next, self.entry.as_slice())?;
        let end = self.end.saturating_add(self.frame.len() as u64);
        let is_past = need.is_some() && self.needs.is_past(reserve);
        if COUNT_MOST <= self.count || BYTES_MOST < end || is_past {
            return Err(Error::from(ErrorKind::StorageFull));
        }
        // No front stands behind it: what a client stored, which an earlier round left there, is no frame.
        self.frame.extend_from_slice(&[0; FRONT])?;
        self.file.write_all_at(self.frame.as_slice(), self.end)?;
        self.end = end;
        self.next = self.next.saturating_add(1);
        self.count = self.count.saturating_add(1);
        Ok(())
    }

    /// The log has its first entries, as many as these: none, or all that there are, of which one that
    /// failed to be written is none.
    pub fn cut(&mut self, count: usize) -> io::Result<()> {
        let end = if count == 0 {
            0
        } else if count == self.count {
            self.end
        } else {
            return Err(Error::from(ErrorKind::InvalidInput));
        };
        if end.saturating_add(FRONT as u64) <= ROOM {
            self.file.write_all_at(&[0; FRONT], end)?;
        } else {
            // Past the room there may be none, and a shorter file needs none.
            self.file.set_len(end)?;
        }
        self.end = end;
        self.count = count;
        if count == 0 {
            self.needs.clear();
            return self.give_back();
        }
        Ok(())
    }

    /// An empty log has no more than its own room again, where room is scarce. That it is empty is on the disk
    /// first: a cut of power would leave some of its entries else, and not the last of them.
    fn give_back(&mut self) -> io::Result<()> {
        if self.is_scarce && self.count == 0 {
            self.file.sync_data()?;
            self.file.set_len(ROOM)?;
            self.is_scarce = false;
        }
        Ok(())
    }

    /// The log is on the disk.
    pub fn flush(&self) -> io::Result<()> {
        self.file.sync_data()
    }

    /// Whether it is to be carried out, where so much is kept.
    pub fn is_long(&self, reserve: Need) -> bool {
        LONG_COUNT <= self.count
            || LONG_BYTES <= self.end
            || LONG_RECORDS <= self.needs.count()
            || self.is_near(reserve)
    }

    /// Whether carrying it out needs nearly as much as a reserve has.
    pub fn is_near(&self, reserve: Need) -> bool {
        self.needs.is_near(reserve)
    }
}
