//! A folder of the host that is open, by the system's calls: what `disk_folder` counts the faults of.

use crate::redo::{carry_out, lines_in};
use crate::strangers::{Stranger, stranger_in};
use log_store::edit::{Edit, Line, Parts, What};
use log_store::entry::add_lines;
use log_store::frame::{FRONT, frame_at, number_at};
use log_store::which::{FileName, Which, is_same};
use std::alloc::{AllocError, Global};
use std::fs::{File, TryLockError};
use std::io::{Error, ErrorKind, Write};
use std::rt::Files;
use std::{fs, io, mem};
use system_files::disk_files::{
    READ_MOST, flush_file, has_room, is_full, is_missing, more_room, read_file, set_length,
    unless_gone, write_file,
};
use system_files::log_file::LogFile;
use system_files::made::{MADE, are_made, content_id, unless_made};
use system_files::naming::held_by;
use system_files::needs::{BARE_RESERVE, LARGE_RESERVE, Need, RESERVE, SIZES};
use system_files::paths::Paths;

/// The most bytes of a log: those after which it is carried out, and the entry that makes it so long.
const LOG_MOST: u64 = 16 << 20;

/// How many times as much as a large reserve there is room for before one is kept.
const PLENTY: u64 = 4;

/// The file that was written last, until it is flushed.
struct Written {
    name: FileName,
    file: File,
}

// By hand: docs/proving/dropping.md.
impl Drop for Written {
    fn drop(self) {
        let Written { name: _name, file } = self;
        drop(file);
    }
}

/// A folder that is locked. Where a call of it fails the path that was named last is the file at fault.
pub(crate) struct OpenFolder<R> {
    rt: R,
    alloc: Global,
    /// The folder itself, which is locked as long as this is open.
    lock: File,
    paths: Paths,
    /// The log, once it was made.
    log: Option<LogFile>,
    written: Option<Written>,
    /// The files that were written since all were flushed.
    loose: Vec<FileName>,
    /// Whether what an earlier run left may not be flushed.
    is_left: bool,
    /// Whether the reserve is there.
    reserve: bool,
    /// How many bytes it has, and how many empty files are known to be kept beside it.
    kept: Need,
    /// Whether the log was carried out for want of more.
    wants_more: bool,
    /// Whether a larger one wasn't tried yet.
    may_grow: bool,
    /// Whether nothing is flushed.
    unsynced: bool,
    /// Whether a flush failed: of what wasn't on the disk then nothing is known, and no later flush tells.
    lost: bool,
}

// By hand: docs/proving/dropping.md.
impl<R: Drop> Drop for OpenFolder<R> {
    fn drop(self) {
        let OpenFolder {
            rt,
            alloc: _alloc,
            lock,
            paths,
            log,
            written,
            loose,
            is_left: _is_left,
            reserve: _reserve,
            kept: _kept,
            wants_more: _wants_more,
            may_grow: _may_grow,
            unsynced: _unsynced,
            lost: _lost,
        } = self;
        drop(rt);
        drop(lock);
        drop(paths);
        drop(log);
        drop(written);
        drop(loose);
    }
}

/// Opens a folder, and locks it.
pub(crate) fn lock_folder<R: Files<File = File>>(
    rt: &R,
    place: &str,
) -> Result<File, TryLockError> {
    let file = match fs::open(rt, place) {
        Ok(file) => file,
        Err(why) => return Err(TryLockError::Error(why)),
    };
    match file.try_lock() {
        Ok(()) => Ok(file),
        Err(why) => Err(why),
    }
}

/// The record that a file's name is of, and whether the file is a new one beside it.
pub(crate) fn file_named(name: &[u8]) -> Option<(Which, bool)> {
    match name.split_last() {
        Some((b'~', front)) => {
            let which = held_by(front)?;
            Some((which, true))
        }
        _ => {
            let which = held_by(name)?;
            Some((which, false))
        }
    }
}

/// Adds a file, if it is a record's or a new one beside it.
fn add_found(found: &mut Vec<(Which, bool)>, name: &str) -> Result<(), AllocError> {
    if let Some(one) = file_named(name.as_bytes()) {
        found.push(one)?;
    }
    Ok(())
}

/// The files of a folder, by their records.
pub fn files_there<R: Files + AllocGlobal + Clone + Drop>(
    rt: &R,
    alloc: Global,
    folder: &str,
) -> io::Result<Vec<(Which, bool)>> {
    let mut found = Vec::new(alloc);
    for entry in fs::read_dir(rt, folder)? {
        add_found(&mut found, entry?.file_name())?;
    }
    found.sort()?;
    Ok(found)
}

/// Adds the lines of the frames that stand in front, up to one that isn't whole. A whole one has lines alone.
fn add_frames(alloc: Global, lines: &mut Vec<Line>, log: &[u8]) -> io::Result<()> {
    let Some(first) = number_at(log) else {
        return Ok(());
    };
    let mut left = log;
    let mut number = first;
    for _frame in 0..log.len() {
        let Some(payload) = frame_at(number, left) else {
            return Ok(());
        };
        if !add_lines(alloc, lines, payload)? {
            return Err(Error::from(ErrorKind::InvalidData));
        }
        let Some((_frame, behind)) = left.split_at_checked(FRONT.saturating_add(payload.len()))
        else {
            return Ok(());
        };
        left = behind;
        number = number.saturating_add(1);
    }
    Ok(())
}

/// The lines of the log at a path; none where there is none.
pub fn read_log<R: Files<File = File>>(rt: &R, alloc: Global, path: &str) -> io::Result<Vec<Line>> {
    let mut lines = Vec::new(alloc);
    if let Some(bytes) = read_file(rt, alloc, path, LOG_MOST)? {
        add_frames(alloc, &mut lines, bytes.as_slice())?;
    }
    Ok(lines)
}

/// Whether two are one file.
fn is_same_file(one: FileName, other: FileName) -> bool {
    match (one, other) {
        (FileName::Record(one), FileName::Record(other)) => is_same(one, other),
        (FileName::New(one), FileName::New(other)) => is_same(one, other),
        _ => false,
    }
}

/// The error where a flush failed before.
fn lost_before() -> Error {
    Error::from(ErrorKind::BrokenPipe)
}

// A bound is paid for in the proof of each function that has it, so each has those alone that it needs.
impl<R: Files<File = File> + AllocGlobal + Clone + Drop> OpenFolder<R> {
    /// The folder at a place, by its lock. The one error is running out of memory.
    pub(crate) fn new(
        rt: R,
        alloc: Global,
        place: &str,
        lock: File,
        unsynced: bool,
    ) -> Result<OpenFolder<R>, AllocError> {
        Ok(OpenFolder {
            rt,
            alloc,
            lock,
            paths: Paths::new(alloc, place)?,
            log: None,
            written: None,
            loose: Vec::new(alloc),
            is_left: true,
            reserve: false,
            kept: BARE_RESERVE,
            wants_more: false,
            may_grow: true,
            unsynced,
            lost: false,
        })
    }

    /// What in the folder is no store's, if anything is.
    pub(crate) fn stranger(&mut self) -> io::Result<Option<Stranger>> {
        self.paths.name_folder()?;
        stranger_in(&self.rt, self.alloc, self.paths.folder())
    }

    /// A change of an earlier form that was made is carried out, and goes. That form flushed nothing: the list
    /// and the files are on the disk before they are touched, and what was done is before the list goes.
    pub(crate) fn finish_list(&mut self) -> io::Result<()> {
        self.paths.name_list()?;
        unless_gone(fs::remove_file(&self.rt, self.paths.beside()))?;
        match read_file(&self.rt, self.alloc, self.paths.at(), READ_MOST)? {
            Some(list) => {
                let lines = lines_in(self.alloc, list.as_slice())?;
                self.redo_list(lines.as_slice())
            }
            None => Ok(()),
        }
    }

    /// A list of a change is carried out, and goes.
    fn redo_list(&mut self, lines: &[Line]) -> io::Result<()> {
        if !self.unsynced {
            flush_file(&self.rt, self.paths.at())?;
        }
        self.flush_all()?;
        carry_out(&self.rt, &mut self.paths, lines)?;
        self.flush_folder()?;
        self.paths.name_list()?;
        unless_gone(fs::remove_file(&self.rt, self.paths.at()))?;
        self.flush_folder()
    }

    /// The files that are there, by their records.
    pub(crate) fn names(&mut self, alloc: Global) -> io::Result<Vec<FileName>> {
        self.paths.name_folder()?;
        let there = files_there(&self.rt, alloc, self.paths.folder())?;
        let mut names = Vec::with_capacity(alloc, there.len())?;
        for (which, is_new) in there.iter() {
            names.push(if *is_new {
                FileName::New(*which)
            } else {
                FileName::Record(*which)
            })?;
        }
        Ok(names)
    }

    /// All files that were written are on the disk, and the names.
    pub(crate) fn flush_all(&mut self) -> io::Result<()> {
        if self.unsynced {
            return Ok(());
        }
        if self.lost {
            return Err(lost_before());
        }
        let done = self.flush_loose();
        self.lost = done.is_err();
        done?;
        self.loose.clear();
        self.flush_folder()
    }

    /// What was written is on the disk, and the first time what is there of earlier runs. One that is gone
    /// needs nothing.
    fn flush_loose(&mut self) -> io::Result<()> {
        let names = if self.is_left {
            self.names(self.alloc)?
        } else {
            mem::replace(&mut self.loose, Vec::new(self.alloc))
        };
        for name in &names {
            self.paths.name_file(*name)?;
            flush_file(&self.rt, self.paths.at())?;
        }
        self.is_left = false;
        Ok(())
    }
}

// What lists no names.
impl<R: Files<File = File>> OpenFolder<R> {
    /// The log and the reserve go.
    pub(crate) fn drop_log(&mut self) -> io::Result<()> {
        self.remove_reserve()?;
        self.log = None;
        self.paths.name_log()?;
        unless_gone(fs::remove_file(&self.rt, self.paths.at()))?;
        self.flush_folder()
    }

    /// Looks whether an earlier run left the reserve, for what it left in its log.
    pub(crate) fn find_reserve(&mut self) {
        self.reserve = false;
        if self.paths.name_reserve().is_err() {
            return;
        }
        for len in SIZES {
            if !self.reserve && has_room(&self.rt, self.paths.at(), len) {
                self.reserve = true;
                self.kept.bytes = len;
            }
        }
        if self.reserve {
            let _tried = self.shorten_reserve();
        }
    }

    /// The reserve has no more than a large one: a run that was killed as it tried whether there is room left what
    /// it tried.
    fn shorten_reserve(&self) -> io::Result<()> {
        if fs::metadata(&self.rt, self.paths.at())?.len() <= LARGE_RESERVE.bytes {
            return Ok(());
        }
        set_length(&self.rt, self.paths.at(), LARGE_RESERVE.bytes)
    }

    /// What carrying out a record's bytes needs at most.
    fn need_of(&mut self, which: Which, parts: &Parts<'_>) -> io::Result<Need> {
        self.paths.name(which)?;
        let len = (parts.front.len() as u64).saturating_add(parts.body.len() as u64);
        Ok(Need {
            bytes: more_room(&self.rt, self.paths.at(), len),
            files: if is_missing(&self.rt, self.paths.at()) {
                1
            } else {
                0
            },
        })
    }

    /// Notes what carrying out these edits needs, and answers all of it.
    fn note_needs(&mut self, edits: &[Edit<'_>]) -> io::Result<Need> {
        let mut all = Need::NONE;
        for edit in edits.iter() {
            if let What::Put(parts) = &edit.what {
                let need = self.need_of(edit.which, parts)?;
                if let Some(log) = &mut self.log {
                    log.add_need(edit.which, need)?;
                }
                all = all.and(need);
            }
        }
        Ok(all)
    }

    fn remove_reserve(&mut self) -> io::Result<()> {
        self.reserve = false;
        self.kept = BARE_RESERVE;
        for number in 0..LARGE_RESERVE.files {
            self.paths.name_spare(number)?;
            unless_gone(fs::remove_file(&self.rt, self.paths.at()))?;
        }
        self.paths.name_reserve()?;
        unless_gone(fs::remove_file(&self.rt, self.paths.at()))
    }

    /// The bytes of a file, if it is there.
    pub(crate) fn read(&mut self, alloc: Global, name: FileName) -> io::Result<Option<Vec<u8>>> {
        self.paths.name_file(name)?;
        let Some(bytes) = read_file(&self.rt, alloc, self.paths.at(), READ_MOST)? else {
            return Ok(None);
        };
        let Some(id) = content_id(name) else {
            return Ok(Some(bytes));
        };
        self.paths.name_made(id)?;
        Ok(Some(unless_made(&self.rt, bytes, self.paths.at())?))
    }

    /// Writes a file.
    pub(crate) fn write(&mut self, name: FileName, front: &[u8], body: &[u8]) -> io::Result<()> {
        self.written = None;
        self.paths.name_file(name)?;
        let Some(id) = content_id(name) else {
            return self.write_named(name, front, body);
        };
        let is_new = is_missing(&self.rt, self.paths.at());
        if is_new && !self.unsynced && are_made(front, body) {
            return self.write_made(id);
        }
        self.write_named(name, front, body)?;
        self.unname_made(id)
    }

    /// Writes a content as a file is made with it. Where it can't have its second name it is flushed later.
    fn write_made(&mut self, id: u64) -> io::Result<()> {
        let name = FileName::Record(Which::Content(id));
        drop(self.write_or_make_room(name, &MADE, &[])?);
        self.paths.name_made(id)?;
        match fs::hard_link(&self.rt, self.paths.beside(), self.paths.at()) {
            Ok(()) => Ok(()),
            Err(why) if why.kind() == ErrorKind::AlreadyExists => Ok(()),
            Err(_why) => Ok(self.loose.push(name)?),
        }
    }

    /// Writes the file that was named, whose bytes are flushed later.
    fn write_named(&mut self, name: FileName, front: &[u8], body: &[u8]) -> io::Result<()> {
        if !self.unsynced {
            self.loose.push(name)?;
        }
        let file = self.write_or_make_room(name, front, body)?;
        self.written = Some(Written { name, file });
        Ok(())
    }

    /// Writes the file that was named; where it finds no room what can be dropped for it goes.
    fn write_or_make_room(
        &mut self,
        name: FileName,
        front: &[u8],
        body: &[u8],
    ) -> io::Result<File> {
        match write_file(&self.rt, self.paths.at(), front, body) {
            Err(why) if is_full(&why) => {
                let path = String::from_str(self.alloc, self.paths.at())?;
                if !self.make_room(name)? {
                    return Err(why);
                }
                write_file(&self.rt, path.as_str(), front, body)
            }
            done => done,
        }
    }

    /// Makes room for a file that finds none: the log gives back what it has beyond its own, and a record's file
    /// may have the reserve's.
    fn make_room(&mut self, name: FileName) -> io::Result<bool> {
        let mut is_more = self.note_scarce()?;
        if self.may_take(name) {
            self.remove_reserve()?;
            self.paths.name_file(name)?;
            is_more = true;
        }
        Ok(is_more)
    }

    /// The second name of a content's file goes, if it is there.
    fn unname_made(&mut self, id: u64) -> io::Result<()> {
        self.paths.name_made(id)?;
        unless_gone(fs::remove_file(&self.rt, self.paths.at()))
    }

    /// The bytes of a file are on the disk.
    pub(crate) fn flush(&mut self, name: FileName) -> io::Result<()> {
        self.paths.name_file(name)?;
        if self.unsynced {
            return Ok(());
        }
        if self.lost {
            return Err(lost_before());
        }
        let done = match self.written.take() {
            Some(written) if is_same_file(written.name, name) => written.file.sync_data(),
            _ => fs::open(&self.rt, self.paths.at())?.sync_data(),
        };
        self.lost = done.is_err();
        done
    }

    /// The new file of a record takes its place, if there is one.
    pub(crate) fn rename(&mut self, which: Which) -> io::Result<()> {
        self.paths.name(which)?;
        unless_gone(fs::rename(&self.rt, self.paths.beside(), self.paths.at()))?;
        match which {
            Which::Content(id) => self.unname_made(id),
            Which::Head | Which::Node(_) => Ok(()),
        }
    }

    /// A file goes, if it is there.
    pub(crate) fn remove(&mut self, name: FileName) -> io::Result<()> {
        self.paths.name_file(name)?;
        unless_gone(fs::remove_file(&self.rt, self.paths.at()))?;
        match content_id(name) {
            Some(id) => self.unname_made(id),
            None => Ok(()),
        }
    }

    /// The lines of the log.
    pub(crate) fn lines(&mut self, alloc: Global) -> io::Result<Vec<Line>> {
        self.paths.name_log()?;
        read_log(&self.rt, alloc, self.paths.at())
    }

    /// Adds an entry to the log.
    pub(crate) fn append(&mut self, edits: &[Edit<'_>]) -> io::Result<()> {
        let need = self.note_needs(edits)?;
        if need.is_some() {
            self.take_reserve()?;
        }
        self.paths.name_log()?;
        let done = match &mut self.log {
            Some(log) => log.append(edits, need, self.kept),
            None => Err(Error::from(ErrorKind::NotFound)),
        };
        match done {
            Err(why) if is_full(&why) => {
                let _is_more = self.note_scarce()?;
                Err(why)
            }
            done => done,
        }
    }

    /// The log has so many entries; the first call makes its file anew.
    pub(crate) fn cut_log(&mut self, count: usize) -> io::Result<()> {
        self.paths.name_log()?;
        match &mut self.log {
            Some(log) => {
                self.wants_more = self.wants_more || log.is_near(self.kept);
                log.cut(count)
            }
            None => {
                self.log = Some(LogFile::make(&self.rt, self.alloc, self.paths.at())?);
                self.flush_folder()
            }
        }
    }

    /// The log is on the disk.
    pub(crate) fn flush_log(&mut self) -> io::Result<()> {
        self.paths.name_log()?;
        if self.unsynced {
            return Ok(());
        }
        if self.lost {
            return Err(lost_before());
        }
        let done = match &self.log {
            Some(log) => log.flush(),
            None => self.flush_left_log(),
        };
        self.lost = done.is_err();
        done
    }

    /// A log that an earlier run left is on the disk, with its name: the run may have been killed before it was.
    fn flush_left_log(&mut self) -> io::Result<()> {
        flush_file(&self.rt, self.paths.at())?;
        self.lock.sync_all()
    }

    /// Makes the reserve, if it isn't there or is small, and as many of its empty files as there is room for.
    pub(crate) fn take_reserve(&mut self) -> io::Result<()> {
        if !self.reserve || self.kept.bytes < RESERVE.bytes {
            self.make_reserve()?;
        }
        if self.wants_more && self.may_grow {
            self.may_grow = false;
            self.grow_reserve()?;
        }
        let is_large = self.kept.bytes == LARGE_RESERVE.bytes;
        self.make_spares(if is_large {
            LARGE_RESERVE.files
        } else {
            RESERVE.files
        })
    }

    /// Makes the largest reserve that there is room for.
    fn make_reserve(&mut self) -> io::Result<()> {
        for len in SIZES {
            match self.write_reserve(len) {
                Ok(()) => {
                    self.reserve = true;
                    self.kept.bytes = len;
                    return Ok(());
                }
                Err(why) if is_full(&why) => {}
                Err(why) => return Err(why),
            }
        }
        // What there is of it would take room from others.
        self.remove_reserve()?;
        Err(Error::from(ErrorKind::StorageFull))
    }

    /// Writes the reserve's file.
    fn write_reserve(&mut self, len: u64) -> io::Result<()> {
        self.paths.name_reserve()?;
        let piece = len.min(RESERVE.bytes);
        let bytes = vec![in self.alloc; 1u8; piece as usize]?;
        let mut file = write_file(&self.rt, self.paths.at(), bytes.as_slice(), &[])?;
        for _piece in 1..len / RESERVE.bytes {
            file.write_all(bytes.as_slice())?;
        }
        Ok(())
    }

    /// Keeps more, where there is plenty of room.
    fn grow_reserve(&mut self) -> io::Result<()> {
        let tried = self.write_reserve(LARGE_RESERVE.bytes.saturating_mul(PLENTY));
        if tried.is_ok() {
            self.kept.bytes = LARGE_RESERVE.bytes;
        }
        // What was only tried goes again.
        self.paths.name_reserve()?;
        set_length(&self.rt, self.paths.at(), self.kept.bytes)
    }

    /// Makes the empty files that aren't there, as far as there is room.
    fn make_spares(&mut self, count: usize) -> io::Result<()> {
        for number in self.kept.files..count {
            self.paths.name_spare(number)?;
            match write_file(&self.rt, self.paths.at(), &[], &[]) {
                Ok(file) => drop(file),
                Err(why) if is_full(&why) => return Ok(()),
                Err(why) => return Err(why),
            }
            self.kept.files = number.saturating_add(1);
        }
        Ok(())
    }

    /// Whether so many bytes need no more room than the record's file has.
    pub(crate) fn fits(&mut self, which: Which, len: u64) -> bool {
        match self.paths.name(which) {
            Ok(()) => has_room(&self.rt, self.paths.at(), len),
            Err(_want) => false,
        }
    }
}

// What reaches no files but those that are open.
impl<R> OpenFolder<R> {
    /// By what the folder is reached.
    pub(crate) fn rt(&self) -> &R {
        &self.rt
    }

    /// The path of the file that was named last.
    pub(crate) fn at(&self) -> &str {
        self.paths.at()
    }

    /// Whether a file that finds no room may have the reserve's.
    fn may_take(&self, name: FileName) -> bool {
        match name {
            FileName::Record(_) => self.reserve,
            FileName::New(_) => false,
        }
    }

    /// The names are on the disk.
    pub(crate) fn flush_folder(&mut self) -> io::Result<()> {
        self.paths.name_folder()?;
        if self.unsynced {
            return Ok(());
        }
        if self.lost {
            return Err(lost_before());
        }
        let done = self.lock.sync_all();
        self.lost = done.is_err();
        done
    }

    /// Room is scarce: the log gives back what it has beyond its own. Where that fails a flush may have failed. Whether
    /// any went.
    fn note_scarce(&mut self) -> io::Result<bool> {
        let Some(log) = &mut self.log else {
            return Ok(false);
        };
        let done = log.note_scarce();
        self.lost = self.lost || done.is_err();
        done
    }

    /// How many entries the log has.
    pub(crate) fn count(&self) -> usize {
        match &self.log {
            Some(log) => log.count(),
            None => 0,
        }
    }

    /// Whether the log is to be carried out.
    pub(crate) fn is_long(&self) -> bool {
        match &self.log {
            Some(log) => log.is_long(self.kept),
            None => false,
        }
    }

    /// Whether the reserve is there.
    pub(crate) fn has_reserve(&self) -> bool {
        self.reserve
    }
}
