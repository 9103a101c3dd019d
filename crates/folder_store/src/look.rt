//! A look at a folder, which stays as it is: the records that a start would load, and a line for each file
//! that holds none (`specs/Found.antt`).

ghost use Rattle.std.specs.Prelude.{IfOk, OnOk};
ghost use Rattle.system_files.specs.Names.{name_of};
ghost use Rattle.log_store.specs.declared.which.Which.{Which};
ghost use Rattle.folder_store.specs.Found.{Adds, IsFound, LooksOver};
ghost use Rattle.folder_store.specs.declared.found.Reading.{Reading};

use crate::found::{Reading, add_reading};
use log_store::edit::{Line, Task};
use log_store::which::{Which, is_same};
use std::alloc::{AllocError, Global};
use std::fmt::Write;
use std::fs::{File, TryLockError};
use std::io::{Error, ErrorKind};
use std::rt::Files;
use std::{fs, io};
use store::store::StoreError;
use synced_store::checks::CheckedStore;
use system_files::disk_files::{READ_MOST, read_file};
use system_files::made::{put_made_name, unless_made};
use system_files::naming::put_name;
use system_folder::open_folder::{files_there, read_log};
use system_folder::redo::told_by;
use system_folder::strangers::{Stranger, stranger_in};

/// What is told of a record beside its file, by a change that isn't carried out yet.
#[derive(Clone, Copy, Drop)]
enum Told<'a> {
    /// Its bytes.
    Bytes(&'a [u8]),
    /// Its bytes stand in the new file beside its own, while that is there.
    Beside,
    /// It is gone.
    Gone,
}

/// A folder that no server has while it is looked at, and what its changes tell.
struct Looked {
    place: String,
    lock: File,
    /// What an earlier form's change tells, and behind it the log.
    lines: Vec<Line>,
    /// The records of which there is a file, or something is told.
    records: Vec<Which>,
}

// By hand: docs/proving/dropping.md.
impl Drop for Looked {
    fn drop(self) {
        let Looked {
            place,
            lock,
            lines,
            records,
        } = self;
        drop(place);
        drop(lock);
        drop(lines);
        drop(records);
    }
}

/// What is told last of a record.
fn last_of<'a>(lines: &'a [Line], which: Which) -> Option<Told<'a>> {
    let mut told = None;
    for line in lines {
        if is_same(line.which, which) {
            told = Some(match &line.task {
                Task::Put(bytes) => Told::Bytes(bytes.as_slice()),
                Task::Moves(_) => Told::Beside,
                Task::Goes => Told::Gone,
            });
        }
    }
    told
}

/// The path of a record's file, and a content's second one.
struct Paths {
    own: String,
    made: Option<String>,
}

// By hand: docs/proving/dropping.md.
impl Drop for Paths {
    fn drop(self) {
        let Paths { own, made } = self;
        drop(own);
        drop(made);
    }
}

/// The path of a content's second name.
fn made_path(alloc: Global, place: &str, id: u64) -> Result<String, AllocError> {
    let mut path = format!(in alloc; "{place}/")?;
    put_made_name(&mut path, id)?;
    Ok(path)
}

impl Paths {
    /// The paths of a record's files.
    fn new(alloc: Global, place: &str, name: &str, which: Which) -> Result<Paths, AllocError> {
        let made = match which {
            Which::Content(id) => Some(made_path(alloc, place, id)?),
            Which::Head | Which::Node(_) => None,
        };
        let own = format!(in alloc; "{place}/{name}")?;
        Ok(Paths { own, made })
    }
}

/// The bytes of a record by its file.
fn own_bytes<R: Files<File = File>>(
    rt: &R,
    alloc: Global,
    paths: &Paths,
) -> io::Result<Option<Vec<u8>>> {
    let own = paths.own.as_str();
    let Some(made) = &paths.made else {
        return read_file(rt, alloc, own, READ_MOST);
    };
    match read_file(rt, alloc, own, READ_MOST)? {
        Some(bytes) => Ok(Some(unless_made(rt, bytes, made.as_str())?)),
        None => Ok(None),
    }
}

/// The bytes of a record, if it is there.
fn bytes_of<R: Files<File = File>>(
    rt: &R,
    alloc: Global,
    paths: &Paths,
    told: &Option<Told<'_>>,
) -> io::Result<Option<Vec<u8>>> {
    match told {
        Some(Told::Gone) => Ok(None),
        Some(Told::Bytes(bytes)) => {
            let mut copy = Vec::with_capacity(alloc, bytes.len())?;
            copy.extend_from_slice(bytes)?;
            Ok(Some(copy))
        }
        Some(Told::Beside) => {
            let own = paths.own.as_str();
            let beside = format!(in alloc; "{own}~")?;
            match read_file(rt, alloc, beside.as_str(), READ_MOST)? {
                Some(bytes) => Ok(Some(bytes)),
                None => own_bytes(rt, alloc, paths),
            }
        }
        None => own_bytes(rt, alloc, paths),
    }
}

/// What was read of a record's file. The one error is running out of memory.
fn reading_of<R: Files<File = File>>(
    rt: &R,
    alloc: Global,
    paths: &Paths,
    told: &Option<Told<'_>>,
) -> Result<Reading, AllocError> {
    match bytes_of(rt, alloc, paths, told) {
        Ok(Some(bytes)) => Ok(Reading::Bytes(bytes)),
        Ok(None) => Ok(Reading::Missing),
        Err(why) if why.kind() == ErrorKind::OutOfMemory => Err(AllocError),
        Err(why) if why.kind() == ErrorKind::InvalidData => {
            Ok(Reading::Fault(String::from_str(alloc, "holds no record (was it cut?)")?))
        }
        Err(why) => Ok(Reading::Fault(format!(in alloc; "{why}")?)),
    }
}

/// Adds a record, or a line that says why there is none.
fn add<R: Files<File = File>>(
    rt: &R,
    alloc: Global,
    looked: &Looked,
    which: Which,
    found: &mut CheckedStore,
) -> Result<(), AllocError>
    ensures { OnOk result ((r : Reading) × Adds which (name_of which) r found.old found.new) }
{
    let told = last_of(looked.lines.as_slice(), which);
    let mut name = String::new(alloc);
    put_name(&mut name, which)?;
    let paths = Paths::new(alloc, looked.place.as_str(), name.as_str(), which)?;
    let reading = reading_of(rt, alloc, &paths, &told)?;
    add_reading(alloc, which, name.as_str(), reading, found)
}

/// Adds what is found of each of these records.
fn add_all<R: Files<File = File>>(
    rt: &R,
    alloc: Global,
    looked: &Looked,
    records: &[Which],
    found: &mut CheckedStore,
) -> Result<(), AllocError>
    ensures { OnOk result (LooksOver records.now found.old found.new) }
{
    match records {
        [which, rest @ ..] => {
            add(rt, alloc, looked, *which, found)?;
            add_all(rt, alloc, looked, rest, found)
        }
        [] => Ok(()),
    }
}

/// Adds what was read of a file beside the records' to its lines, or a finding where that can't be read.
fn add_read(
    alloc: Global,
    name: &str,
    read: io::Result<Vec<Line>>,
    lines: &mut Vec<Line>,
    findings: &mut Vec<String>,
) -> Result<(), AllocError> {
    match read {
        Ok(more) => {
            for line in more {
                lines.push(line)?;
            }
            Ok(())
        }
        Err(why) if why.kind() == ErrorKind::OutOfMemory => Err(AllocError),
        Err(why) => {
            findings.push(format!(in alloc; "{name}: {why}")?)?;
            Ok(())
        }
    }
}

/// The lines of what is told beside the records' files; one more finding for each part that can't be read.
fn lines_of<R: Files<File = File>>(
    rt: &R,
    alloc: Global,
    place: &str,
    findings: &mut Vec<String>,
) -> Result<Vec<Line>, AllocError> {
    let change = format!(in alloc; "{place}/change")?;
    let log = format!(in alloc; "{place}/log")?;
    let mut lines = Vec::new(alloc);
    let read = told_by(rt, alloc, change.as_str());
    add_read(alloc, "change", read, &mut lines, findings)?;
    let read = read_log(rt, alloc, log.as_str());
    add_read(alloc, "log", read, &mut lines, findings)?;
    Ok(lines)
}

/// The records of which there is a file, or something is told, each once and in their order.
fn records_named<R: Files + AllocGlobal + Clone + Drop>(
    rt: &R,
    alloc: Global,
    place: &str,
    lines: &[Line],
) -> io::Result<Vec<Which>> {
    let there = files_there(rt, alloc, place)?;
    let mut records = Vec::new(alloc);
    for (which, is_new) in &there {
        if !*is_new {
            records.push(*which)?;
        }
    }
    for line in lines {
        records.push(line.which)?;
    }
    records.sort()?;
    records.dedup();
    Ok(records)
}

/// Locks a folder, for reading it.
fn lock<R: Files<File = File>>(rt: &R, place: &str) -> io::Result<File> {
    let file = fs::open(rt, place)?;
    match file.try_lock_shared() {
        Ok(()) => Ok(file),
        Err(TryLockError::WouldBlock) => Err(Error::from(ErrorKind::WouldBlock)),
        Err(TryLockError::Error(why)) => Err(why),
    }
}

/// Adds a line of what in a folder is no store's, for which it would not be served.
fn add_stranger<R: Files<File = File> + AllocGlobal + Clone + Drop>(
    rt: &R,
    alloc: Global,
    place: &str,
    findings: &mut Vec<String>,
) -> io::Result<()> {
    let line = match stranger_in(rt, alloc, place)? {
        Some(Stranger::File(name)) => {
            format!(in alloc; "{name}: no store's file, though it has the name of one")?
        }
        Some(Stranger::Folder) => format!(in alloc; "{place}: it isn't empty, and is no store")?,
        None => return Ok(()),
    };
    findings.push(line)?;
    Ok(())
}

/// What a folder's changes tell, and which records it has, while no server has it.
fn open_for_look<R: Files<File = File> + AllocGlobal + Clone + Drop>(
    rt: &R,
    alloc: Global,
    place: &str,
    findings: &mut Vec<String>,
) -> io::Result<Looked> {
    let at = String::from_str(alloc, place)?;
    let lock = lock(rt, place)?;
    add_stranger(rt, alloc, place, findings)?;
    let lines = lines_of(rt, alloc, place, findings)?;
    let records = records_named(rt, alloc, place, lines.as_slice())?;
    Ok(Looked {
        place: at,
        lock,
        lines,
        records,
    })
}

/// What is found in a folder. Where the folder itself can't be read that is told on standard error.
#[tactic(auto, using(crate::proofs::Looks::found_by))]
pub fn look<R: Files<File = File> + AllocGlobal + Eprint + Clone + Drop>(
    rt: &R,
    alloc: Global,
    place: &str,
) -> Result<CheckedStore, StoreError>
    ensures { IfOk result (λ found. IsFound found) }
{
    let mut findings = Vec::new(alloc);
    let looked = match open_for_look(rt, alloc, place, &mut findings) {
        Ok(looked) => looked,
        Err(why) if why.kind() == ErrorKind::OutOfMemory => return Err(StoreError::Memory),
        Err(why) if why.kind() == ErrorKind::WouldBlock => {
            let _told = eprintln!(rt; "lbfs: {place}: locked by another server");
            return Err(StoreError::Failed);
        }
        Err(why) => {
            let _told = eprintln!(rt; "lbfs: {place}: {why}");
            return Err(StoreError::Failed);
        }
    };
    let mut found = CheckedStore {
        records: Vec::new(alloc),
        findings,
    };
    add_all(rt, alloc, &looked, looked.records.as_slice(), &mut found)?;
    drop(looked);
    Ok(found)
}
