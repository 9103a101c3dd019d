//! Files of the host, as a store's folder wants them: whole, and by their paths.

use limits::FILE_MOST;
use std::alloc::Global;
use std::fs::{File, OpenOptions};
use std::io::{Error, ErrorKind, Read, Write};
use std::os::unix::fs::MetadataExt;
use std::rt::Files;
use std::{fs, io};

/// The most bytes of a file of the folder: a content, and its version.
pub const READ_MOST: u64 = FILE_MOST + 8;

/// How many bytes a block has in which the system counts a file's room.
const BLOCK: u64 = 512;

/// A file takes room in pieces of so many bytes at most.
const PAGE: u64 = 4096;

/// What isn't there is as good as nothing.
pub fn unless_gone(done: io::Result<()>) -> io::Result<()> {
    match done {
        Err(error) if error.kind() == ErrorKind::NotFound => Ok(()),
        other => other,
    }
}

/// Whether there is no room: on the disk, or of what the server's user may have there.
pub fn is_full(why: &Error) -> bool {
    matches!(
        why.kind(),
        ErrorKind::StorageFull | ErrorKind::QuotaExceeded
    )
}

/// Opens a file for reading, if it is there. One that is no regular file isn't opened: it might be waited for.
pub fn open_regular<R: Files<File = File>>(rt: &R, path: &str) -> io::Result<Option<File>> {
    match fs::metadata(rt, path) {
        Ok(facts) if facts.is_dir() => return Err(Error::from(ErrorKind::IsADirectory)),
        Ok(facts) if !facts.is_file() => return Err(Error::from(ErrorKind::InvalidInput)),
        Ok(_facts) => {}
        Err(error) if error.kind() == ErrorKind::NotFound => return Ok(None),
        Err(error) => return Err(error),
    }
    match fs::open(rt, path) {
        Ok(file) => Ok(Some(file)),
        Err(error) if error.kind() == ErrorKind::NotFound => Ok(None),
        Err(error) => Err(error),
    }
}

/// The bytes of a regular file, if it is there. One that is longer than a record, or than `most`, isn't read.
pub fn read_file<R: Files<File = File>>(
    rt: &R,
    alloc: Global,
    path: &str,
    most: u64,
) -> io::Result<Option<Vec<u8>>> {
    match open_regular(rt, path)? {
        Some(mut file) => Ok(Some(read_all(&mut file, alloc, most)?)),
        None => Ok(None),
    }
}

/// The bytes of an open file.
fn read_all(file: &mut File, alloc: Global, most: u64) -> io::Result<Vec<u8>> {
    let len = file.metadata()?.len();
    if most < len {
        return Err(Error::from(ErrorKind::FileTooLarge));
    }
    let mut bytes = Vec::with_capacity(alloc, len as usize)?;
    let _count = file.read_to_end(&mut bytes)?;
    Ok(bytes)
}

/// The bytes of a file are on the disk, if it is there.
pub fn flush_file<R: Files<File = File>>(rt: &R, path: &str) -> io::Result<()> {
    match open_regular(rt, path)? {
        Some(file) => file.sync_data(),
        None => Ok(()),
    }
}

/// A file that is there has so many bytes.
pub fn set_length<R: Files<File = File>>(rt: &R, path: &str, len: u64) -> io::Result<()> {
    let mut options = OpenOptions::new();
    options.write(true);
    options.open(rt, path)?.set_len(len)
}

/// Writes a file whole: these bytes, and those behind them. Where it is there it is written in its place,
/// so that it needs no room but for what it grows by.
pub fn write_file<R: Files<File = File>>(
    rt: &R,
    path: &str,
    front: &[u8],
    body: &[u8],
) -> io::Result<File> {
    let mut file = open_to_write(rt, path)?;
    write_bytes(&mut file, front, body)?;
    Ok(file)
}

/// Opens a file to be written in its place; it is made where it isn't there.
pub fn open_to_write<R: Files<File = File>>(rt: &R, path: &str) -> io::Result<File> {
    let mut options = OpenOptions::new();
    options.write(true).create(true);
    options.open(rt, path)
}

/// An open file has these bytes, and those behind them.
fn write_bytes(file: &mut File, front: &[u8], body: &[u8]) -> io::Result<()> {
    file.write_all(front)?;
    file.write_all(body)?;
    file.set_len((front.len() as u64).saturating_add(body.len() as u64))
}

/// How many bytes of room a file at a path has; none where it isn't there.
fn room_of<R: Files<File = File>>(rt: &R, path: &str) -> u64 {
    match fs::metadata(rt, path) {
        Ok(facts) if facts.is_file() => facts.blocks().saturating_mul(BLOCK),
        _ => 0,
    }
}

/// Whether there is nothing at a path.
pub fn is_missing<R: Files<File = File>>(rt: &R, path: &str) -> bool {
    match fs::metadata(rt, path) {
        Ok(_facts) => false,
        Err(error) => error.kind() == ErrorKind::NotFound,
    }
}

/// Whether so many bytes need no more room than the file at a path has.
pub fn has_room<R: Files<File = File>>(rt: &R, path: &str, len: u64) -> bool {
    len <= room_of(rt, path)
}

/// How much more room than the file at a path has so many bytes need at most.
pub fn more_room<R: Files<File = File>>(rt: &R, path: &str, len: u64) -> u64 {
    if has_room(rt, path, len) {
        return 0;
    }
    (len / PAGE).saturating_add(1).saturating_mul(PAGE)
}
