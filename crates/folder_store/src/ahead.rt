//! Long contents, which threads read ahead of the one that makes records of all files. What isn't read here, for
//! whatever reason, is read by that one, through the store's folder, which tells why it can't be.

ghost use Rattle.std.specs.Prelude.{◌≡◌, Some, length, IfOk, IfSome};
ghost use Rattle.folder_store.specs.Folder.{content_in};

use crate::format::content_of;
use log_store::which::Which;
use std::alloc::{AllocError, Global};
use std::fs::File;
use std::io::{Error, ErrorKind, Read};
use std::rt::Files;
use std::thread::Threads;
use std::{fs, io, thread};
use store::record::ContentRecord;
use system_files::disk_files::READ_MOST;
use system_files::naming::put_name;

/// How many records are looked at for long ones at once. So many files may be open.
pub(crate) const OPEN_MOST: usize = 128;

/// How many threads read.
const READERS: usize = 16;

/// A file of fewer bytes isn't worth a thread. Of a longer one its second name says nothing (`made` of
/// `system_files`).
const LONG: u64 = 64 << 10;

/// A long content's file, until it is read, and what it contains from then on.
pub(crate) struct LongContent {
    id: u64,
    file: Option<File>,
    /// How many bytes are in it behind the version.
    left: u64,
    content: Option<ContentRecord>,
}

// By hand: docs/proving/dropping.md.
impl Drop for LongContent {
    fn drop(self) {
        let LongContent {
            id: _id,
            file,
            left: _left,
            content,
        } = self;
        drop(file);
        drop(content);
    }
}

impl LongContent {
    /// Reads the file, and closes it. One that can't be read stays unread.
    fn read(&mut self, alloc: Global)
        ensures whole { IfSome self.new.content (λ content. (content.id ≡ self.old.id) × (length content.bytes ≡ self.old.left)) }
        ensures kept { (self.new.id ≡ self.old.id) × (self.new.left ≡ self.old.left) }
    {
        self.content = match self.file.take() {
            Some(mut file) => content_from(&mut file, alloc, self.id, self.left).ok(),
            None => None,
        };
    }

    /// What it contains, if that was read and it is this file's.
    fn take(&mut self, id: u64) -> Option<ContentRecord>
        ensures { IfSome result (λ content. (content.id ≡ id) × (self.old.content ≡ Some content)) }
    {
        match &self.content {
            Some(content) if content.id == id => self.content.take(),
            _ => None,
        }
    }
}

/// The content that an open file says, unless this has another length by now. The version is read apart, so that no
/// byte behind it has to be moved.
fn content_from<F: Read>(
    file: &mut F,
    alloc: Global,
    id: u64,
    left: u64,
) -> io::Result<ContentRecord>
    ensures whole { IfOk result (λ content. (content.id ≡ id) × (length content.bytes ≡ left)) }
    ensures bytes { IfOk result (λ content. IfSome (F.remaining file.old) (λ bytes. content_in id bytes ≡ Some content)) }
{
    let mut version = [0u8; 8];
    file.read_exact(&mut version)?;
    let mut bytes = Vec::with_capacity(alloc, left as usize)?;
    let count = file.read_to_end(&mut bytes)?;
    if count as u64 != left {
        return Err(Error::from(ErrorKind::UnexpectedEof));
    }
    Ok(content_of(alloc, id, u64::from_be_bytes(version), bytes)?)
}

/// Opens a record's file in a folder, if it is a long content's.
fn open_long<R: Files<File = File>>(
    rt: &R,
    alloc: Global,
    folder: &str,
    which: Which,
) -> io::Result<Option<LongContent>> {
    let Which::Content(id) = which else {
        return Ok(None);
    };
    let mut path = String::from_str(alloc, folder)?;
    put_name(&mut path, which)?;
    let facts = fs::metadata(rt, path.as_str())?;
    let len = facts.len();
    if !facts.is_file() || len < LONG || READ_MOST < len {
        return Ok(None);
    }
    let file = fs::open(rt, path.as_str())?;
    Ok(Some(LongContent {
        id,
        file: Some(file),
        left: len - 8,
        content: None,
    }))
}

/// Opens the files of the long contents among these records. One that can't be opened is passed over.
fn open_each<R: Files<File = File>>(
    rt: &R,
    alloc: Global,
    folder: &str,
    these: &[Which],
) -> Result<Vec<LongContent>, AllocError> {
    let mut found = Vec::new(alloc);
    for which in these {
        if let Ok(Some(one)) = open_long(rt, alloc, folder, *which) {
            found.push(one)?;
        }
    }
    Ok(found)
}

/// The long contents among these records of a folder, read by threads. The one error is running out of memory.
pub(crate) fn read_long<H: Threads + Sync, R: Files<File = File>>(
    handle: &H,
    rt: &R,
    alloc: Global,
    folder: &str,
    these: &[Which],
) -> Result<Vec<LongContent>, AllocError> {
    let mut found = open_each(rt, alloc, folder, these)?;
    thread::for_each_mut(
        handle,
        found.as_mut_slice(),
        READERS,
        &|_place, one: &mut LongContent| one.read(alloc),
    );
    Ok(found)
}

/// The content that this record is, if it is among those that were read.
pub(crate) fn take_content(long: &mut [LongContent], which: Which) -> Option<ContentRecord>
    ensures { IfSome result (λ content. which ≡ Which.Content content.id) }
{
    let Which::Content(id) = which else {
        return None;
    };
    for one in long.iter_mut() {
        if let Some(content) = one.take(id) {
            return Some(content);
        }
    }
    None
}
