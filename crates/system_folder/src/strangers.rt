//! What stands in a folder and is no store's: a file of a name that a store gives to its own, with bytes
//! that a store doesn't write, or files of other names alone. Such a folder isn't served, and nothing in it
//! changes. `specs/Strangers.antt` states how a store's own files begin.

ghost use Rattle.std.specs.Prelude.{◌≡◌, ◌&&◌, ◌||◌, not};
ghost use Rattle.system_folder.specs.Strangers.{are_below, begins_log, begins_reserve, begins_list};

use crate::open_folder::file_named;
use command_text::fields::number;
use std::alloc::Global;
use std::fs::File;
use std::io::{Error, ErrorKind, Read};
use std::rt::Files;
use std::{fs, io};
use system_files::disk_files::open_regular;
use system_files::paths::{CHANGE, LOG, NEW_CHANGE, RESERVE};

/// By how many of its first bytes a file is known.
const FRONT: usize = 16;

/// What is no store's.
#[derive(Drop)]
pub enum Stranger {
    /// The file of this name.
    File(String),
    /// The whole folder.
    Folder,
}

/// A file that a store has beside its records.
#[derive(Clone, Copy)]
enum Own {
    Log,
    Reserve,
    List,
}

/// Whether no byte is this or more.
fn are_below(bytes: &[u8], most: u8) -> bool
    ensures { result ≡ are_below most bytes.now }
{
    match bytes {
        [byte, rest @ ..] => *byte < most && are_below(rest, most),
        [] => true,
    }
}

/// Whether a log may begin so.
fn begins_log(front: &[u8]) -> bool
    ensures { result ≡ begins_log front.now }
{
    if front.len() < FRONT {
        return are_below(front, 1);
    }
    let (number, _rest) = front.split_at(4);
    let (_number, behind) = front.split_at(8);
    let (count, _rest) = behind.split_at(5);
    are_below(number, 1) && are_below(count, 1)
}

/// Whether a file of the reserve may begin so.
fn begins_reserve(front: &[u8]) -> bool
    ensures { result ≡ begins_reserve front.now }
{
    are_below(front, 2)
}

/// Whether a list of a change may begin so: by a sign, or by zeros.
fn begins_list(front: &[u8]) -> bool
    ensures { result ≡ begins_list front.now }
{
    match front {
        [first, _rest @ ..] => *first == b'+' || *first == b'-' || *first == 0,
        [] => true,
    }
}

/// Which of a store's own files has this name, if one has.
fn own_named(name: &[u8]) -> Option<Own> {
    if name == LOG.as_bytes() {
        return Some(Own::Log);
    }
    if name == CHANGE.as_bytes() || name == NEW_CHANGE.as_bytes() {
        return Some(Own::List);
    }
    let behind = name.strip_prefix(RESERVE.as_bytes())?;
    if behind.is_empty() || number(behind).is_some() {
        return Some(Own::Reserve);
    }
    None
}

/// Whether a name is one that folders have of themselves, or that isn't shown.
fn is_hidden(name: &[u8]) -> bool {
    name.starts_with(b".") || name == b"lost+found".as_slice()
}

/// Whether a file isn't opened since it is no regular one.
fn is_odd(why: &Error) -> bool {
    matches!(
        why.kind(),
        ErrorKind::IsADirectory | ErrorKind::InvalidInput
    )
}

/// Whether the file at a path begins as a store's own does.
fn is_own<R: Files<File = File>>(rt: &R, path: &str, own: Own) -> io::Result<bool> {
    let mut file = match open_regular(rt, path) {
        Ok(Some(file)) => file,
        Ok(None) => return Ok(true),
        Err(why) if is_odd(&why) => return Ok(false),
        Err(why) => return Err(why),
    };
    let mut bytes = [0u8; FRONT];
    let count = file.read(&mut bytes)?;
    let (front, _rest) = bytes.split_at(count.min(FRONT));
    Ok(match own {
        Own::Log => begins_log(front),
        Own::Reserve => begins_reserve(front),
        Own::List => begins_list(front),
    })
}

/// What a look at a folder's names came to.
#[derive(Clone, Copy)]
struct Seen {
    /// Whether a record's file is there.
    record: bool,
    /// Whether a log or a list of a change is.
    log: bool,
    /// Whether any other is, but for those of the reserve.
    other: bool,
}

/// Whether a folder has files, and none of a store's.
fn is_foreign(seen: Seen) -> bool
    ensures { result ≡ (seen.other && not (seen.record || seen.log)) }
{
    seen.other && !(seen.record || seen.log)
}

impl Seen {
    /// Takes a file's name.
    fn add(&mut self, name: &[u8], own: &Option<Own>) {
        match own {
            Some(Own::Log | Own::List) => self.log = true,
            Some(Own::Reserve) => {}
            None => {
                if file_named(name).is_some() {
                    self.record = true;
                } else if !is_hidden(name) {
                    self.other = true;
                }
            }
        }
    }
}

/// Takes a file's name; answers it, if the file is no store's though it has the name of one.
fn look_at<R: Files<File = File>>(
    rt: &R,
    alloc: Global,
    path: &str,
    name: &str,
    seen: &mut Seen,
) -> io::Result<Option<String>> {
    let own = own_named(name.as_bytes());
    seen.add(name.as_bytes(), &own);
    let Some(own) = own else {
        return Ok(None);
    };
    if is_own(rt, path, own)? {
        return Ok(None);
    }
    Ok(Some(String::from_str(alloc, name)?))
}

/// The first that is no store's in a folder, if there is any. Nothing is changed.
pub fn stranger_in<R: Files<File = File> + AllocGlobal + Clone + Drop>(
    rt: &R,
    alloc: Global,
    folder: &str,
) -> io::Result<Option<Stranger>> {
    let mut seen = Seen {
        record: false,
        log: false,
        other: false,
    };
    for entry in fs::read_dir(rt, folder)? {
        let entry = entry?;
        let path = entry.path();
        if let Some(name) = look_at(rt, alloc, path.as_str(), entry.file_name(), &mut seen)? {
            return Ok(Some(Stranger::File(name)));
        }
    }
    if is_foreign(seen) {
        return Ok(Some(Stranger::Folder));
    }
    Ok(None)
}
