//! The files and folders of the host, as a shell works with them. They tell nothing of what is in them.

ghost use Rattle.std.specs.Prelude.{◌≡◌, ◌≤◌, length, IfOk};
ghost use Rattle.limits.specs.declared.TheConstants.{FILE_MOST};

use crate::left_over::clear_name;
use crate::replacing::{Target, Untaken, Writer, make_beside, replace, target_of};
use command_text::parts::first_part;
use lb_base::items::{Bytes, Items, Name};
use lb_base::source::{ReadError, read_all};
use lb_base::streams::StreamSource;
use limits::FILE_MOST;
use shell_walks::folder::{Folder, Folders, Kind, LocalFault};
use std::alloc::{AllocError, Global};
use std::fs::Metadata;
use std::io::ErrorKind;
use std::rt::{Clock as HostTime, Files as HostDisk};
use std::{fs, io};

/// The most bytes that the names of a folder may have, each with a byte behind it.
const LISTING_MOST: usize = 1_073_741_824;

/// The files and folders of the host.
#[derive(Drop)]
pub struct HostFolder<'a, R> {
    rt: R,
    mark: u32,
    number: u32,
    /// The path of the cache file, if there is one.
    cache: Option<&'a str>,
}

impl<'a, R> HostFolder<'a, R> {
    /// The host's files. The mark is the process's number, and the number another one for each thread. The file
    /// that is being written is named after them, or after the next number that is free in its folder.
    pub fn new(rt: R, mark: u32, number: u32, cache: Option<&'a str>) -> HostFolder<'a, R>
        ensures { result ≡ record { rt = rt; mark = mark; number = number; cache = cache.entry } }
    {
        HostFolder {
            rt,
            mark,
            number,
            cache,
        }
    }
}

/// Why the system didn't do it.
fn fault_of(error: &io::Error) -> LocalFault {
    match error.kind() {
        ErrorKind::NotFound => LocalFault::Missing,
        ErrorKind::AlreadyExists => LocalFault::Exists,
        ErrorKind::IsADirectory => LocalFault::IsFolder,
        ErrorKind::NotADirectory => LocalFault::NotFolder,
        ErrorKind::PermissionDenied | ErrorKind::ReadOnlyFilesystem => LocalFault::Denied,
        ErrorKind::StorageFull | ErrorKind::QuotaExceeded => LocalFault::Full,
        ErrorKind::InvalidFilename | ErrorKind::InvalidInput => LocalFault::BadName,
        ErrorKind::OutOfMemory => LocalFault::Memory,
        _ => LocalFault::Failed,
    }
}

/// Why a file wasn't written: what wasn't found as it was made is its folder, and what was there already isn't the
/// file, but each name beside it.
fn unwritten(error: &io::Error) -> LocalFault {
    match fault_of(error) {
        LocalFault::Missing => LocalFault::NoFolder,
        LocalFault::Exists => LocalFault::Failed,
        fault => fault,
    }
}

/// Whether a file is as it was, by its length and the time of its last change.
fn is_same(before: &Metadata, after: &Metadata) -> bool {
    match (before.modified(), after.modified()) {
        (Ok(first), Ok(last)) => first == last && before.len() == after.len(),
        _ => before.len() == after.len(),
    }
}

/// The bytes of a file, where it has at most `FILE_MOST`.
fn read_file<R: HostDisk>(rt: &R, alloc: Global, path: &str) -> Result<Bytes, LocalFault>
    ensures { IfOk result (λ bytes. length bytes ≤ FILE_MOST) }
{
    let file = match fs::open(rt, path) {
        Ok(file) => file,
        Err(error) => return Err(fault_of(&error)),
    };
    let mut source = StreamSource::new(file);
    match read_all(alloc, FILE_MOST as usize, &mut source) {
        Ok(bytes) => Ok(Items::from_vec(bytes)),
        Err(ReadError::Memory) => Err(LocalFault::Memory),
        Err(ReadError::TooLong) => Err(LocalFault::TooBig),
        Err(ReadError::Fault) => Err(LocalFault::Failed),
    }
}

/// What is replaced by a file at a path, or made.
fn target_at<R: HostDisk>(
    rt: &R,
    alloc: Global,
    path: &str,
    cache: Option<&str>,
) -> Result<Target, LocalFault> {
    match target_of(rt, alloc, path, cache) {
        Ok(target) => Ok(target),
        Err(Untaken::Folder) => Err(LocalFault::IsFolder),
        Err(Untaken::Odd) => Err(LocalFault::Odd),
        Err(Untaken::Nowhere) => Err(LocalFault::Nowhere),
        Err(Untaken::Failed(error)) => Err(fault_of(&error)),
    }
}

/// What is replaced by what is fetched. The cache file isn't: behind the last line it would be written over that.
fn fetched_at<R: HostDisk>(
    rt: &R,
    alloc: Global,
    path: &str,
    cache: Option<&str>,
) -> Result<Target, LocalFault> {
    let target = target_at(rt, alloc, path, cache)?;
    match cache {
        Some(cache) if target.is_at(rt, alloc, cache) => Err(LocalFault::Cache),
        _ => Ok(target),
    }
}

/// What a path stands for at which nothing was found: where links are followed, one may lead there. What can't be
/// looked at may be one.
fn missing_kind<R: HostDisk>(rt: &R, path: &str, follows: bool) -> Kind {
    if !follows {
        return Kind::Missing;
    }
    match rt.symlink_metadata(path) {
        Ok(_) => Kind::Hidden(LocalFault::Nowhere),
        Err(error) if error.kind() != ErrorKind::NotFound => Kind::Hidden(fault_of(&error)),
        Err(_) => Kind::Missing,
    }
}

/// What a path stands for, by what the system tells of it.
fn kind_of(facts: &Metadata) -> Kind {
    if facts.is_dir() {
        Kind::Folder
    } else if facts.is_file() {
        Kind::File
    } else if facts.is_symlink() {
        Kind::Link
    } else {
        Kind::Other
    }
}

/// The names that end each by a NUL, without `.` and `..`.
fn names_in(alloc: Global, listing: &[u8]) -> Result<Items<Name>, AllocError> {
    let mut names = Items::new(alloc);
    let mut rest = Some(listing);
    'names: while let Some(text) = rest {
        let (name, after) = first_part(0, text);
        let is_dots = name == b".".as_slice() || name == b"..".as_slice();
        if !name.is_empty() && !is_dots {
            names.push(Name::copy_of(alloc, name)?)?;
        }
        rest = after;
    }
    Ok(names)
}

/// The names in a folder, each ended by a NUL. One that is removed meanwhile lists as if it were empty: it is looked
/// at once more, so that nobody takes it for that.
fn read_names<R: HostDisk>(rt: &R, alloc: Global, path: &str) -> Result<Vec<u8>, LocalFault> {
    let folder = match format!(in alloc; "{path}/") {
        Ok(folder) => folder,
        Err(_) => return Err(LocalFault::Memory),
    };
    let dir = match rt.open_dir(folder.as_str()) {
        Ok(dir) => dir,
        Err(error) => return Err(fault_of(&error)),
    };
    let mut source = StreamSource::new(dir);
    match read_all(alloc, LISTING_MOST, &mut source) {
        Ok(listing) => match rt.metadata(folder.as_str()) {
            Ok(_) => Ok(listing),
            Err(error) => Err(fault_of(&error)),
        },
        Err(ReadError::Memory) => Err(LocalFault::Memory),
        Err(ReadError::TooLong | ReadError::Fault) => Err(LocalFault::Failed),
    }
}

/// What gives each thread the host's files.
#[derive(Drop)]
pub struct HostFolders<'a, R> {
    rt: R,
    mark: u32,
    cache: Option<&'a str>,
}

impl<'a, R> HostFolders<'a, R> {
    /// The host's files. The mark is the process's number. A cache file that is new is its owner's alone.
    pub fn new(rt: R, mark: u32, cache: Option<&'a str>) -> HostFolders<'a, R>
        ensures { result ≡ record { rt = rt; mark = mark; cache = cache.entry } }
    {
        HostFolders { rt, mark, cache }
    }
}

impl<'a, R: HostDisk + HostTime + Eprint + Copy> Folders for HostFolders<'a, R> {
    type F = HostFolder<'a, R>;

    fn folder(&self, number: u32) -> HostFolder<'a, R> {
        HostFolder::new(self.rt, self.mark, number, self.cache)
    }
}

impl<'a, R: HostDisk + HostTime + Eprint> Folder for HostFolder<'a, R> {
    ghost finds = { λ _ _ _ _ _. Unit {0} };

    ghost reads = { λ _ _ _ _. Unit {0} };

    ghost writes = { λ _ _ _ _ _. Unit {0} };

    ghost lists = { λ _ _ _ _. Unit {0} };

    ghost makes = { λ _ _ _ _. Unit {0} };

    ghost tries = { λ _ _ _ _. Unit {0} };

    ghost clears = { λ _ _ _. Unit {0} };

    fn kind(&mut self, path: &str, follows: bool) -> Kind {
        let found = if follows {
            self.rt.metadata(path)
        } else {
            self.rt.symlink_metadata(path)
        };
        match found {
            Ok(facts) => kind_of(&facts),
            Err(error) if error.kind() == ErrorKind::NotFound => {
                missing_kind(&self.rt, path, follows)
            }
            Err(error) => Kind::Hidden(fault_of(&error)),
        }
    }

    fn read(&mut self, alloc: Global, path: &str) -> Result<Bytes, LocalFault> {
        let before = match self.rt.metadata(path) {
            Ok(facts) => facts,
            Err(error) => return Err(fault_of(&error)),
        };
        if before.is_dir() {
            return Err(LocalFault::IsFolder);
        }
        // A pipe would be waited for.
        if !before.is_file() {
            return Err(LocalFault::Odd);
        }
        let bytes = read_file(&self.rt, alloc, path)?;
        match self.rt.metadata(path) {
            Ok(after) if is_same(&before, &after) => Ok(bytes),
            _ => Err(LocalFault::Changed),
        }
    }

    fn try_write(&mut self, alloc: Global, path: &str) -> Result<(), LocalFault> {
        let target = fetched_at(&self.rt, alloc, path, self.cache)?;
        let shell = Writer::Shell(self.mark);
        match make_beside(&self.rt, alloc, &target, shell, &mut self.number) {
            Ok((beside, file)) => {
                drop(file);
                match fs::remove_file(&self.rt, beside.as_str()) {
                    Ok(()) => Ok(()),
                    Err(error) => Err(unwritten(&error)),
                }
            }
            Err(error) => Err(unwritten(&error)),
        }
    }

    fn write(&mut self, alloc: Global, path: &str, bytes: &[u8]) -> Result<(), LocalFault> {
        let target = target_at(&self.rt, alloc, path, self.cache)?;
        let shell = Writer::Shell(self.mark);
        match replace(&self.rt, alloc, &target, shell, &mut self.number, bytes) {
            Ok(()) => Ok(()),
            Err(error) => Err(unwritten(&error)),
        }
    }

    fn names(&mut self, alloc: Global, path: &str) -> Result<Items<Name>, LocalFault> {
        let listing = read_names(&self.rt, alloc, path)?;
        match names_in(alloc, listing.as_slice()) {
            Ok(names) => Ok(names),
            Err(AllocError) => Err(LocalFault::Memory),
        }
    }

    fn make_folder(&mut self, path: &str) -> Result<(), LocalFault> {
        match fs::create_dir(&self.rt, path) {
            Ok(()) => Ok(()),
            Err(error) => Err(fault_of(&error)),
        }
    }

    fn clear(&mut self, alloc: Global, path: &str) {
        if let Ok(names) = self.names(alloc, path) {
            for name in names.as_slice() {
                clear_name(&self.rt, alloc, self.mark, path, name.as_slice());
            }
        }
    }
}
