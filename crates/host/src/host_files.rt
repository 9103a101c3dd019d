//! The files of the folder that the program runs in.

ghost use Rattle.std.specs.Prelude.{◌≡◌, ℕ, ◌≤◌, ◌<◌, length, Err, None, IfOk};
ghost use Rattle.limits.specs.declared.TheConstants.{FILE_MOST};
ghost use Rattle.links.specs.declared.files.FilesError.TheVariants as errors;

use crate::notes::{FileNote, tell};
use crate::replacing::{Untaken, Writer, replace, target_of};
use lb_base::faults::one_more;
use lb_base::items::{Bytes, Items};
use lb_base::sink::GiveError;
use lb_base::source::{Failed, ReadError, read_all};
use lb_base::streams::StreamSource;
use limits::FILE_MOST;
use links::files::{Files, FilesError};
use std::alloc::Global;
use std::fs::OpenFile;
use std::io::{ErrorKind, Read};
use std::rt::Files as HostDisk;
use std::{fs, io};

/// The files of the folder that the program runs in. They tell nothing of bytes.
#[derive(Drop)]
pub struct HostFiles<R> {
    rt: R,
    mark: u32,
    /// The name of the cache file, if there is one.
    cache: Option<String>,
    faults: u64,
}

impl<R> HostFiles<R> {
    /// Files with no fault so far. The mark is no other program's at the same time, as the process's
    /// number: the file that is being written has it in its name. A cache file that is new is its owner's alone.
    pub fn new(rt: R, mark: u32, cache: Option<String>) -> HostFiles<R>
        ensures { result ≡ record { rt = rt; mark = mark; cache = cache; faults = 0 } }
    {
        HostFiles {
            rt,
            mark,
            cache,
            faults: 0,
        }
    }
}

/// Opens a file that is a regular one. Any other isn't opened: one that waits for a writer would be
/// waited for. Why there is none is told.
fn open_regular<R: HostDisk + Eprint>(rt: &R, name: &str) -> Result<R::File, Failed> {
    let opened = match fs::metadata(rt, name) {
        Ok(facts) if !facts.is_file() => {
            tell(rt, &FileNote::NotRegular { name });
            return Err(Failed);
        }
        Ok(_) => fs::open(rt, name),
        Err(why) => Err(why),
    };
    match opened {
        Ok(file) => Ok(file),
        Err(why) => {
            tell(rt, &FileNote::Read { name, why });
            Err(Failed)
        }
    }
}

/// A file that tells why it can't be read.
#[derive(Drop)]
struct ToldFile<'a, R, F> {
    rt: &'a R,
    name: &'a str,
    file: F,
}

impl<'a, R: Eprint, F: Read> Read for ToldFile<'a, R, F> {
    ghost remaining = { λ r. F.remaining r.file };

    fn read(&mut self, buf: &mut [u8]) -> io::Result<usize> {
        match self.file.read(buf) {
            Err(why) if why.kind() != ErrorKind::Interrupted => {
                let name = self.name;
                tell(self.rt, &FileNote::Read { name, why });
                Err(why)
            }
            other => other,
        }
    }
}

/// The bytes that come from a file, of which there may be at most `FILE_MOST`.
fn read_from<R: Eprint, F: Read + Drop>(
    rt: &R,
    alloc: Global,
    name: &str,
    file: F,
) -> Result<Bytes, FilesError>
    ensures within { IfOk result (λ bytes. length bytes ≤ FILE_MOST) }
    ensures big { (len : ℕ) → result ≡ Err (errors.TooBig len) → FILE_MOST < len }
{
    let mut source = StreamSource::new(ToldFile { rt, name, file });
    match read_all(alloc, FILE_MOST as usize, &mut source) {
        Ok(bytes) => Ok(Items::from_vec(bytes)),
        Err(ReadError::Memory) => Err(FilesError::Memory),
        Err(ReadError::Fault) => Err(FilesError::Failed),
        Err(ReadError::TooLong) => {
            tell(rt, &FileNote::Changed { name });
            Err(FilesError::Failed)
        }
    }
}

/// The bytes of an open file, where it has at most `FILE_MOST`.
fn read_open<R: Eprint, F: OpenFile + Read + Drop>(
    rt: &R,
    alloc: Global,
    name: &str,
    file: F,
) -> Result<Bytes, FilesError>
    ensures within { IfOk result (λ bytes. length bytes ≤ FILE_MOST) }
    ensures big { (len : ℕ) → result ≡ Err (errors.TooBig len) → FILE_MOST < len }
{
    let len = match file.metadata() {
        Ok(facts) => facts.len(),
        Err(why) => {
            tell(rt, &FileNote::Read { name, why });
            return Err(FilesError::Failed);
        }
    };
    if FILE_MOST < len {
        return Err(FilesError::TooBig { len });
    }
    read_from(rt, alloc, name, file)
}

/// The bytes of a file, where it has at most `FILE_MOST`.
fn read_file<R: HostDisk + Eprint>(rt: &R, alloc: Global, name: &str) -> Result<Bytes, FilesError>
    ensures within { IfOk result (λ bytes. length bytes ≤ FILE_MOST) }
    ensures big { (len : ℕ) → result ≡ Err (errors.TooBig len) → FILE_MOST < len }
{
    match open_regular(rt, name) {
        Ok(file) => read_open(rt, alloc, name, file),
        Err(Failed) => Err(FilesError::Failed),
    }
}

/// Tells why a file isn't put at a path.
fn tell_untaken<R: Eprint>(rt: &R, name: &str, why: Untaken) {
    match why {
        Untaken::Failed(why) => tell(rt, &FileNote::Written { name, why }),
        _ => tell(rt, &FileNote::NotRegular { name }),
    }
}

impl<R: HostDisk> HostFiles<R> {
    /// Puts a file at a path.
    fn write(&self, alloc: Global, path: &str, bytes: &[u8]) -> Result<(), Untaken> {
        let target = target_of(&self.rt, alloc, path, self.cache.as_deref())?;
        let mount = Writer::Mount(self.mark);
        match replace(&self.rt, alloc, &target, mount, &mut 0, bytes) {
            Ok(()) => Ok(()),
            Err(why) => Err(Untaken::Failed(why)),
        }
    }
}

impl<R: HostDisk + Eprint> Files for HostFiles<R> {
    ghost files = { λ _. None };

    ghost faults = { λ f. f.faults };

    fn has(&self, name: &str) -> bool {
        match fs::metadata(&self.rt, name) {
            Ok(facts) => facts.is_file(),
            // What can't be looked at may be there.
            Err(why) => why.kind() != ErrorKind::NotFound,
        }
    }

    fn get(&mut self, alloc: Global, name: &str) -> Result<Bytes, FilesError> {
        match read_file(&self.rt, alloc, name) {
            Ok(bytes) => Ok(bytes),
            Err(FilesError::Failed) => {
                self.faults = one_more(self.faults);
                Err(FilesError::Failed)
            }
            Err(error) => Err(error),
        }
    }

    fn leave(&self, name: &str) {
        tell(&self.rt, &FileNote::Left { name });
    }

    fn put(&mut self, alloc: Global, name: &str, bytes: &[u8]) -> Result<(), GiveError> {
        match self.write(alloc, name, bytes) {
            Ok(()) => Ok(()),
            Err(Untaken::Failed(why)) if why.kind() == ErrorKind::OutOfMemory => {
                Err(GiveError::Memory)
            }
            Err(why) => {
                tell_untaken(&self.rt, name, why);
                self.faults = one_more(self.faults);
                Err(GiveError::Failed)
            }
        }
    }
}
