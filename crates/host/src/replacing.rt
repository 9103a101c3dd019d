//! How a file of the host is replaced, for a mount and a shell. It is written beside the one that has the name, where
//! its owner alone may read it. It gets the permissions of that one, and is then put in its place.

ghost use Rattle.std.specs.Prelude.{◌≡◌, IfSome, IfNone};
ghost use Rattle.host.specs.declared.replacing.TheConstants.{OPEN, PRIVATE};

use shell_words::local::LocalPath;
use std::alloc::{AllocError, Global};
use std::fs::{Metadata, OpenFile, OpenOptions, Permissions};
use std::io::{ErrorKind, Write};
use std::os::unix::fs::{OpenOptionsExt, PermissionsExt};
use std::rt::Files as HostDisk;
use std::{fs, io};

/// How many names are tried for a file that is being written.
const TRIES: u32 = 1_024;

/// The bits of a mode that a file keeps which is replaced: who may read, write and run it.
const KEPT: u32 = 0o777;

/// The bits of a file that its owner alone may read and write.
const PRIVATE: u32 = 0o600;

/// The bits of a file that is new, of which the umask takes some away.
const OPEN: u32 = 0o666;

/// Whose file it is that is being written, by the process's number.
#[derive(Clone, Copy)]
pub(crate) enum Writer {
    Mount(u32),
    Shell(u32),
}

/// What is replaced, or made.
#[derive(Drop)]
pub(crate) struct Target {
    /// What the path leads to.
    path: String,
    /// The bits of what is replaced, if anything is: the file gets these once it is whole.
    kept: Option<u32>,
    /// The bits with which the file is made, before its bytes come.
    made: u32,
}

/// Why no file is put at a path.
#[derive(Clone, Copy)]
pub(crate) enum Untaken {
    /// It is a folder.
    Folder,
    /// It is neither a file nor a folder.
    Odd,
    /// It is a symbolic link that leads to nothing.
    Nowhere,
    /// The system failed.
    Failed(io::Error),
}

/// What is found at a path that leads to nothing: a link, or nothing. What can't be looked at may be a link.
fn missing_at<R: HostDisk>(rt: &R, path: &str) -> Result<Option<Metadata>, Untaken> {
    match rt.symlink_metadata(path) {
        Ok(_) => Err(Untaken::Nowhere),
        Err(why) if why.kind() != ErrorKind::NotFound => Err(Untaken::Failed(why)),
        Err(_) => Ok(None),
    }
}

/// What stands at a path and is replaced; nothing where nothing is there. A symbolic link is what it leads to, and
/// one that leads to nothing isn't replaced.
fn found_at<R: HostDisk>(rt: &R, path: &str) -> Result<Option<Metadata>, Untaken> {
    match rt.metadata(path) {
        Ok(facts) if facts.is_dir() => Err(Untaken::Folder),
        Ok(facts) if facts.is_file() => Ok(Some(facts)),
        Ok(_) => Err(Untaken::Odd),
        Err(why) if why.kind() != ErrorKind::NotFound => Err(Untaken::Failed(why)),
        Err(_) => missing_at(rt, path),
    }
}

/// What a path leads to. A link alone is followed: a folder above may have a name that is no UTF-8, which no path
/// that is found so may have.
fn led_to<R: HostDisk>(rt: &R, alloc: Global, path: &str) -> io::Result<String> {
    match rt.symlink_metadata(path) {
        Ok(facts) if facts.is_symlink() => Ok(rt.canonicalize(alloc, path)?.into_string()),
        // What can't be looked at may be a link.
        Err(why) if why.kind() != ErrorKind::NotFound => Err(why),
        _ => Ok(String::from_str(alloc, path)?),
    }
}

/// With which bits a file is made at a path where none is. A cache file is its owner's alone: it has what was fetched,
/// of whatever file.
fn new_bits(path: &str, cache: Option<&str>) -> u32
    ensures own { IfSome cache.entry (λ cache. cache.now ≡ path.now → result ≡ PRIVATE) }
    ensures other { IfSome cache.entry (λ cache. (cache.now ≡ path.now → ⊥) → result ≡ OPEN) }
    ensures none { IfNone cache.entry (result ≡ OPEN) }
{
    match cache {
        Some(cache) if cache == path => PRIVATE,
        _ => OPEN,
    }
}

/// What is replaced by a file at a path, or made. At the path `cache`, if there is one, stands a cache file.
pub(crate) fn target_of<R: HostDisk>(
    rt: &R,
    alloc: Global,
    path: &str,
    cache: Option<&str>,
) -> Result<Target, Untaken> {
    let (kept, made) = match found_at(rt, path)? {
        Some(facts) => (Some(facts.permissions().mode() & KEPT), PRIVATE),
        None => (None, new_bits(path, cache)),
    };
    match led_to(rt, alloc, path) {
        Ok(path) => Ok(Target { path, kept, made }),
        Err(why) => Err(Untaken::Failed(why)),
    }
}

/// The path of what a name stands for, through its folder: two names of one file have one such path.
fn place_of<R: HostDisk>(rt: &R, alloc: Global, path: &str) -> io::Result<String> {
    let (folder, name) = match path.rsplit_once('/') {
        Some(("", name)) => ("/", name),
        Some((folder, name)) => (folder, name),
        None => (".", path),
    };
    let mut place = rt.canonicalize(alloc, folder)?.into_string();
    place.push_str("/")?;
    place.push_str(name)?;
    Ok(place)
}

/// Whether something may be there all the same, since it couldn't be looked at.
fn is_hidden(why: &io::Error) -> bool {
    why.kind() != ErrorKind::NotFound
}

/// The last name of a path.
fn last_name(path: &str) -> &str {
    match path.rsplit_once('/') {
        Some((_folder, name)) => name,
        None => path,
    }
}

impl Target {
    /// Whether it is what this path leads to, by whatever names. Where that can't be told it may be, under that name;
    /// where the folder of either isn't there it isn't.
    pub(crate) fn is_at<R: HostDisk>(&self, rt: &R, alloc: Global, path: &str) -> bool {
        let own = self.path.as_str();
        // What a link leads to that leads to nothing yet may be anything.
        let Ok(led) = led_to(rt, alloc, path) else {
            return true;
        };
        let other = led.as_str();
        match place_of(rt, alloc, other) {
            Ok(place) => match place_of(rt, alloc, own) {
                Ok(mine) => mine == place,
                Err(why) => is_hidden(&why) && last_name(own) == last_name(other),
            },
            Err(why) => is_hidden(&why) && last_name(own) == last_name(other),
        }
    }

    /// The path of a name beside it, in its folder.
    fn beside(&self, alloc: Global, name: &str) -> Result<String, AllocError> {
        let mut path = String::new(alloc);
        if let Some((folder, _name)) = self.path.as_str().rsplit_once('/') {
            path.push_str(folder)?;
            path.push_str("/")?;
        }
        path.push_str(name)?;
        Ok(path)
    }
}

/// The name of a file that is being written, by a number besides.
fn name_of(alloc: Global, writer: Writer, number: u32) -> io::Result<String> {
    match writer {
        Writer::Shell(mark) => {
            let name = LocalPath::temporary(alloc, mark, number)?;
            Ok(String::from_str(alloc, name.as_str())?)
        }
        Writer::Mount(mark) if number == 0 => Ok(format!(in alloc; "~{mark}")?),
        Writer::Mount(mark) => Ok(format!(in alloc; "~{mark}-{number}")?),
    }
}

/// A new file at a path at which nothing stands, which has its bits as soon as it is there.
fn make_new<R: HostDisk>(rt: &R, path: &str, bits: u32) -> io::Result<R::File> {
    let mut options = OpenOptions::new();
    options.write(true).create_new(true).mode(bits);
    options.open(rt, path)
}

/// A new file beside a target, and its path. Where a name is taken it is the next one. A process of the same number
/// may have left a file, or may write one in another container, or the folder is anybody's.
pub(crate) fn make_beside<R: HostDisk>(
    rt: &R,
    alloc: Global,
    target: &Target,
    writer: Writer,
    number: &mut u32,
) -> io::Result<(String, R::File)> {
    for _try in 0..TRIES {
        let path = target.beside(alloc, name_of(alloc, writer, *number)?.as_str())?;
        match make_new(rt, path.as_str(), target.made) {
            Ok(file) => return Ok((path, file)),
            Err(why) if why.kind() == ErrorKind::AlreadyExists => {
                *number = number.saturating_add(1);
            }
            Err(why) => return Err(why),
        }
    }
    Err(ErrorKind::AlreadyExists.into())
}

/// Writes a file that is to replace a target. Once it is whole it gets the permissions of that: until then nobody else
/// reads it. That it runs as its owner or group does, it doesn't get: the owner is now who runs this program, and a
/// server chose the bytes.
fn fill<F: OpenFile + Write>(file: &mut F, target: &Target, bytes: &[u8]) -> io::Result<()> {
    file.write_all(bytes)?;
    match target.kept {
        Some(bits) => file.set_permissions(Permissions::from_mode(bits)),
        None => Ok(()),
    }
}

/// Replaces a target by a new file of these bytes, which is written beside it. Where that fails, what was there
/// stays, and the file beside it goes.
pub(crate) fn replace<R: HostDisk>(
    rt: &R,
    alloc: Global,
    target: &Target,
    writer: Writer,
    number: &mut u32,
    bytes: &[u8],
) -> io::Result<()> {
    let (beside, mut file) = make_beside(rt, alloc, target, writer, number)?;
    let filled = fill(&mut file, target, bytes);
    drop(file);
    let replaced = match filled {
        Ok(()) => fs::rename(rt, beside.as_str(), target.path.as_str()),
        Err(why) => Err(why),
    };
    if replaced.is_err() {
        let _gone = fs::remove_file(rt, beside.as_str());
    }
    replaced
}
