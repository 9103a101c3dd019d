//! A shell's cache file: what stands in it is the client's to begin with, and what the client keeps is written to
//! it (`specs/Caching.antt`).

ghost use Rattle.std.specs.Prelude.{◌≡◌};
ghost use Rattle.cache_file.specs.Items.{is_cache};
ghost use Rattle.shell_walks.specs.Caching.{LoadsRead, Loads, Saves, SavesOver, SavesRead, SavesUnread, SavesWhere, Writes, unwritten, warmed};

use crate::folder::{Folder, LocalFault};
use crate::remote::Remote;
use lb_base::items::Bytes;
use std::alloc::Global;

/// What is wrong where the client had no memory for it.
fn warmed(done: bool) -> Option<LocalFault>
    ensures { result ≡ warmed done }
{
    if done { None } else { Some(LocalFault::Memory) }
}

/// The cache file was read, or wasn't.
fn load_read<R: Remote>(
    alloc: Global,
    remote: &mut R,
    read: Result<Bytes, LocalFault>,
) -> Option<LocalFault>
    ensures { LoadsRead R.warms remote.old read result remote.new }
{
    match read {
        Ok(bytes) => warmed(remote.warm(alloc, bytes.as_slice())),
        Err(fault) => Some(fault),
    }
}

/// The cache file of this name is read. What is wrong with it is answered; the client goes on without then.
pub fn load<R: Remote, F: Folder>(
    alloc: Global,
    remote: &mut R,
    folder: &mut F,
    name: &str,
) -> Option<LocalFault>
    ensures { Loads R.warms F.reads remote.old folder.old name.now result remote.new folder.new }
{
    let read = folder.read(alloc, name);
    load_read(alloc, remote, read)
}

/// What is wrong where a file wasn't written.
fn unwritten(wrote: Result<(), LocalFault>) -> Option<LocalFault>
    ensures { result ≡ unwritten wrote }
{
    match wrote {
        Ok(()) => None,
        Err(fault) => Some(fault),
    }
}

/// These bytes are the cache file's.
fn write<F: Folder>(alloc: Global, folder: &mut F, name: &str, bytes: &[u8]) -> Option<LocalFault>
    ensures { Writes F.writes folder.old name.now bytes.now result folder.new }
{
    let wrote = folder.write(alloc, name, bytes);
    unwritten(wrote)
}

/// What the client keeps is written to the cache file of this name, which has these bytes.
fn save_over<R: Remote, F: Folder>(
    alloc: Global,
    remote: &R,
    folder: &mut F,
    name: &str,
    old: &[u8],
) -> Option<LocalFault>
    ensures { SavesOver R.saves F.writes remote.now folder.old name.now old.now result folder.new }
{
    match remote.kept(alloc, old) {
        Ok(bytes) => write(alloc, folder, name, bytes.as_slice()),
        Err(_want) => Some(LocalFault::Memory),
    }
}

/// So where what stands there may be replaced. Else it stays.
fn save_where<R: Remote, F: Folder>(
    alloc: Global,
    remote: &R,
    folder: &mut F,
    name: &str,
    old: &[u8],
    replaces: bool,
) -> Option<LocalFault>
    ensures { SavesWhere R.saves F.writes replaces remote.now folder.old name.now old.now result folder.new }
{
    if replaces {
        save_over(alloc, remote, folder, name, old)
    } else {
        Some(LocalFault::Exists)
    }
}

/// So over these bytes, if they are a cache file's.
fn save_on<R: Remote, F: Folder>(
    alloc: Global,
    remote: &R,
    folder: &mut F,
    name: &str,
    old: &[u8],
) -> Option<LocalFault>
    ensures { SavesWhere R.saves F.writes (is_cache old.now) remote.now folder.old name.now old.now result folder.new }
{
    let replaces = cache_file::is_cache(old);
    save_where(alloc, remote, folder, name, old, replaces)
}

/// So where it can't be read: what is there stays, since it may be another's, and what stands in it would be lost.
fn save_unread<R: Remote, F: Folder>(
    alloc: Global,
    remote: &R,
    folder: &mut F,
    name: &str,
    fault: LocalFault,
) -> Option<LocalFault>
    ensures { SavesUnread R.saves F.writes remote.now folder.old name.now fault result folder.new }
{
    match fault {
        LocalFault::Missing => save_over(alloc, remote, folder, name, &[]),
        fault => Some(fault),
    }
}

/// So over what was read of it.
fn save_read<R: Remote, F: Folder>(
    alloc: Global,
    remote: &R,
    folder: &mut F,
    name: &str,
    read: Result<Bytes, LocalFault>,
) -> Option<LocalFault>
    ensures { SavesRead R.saves F.writes remote.now folder.old name.now read result folder.new }
{
    match read {
        Ok(bytes) => save_on(alloc, remote, folder, name, bytes.as_slice()),
        Err(fault) => save_unread(alloc, remote, folder, name, fault),
    }
}

/// What the client keeps is written to the cache file of this name, and what stands in it now goes with it. What is no
/// cache file by now stays. That it couldn't be written is answered.
pub fn save<R: Remote, F: Folder>(
    alloc: Global,
    remote: &R,
    folder: &mut F,
    name: &str,
) -> Option<LocalFault>
    ensures { Saves R.saves F.reads F.writes remote.now folder.old name.now result folder.new }
{
    let read = folder.read(alloc, name);
    save_read(alloc, remote, folder, name, read)
}
