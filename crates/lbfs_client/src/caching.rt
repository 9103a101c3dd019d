//! The cache file of a mount, and how much the client keeps: `specs/Caching.antt` says what comes of it.

ghost use Rattle.std.specs.Prelude.{◌≡◌};
ghost use Rattle.lbfs_client.specs.Caching.{LoadsRead, Looks, SavesLooked, SavesOver, SavesRead, SavesThere, SavesTo, SavesWhere, WarmedBy, Writes, may_replace, unwritten_answer};
ghost use Rattle.lbfs_client.specs.Host.{HasRead, HasWritten};

use crate::answer::Answer;
use crate::running::unread_answer;
use lb_base::items::Bytes;
use lb_base::sink::GiveError;
use links::files::{Files, FilesError};
use open_close::client::Client;
use register_model::op::Outcome;
use std::alloc::Global;

/// The items of a cache file with these bytes are the client's; what is said where memory ran out.
fn warm(alloc: Global, client: &mut Client, bytes: &[u8]) -> Option<Answer>
    ensures { WarmedBy client.old bytes.now result client.new }
{
    let Ok(items) = cache_file::load(alloc, bytes) else {
        return Some(Answer::Ended(Outcome::Memory));
    };
    match client.warm(alloc, &items) {
        Ok(_left_out) => None,
        Err(_want) => Some(Answer::Ended(Outcome::Memory)),
    }
}

/// The cache file was read, or wasn't; what is said of that.
pub(crate) fn load_read(
    alloc: Global,
    client: &mut Client,
    read: Result<Bytes, FilesError>,
) -> Option<Answer>
    ensures { LoadsRead client.old read result client.new }
{
    match read {
        Ok(bytes) => warm(alloc, client, bytes.as_slice()),
        Err(error) => Some(unread_answer(error)),
    }
}

/// What is said of a file of the host that was written, or wasn't.
fn unwritten_answer(wrote: Result<(), GiveError>) -> Option<Answer>
    ensures { result ≡ unwritten_answer wrote }
{
    match wrote {
        Ok(()) => None,
        Err(GiveError::Failed) => Some(Answer::LocalFault),
        Err(GiveError::Memory) => Some(Answer::Ended(Outcome::Memory)),
    }
}

/// Reads a file of the host.
fn read<F: Files>(alloc: Global, files: &mut F, name: &str) -> Result<Bytes, FilesError>
    ensures { HasRead (record { files = F.files files.old; faults = F.faults files.old }) name.now result (record { files = F.files files.new; faults = F.faults files.new }) }
{
    files.get(alloc, name)
}

/// Whether what stands where a cache file is to be may be replaced.
fn may_replace(there: bool, read: &Result<Bytes, FilesError>) -> bool
    ensures { result ≡ may_replace there read.now }
{
    match read {
        Ok(bytes) => cache_file::is_cache(bytes.as_slice()),
        Err(_) => !there,
    }
}

/// Whoever looks on is told of a file that stays.
fn tell_left<F: Files>(files: &F, name: &str, replaces: bool) {
    if !replaces {
        files.leave(name);
    }
}

/// Reads what stands where a cache file is to be, and answers whether it may be replaced. Where it may not be
/// whoever looks on is told.
pub(crate) fn look<F: Files>(
    alloc: Global,
    files: &mut F,
    name: &str,
) -> (Result<Bytes, FilesError>, bool)
    ensures { Looks (record { files = F.files files.old; faults = F.faults files.old }) name.now result.0 result.1 (record { files = F.files files.new; faults = F.faults files.new }) }
{
    let there = files.has(name);
    let bytes = read(alloc, files, name);
    let replaces = may_replace(there, &bytes);
    tell_left(files, name, replaces);
    (bytes, replaces)
}

/// Puts bytes into a file of the host.
fn put<F: Files>(alloc: Global, files: &mut F, name: &str, bytes: &[u8]) -> Result<(), GiveError>
    ensures { HasWritten (record { files = F.files files.old; faults = F.faults files.old }) name.now bytes.now result (record { files = F.files files.new; faults = F.faults files.new }) }
{
    files.put(alloc, name, bytes)
}

/// These bytes are put into a file of the host; what is said of that.
fn write<F: Files>(alloc: Global, files: &mut F, name: &str, bytes: &[u8]) -> Option<Answer>
    ensures { Writes (record { files = F.files files.old; faults = F.faults files.old }) name.now bytes.now result (record { files = F.files files.new; faults = F.faults files.new }) }
{
    let wrote = put(alloc, files, name, bytes);
    unwritten_answer(wrote)
}

/// What the client keeps is written to the cache file, and behind it the items of these bytes, which stand in it;
/// what is said of that.
fn save_over<F: Files>(
    alloc: Global,
    files: &mut F,
    client: &Client,
    name: &str,
    old: &[u8],
) -> Option<Answer>
    ensures { SavesOver (record { files = F.files files.old; faults = F.faults files.old }) client.now name.now old.now result (record { files = F.files files.new; faults = F.faults files.new }) }
{
    match cache_file::save(alloc, client.cache(), old) {
        Ok(bytes) => write(alloc, files, name, bytes.as_slice()),
        Err(_want) => Some(Answer::Ended(Outcome::Memory)),
    }
}

/// So where what stands there may be replaced; what is said of that. Else it stays.
fn save_where<F: Files>(
    alloc: Global,
    files: &mut F,
    client: &Client,
    name: &str,
    old: &[u8],
    replaces: bool,
) -> Option<Answer>
    ensures { SavesWhere replaces (record { files = F.files files.old; faults = F.faults files.old }) client.now name.now old.now result
        (record { files = F.files files.new; faults = F.faults files.new }) }
{
    if replaces {
        save_over(alloc, files, client, name, old)
    } else {
        Some(Answer::LocalFault)
    }
}

/// So over what was read of it, which is nothing where no file is there; what is said of that. Where memory ran out
/// it stays, since its items would be lost.
fn save_read<F: Files>(
    alloc: Global,
    files: &mut F,
    client: &Client,
    name: &str,
    read: Result<Bytes, FilesError>,
    replaces: bool,
) -> Option<Answer>
    ensures { SavesRead replaces (record { files = F.files files.old; faults = F.faults files.old }) client.now name.now read result
        (record { files = F.files files.new; faults = F.faults files.new }) }
{
    match read {
        Ok(bytes) => save_where(alloc, files, client, name, bytes.as_slice(), replaces),
        Err(FilesError::Memory) => Some(Answer::Ended(Outcome::Memory)),
        Err(_) => save_where(alloc, files, client, name, &[], replaces),
    }
}

/// So once what stands there by now was looked at once more: it may be another's. What is said of that.
fn save_looked<F: Files>(
    alloc: Global,
    files: &mut F,
    client: &Client,
    name: &str,
) -> Option<Answer>
    ensures { SavesLooked (record { files = F.files files.old; faults = F.faults files.old }) client.now name.now result (record { files = F.files files.new; faults = F.faults files.new }) }
{
    let (bytes, replaces) = look(alloc, files, name);
    save_read(alloc, files, client, name, bytes, replaces)
}

/// So where a file is there; else over nothing, which isn't read: that would be told as a fault.
fn save_there<F: Files>(
    alloc: Global,
    files: &mut F,
    client: &Client,
    name: &str,
    there: bool,
) -> Option<Answer>
    ensures { SavesThere there (record { files = F.files files.old; faults = F.faults files.old }) client.now name.now result (record { files = F.files files.new; faults = F.faults files.new }) }
{
    if there {
        save_looked(alloc, files, client, name)
    } else {
        save_over(alloc, files, client, name, &[])
    }
}

/// What the client keeps is written to the cache file, and behind it the items that stand in it now; what is said of
/// that.
pub(crate) fn save_kept<F: Files>(
    alloc: Global,
    files: &mut F,
    client: &Client,
    name: &str,
) -> Option<Answer>
    ensures { SavesTo (record { files = F.files files.old; faults = F.faults files.old }) client.now name.now result (record { files = F.files files.new; faults = F.faults files.new }) }
{
    let there = files.has(name);
    save_there(alloc, files, client, name, there)
}
