//! How the content of a file becomes the host's: `specs/Fetching.antt`.

ghost use Rattle.std.specs.Prelude.{◌≡◌, false, IfOk, Ok, OnErr};
ghost use Rattle.shell_walks.specs.Storing.{AbandonsIf};
ghost use Rattle.shell_walks.specs.Fetched.{is_never_stored};
ghost use Rattle.shell_walks.specs.Fetching.{got_of, Keeps, KeepsIf, Fetches, Gets, content_told, CatsOpen, Cats};

use crate::asking::{Deed, ask_on, open};
use crate::folder::{Folder, LocalFault};
use crate::remote::{Remote, Why};
use crate::storing::{is_never_stored, opened_file};
use crate::telling::{refused_told, why_of};
use crate::told::{Told, fine};
use command_text::command::Command;
use lb_base::items::{Items, Name};
use std::alloc::{AllocError, Global};

/// What the fetching of a file came to.
#[derive(Clone, Copy)]
pub enum Got {
    /// The file of the host has its so many bytes.
    Fine(u64),
    /// It isn't open, or nothing is stored in it yet.
    Refused(Why),
    /// The file of the host wasn't written.
    Fault(LocalFault),
}

/// What it came to where the file of the host was written, or wasn't.
fn got_of(len: usize, wrote: Result<(), LocalFault>) -> Got
    ensures { result ≡ got_of len wrote }
{
    match wrote {
        Ok(()) => Got::Fine(len as u64),
        Err(fault) => Got::Fault(fault),
    }
}

/// The content of an open file goes into one of the host, and the file is abandoned.
fn keep_bytes<R: Remote, F: Folder>(
    alloc: Global,
    remote: &mut R,
    folder: &mut F,
    file: u64,
    local: &str,
) -> Got
    ensures { Keeps R.asks R.content F.writes remote.old folder.old file local.now result remote.new folder.new }
{
    let content = remote.content(file);
    let len = content.len();
    let wrote = folder.write(alloc, local, content);
    drop(remote.ask(alloc, Command::Abandon(file)));
    got_of(len, wrote)
}

/// The content of an open file goes into one of the host. One in which nothing is stored yet is abandoned: it stands
/// empty while somebody puts it, or since a put of it was stopped, and would go over the good file here.
fn keep<R: Remote, F: Folder>(
    alloc: Global,
    remote: &mut R,
    folder: &mut F,
    file: u64,
    local: &str,
) -> Got
    ensures { KeepsIf R.asks R.content F.writes remote.old folder.old (is_never_stored (R.content remote.old file)) file local.now result remote.new folder.new }
{
    if is_never_stored(remote, file) {
        drop(remote.ask(alloc, Command::Abandon(file)));
        Got::Refused(Why::Unstored)
    } else {
        keep_bytes(alloc, remote, folder, file, local)
    }
}

/// Fetches a file into one of the host.
fn fetch<R: Remote, F: Folder>(
    alloc: Global,
    remote: &mut R,
    folder: &mut F,
    id: Option<u64>,
    path: &[Name],
    local: &str,
) -> Result<Got, AllocError>
    ensures fetches { IfOk result (λ got. Fetches R.asks R.content F.writes remote.old folder.old id path.now local.now got remote.new folder.new) }
    ensures stays { OnErr result (folder.new ≡ folder.old) }
{
    let opened = open(alloc, remote, id, path)?;
    match opened_file(&opened) {
        Some(file) => Ok(keep(alloc, remote, folder, file, local)),
        None => Ok(Got::Refused(why_of(&opened))),
    }
}

/// Fetches a file into one of the host, where that can be written; else nothing is asked for.
pub fn get<R: Remote, F: Folder>(
    alloc: Global,
    remote: &mut R,
    folder: &mut F,
    id: Option<u64>,
    path: &[Name],
    local: &str,
) -> Result<Got, AllocError>
    ensures gets { IfOk result (λ got. Gets R.asks R.content F.writes F.tries remote.old folder.old id path.now local.now got remote.new folder.new) }
    ensures tries { OnErr result (F.tries folder.old local.now (Ok tt) folder.new) }
{
    match folder.try_write(alloc, local) {
        Ok(()) => fetch(alloc, remote, folder, id, path, local),
        Err(fault) => Ok(Got::Fault(fault)),
    }
}

/// The content of an open file, to be told; where nobody stored in it yet, that there is none.
fn content_told<R: Remote>(
    alloc: Global,
    remote: &R,
    path: &[Name],
    file: u64,
) -> Result<Told, AllocError>
    ensures { IfOk result (λ told. told ≡ content_told path.now (R.content remote.now file)) }
{
    if is_never_stored(remote, file) {
        refused_told(alloc, path, Why::Unstored)
    } else {
        let copied = Items::copy_of(alloc, remote.content(file))?;
        Ok(fine(alloc, copied))
    }
}

/// The content of an open file is told, and the file is abandoned, also where there is no memory for the content.
fn tell<R: Remote>(
    alloc: Global,
    remote: &mut R,
    path: &[Name],
    file: u64,
) -> Result<Told, AllocError>
    ensures tells { IfOk result (λ told. CatsOpen R.asks R.content remote.old path.now file told remote.new) }
    ensures abandons { OnErr result (AbandonsIf R.asks remote.old file false remote.new) }
{
    let told = content_told(alloc, remote, path, file);
    drop(remote.ask(alloc, Command::Abandon(file)));
    told
}

/// Tells the content of a file.
pub fn cat<R: Remote>(alloc: Global, remote: &mut R, path: &[Name]) -> Result<Told, AllocError>
    ensures { IfOk result (λ told. Cats R.asks R.content remote.old path.now told remote.new) }
{
    let opened = ask_on(alloc, remote, Deed::Find, path)?;
    match opened_file(&opened) {
        Some(file) => tell(alloc, remote, path, file),
        None => refused_told(alloc, path, why_of(&opened)),
    }
}
