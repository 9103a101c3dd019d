//! What a task does, by the walks of `storing`, `fetching` and `removing`, and which tasks come from it (`tasks`).

ghost use Rattle.std.specs.Prelude.{◌≡◌, [], IfOk, OnOk};
ghost use Rattle.folder_tasks.specs.Tasks.{ComesTo};
ghost use Rattle.folder_tasks.specs.Visiting.{AllCome, CountsFor, Removed, SparesFor, TouchesFor};
ghost use Rattle.folder_tasks.specs.Visiting.{faulty_as, leads, noted, one_file, refused_as, removed_as, said_of};

use crate::getting::visit_get;
use crate::putting::visit_put;
use lb_base::items::{Bytes, Items, Name};
use shell_walks::folder::{Folder, LocalFault};
use shell_walks::remote::{Remote, Why};
use shell_walks::removing::{Gone, Removal, remove_all};
use shell_walks::tasks::Task;
use shell_walks::telling::{fault_words, is_off, note_line, path_line, put_why};
use shell_words::quoting::quoted;
use std::alloc::{AllocError, Global};

/// What a task came to.
pub struct Visited {
    /// The tasks that come from it.
    pub more: Items<Task>,
    /// What wasn't done, a line for each.
    pub note: Bytes,
    /// What a sync stored, made and removed, a line for each.
    pub news: Bytes,
    /// How many files were stored, fetched or left as they are.
    pub files: u64,
    /// How many bytes these have.
    pub bytes: u64,
    /// Whether there is no connection, nor can one be had.
    pub is_off: bool,
    /// How many things known to be removed weren't asked for then.
    pub left: u64,
}

// By hand: docs/proving/dropping.md.
impl Drop for Visited {
    fn drop(self) {
        let Visited {
            more,
            note,
            news,
            files: _,
            bytes: _,
            is_off: _,
            left: _,
        } = self;
        drop(more);
        drop(note);
        drop(news);
    }
}

/// A file of so many bytes was dealt with.
pub(crate) fn one_file(alloc: Global, bytes: u64) -> Visited
    ensures { result ≡ one_file bytes }
{
    Visited {
        more: Items::new(alloc),
        note: Items::new(alloc),
        news: Items::new(alloc),
        files: 1,
        bytes,
        is_off: false,
        left: 0,
    }
}

/// These tasks come, and this is said.
pub(crate) fn leads(more: Items<Task>, note: Bytes, news: Bytes, is_off: bool) -> Visited
    ensures { result ≡ leads more note news is_off }
{
    Visited {
        more,
        note,
        news,
        files: 0,
        bytes: 0,
        is_off,
        left: 0,
    }
}

/// Nothing was done, and this is said.
fn noted(alloc: Global, note: Bytes, is_off: bool) -> Visited
    ensures { result ≡ noted note is_off }
{
    Visited {
        more: Items::new(alloc),
        note,
        news: Items::new(alloc),
        files: 0,
        bytes: 0,
        is_off,
        left: 0,
    }
}

/// This is said of a path of the server's with which that happened.
pub(crate) fn said(
    alloc: Global,
    path: &[Name],
    why: Why,
    words: &[u8],
) -> Result<Visited, AllocError>
    ensures { IfOk result (λ v. v ≡ said_of path.now why words.now) }
{
    let note = path_line(alloc, path, words)?;
    Ok(noted(alloc, note, is_off(why)))
}

/// Why something wasn't done with a path of the server's is said.
pub(crate) fn refused(alloc: Global, path: &[Name], why: Why) -> Result<Visited, AllocError>
    ensures { IfOk result (λ v. v ≡ refused_as path.now why) }
{
    let mut words = Items::new(alloc);
    put_why(alloc, &mut words, why)?;
    said(alloc, path, why, words.as_slice())
}

/// This is said of a path of the host's.
pub(crate) fn faulty(alloc: Global, local: &str, fault: LocalFault) -> Result<Visited, AllocError>
    ensures { IfOk result (λ v. v ≡ faulty_as local.now fault) }
{
    let about = quoted(alloc, local.as_bytes())?;
    let note = note_line(alloc, about.as_slice(), fault_words(fault))?;
    Ok(noted(alloc, note, false))
}

/// What went with a path is told, and what is left of it; these tasks come behind it.
pub(crate) fn removed(more: Items<Task>, gone: Gone) -> Visited
    ensures { result ≡ removed_as more gone }
{
    let Gone { said, left } = gone;
    let Removal { note, news, is_off } = said;
    Visited {
        more,
        note,
        news,
        files: 0,
        bytes: 0,
        is_off,
        left,
    }
}

/// What has a path goes, with all that is in it.
fn visit_removal<R: Remote>(
    alloc: Global,
    remote: &mut R,
    path: &[Name],
) -> Result<Visited, AllocError>
    ensures removes { IfOk result (λ v. Removed R.asks remote.old path.now v remote.new) }
    ensures more { IfOk result (λ v. v.more ≡ []) }
    ensures files { IfOk result (λ v. v.files ≡ 0) }
{
    let gone = remove_all(alloc, remote, path)?;
    Ok(removed(Items::new(alloc), gone))
}

/// Does a task. What isn't done is said. Of the host's files it touches the path of the task alone; and the tasks
/// that come of it are about names in that folder, each of which goes between both. A storing without `deletes`
/// removes nothing at the server, nor does what comes of it.
pub fn visit<R: Remote, F: Folder>(
    alloc: Global,
    remote: &mut R,
    folder: &mut F,
    task: Task,
) -> Result<Visited, AllocError>
    ensures come { IfOk result (λ v. AllCome task v.more) }
    ensures touches { OnOk result (TouchesFor F.finds F.reads F.writes F.lists F.makes F.tries F.clears task folder.old folder.new) }
    ensures counts { IfOk result (λ v. CountsFor R.asks R.content R.offers F.reads F.writes F.tries remote.old task v remote.new) }
    ensures comes_to { IfOk result (λ v. ComesTo R.asks R.content R.offers F.finds F.reads F.writes F.lists F.makes F.tries F.clears remote.old folder.old task v remote.new folder.new) }
    ensures spares { OnOk result (SparesFor R.asks R.content R.offers task remote.old remote.new) }
{
    match &task {
        Task::Put {
            local,
            path,
            storing,
        } => visit_put(
            alloc,
            remote,
            folder,
            local.as_str(),
            path.as_slice(),
            *storing,
        ),
        Task::Get {
            path,
            local,
            deep,
            id,
        } => visit_get(
            alloc,
            remote,
            folder,
            *id,
            path.as_slice(),
            local.as_str(),
            *deep,
        ),
        Task::Remove(path) => visit_removal(alloc, remote, path.as_slice()),
    }
}
