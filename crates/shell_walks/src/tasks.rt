//! What `get`, `put` and `sync` do, in tasks: each is about one path, and those for what is in a directory
//! come from it. `specs/Tasks.antt` says which.

ghost use Rattle.std.specs.Prelude.{◌≡◌, ◌++◌, ◌∷◌, [], IfOk, OnOk, slice_get};
ghost use Rattle.shell_words.specs.Temporary.{is_carried};
ghost use Rattle.shell_walks.specs.Tasks.{unlisted, known, put_more, put_tasks, put_known, get_more, get_tasks, is_among, remove_more, removals, stays_there};

use crate::remote::Listed;
use command_text::path::Path;
use command_text::words::is;
use lb_base::items::{Items, Name};
use shell_words::local::LocalPath;
use shell_words::path::copy_of;
use shell_words::temporary::carried_name;
use std::alloc::{AllocError, Global};

/// How things are stored.
#[derive(Clone, Copy)]
pub struct Storing {
    /// Whether what is in folders is stored too.
    pub deep: bool,
    /// Whether only what differs is.
    pub changed_only: bool,
    /// Whether what a folder has not is removed.
    pub deletes: bool,
    /// Whether nothing is there yet where it is stored.
    pub fresh: bool,
    /// Whether it was found in a folder, where symbolic links aren't followed.
    pub inner: bool,
    /// The id that a listing told of what is there, if one did.
    pub id: Option<u64>,
}

/// A task.
pub enum Task {
    /// A file or a folder of the host is stored under a path.
    Put {
        local: LocalPath,
        path: Path,
        storing: Storing,
    },
    /// What has a path is fetched, to a file or a folder of the host.
    Get {
        path: Path,
        local: LocalPath,
        deep: bool,
        /// The id that a listing told of it, if one did.
        id: Option<u64>,
    },
    /// What has a path is removed, with all that is in it.
    Remove(Path),
}

// By hand: docs/proving/dropping.md.
impl Drop for Task {
    fn drop(self) {
        match self {
            Task::Put {
                local,
                path,
                storing: _,
            } => {
                drop(local);
                drop(path);
            }
            Task::Get {
                path,
                local,
                deep: _,
                id: _,
            } => {
                drop(path);
                drop(local);
            }
            Task::Remove(path) => drop(path),
        }
    }
}

/// A path with a name more.
pub fn longer(alloc: Global, path: &[Name], name: &[u8]) -> Result<Path, AllocError>
    ensures { IfOk result (λ more. more ≡ path.now ++ name.now ∷ []) }
{
    let mut more = copy_of(alloc, path)?;
    more.push(Name::copy_of(alloc, name)?)?;
    Ok(more)
}

/// The task of a name in a folder that is stored goes behind those that there are, where the name goes to a
/// server.
fn put_more(
    alloc: Global,
    tasks: &mut Items<Task>,
    local: &str,
    path: &[Name],
    storing: Storing,
    name: &[u8],
) -> Result<(), AllocError>
    ensures { OnOk result (tasks.new ≡ tasks.old ++ put_more local.now path.now storing name.now) }
{
    match carried_name(name) {
        Some(text) => {
            let local = LocalPath::below(alloc, local, text)?;
            let path = longer(alloc, path, name)?;
            tasks.push(Task::Put {
                local,
                path,
                storing,
            })?;
            Ok(())
        }
        None => Ok(()),
    }
}

/// How what has a name is stored where nothing is known of what is there.
fn unlisted(storing: Storing) -> Storing
    ensures { result ≡ unlisted storing }
{
    Storing {
        id: None,
        ..storing
    }
}

/// The id that a listing told at a place, if it told one.
fn id_at(ids: &[u64], at: usize) -> Option<u64>
    ensures { result ≡ slice_get ids.now at }
{
    ids.get(at).copied()
}

/// How what has a name is stored in a directory that has these: what isn't among them is new.
fn known(storing: Storing, ids: &[u64], names: &[Name], name: &[u8]) -> Storing
    ensures { result ≡ known storing ids.now 0 names.now name.now }
{
    for (at, other) in names.iter().enumerate() {
        if is(other.as_slice(), name) {
            return Storing {
                id: id_at(ids, at),
                ..storing
            };
        }
    }
    Storing {
        fresh: true,
        id: None,
        ..storing
    }
}

/// The tasks of the names in a folder that is stored, where nothing is known of what is there.
pub fn put_tasks(
    alloc: Global,
    local: &str,
    path: &[Name],
    storing: Storing,
    names: &[Name],
) -> Result<Items<Task>, AllocError>
    ensures { IfOk result (λ tasks. tasks ≡ put_tasks local.now path.now storing names.now) }
{
    let mut tasks = Items::new(alloc);
    for name in names {
        put_more(
            alloc,
            &mut tasks,
            local,
            path,
            unlisted(storing),
            name.as_slice(),
        )?;
    }
    Ok(tasks)
}

/// The same in a directory of which a listing is known.
pub fn put_known(
    alloc: Global,
    local: &str,
    path: &[Name],
    storing: Storing,
    listed: &Listed,
    names: &[Name],
) -> Result<Items<Task>, AllocError>
    ensures { IfOk result (λ tasks. tasks ≡ put_known local.now path.now storing listed.now names.now) }
{
    let mut tasks = Items::new(alloc);
    for name in names {
        let ids = listed.ids.as_slice();
        let here = known(storing, ids, listed.names.as_slice(), name.as_slice());
        put_more(alloc, &mut tasks, local, path, here, name.as_slice())?;
    }
    Ok(tasks)
}

/// The task of a name in a directory that is fetched goes behind those that there are, where this host can have
/// the name, and has it for nothing that is being written.
fn get_more(
    alloc: Global,
    tasks: &mut Items<Task>,
    path: &[Name],
    local: &str,
    id: Option<u64>,
    name: &[u8],
) -> Result<(), AllocError>
    ensures { OnOk result (tasks.new ≡ tasks.old ++ get_more path.now local.now id name.now) }
{
    match carried_name(name) {
        Some(text) => {
            let path = longer(alloc, path, name)?;
            let local = LocalPath::below(alloc, local, text)?;
            tasks.push(Task::Get {
                path,
                local,
                deep: true,
                id,
            })?;
            Ok(())
        }
        None => Ok(()),
    }
}

/// The tasks of the names in a directory that is fetched.
pub fn get_tasks(
    alloc: Global,
    path: &[Name],
    local: &str,
    ids: &[u64],
    names: &[Name],
) -> Result<Items<Task>, AllocError>
    ensures { IfOk result (λ tasks. tasks ≡ get_tasks path.now local.now ids.now 0 names.now) }
{
    let mut tasks = Items::new(alloc);
    for (at, name) in names.iter().enumerate() {
        get_more(
            alloc,
            &mut tasks,
            path,
            local,
            id_at(ids, at),
            name.as_slice(),
        )?;
    }
    Ok(tasks)
}

/// Whether a name is among these.
fn is_among(name: &[u8], names: &[Name]) -> bool
    ensures { result ≡ is_among name.now names.now }
{
    for other in names {
        if is(other.as_slice(), name) {
            return true;
        }
    }
    false
}

/// Whether a name goes between a folder and a directory.
fn is_carried(name: &[u8]) -> bool
    ensures { result ≡ is_carried name.now }
{
    match carried_name(name) {
        Some(_) => true,
        None => false,
    }
}

/// Whether what has a name stays: the folder has it too, or it is one that no folder here can give or get.
fn stays_there(held: &[Name], name: &[u8]) -> bool
    ensures { result ≡ stays_there held.now name.now }
{
    is_among(name, held) || !is_carried(name)
}

/// The task that removes what has a name, unless that stays, goes behind those that there are.
fn remove_more(
    alloc: Global,
    tasks: &mut Items<Task>,
    path: &[Name],
    held: &[Name],
    name: &[u8],
) -> Result<(), AllocError>
    ensures { OnOk result (tasks.new ≡ tasks.old ++ remove_more path.now held.now name.now) }
{
    if stays_there(held, name) {
        return Ok(());
    }
    tasks.push(Task::Remove(longer(alloc, path, name)?))?;
    Ok(())
}

/// The tasks that remove what a folder hasn't: those of the directory's names that are none of these, and that go
/// between both.
pub fn put_removals(
    alloc: Global,
    tasks: &mut Items<Task>,
    path: &[Name],
    held: &[Name],
    names: &[Name],
) -> Result<(), AllocError>
    ensures { OnOk result (tasks.new ≡ tasks.old ++ removals path.now held.now names.now) }
{
    for name in names {
        remove_more(alloc, tasks, path, held, name.as_slice())?;
    }
    Ok(())
}
