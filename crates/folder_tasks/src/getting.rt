//! How something of the server's is fetched, by the walks of `fetching`: `specs/Getting.antt`.

ghost use Rattle.std.specs.Prelude.{◌≡◌, IfOk, OnOk};
ghost use Rattle.folder_tasks.specs.Getting.{folder_as, in_directory, is_here, is_root, is_slashed, makes_folder, misplaced, no_place, not_deep_as, not_into_as};
ghost use Rattle.folder_tasks.specs.Getting.{ClearsIf, Ends, GetsAs, GetsAt, GetsDirectory, GetsElse, GetsFile, GetsFound, GetsIfDeep, GetsIfListed, GetsInto, GetsKind, GetsListed, GetsNew, GetsOver};
ghost use Rattle.folder_tasks.specs.Getting.{LooksAgain, MakesFolder, MakesIf, NotInto, OffersFile, Unlisted};
ghost use Rattle.path_commands.specs.Placing.{is_no_directory};
ghost use Rattle.folder_tasks.specs.Visiting.{AllCome, CountsGot, is_directory_for, Touches};
ghost use Rattle.shell_walks.specs.declared.tasks.Task.TheVariants as tasks;

use crate::unfit::bad_names;
use crate::visiting::{Visited, faulty, leads, one_file, refused, said};
use command_text::words::is;
use lb_base::items::{Items, Name};
use shell_walks::asking::{Deed, ask_on};
use shell_walks::fetching::{Got, get};
use shell_walks::folder::{Folder, Kind, LocalFault};
use shell_walks::remote::{Answer, Listed, Remote, Why};
use shell_walks::tasks::get_tasks;
use shell_walks::telling::why_of;
use std::alloc::{AllocError, Global};

/// NFS3ERR_NOTDIR, NFS3ERR_ISDIR.
const NOTDIR: u32 = 20;

const ISDIR: u32 = 21;

/// The file that a fetch is to replace is offered.
fn offer_local<R: Remote, F: Folder>(alloc: Global, remote: &mut R, folder: &mut F, local: &str)
    ensures { OffersFile R.offers F.reads remote.old folder.old local.now remote.new folder.new }
{
    match folder.read(alloc, local) {
        Ok(bytes) => remote.offer(alloc, bytes),
        Err(_) => {}
    }
}

/// Whether something has the name of a folder that was to be made.
fn is_here(made: &Result<(), LocalFault>) -> bool
    ensures { result ≡ is_here made.now }
{
    matches!(made, Err(LocalFault::Exists))
}

/// What is there is a folder, or why it isn't.
fn folder_as(kind: Kind) -> Result<(), LocalFault>
    ensures { result ≡ folder_as kind }
{
    match kind {
        Kind::Folder => Ok(()),
        Kind::Hidden(fault) => Err(fault),
        _ => Err(LocalFault::NotFolder),
    }
}

/// What came of the making of a folder, or what is there.
fn make_if<F: Folder>(
    folder: &mut F,
    is_here: bool,
    local: &str,
    made: Result<(), LocalFault>,
) -> Result<(), LocalFault>
    ensures { MakesIf F.finds folder.old is_here local.now made result folder.new }
{
    if is_here {
        folder_as(folder.kind(local, true))
    } else {
        made
    }
}

/// A folder is there for a directory, or why there is none.
fn make_local<F: Folder>(folder: &mut F, local: &str) -> Result<(), LocalFault>
    ensures { MakesFolder F.finds F.makes folder.old local.now result folder.new }
{
    let made = folder.make_folder(local);
    make_if(folder, is_here(&made), local, made)
}

/// What is in a directory, whose folder is there, is to be fetched.
fn get_names(
    alloc: Global,
    path: &[Name],
    local: &str,
    listed: &Listed,
) -> Result<Visited, AllocError>
    ensures { IfOk result (λ v. v ≡ in_directory path.now local.now listed.now) }
{
    let names = listed.names.as_slice();
    let more = get_tasks(alloc, path, local, listed.ids.as_slice(), names)?;
    let note = bad_names(alloc, local.as_bytes(), names)?;
    Ok(leads(more, note, Items::new(alloc), false))
}

/// The folder of a directory is cleared, where it is there, and then what is in the directory is to be fetched.
fn clear_if<F: Folder>(
    alloc: Global,
    folder: &mut F,
    made: Result<(), LocalFault>,
    path: &[Name],
    local: &str,
    listed: &Listed,
) -> Result<Visited, AllocError>
    ensures { IfOk result (λ v. ClearsIf F.clears folder.old made path.now local.now listed.now v folder.new) }
{
    match made {
        Ok(()) => {
            folder.clear(alloc, local);
            get_names(alloc, path, local, listed)
        }
        Err(fault) => faulty(alloc, local, fault),
    }
}

/// A directory is fetched that has these names: its folder first, which is cleared, then what is in it.
fn get_listed<F: Folder>(
    alloc: Global,
    folder: &mut F,
    path: &[Name],
    local: &str,
    listed: &Listed,
) -> Result<Visited, AllocError>
    ensures { IfOk result (λ v. GetsListed F.finds F.makes F.clears folder.old path.now local.now listed.now v folder.new) }
{
    let made = make_local(folder, local);
    clear_if(alloc, folder, made, path, local, listed)
}

/// Whether a slash ends a path of the host's.
fn is_slashed(local: &str) -> bool
    ensures { result ≡ is_slashed local.now }
{
    let text = local.as_bytes();
    is(&text[text.len().saturating_sub(1)..], b"/")
}

/// Why a file has no place where a folder is to be.
fn no_place(is_slashed: bool) -> LocalFault
    ensures { result ≡ no_place is_slashed }
{
    if is_slashed {
        LocalFault::NoFolder
    } else {
        LocalFault::IsFolder
    }
}

/// What is said of what was to go into a folder and can't be listed: a file has no place there.
fn misplaced(
    alloc: Global,
    path: &[Name],
    local: &str,
    looked: &Answer,
) -> Result<Visited, AllocError>
    ensures { IfOk result (λ v. v ≡ misplaced path.now local.now looked.now) }
{
    match looked {
        Answer::Seen(_) => faulty(alloc, local, no_place(is_slashed(local))),
        looked => refused(alloc, path, why_of(looked)),
    }
}

/// The same, once it was looked at.
fn look_again<R: Remote>(
    alloc: Global,
    remote: &mut R,
    path: &[Name],
    local: &str,
) -> Result<Visited, AllocError>
    ensures { IfOk result (λ v. LooksAgain R.asks remote.old path.now local.now v remote.new) }
{
    let looked = ask_on(alloc, remote, Deed::Look, path)?;
    misplaced(alloc, path, local, &looked)
}

/// Whether it is none that was asked to be listed.
fn is_no_directory(why: Why) -> bool
    ensures { result ≡ is_no_directory why }
{
    matches!(why, Why::Refused(NOTDIR))
}

/// What was to go into a folder can't be listed: it may be a file, or not be there.
fn unlisted<R: Remote>(
    alloc: Global,
    remote: &mut R,
    is_file: bool,
    path: &[Name],
    local: &str,
    why: Why,
) -> Result<Visited, AllocError>
    ensures { IfOk result (λ v. Unlisted R.asks remote.old is_file path.now local.now why v remote.new) }
{
    if is_file {
        look_again(alloc, remote, path, local)
    } else {
        refused(alloc, path, why)
    }
}

/// A directory is fetched that was listed.
fn get_if_listed<R: Remote, F: Folder>(
    alloc: Global,
    remote: &mut R,
    folder: &mut F,
    listing: &Answer,
    path: &[Name],
    local: &str,
) -> Result<Visited, AllocError>
    ensures { IfOk result (λ v. GetsIfListed R.asks F.finds F.makes F.clears remote.old folder.old listing.now path.now local.now v remote.new folder.new) }
{
    match listing {
        Answer::Names(listed) => get_listed(alloc, folder, path, local, listed),
        other => {
            let why = why_of(other);
            unlisted(alloc, remote, is_no_directory(why), path, local, why)
        }
    }
}

/// A directory is fetched: its folder first, then what is in it.
fn get_directory<R: Remote, F: Folder>(
    alloc: Global,
    remote: &mut R,
    folder: &mut F,
    path: &[Name],
    local: &str,
) -> Result<Visited, AllocError>
    ensures { IfOk result (λ v. GetsDirectory R.asks F.finds F.makes F.clears remote.old folder.old path.now local.now v remote.new folder.new) }
{
    let listing = ask_on(alloc, remote, Deed::List, path)?;
    get_if_listed(alloc, remote, folder, &listing, path, local)
}

/// A directory is fetched with all that is in it alone, which is said.
fn not_deep(alloc: Global, path: &[Name]) -> Result<Visited, AllocError>
    ensures { IfOk result (λ v. v ≡ not_deep_as path.now) }
{
    said(
        alloc,
        path,
        Why::Refused(ISDIR),
        b"it is a directory (get -r fetches directories)",
    )
}

/// What is said of what has no place where a folder is: a file, or a directory without what is in it.
fn not_into_as(
    alloc: Global,
    path: &[Name],
    local: &str,
    looked: &Answer,
) -> Result<Visited, AllocError>
    ensures { IfOk result (λ v. v ≡ not_into_as path.now local.now looked.now) }
{
    match looked {
        Answer::Seen(seen) => {
            if seen.is_dir {
                not_deep(alloc, path)
            } else {
                faulty(alloc, local, LocalFault::IsFolder)
            }
        }
        other => refused(alloc, path, why_of(other)),
    }
}

/// The same, once it was looked at.
fn not_into<R: Remote>(
    alloc: Global,
    remote: &mut R,
    path: &[Name],
    local: &str,
) -> Result<Visited, AllocError>
    ensures { IfOk result (λ v. NotInto R.asks remote.old path.now local.now v remote.new) }
{
    let looked = ask_on(alloc, remote, Deed::Look, path)?;
    not_into_as(alloc, path, local, &looked)
}

/// What is a directory is fetched, where directories are.
fn get_if_deep<R: Remote, F: Folder>(
    alloc: Global,
    remote: &mut R,
    folder: &mut F,
    deep: bool,
    path: &[Name],
    local: &str,
) -> Result<Visited, AllocError>
    ensures { IfOk result (λ v. GetsIfDeep R.asks F.finds F.makes F.clears remote.old folder.old deep path.now local.now v remote.new folder.new) }
{
    if deep {
        get_directory(alloc, remote, folder, path, local)
    } else {
        not_deep(alloc, path)
    }
}

/// Whether it is a directory that was asked for as a file.
fn is_directory(why: Why) -> bool
    ensures { result ≡ is_directory_for why }
{
    matches!(why, Why::Refused(ISDIR))
}

/// What wasn't fetched as a file may be a directory.
fn get_else<R: Remote, F: Folder>(
    alloc: Global,
    remote: &mut R,
    folder: &mut F,
    path: &[Name],
    local: &str,
    deep: bool,
    why: Why,
) -> Result<Visited, AllocError>
    ensures { IfOk result (λ v. GetsElse R.asks F.finds F.makes F.clears remote.old folder.old (is_directory_for why) path.now local.now deep why v remote.new folder.new) }
{
    if is_directory(why) {
        get_if_deep(alloc, remote, folder, deep, path, local)
    } else {
        refused(alloc, path, why)
    }
}

/// What the fetching of a file came to, or the directory that it is.
fn end_get<R: Remote, F: Folder>(
    alloc: Global,
    remote: &mut R,
    folder: &mut F,
    path: &[Name],
    local: &str,
    deep: bool,
    got: Got,
) -> Result<Visited, AllocError>
    ensures { IfOk result (λ v. GetsAs R.asks F.finds F.makes F.clears remote.old folder.old path.now local.now deep got v remote.new folder.new) }
{
    match got {
        Got::Fine(bytes) => Ok(one_file(alloc, bytes)),
        Got::Refused(why) => get_else(alloc, remote, folder, path, local, deep, why),
        Got::Fault(fault) => faulty(alloc, local, fault),
    }
}

/// A file is fetched, or the directory that it is.
fn get_file<R: Remote, F: Folder>(
    alloc: Global,
    remote: &mut R,
    folder: &mut F,
    id: Option<u64>,
    path: &[Name],
    local: &str,
    deep: bool,
) -> Result<Visited, AllocError>
    ensures { IfOk result (λ v. GetsFile R.asks R.content F.finds F.writes F.makes F.tries F.clears remote.old folder.old path.now local.now deep id v remote.new folder.new) }
{
    let got = get(alloc, remote, folder, id, path, local)?;
    end_get(alloc, remote, folder, path, local, deep, got)
}

/// A file is fetched over one that is there, of whose bytes none travels.
fn get_over<R: Remote, F: Folder>(
    alloc: Global,
    remote: &mut R,
    folder: &mut F,
    id: Option<u64>,
    path: &[Name],
    local: &str,
    deep: bool,
) -> Result<Visited, AllocError>
    ensures { IfOk result (λ v. GetsOver R.asks R.content R.offers F.finds F.reads F.writes F.makes F.tries F.clears remote.old folder.old path.now local.now deep id v remote.new folder.new) }
{
    offer_local(alloc, remote, folder, local);
    get_file(alloc, remote, folder, id, path, local, deep)
}

/// Something is fetched where a folder is: a directory, into it. A file has no place there.
fn get_into<R: Remote, F: Folder>(
    alloc: Global,
    remote: &mut R,
    folder: &mut F,
    deep: bool,
    path: &[Name],
    local: &str,
) -> Result<Visited, AllocError>
    ensures { IfOk result (λ v. GetsInto R.asks F.finds F.makes F.clears remote.old folder.old deep path.now local.now v remote.new folder.new) }
{
    if deep {
        get_directory(alloc, remote, folder, path, local)
    } else {
        not_into(alloc, remote, path, local)
    }
}

/// Whether a folder is made for what is fetched, which is a directory then.
fn makes_folder(deep: bool, local: &str) -> bool
    ensures { result ≡ makes_folder deep local.now }
{
    deep && is_slashed(local)
}

/// Something is fetched where nothing is.
fn get_new<R: Remote, F: Folder>(
    alloc: Global,
    remote: &mut R,
    folder: &mut F,
    id: Option<u64>,
    path: &[Name],
    local: &str,
    deep: bool,
    is_folder: bool,
) -> Result<Visited, AllocError>
    ensures { IfOk result (λ v. GetsNew R.asks R.content F.finds F.writes F.makes F.tries F.clears remote.old folder.old is_folder path.now local.now deep id v remote.new folder.new) }
{
    if is_folder {
        get_directory(alloc, remote, folder, path, local)
    } else {
        get_file(alloc, remote, folder, id, path, local, deep)
    }
}

/// Something is fetched to a path of the host's, by what is there.
fn get_found<R: Remote, F: Folder>(
    alloc: Global,
    remote: &mut R,
    folder: &mut F,
    id: Option<u64>,
    path: &[Name],
    local: &str,
    deep: bool,
) -> Result<Visited, AllocError>
    ensures { IfOk result (λ v. GetsFound R.asks R.content R.offers F.finds F.reads F.writes F.makes F.tries F.clears remote.old folder.old path.now local.now deep id v remote.new folder.new) }
{
    match folder.kind(local, true) {
        Kind::Folder => get_into(alloc, remote, folder, deep, path, local),
        Kind::File => get_over(alloc, remote, folder, id, path, local, deep),
        Kind::Hidden(fault) => faulty(alloc, local, fault),
        _ => {
            let is_folder = makes_folder(deep, local);
            get_new(alloc, remote, folder, id, path, local, deep, is_folder)
        }
    }
}

/// Whether it is the root with all that is in it.
fn is_root(deep: bool, path: &[Name]) -> bool
    ensures { result ≡ is_root deep path.now }
{
    deep && path.len() == 0
}

/// Something is fetched.
fn get_at<R: Remote, F: Folder>(
    alloc: Global,
    remote: &mut R,
    folder: &mut F,
    id: Option<u64>,
    path: &[Name],
    local: &str,
    deep: bool,
) -> Result<Visited, AllocError>
    ensures { IfOk result (λ v. GetsAt R.asks R.content R.offers F.finds F.reads F.writes F.makes F.tries F.clears remote.old folder.old path.now local.now deep id v remote.new folder.new) }
{
    if is_root(deep, path) {
        get_directory(alloc, remote, folder, path, local)
    } else {
        get_found(alloc, remote, folder, id, path, local, deep)
    }
}

/// Something is fetched.
pub(crate) fn visit_get<R: Remote, F: Folder>(
    alloc: Global,
    remote: &mut R,
    folder: &mut F,
    id: Option<u64>,
    path: &[Name],
    local: &str,
    deep: bool,
) -> Result<Visited, AllocError>
    ensures exact { IfOk result (λ v. GetsAt R.asks R.content R.offers F.finds F.reads F.writes F.makes F.tries F.clears remote.old folder.old path.now local.now deep id v remote.new folder.new) }
    ensures come { IfOk result (λ v. AllCome (tasks.Get path.now local.now deep id) v.more) }
    ensures touches { OnOk result (Touches F.finds F.reads F.writes F.lists F.makes F.tries F.clears local.now folder.old folder.new) }
    ensures counts { IfOk result (λ v. CountsGot R.asks R.content F.writes F.tries id path.now local.now v) }
{
    get_at(alloc, remote, folder, id, path, local, deep)
}
