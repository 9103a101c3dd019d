//! How something of the host's is stored, by the walks of `storing` and `removing`: `specs/Putting.antt`.

ghost use Rattle.std.specs.Prelude.{◌≡◌, ◌==◌, ◌≤◌, ◌&&◌, ◌||◌, false, length, IfOk, OnOk};
ghost use Rattle.limits.specs.declared.TheConstants.{FILE_MOST};
ghost use Rattle.shell_walks.specs.Storing.{Offers, PutsBytes, is_closed, is_compared, is_kept};
ghost use Rattle.shell_walks.specs.Telling.{is_dir, is_off, unstored_text, why_of};
ghost use Rattle.path_commands.specs.Placing.{no_place};
ghost use Rattle.folder_tasks.specs.Putting.{again_if, in_known, in_listed, in_unknown, in_unlisted, inner, is_relisted, once_more, placed, stored_as, stored_news, unlisted_note, with_removals};
ghost use Rattle.folder_tasks.specs.Putting.{Puts, PutsAfter, PutsAt, PutsCompared, PutsDeep, PutsElse, PutsFile, PutsFolder, PutsInto, PutsKind, PutsNames};
ghost use Rattle.folder_tasks.specs.Putting.{PutsOver, PutsPlaced, PutsRead, PutsUnless, PutsWithin, with_news};
ghost use Rattle.folder_tasks.specs.Visiting.{AllCome, CountsPut, said_of, SparesPut, Touches};
ghost use Rattle.shell_walks.specs.declared.tasks.Task.TheVariants as tasks;

use crate::unfit::{bad_names, with_odd};
use crate::visiting::{Visited, faulty, leads, refused, removed, said};
use lb_base::items::{Bytes, Items, Name};
use path_commands::placing::{Place, is_new, list_if, make_place_over, no_place, place_news};
use shell_walks::asking::{Deed, ask_on};
use shell_walks::folder::{Folder, Kind, LocalFault};
use shell_walks::remote::{Answer, Listed, Remote, Why};
use shell_walks::removing::{Gone, remove_all};
use shell_walks::storing::{is_closed, is_done, make, put};
use shell_walks::tasks::{Storing, Task, put_known, put_removals, put_tasks};
use shell_walks::telling::{STORED, is_dir, is_off, path_line, put_unstored, put_why, why_of};
use shell_words::local::LocalPath;
use shell_words::path::copy_of;
use std::alloc::{AllocError, Global};

/// A copy of bytes that are to be compared is offered, where there is memory for one.
fn offer_copy<R: Remote>(alloc: Global, remote: &mut R, compared: bool, bytes: &[u8])
    requires { length bytes.now ≤ FILE_MOST }
    ensures { Offers R.offers remote.old compared bytes.now remote.new }
{
    if compared {
        if let Ok(copy) = Items::copy_of(alloc, bytes) {
            remote.offer(alloc, copy);
        }
    }
}

/// Whether what is stored is to be compared with what may be there.
fn is_compared(storing: Storing) -> bool
    ensures { result ≡ is_compared storing }
{
    storing.changed_only && !storing.fresh
}

/// Bytes go to a path.
fn put_bytes<R: Remote>(
    alloc: Global,
    remote: &mut R,
    path: &[Name],
    storing: Storing,
    bytes: Bytes,
) -> Result<Answer, AllocError>
    requires { length bytes ≤ FILE_MOST }
    ensures { IfOk result (λ a. PutsBytes R.asks R.content R.offers remote.old path.now storing bytes a remote.new) }
{
    offer_copy(alloc, remote, is_compared(storing), bytes.as_slice());
    if storing.fresh {
        make(alloc, remote, path, bytes)
    } else {
        put(alloc, remote, storing.id, path, storing.changed_only, bytes)
    }
}

/// Whether a file was stored, or was compared and is the same.
fn is_kept(storing: Storing, answer: &Answer) -> bool
    ensures { result ≡ is_kept storing answer.now }
{
    is_closed(answer) || (is_compared(storing) && is_done(answer))
}

/// What a sync says of what was stored.
fn stored_news(alloc: Global, path: &[Name], is_said: bool) -> Result<Bytes, AllocError>
    ensures { IfOk result (λ news. news ≡ stored_news path.now is_said) }
{
    if is_said {
        path_line(alloc, path, STORED)
    } else {
        Ok(Items::new(alloc))
    }
}

/// A file of so many bytes was stored, or left as it is; of a sync is said what was stored.
fn stored(alloc: Global, path: &[Name], is_said: bool, len: u64) -> Result<Visited, AllocError>
    ensures { IfOk result (λ v. v ≡ stored_as path.now is_said len) }
{
    let news = stored_news(alloc, path, is_said)?;
    Ok(Visited {
        more: Items::new(alloc),
        note: Items::new(alloc),
        news,
        files: 1,
        bytes: len,
        is_off: false,
        left: 0,
    })
}

/// What wasn't stored is said.
fn unstored(alloc: Global, path: &[Name], answer: &Answer) -> Result<Visited, AllocError>
    ensures { IfOk result (λ v. v ≡ said_of path.now (why_of answer.now) (unstored_text answer.now)) }
{
    let mut words = Items::new(alloc);
    put_unstored(alloc, &mut words, answer)?;
    said(alloc, path, why_of(answer), words.as_slice())
}

/// How a file is stored once more where a directory was: nothing else goes for it.
fn once_more(storing: Storing) -> Storing
    ensures { result ≡ once_more storing }
{
    Storing {
        deletes: false,
        fresh: true,
        id: None,
        ..storing
    }
}

/// The task comes again, where the directory that stood there is gone.
fn again_if(
    alloc: Global,
    is_gone: bool,
    local: &str,
    path: &[Name],
    storing: Storing,
) -> Result<Items<Task>, AllocError>
    ensures { IfOk result (λ more. more ≡ again_if is_gone local.now path.now storing) }
{
    let mut more = Items::new(alloc);
    if is_gone {
        more.push(Task::Put {
            local: LocalPath::copy_of(alloc, local)?,
            path: copy_of(alloc, path)?,
            storing: once_more(storing),
        })?;
    }
    Ok(more)
}

/// Whether nothing of what was to go stayed.
fn is_all_gone(gone: &Gone) -> bool
    ensures { result ≡ (length gone.now.said.note == 0) }
{
    gone.said.note.len() == 0
}

/// Where a directory stands and may go, it goes, and the task comes again.
fn put_over<R: Remote>(
    alloc: Global,
    remote: &mut R,
    local: &str,
    path: &[Name],
    storing: Storing,
) -> Result<Visited, AllocError>
    ensures { IfOk result (λ v. PutsOver R.asks remote.old local.now path.now storing v remote.new) }
{
    let gone = remove_all(alloc, remote, path)?;
    let more = again_if(alloc, is_all_gone(&gone), local, path, storing)?;
    Ok(removed(more, gone))
}

/// What wasn't stored is said, or what stands there goes for it, where it may.
fn put_else<R: Remote>(
    alloc: Global,
    remote: &mut R,
    may_go: bool,
    local: &str,
    path: &[Name],
    storing: Storing,
    answer: &Answer,
) -> Result<Visited, AllocError>
    ensures { IfOk result (λ v. PutsElse R.asks remote.old may_go local.now path.now storing answer.now v remote.new) }
{
    if may_go {
        put_over(alloc, remote, local, path, storing)
    } else {
        unstored(alloc, path, answer)
    }
}

/// Whether what stands in the place of a file goes. What the words name was a folder, so a file that is there now takes
/// no directory's place.
fn may_go(storing: Storing, answer: &Answer) -> bool
    ensures { result ≡ (storing.deletes && (storing.inner && is_dir answer.now)) }
{
    storing.deletes && storing.inner && is_dir(answer)
}

/// Whether it is said that a file was stored.
fn is_news(storing: Storing, answer: &Answer) -> bool
    ensures { result ≡ (is_closed answer.now && storing.changed_only) }
{
    is_closed(answer) && storing.changed_only
}

/// What was read of a file of the host is stored. It is counted only where it then is at the server.
fn put_read<R: Remote>(
    alloc: Global,
    remote: &mut R,
    local: &str,
    path: &[Name],
    storing: Storing,
    bytes: Bytes,
) -> Result<Visited, AllocError>
    requires { length bytes ≤ FILE_MOST }
    ensures { IfOk result (λ v. PutsRead R.asks R.content R.offers remote.old local.now path.now storing bytes v remote.new) }
{
    let len = bytes.len() as u64;
    let answer = put_bytes(alloc, remote, path, storing, bytes)?;
    if is_kept(storing, &answer) {
        stored(alloc, path, is_news(storing, &answer), len)
    } else {
        let may = may_go(storing, &answer);
        put_else(alloc, remote, may, local, path, storing, &answer)
    }
}

/// A file of the host is stored.
fn put_file<R: Remote, F: Folder>(
    alloc: Global,
    remote: &mut R,
    folder: &mut F,
    local: &str,
    path: &[Name],
    storing: Storing,
) -> Result<Visited, AllocError>
    ensures exact { IfOk result (λ v. PutsFile R.asks R.content R.offers F.reads remote.old folder.old local.now path.now storing v remote.new folder.new) }
    ensures touches { Touches F.finds F.reads F.writes F.lists F.makes F.tries F.clears local.now folder.old folder.new }
{
    match folder.read(alloc, local) {
        Ok(bytes) => put_read(alloc, remote, local, path, storing, bytes),
        Err(fault) => faulty(alloc, local, fault),
    }
}

/// The tasks that remove what the folder hasn't come behind those that there are, where they may.
fn with_removals(
    alloc: Global,
    deletes: bool,
    path: &[Name],
    held: &[Name],
    names: &[Name],
    more: Items<Task>,
) -> Result<Items<Task>, AllocError>
    ensures { IfOk result (λ all. all ≡ with_removals deletes path.now held.now names.now more) }
{
    if !deletes {
        return Ok(more);
    }
    let mut more = more;
    put_removals(alloc, &mut more, path, held, names)?;
    Ok(more)
}

/// What is in a folder of the host is to be stored, in a directory of which nothing is known.
fn in_unknown(
    alloc: Global,
    local: &str,
    path: &[Name],
    storing: Storing,
    names: &[Name],
    news: Bytes,
) -> Result<Visited, AllocError>
    ensures { IfOk result (λ v. v ≡ in_unknown local.now path.now storing names.now news) }
{
    let more = put_tasks(alloc, local, path, storing, names)?;
    let note = bad_names(alloc, local.as_bytes(), names)?;
    Ok(leads(more, note, news, false))
}

/// The same, of which a listing is known; what the folder hasn't is to go, where it may.
fn in_known(
    alloc: Global,
    local: &str,
    path: &[Name],
    storing: Storing,
    names: &[Name],
    listed: &Listed,
    news: Bytes,
) -> Result<Visited, AllocError>
    ensures { IfOk result (λ v. v ≡ in_known local.now path.now storing names.now listed.now news) }
{
    let held = listed.names.as_slice();
    let puts = put_known(alloc, local, path, storing, listed, names)?;
    let more = with_removals(alloc, storing.deletes, path, names, held, puts)?;
    let bad = bad_names(alloc, local.as_bytes(), names)?;
    let note = with_odd(alloc, storing.deletes, path, held, bad)?;
    Ok(leads(more, note, news, false))
}

/// Why a directory can't be listed, where that is said.
fn unlisted_note(alloc: Global, is_said: bool, path: &[Name], why: Why) -> Result<Bytes, AllocError>
    ensures { IfOk result (λ note. note ≡ unlisted_note is_said path.now why) }
{
    let mut words = Items::new(alloc);
    if !is_said {
        return Ok(words);
    }
    put_why(alloc, &mut words, why)?;
    path_line(alloc, path, words.as_slice())
}

/// Whether it is said that a directory can't be listed: what the folder hasn't was to go, or no server answers.
fn is_missed(storing: Storing, why: Why) -> bool
    ensures { result ≡ (storing.deletes || is_off why) }
{
    storing.deletes || is_off(why)
}

/// The same, which can't be listed.
fn in_unlisted(
    alloc: Global,
    local: &str,
    path: &[Name],
    storing: Storing,
    names: &[Name],
    why: Why,
    news: Bytes,
) -> Result<Visited, AllocError>
    ensures { IfOk result (λ v. v ≡ in_unlisted local.now path.now storing names.now why news) }
{
    let more = put_tasks(alloc, local, path, storing, names)?;
    let mut note = bad_names(alloc, local.as_bytes(), names)?;
    let line = unlisted_note(alloc, is_missed(storing, why), path, why)?;
    note.extend_from_slice(line.as_slice())?;
    Ok(leads(more, note, news, is_off(why)))
}

/// The same, that a listing was asked of.
fn in_listed(
    alloc: Global,
    local: &str,
    path: &[Name],
    storing: Storing,
    names: &[Name],
    listing: &Answer,
    news: Bytes,
) -> Result<Visited, AllocError>
    ensures { IfOk result (λ v. v ≡ in_listed local.now path.now storing names.now listing.now news) }
{
    match listing {
        Answer::Names(listed) => in_known(alloc, local, path, storing, names, listed, news),
        other => in_unlisted(alloc, local, path, storing, names, why_of(other), news),
    }
}

/// What is in a folder is to be stored where it differs: its directory is listed first, for the files' ids.
fn put_compared<R: Remote>(
    alloc: Global,
    remote: &mut R,
    local: &str,
    path: &[Name],
    storing: Storing,
    names: &[Name],
    news: Bytes,
) -> Result<Visited, AllocError>
    ensures { IfOk result (λ v. PutsCompared R.asks remote.old local.now path.now storing names.now news v remote.new) }
{
    let listing = ask_on(alloc, remote, Deed::List, path)?;
    in_listed(alloc, local, path, storing, names, &listing, news)
}

/// What is in a folder is to be stored, whose directory is there.
fn put_into<R: Remote>(
    alloc: Global,
    remote: &mut R,
    storing: Storing,
    local: &str,
    path: &[Name],
    names: &[Name],
    news: Bytes,
) -> Result<Visited, AllocError>
    ensures { IfOk result (λ v. PutsInto R.asks remote.old storing local.now path.now names.now news v remote.new) }
{
    if is_compared(storing) {
        put_compared(alloc, remote, local, path, storing, names, news)
    } else {
        in_unknown(alloc, local, path, storing, names, news)
    }
}

/// How what is in a folder is stored.
fn inner(storing: Storing) -> Storing
    ensures { result ≡ inner storing }
{
    Storing {
        inner: true,
        ..storing
    }
}

/// The same, in a directory that may be new.
fn placed(storing: Storing, is_new: bool) -> Storing
    ensures { result ≡ placed storing is_new }
{
    Storing {
        fresh: is_new,
        inner: true,
        ..storing
    }
}

/// What was done is said with it.
fn with_news(news: Bytes, visited: Visited) -> Visited
    ensures { result ≡ with_news news visited }
{
    let mut visited = visited;
    visited.news = news;
    visited
}

/// What is in a folder is to be stored, or why there is no directory for it is said.
fn put_placed<R: Remote>(
    alloc: Global,
    remote: &mut R,
    place: Place,
    local: &str,
    path: &[Name],
    storing: Storing,
    names: &[Name],
) -> Result<Visited, AllocError>
    ensures { IfOk result (λ v. PutsPlaced R.asks remote.old (no_place place) place local.now path.now storing names.now v remote.new) }
{
    let news = place_news(alloc, path, storing.changed_only, place)?;
    match no_place(place) {
        Some(why) => Ok(with_news(news, refused(alloc, path, why)?)),
        None => {
            let within = placed(storing, is_new(place));
            put_into(alloc, remote, within, local, path, names, news)
        }
    }
}

/// The directory of a folder is made, unless it is there, and then what is in it is to be stored.
fn put_at<R: Remote>(
    alloc: Global,
    remote: &mut R,
    local: &str,
    path: &[Name],
    storing: Storing,
    names: &[Name],
) -> Result<Visited, AllocError>
    ensures { IfOk result (λ v. PutsAt R.asks remote.old local.now path.now storing names.now v remote.new) }
{
    let place = make_place_over(alloc, remote, path, storing.deletes)?;
    put_placed(alloc, remote, place, local, path, storing, names)
}

/// The same, unless the directory was listed already.
fn put_unless<R: Remote>(
    alloc: Global,
    remote: &mut R,
    listing: &Answer,
    local: &str,
    path: &[Name],
    storing: Storing,
    names: &[Name],
) -> Result<Visited, AllocError>
    ensures { IfOk result (λ v. PutsUnless R.asks remote.old listing.now local.now path.now storing names.now v remote.new) }
{
    match listing {
        Answer::Names(listed) => {
            let news = Items::new(alloc);
            in_known(alloc, local, path, inner(storing), names, listed, news)
        }
        _ => put_at(alloc, remote, local, path, storing, names),
    }
}

/// Whether a directory that a listing told is listed: where what is stored is compared.
fn is_relisted(storing: Storing) -> bool
    ensures { result ≡ is_relisted storing }
{
    storing.id.is_some() && is_compared(storing)
}

/// A folder of the host with these names is stored.
fn put_names<R: Remote>(
    alloc: Global,
    remote: &mut R,
    local: &str,
    path: &[Name],
    storing: Storing,
    names: &[Name],
) -> Result<Visited, AllocError>
    ensures { IfOk result (λ v. PutsNames R.asks remote.old local.now path.now storing names.now v remote.new) }
{
    let listing = list_if(alloc, remote, is_relisted(storing), path)?;
    put_unless(alloc, remote, &listing, local, path, storing, names)
}

/// A folder of the host is stored: its directory first, then what is in it.
fn put_folder<R: Remote, F: Folder>(
    alloc: Global,
    remote: &mut R,
    folder: &mut F,
    local: &str,
    path: &[Name],
    storing: Storing,
) -> Result<Visited, AllocError>
    ensures exact { IfOk result (λ v. PutsFolder R.asks F.lists remote.old folder.old local.now path.now storing v remote.new folder.new) }
    ensures touches { Touches F.finds F.reads F.writes F.lists F.makes F.tries F.clears local.now folder.old folder.new }
{
    match folder.names(alloc, local) {
        Ok(names) => put_names(alloc, remote, local, path, storing, names.as_slice()),
        Err(fault) => faulty(alloc, local, fault),
    }
}

/// The same, where folders are stored.
fn put_deep<R: Remote, F: Folder>(
    alloc: Global,
    remote: &mut R,
    folder: &mut F,
    local: &str,
    path: &[Name],
    storing: Storing,
) -> Result<Visited, AllocError>
    ensures exact { IfOk result (λ v. PutsDeep R.asks F.lists remote.old folder.old storing.deep local.now path.now storing v remote.new folder.new) }
    ensures touches { Touches F.finds F.reads F.writes F.lists F.makes F.tries F.clears local.now folder.old folder.new }
{
    if storing.deep {
        put_folder(alloc, remote, folder, local, path, storing)
    } else {
        faulty(alloc, local, LocalFault::NotDeep)
    }
}

/// What a path of the host's stands for is stored.
fn put_kind<R: Remote, F: Folder>(
    alloc: Global,
    remote: &mut R,
    folder: &mut F,
    kind: Kind,
    local: &str,
    path: &[Name],
    storing: Storing,
) -> Result<Visited, AllocError>
    ensures exact { IfOk result (λ v. PutsKind R.asks R.content R.offers F.reads F.lists remote.old folder.old kind local.now path.now storing v remote.new folder.new) }
    ensures touches { Touches F.finds F.reads F.writes F.lists F.makes F.tries F.clears local.now folder.old folder.new }
{
    match kind {
        Kind::File => put_file(alloc, remote, folder, local, path, storing),
        Kind::Folder => put_deep(alloc, remote, folder, local, path, storing),
        Kind::Missing => faulty(alloc, local, LocalFault::Missing),
        Kind::Link => faulty(alloc, local, LocalFault::Link),
        Kind::Other => faulty(alloc, local, LocalFault::Odd),
        Kind::Hidden(fault) => faulty(alloc, local, fault),
    }
}

/// Something of the host's is stored.
pub(crate) fn visit_put<R: Remote, F: Folder>(
    alloc: Global,
    remote: &mut R,
    folder: &mut F,
    local: &str,
    path: &[Name],
    storing: Storing,
) -> Result<Visited, AllocError>
    ensures exact { IfOk result (λ v. Puts R.asks R.content R.offers F.finds F.reads F.lists remote.old folder.old local.now path.now storing v remote.new folder.new) }
    ensures come { IfOk result (λ v. AllCome (tasks.Put local.now path.now storing) v.more) }
    ensures touches { Touches F.finds F.reads F.writes F.lists F.makes F.tries F.clears local.now folder.old folder.new }
    ensures counts { IfOk result (λ v. CountsPut R.asks R.content R.offers F.reads remote.old local.now path.now storing v.files remote.new) }
    ensures spares { OnOk result (storing.deletes ≡ false → SparesPut R.asks R.content R.offers remote.old path.now storing remote.new) }
{
    let kind = folder.kind(local, !storing.inner);
    put_kind(alloc, remote, folder, kind, local, path, storing)
}
