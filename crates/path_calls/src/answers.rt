//! What an answer makes of a walk: another call, the file it finds, or its end (`specs/Told.antt`).

ghost use Rattle.std.specs.Prelude.{◌≡◌, ◌++◌, IfOk, OnOk, OnErr, map};
ghost use Rattle.xdr_codec.specs.Handle.{file_of};
ghost use Rattle.path_calls.specs.Walk.{arrives};
ghost use Rattle.path_calls.specs.Told.{seen, sees, told_goal, told_found, last_cookie, lists_on, told_page, told_attr, changed_by, plainly_told, walk_told, MayMissTold};

use crate::walk::{Goal, Pages, Walk, from_root};
use command_text::path::Path;
use lb_base::items::{Items, Name};
use nfs3_calls::listing::{Entry, Listing};
use nfs3_calls::message::Nfs;
use nfs3_calls::place::Found;
use std::alloc::{AllocError, Global};
use xdr_codec::answer::Answer;
use xdr_codec::attr::{Attr, Kind};
use xdr_codec::status::Status;

/// A listing that needs more pages ends with `NoLink` in the place of its next READDIR.
pub const PAGES_MOST: u32 = 900_000;

/// How a command on names ended.
#[derive(Drop)]
pub enum Ended {
    /// It was done, and has nothing to tell.
    Done,
    /// The names in a directory, in its order.
    Names(Items<Name>),
    /// What a name stands for.
    Seen {
        id: u64,
        kind: Kind,
        version: u64,
        len: u64,
    },
    /// The server answered this status.
    Refused(Status),
    /// It would have sent more READDIRs than one listing may.
    NoLink,
}

/// What comes of an answer.
#[derive(Drop)]
pub enum Told {
    /// The walk goes on, with another call.
    Asks(Walk),
    /// The name that was to be opened stands for this file or directory.
    Finds(u64),
    /// The name whose file is to be written anew stands for this one.
    Rewrites(u64),
    Ends(Ended),
    /// A number that came breaks a bound: 0 where none came.
    Shape { got: u64, wanted: u64 },
    /// It isn't an answer to the walk's call.
    Other,
}

/// These names are left, the first in this directory. It takes no memory.
pub fn arrive(alloc: Global, dir: u64, left: Path, goal: Goal) -> Walk
    ensures { result ≡ arrives dir left goal }
{
    if !left.is_empty() {
        return Walk { dir, left, goal };
    }
    drop(left);
    match goal {
        Goal::RenameFrom(name, to) => from_root(to.dirs, Goal::RenameTo(dir, name, to.name)),
        goal => Walk {
            dir,
            left: Items::new(alloc),
            goal,
        },
    }
}

/// What has these attributes.
fn seen(id: u64, attr: &Attr) -> Told
    ensures { result ≡ seen id attr.now }
{
    let seconds = u64::from(attr.mtime.seconds);
    let nanoseconds = u64::from(attr.mtime.nanoseconds);
    let version = seconds * 1_000_000_000 + nanoseconds;
    Told::Ends(Ended::Seen {
        id,
        kind: attr.kind,
        version,
        len: attr.size,
    })
}

/// What a name that was to be told of stands for.
fn see(found: &Found) -> Told
    ensures { result ≡ sees (file_of found.now.handle) found.now.attr }
{
    match (found.handle.file_of(), &found.attr) {
        (Some(id), Some(attr)) => seen(id, attr),
        _ => Told::Shape { got: 0, wanted: 1 },
    }
}

/// The goal's own name was looked up.
fn told_goal(goal: &Goal, found: &Found) -> Told
    ensures { result ≡ told_goal goal.now found.now }
{
    match goal {
        Goal::Find(_) => match found.handle.file_of() {
            None => Told::Shape { got: 0, wanted: 1 },
            Some(id) => Told::Finds(id),
        },
        Goal::Rewrite(_) => match found.handle.file_of() {
            None => Told::Shape { got: 0, wanted: 1 },
            Some(id) => Told::Rewrites(id),
        },
        Goal::Look(_) => see(found),
        _ => Told::Other,
    }
}

/// A name was looked up.
fn told_found(alloc: Global, mut left: Path, goal: Goal, found: &Found) -> Told
    ensures { result ≡ told_found left goal found.now }
{
    if left.is_empty() {
        return told_goal(&goal, found);
    }
    let name = left.remove(0);
    drop(name);
    match found.handle.file_of() {
        None => Told::Shape { got: 0, wanted: 1 },
        Some(id) => Told::Asks(arrive(alloc, id, left, goal)),
    }
}

/// Copies of the names of entries are put behind those that are there. The cookie of the last entry.
fn add_names(
    alloc: Global,
    names: &mut Items<Name>,
    cookie: u64,
    entries: &[Entry],
) -> Result<u64, AllocError>
    ensures names { OnOk result (names.new ≡ names.old ++ map (λ e. e.name) entries.now) }
    ensures last { IfOk result (λ last. last ≡ last_cookie cookie entries.now) }
{
    let mut last = cookie;
    for entry in entries {
        let name = entry.name.try_clone(alloc)?;
        names.push(name)?;
        last = entry.cookie;
    }
    Ok(last)
}

/// A page of a directory has come: the next is asked for, if there may be one more.
fn list_on(alloc: Global, dir: u64, mut pages: Pages, page: &Listing) -> Told
    ensures { result ≡ lists_on dir pages page.now.entries page.now.eof }
{
    if page.eof {
        return Told::Ends(Ended::Names(pages.names));
    }
    if page.entries.is_empty() {
        return Told::Shape { got: 0, wanted: 1 };
    }
    if pages.count >= PAGES_MOST - 1 {
        return Told::Ends(Ended::NoLink);
    }
    pages.count += 1;
    Told::Asks(Walk {
        dir,
        left: Items::new(alloc),
        goal: Goal::List(pages),
    })
}

fn told_page(alloc: Global, dir: u64, goal: Goal, page: &Listing) -> Result<Told, AllocError>
    ensures { IfOk result (λ t. t ≡ told_page dir goal page.now) }
{
    let Goal::List(mut pages) = goal else {
        return Ok(Told::Other);
    };
    let entries = page.entries.as_slice();
    pages.cookie = add_names(alloc, &mut pages.names, pages.cookie, entries)?;
    pages.verifier = page.verifier;
    Ok(list_on(alloc, dir, pages, page))
}

fn told_attr(dir: u64, goal: &Goal, attr: &Attr) -> Told
    ensures { result ≡ told_attr dir goal.now attr.now }
{
    match goal {
        Goal::LookRoot => seen(dir, attr),
        _ => Told::Other,
    }
}

/// A call that changes names was done, or refused.
fn told_change<D, F>(answer: &Answer<D, F>) -> Told
    ensures { result ≡ changed_by answer.now }
{
    match answer {
        Answer::Done(_) => Told::Ends(Ended::Done),
        Answer::Failed(status, _) => Told::Ends(Ended::Refused(*status)),
    }
}

impl Walk {
    /// What comes of the answer to its call. The one error is running out of memory, for the names of a page.
    pub fn told(self, alloc: Global, answer: &Nfs) -> Result<Told, AllocError>
        ensures told { IfOk result (λ t. t ≡ walk_told self answer.now) }
        ensures sure { OnErr result (MayMissTold answer.now) }
    {
        let Walk { dir, left, goal } = self;
        match answer {
            Nfs::LookupAnswer(Answer::Done(found)) => Ok(told_found(alloc, left, goal, found)),
            Nfs::GetAttrAnswer(Answer::Done(attr)) => Ok(told_attr(dir, &goal, attr)),
            Nfs::ReadDirAnswer(Answer::Done(page)) => told_page(alloc, dir, goal, page),
            _ => Ok(told_plainly(answer)),
        }
    }
}

/// An answer that refuses, or that has nothing to tell.
fn told_plainly(answer: &Nfs) -> Told
    ensures { result ≡ plainly_told answer.now }
{
    match answer {
        Nfs::LookupAnswer(Answer::Failed(status, _)) => Told::Ends(Ended::Refused(*status)),
        Nfs::GetAttrAnswer(Answer::Failed(status, _)) => Told::Ends(Ended::Refused(*status)),
        Nfs::ReadDirAnswer(Answer::Failed(status, _)) => Told::Ends(Ended::Refused(*status)),
        Nfs::CreateAnswer(made) => told_change(made),
        Nfs::MkDirAnswer(made) => told_change(made),
        Nfs::RemoveAnswer(gone) => told_change(gone),
        Nfs::RmDirAnswer(gone) => told_change(gone),
        Nfs::RenameAnswer(moved) => told_change(moved),
        _ => Told::Other,
    }
}
