//! The next call of a walk, as `specs/Walk.antt` writes it.

ghost use Rattle.std.specs.Prelude.{◌≡◌, ◌<◌, ◌^◌, ℕ, IfOk};
ghost use Rattle.path_calls.specs.Walk.{place, rename_call, goal_call, next_call, goal_left, calls_left};
ghost use Rattle.nfs3_calls.specs.Nfs.{nfs_proc};

use crate::answers::PAGES_MOST;
use crate::walk::{Goal, Walk};
use lb_base::items::Name;
use limits::LISTING_MOST;
use nfs3_calls::listing::ListRange;
use nfs3_calls::making::{HowMade, NewDir, NewFile, SetAttr, SetTime};
use nfs3_calls::message::{Nfs, NfsProc};
use nfs3_calls::place::{Place, Rename};
use std::alloc::{AllocError, Global};
use xdr_codec::handle::Handle;

/// No attribute is set.
const KEEPS_ALL: SetAttr = SetAttr {
    mode: None,
    uid: None,
    gid: None,
    size: None,
    atime: SetTime::Keep,
    mtime: SetTime::Keep,
};

/// A name in the directory of an id.
fn place(alloc: Global, dir: u64, name: &Name) -> Result<Place, AllocError>
    ensures { IfOk result (λ p. p ≡ place dir name.now) }
{
    Ok(Place {
        dir: Handle::of_file(alloc, dir)?,
        name: name.try_clone(alloc)?,
    })
}

/// The call that moves a name.
fn rename_call(
    alloc: Global,
    from: u64,
    name: &Name,
    to: u64,
    to_name: &Name,
) -> Result<Nfs, AllocError>
    ensures { IfOk result (λ c. c ≡ rename_call from name.now to to_name.now) }
{
    let from = place(alloc, from, name)?;
    let to = place(alloc, to, to_name)?;
    Ok(Nfs::Rename(Rename { from, to }))
}

/// What is asked for in the directory that was reached.
fn goal_call(alloc: Global, dir: u64, goal: &Goal) -> Result<Nfs, AllocError>
    ensures { IfOk result (λ c. c ≡ goal_call dir goal.now) }
{
    match goal {
        Goal::Find(name) | Goal::Rewrite(name) | Goal::Look(name) | Goal::RenameFrom(name, _) => Ok(
            Nfs::Lookup(place(alloc, dir, name)?),
        ),
        Goal::LookRoot => Ok(Nfs::GetAttr(Handle::of_file(alloc, dir)?)),
        Goal::List(pages) => Ok(Nfs::ReadDir(ListRange {
            dir: Handle::of_file(alloc, dir)?,
            cookie: pages.cookie,
            verifier: pages.verifier,
            count: LISTING_MOST,
        })),
        Goal::Make(name) => Ok(Nfs::Create(NewFile {
            place: place(alloc, dir, name)?,
            how: HowMade::Guarded(KEEPS_ALL),
        })),
        Goal::MakeDir(name) => Ok(Nfs::MkDir(NewDir {
            place: place(alloc, dir, name)?,
            attr: KEEPS_ALL,
        })),
        Goal::Remove(name) => Ok(Nfs::Remove(place(alloc, dir, name)?)),
        Goal::RemoveDir(name) => Ok(Nfs::RmDir(place(alloc, dir, name)?)),
        Goal::RenameTo(from, name, to_name) => rename_call(alloc, *from, name, dir, to_name),
    }
}

/// The procedure of the call for what is asked for in a directory.
fn goal_procedure(goal: &Goal) -> NfsProc
    ensures { (dir : ℕ) → result ≡ nfs_proc (goal_call dir goal.now) }
{
    match goal {
        Goal::Find(_) | Goal::Rewrite(_) | Goal::Look(_) | Goal::RenameFrom(_, _) => {
            NfsProc::Lookup
        }
        Goal::LookRoot => NfsProc::GetAttr,
        Goal::List(_) => NfsProc::ReadDir,
        Goal::Make(_) => NfsProc::Create,
        Goal::MakeDir(_) => NfsProc::MkDir,
        Goal::Remove(_) => NfsProc::Remove,
        Goal::RemoveDir(_) => NfsProc::RmDir,
        Goal::RenameTo(_, _, _) => NfsProc::Rename,
    }
}

/// How many calls may come behind the look-ups of a walk and its goal's own call.
fn goal_left(goal: &Goal) -> u128
    ensures left { result ≡ goal_left goal.now }
    ensures small { result < 2 ^ 64 }
{
    match goal {
        Goal::List(pages) => u128::from(PAGES_MOST.saturating_sub(pages.count)),
        Goal::RenameFrom(_, to) => to.dirs.len() as u128,
        _ => 0,
    }
}

impl Walk {
    /// Its next call. The one error is running out of memory.
    pub fn next_call(&self, alloc: Global) -> Result<Nfs, AllocError>
        ensures { IfOk result (λ c. c ≡ next_call self.now) }
    {
        match self.left.as_slice().first() {
            Some(name) => Ok(Nfs::Lookup(place(alloc, self.dir, name)?)),
            None => goal_call(alloc, self.dir, &self.goal),
        }
    }
    /// The procedure of its next call.
    pub fn procedure(&self) -> NfsProc
        ensures { result ≡ nfs_proc (next_call self.now) }
    {
        if self.left.is_empty() {
            goal_procedure(&self.goal)
        } else {
            NfsProc::Lookup
        }
    }

    /// How many calls it may still send behind its next one, at most.
    pub fn calls_left(&self) -> u128
        ensures left { result ≡ calls_left self.now }
        ensures small { result < 2 ^ 66 }
    {
        self.left.len() as u128 + goal_left(&self.goal)
    }
}
