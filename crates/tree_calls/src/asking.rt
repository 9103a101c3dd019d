//! REMOVE and RENAME on arrival: whether they are refused, done at once, or wait
//! (`specs/Waiting.antt`).

ghost use Rattle.std.specs.Prelude.{◌≡◌, ◌+◌, ◌≤◌, IfOk, OnErr, IsOk};
ghost use Rattle.xdr_codec.specs.declared.answer.Answer.TheVariants as answer;
ghost use Rattle.nfs3_calls.specs.declared.message.Nfs.TheVariants as nfs;
ghost use Rattle.file_tree.specs.Stores.{Keeps};
ghost use Rattle.tree_calls.specs.Calling.{IsCalled, places_of};
ghost use Rattle.tree_calls.specs.Changing.{no_side, said};
ghost use Rattle.tree_calls.specs.Telling.{id_of};
ghost use Rattle.tree_calls.specs.Waiting.{removes_in, Takes, busy_first, remove_comes, is_over_file, over_comes, rename_comes, asks_remove, renaming_under, asks_rename, spot_of};

use crate::asked::{Asked, Done, NewSpot, Outcome, Removing, Renaming};
use crate::naming::{id_of, spot_of};
use crate::sides::{no_side, said};
use crate::{changing, room};
use file_tree::pair::NamePair;
use file_tree::tree::Tree;
use lb_base::items::Name;
use nfs3_calls::message::Nfs;
use nfs3_calls::place::Place;
use std::alloc::{AllocError, Global};
use store::store::Store;
use tree_reading::call::{Changed, Planned, Reservation};
use tree_reading::reading::Standing;
use xdr_codec::answer::Answer;
use xdr_codec::status::Status;

/// The status of a refusal, where JUKEBOX comes before want of space.
fn busy_first(busy: bool, status: Status) -> Status
    ensures { result ≡ busy_first busy status }
{
    if !busy {
        return status;
    }
    match status {
        Status::NoSpc => Status::Jukebox,
        _ => status,
    }
}

/// The file that REMOVE waits for.
fn remove_comes(busy: bool, plan: Result<Changed, Status>) -> Result<u64, Status>
    ensures { result ≡ remove_comes busy plan }
{
    match plan {
        Err(status) => Err(busy_first(busy, status)),
        Ok(changed) => {
            if busy {
                Err(Status::Jukebox)
            } else {
                Ok(changed.id)
            }
        }
    }
}

fn is_over_file(found: Option<Standing>) -> bool
    ensures { result ≡ is_over_file found }
{
    match found {
        Some(standing) => standing.is_file,
        None => false,
    }
}

/// The file that RENAME waits for, or none, and it is done at once.
fn over_comes(busy: bool, found: Option<Standing>) -> Result<Option<u64>, Status>
    ensures { result ≡ over_comes busy found }
{
    match found {
        None => Ok(None),
        Some(standing) => {
            if !standing.is_file {
                return Ok(None);
            }
            if busy {
                return Err(Status::Jukebox);
            }
            Ok(Some(standing.id))
        }
    }
}

/// The node that RENAME moves and the file that it waits for, or none, and it is done at once.
fn rename_comes(
    busy: bool,
    found: Option<Standing>,
    plan: Result<Planned, Status>,
) -> Result<Option<(u64, u64)>, Status>
    ensures { result ≡ rename_comes busy found plan }
{
    match plan {
        Err(status) => Err(busy_first(busy && is_over_file(found), status)),
        Ok(Planned::Nothing(_)) => Ok(None),
        Ok(Planned::Free(_)) => Ok(None),
        Ok(Planned::Over(changed)) => match over_comes(busy, found)? {
            Some(file) => Ok(Some((changed.id, file))),
            None => Ok(None),
        },
    }
}

/// The answer to a REMOVE that is refused.
pub fn refuse_remove(status: Status) -> Done
    ensures { result ≡ said (nfs.RemoveAnswer (answer.Failed status no_side)) }
{
    said(Nfs::RemoveAnswer(Answer::Failed(status, no_side())))
}

/// What REMOVE comes to on arrival: the file that it waits for.
pub fn asks_remove(
    tree: &Tree,
    held: Reservation,
    busy: bool,
    dir: u64,
    name: &[u8],
) -> Result<u64, Status>
    ensures { result ≡ asks_remove tree.now.tree held busy dir name.now }
{
    remove_comes(busy, tree.plan_remove(dir, name, held))
}

/// REMOVE. The one error is running out of memory, where the call waits.
pub fn remove<S: Store>(
    alloc: Global,
    tree: &Tree,
    store: &mut S,
    held: Reservation,
    busy: bool,
    place: &Place,
) -> Result<Outcome, AllocError>
    ensures ok { IfOk result (λ o. o ≡ removes_in tree.now.tree held busy place.now.name (id_of place.now.dir)) }
    ensures takes { OnErr result (Takes tree.now.tree held busy (nfs.Remove place.now)) }
    ensures records { S.records store.new ≡ S.records store.old }
    ensures spare { held.entries ≤ S.spare store.old → held.entries ≤ S.spare store.new }
    ensures place { IfOk result (λ o. held.entries ≤ S.spare store.old → held.entries + places_of o ≤ S.spare store.new) }
    ensures later { S.faults store.old ≤ S.faults store.new }
{
    let dir = match id_of(&place.dir) {
        Ok(dir) => dir,
        Err(status) => return Ok(Outcome::Answered(refuse_remove(status))),
    };
    match asks_remove(tree, held, busy, dir, place.name.as_slice()) {
        Err(status) => Ok(Outcome::Answered(refuse_remove(status))),
        Ok(file) => {
            room::reserve(store, held, 1)?;
            let spot = spot_of(alloc, dir, &place.name)?;
            Ok(Outcome::Waits(Asked::Remove(Removing { spot, file })))
        }
    }
}

/// What RENAME comes to on arrival: the node that it moves and the file that it waits for, or none.
pub fn asks_rename(
    tree: &Tree,
    held: Reservation,
    busy: bool,
    dir: u64,
    name: &[u8],
    to: u64,
    to_name: &[u8],
) -> Result<Option<(u64, u64)>, Status>
    ensures { result ≡ asks_rename tree.now.tree held busy dir name.now to to_name.now }
{
    let found = tree.stands_for(to, to_name);
    rename_comes(busy, found, tree.plan_rename(dir, name, to, to_name, held))
}

/// What waits of a RENAME over a file. The one error is running out of memory.
fn renaming_of(
    alloc: Global,
    dir: u64,
    name: &Name,
    to: u64,
    to_name: &Name,
    node: u64,
    file: u64,
) -> Result<Renaming, AllocError>
    ensures { IfOk result (λ r. r ≡ record { from = spot_of dir name.now; to = spot_of to to_name.now; node = node; file = file }) }
{
    let from = spot_of(alloc, dir, name)?;
    let to = NewSpot::new(alloc, to, to_name)?;
    Ok(Renaming {
        from,
        to,
        node,
        file,
    })
}

/// RENAME in a directory. The one error is running out of memory, where the call is not refused,
/// and the tree is then as it was.
#[tactic(auto, using(crate::proofs::Steps::by_rename))]
pub fn rename<S: Store>(
    alloc: Global,
    tree: &mut Tree,
    store: &mut S,
    held: Reservation,
    busy: bool,
    dir: u64,
    name: &Name,
    to: u64,
    to_name: &Name,
) -> Result<Outcome, AllocError>
    ensures ok { IfOk result (λ o. IsCalled (S.faults store.old) (S.faults store.new)
        (λ fault. renaming_under tree.old.tree held fault dir name.now to to_name.now
        (asks_rename tree.old.tree held busy dir name.now to to_name.now)) (tree.new.tree, o)) }
    ensures err { OnErr result (tree.new.tree ≡ tree.old.tree) }
    ensures keeps { Keeps (S.records store.old) tree.old.tree (S.records store.new) tree.new.tree }
    ensures spare { held.entries ≤ S.spare store.old → held.entries ≤ S.spare store.new }
    ensures later { S.faults store.old ≤ S.faults store.new }
    ensures place { IfOk result (λ o. held.entries ≤ S.spare store.old → held.entries + places_of o ≤ S.spare store.new) }
    ensures takes { OnErr result (IsOk (asks_rename tree.old.tree held busy dir name.now to to_name.now)) }
{
    let comes = asks_rename(
        tree,
        held,
        busy,
        dir,
        name.as_slice(),
        to,
        to_name.as_slice(),
    );
    let plan = match comes {
        Ok(plan) => plan,
        Err(status) => return Ok(Outcome::Answered(changing::refuse_rename(status))),
    };
    room::reserve(store, held, 2)?;
    match plan {
        None => {
            let to_name = NamePair::copy_of(alloc, to_name)?;
            let done = changing::rename(tree, store, held, dir, name.as_slice(), to, to_name);
            Ok(Outcome::Answered(done))
        }
        Some((node, file)) => {
            let waits = renaming_of(alloc, dir, name, to, to_name, node, file)?;
            Ok(Outcome::Waits(Asked::Rename(waits)))
        }
    }
}
