//! The calls that change the tree at once: CREATE, MKDIR, RMDIR, and RENAME that is not over a file
//! (`specs/Changing.antt`).

ghost use Rattle.std.specs.Prelude.{◌≡◌, ◌+◌, ◌<◌, ◌≤◌, false, Some, None, Ok, IfOk, OnOk, OnErr, IsOk};
ghost use Rattle.xdr_codec.specs.Handle.{handle_bytes};
ghost use Rattle.xdr_codec.specs.declared.answer.Answer.TheVariants as answer;
ghost use Rattle.nfs3_calls.specs.declared.message.Nfs.TheVariants as nfs;
ghost use Rattle.tree_reading.specs.Plans.{create_plan, may_mkdir, rmdir_plan};
ghost use Rattle.file_tree.specs.Stores.{Keeps};
ghost use Rattle.tree_calls.specs.Calling.{IsCalled};
ghost use Rattle.tree_calls.specs.Telling.{id_of};
ghost use Rattle.tree_calls.specs.Waiting.{creates_in_under, mkdirs_in_under, rmdirs_in_under, Takes};
ghost use Rattle.tree_calls.specs.Changing.{before, no_side, said, made_of, created, made_directory, mode_of, removed_directory, refused_rename, renamed, creates_under, mkdirs_under, rmdirs_under};
ghost use Rattle.tree_calls.specs.Changing.{renames_under};

use crate::asked::Done;
use crate::naming::id_of;
use crate::room;
use crate::sides::{before, both_sides, did, known, no_side, said};
use file_tree::pair::NamePair;
use file_tree::stored_steps;
use file_tree::tree::Tree;
use lb_base::items::Name;
use nfs3_calls::change::{Before, Moved};
use nfs3_calls::making::{HowMade, Made, NewDir, NewFile};
use nfs3_calls::message::Nfs;
use nfs3_calls::place::Place;
use std::alloc::{AllocError, Global};
use store::store::Store;
use tree_reading::call::{Changed, CreateMode, Reservation};
use xdr_codec::answer::Answer;
use xdr_codec::handle::Handle;
use xdr_codec::status::Status;

/// How a CREATE makes its file.
pub fn mode_of(how: &HowMade) -> CreateMode
    ensures { result ≡ mode_of how.now }
{
    match how {
        HowMade::Unchecked(_) => CreateMode::Unchecked,
        HowMade::Guarded(_) => CreateMode::Guarded,
        HowMade::Exclusive(_) => CreateMode::Exclusive,
    }
}

/// What is told of a node that was made, or was there, under this handle.
fn made_of(tree: &Tree, before: Option<Before>, dir: u64, handle: Handle, changed: Changed) -> Made
    requires { handle ≡ handle_bytes changed.id }
    ensures { result ≡ made_of before dir tree.now.tree.nodes changed }
{
    Made {
        handle: Some(handle),
        attr: known(tree, changed.id),
        dir: both_sides(tree, before, dir),
    }
}

/// What a node that is to be made needs: its handle, its name twice, a place in the tree and two in
/// the store, which both are as they were. The one error is running out of memory.
fn prepared<S: Store>(
    alloc: Global,
    tree: &mut Tree,
    store: &mut S,
    held: Reservation,
    name: &Name,
) -> Result<(Handle, NamePair), AllocError>
    ensures handle { IfOk result (λ p. p.0 ≡ handle_bytes tree.old.tree.next) }
    ensures name { IfOk result (λ p. p.1 ≡ name.now) }
    ensures room { OnOk result (0 < tree.new.room) }
    ensures spare { OnOk result (held.entries + 2 ≤ S.spare store.new) }
    ensures more { S.spare store.old ≤ S.spare store.new }
    ensures records { S.records store.new ≡ S.records store.old }
    ensures later { S.faults store.old ≤ S.faults store.new }
    ensures tree { tree.new.tree ≡ tree.old.tree }
{
    let next = tree.head().next;
    tree.reserve(1)?;
    room::reserve(store, held, 2)?;
    let handle = Handle::of_file(alloc, next)?;
    let name = NamePair::copy_of(alloc, name)?;
    Ok((handle, name))
}

/// The answer to a CREATE that is refused.
pub fn refuse_create(status: Status) -> Done
    ensures { result ≡ said (nfs.CreateAnswer (answer.Failed status no_side)) }
{
    said(Nfs::CreateAnswer(Answer::Failed(status, no_side())))
}

/// The answer to a CREATE, where this handle is that of the file that was made, or was there.
fn created(
    tree: &Tree,
    before: Option<Before>,
    dir: u64,
    handle: Handle,
    outcome: Result<Changed, Status>,
) -> Done
    requires { IfOk outcome (λ c. handle ≡ handle_bytes c.id) }
    ensures { result ≡ created before dir tree.now.tree.nodes outcome }
{
    match outcome {
        Ok(changed) => {
            let made = made_of(tree, before, dir, handle, changed);
            did(changed, Nfs::CreateAnswer(Answer::Done(made)))
        }
        Err(status) => refuse_create(status),
    }
}

/// CREATE of a file that is there. The one error is running out of memory for its handle.
fn find_file(alloc: Global, tree: &Tree, dir: u64, there: Changed) -> Result<Done, AllocError>
    ensures { IfOk result (λ o. o ≡ created (before tree.now.tree.nodes dir) dir tree.now.tree.nodes (Ok there)) }
{
    let handle = Handle::of_file(alloc, there.id)?;
    let before = before(tree, dir);
    Ok(created(tree, before, dir, handle, Ok(there)))
}

/// CREATE of a file that is to be made. The one error is running out of memory, and the tree is
/// then as it was.
#[tactic(auto, using(crate::proofs::Steps::by_make_file))]
fn make_file<S: Store>(
    alloc: Global,
    tree: &mut Tree,
    store: &mut S,
    held: Reservation,
    dir: u64,
    name: &Name,
    mode: CreateMode,
) -> Result<Done, AllocError>
    requires { create_plan tree.old.tree held dir name.now mode ≡ Ok None }
    ensures ok { IfOk result (λ o. IsCalled (S.faults store.old) (S.faults store.new) (λ fault. creates_under tree.old.tree held fault dir name.now mode) (tree.new.tree, o)) }
    ensures err { OnErr result (tree.new.tree ≡ tree.old.tree) }
    ensures keeps { Keeps (S.records store.old) tree.old.tree (S.records store.new) tree.new.tree }
    ensures spare { held.entries ≤ S.spare store.old → held.entries ≤ S.spare store.new }
    ensures later { S.faults store.old ≤ S.faults store.new }
{
    let (handle, name) = prepared(alloc, tree, store, held, name)?;
    let before = before(tree, dir);
    let outcome = stored_steps::create(tree, store, dir, name, mode, held);
    Ok(created(tree, before, dir, handle, outcome))
}

/// CREATE. The one error is running out of memory, where the call is not refused, and the tree is then as it
/// was.
#[tactic(auto, using(crate::proofs::Steps::by_create))]
pub fn create<S: Store>(
    alloc: Global,
    tree: &mut Tree,
    store: &mut S,
    held: Reservation,
    new: &NewFile,
) -> Result<Done, AllocError>
    ensures ok { IfOk result (λ o. IsCalled (S.faults store.old) (S.faults store.new) (λ fault. creates_in_under tree.old.tree held fault new.now (id_of new.now.place.dir)) (tree.new.tree, o)) }
    ensures err { OnErr result (tree.new.tree ≡ tree.old.tree) }
    ensures takes { OnErr result (Takes tree.old.tree held false (nfs.Create new.now)) }
    ensures keeps { Keeps (S.records store.old) tree.old.tree (S.records store.new) tree.new.tree }
    ensures spare { held.entries ≤ S.spare store.old → held.entries ≤ S.spare store.new }
    ensures later { S.faults store.old ≤ S.faults store.new }
{
    let dir = match id_of(&new.place.dir) {
        Ok(dir) => dir,
        Err(status) => return Ok(refuse_create(status)),
    };
    let name = &new.place.name;
    let mode = mode_of(&new.how);
    match tree.plan_create(dir, name.as_slice(), mode, held) {
        Ok(Some(there)) => find_file(alloc, tree, dir, there),
        Ok(None) => make_file(alloc, tree, store, held, dir, name, mode),
        Err(status) => Ok(refuse_create(status)),
    }
}

/// The answer to a MKDIR that is refused.
pub fn refuse_mkdir(status: Status) -> Done
    ensures { result ≡ said (nfs.MkDirAnswer (answer.Failed status no_side)) }
{
    said(Nfs::MkDirAnswer(Answer::Failed(status, no_side())))
}

/// The answer to a MKDIR, where this handle is that of the directory that was made.
fn made_directory(
    tree: &Tree,
    before: Option<Before>,
    dir: u64,
    handle: Handle,
    outcome: Result<Changed, Status>,
) -> Done
    requires { IfOk outcome (λ c. handle ≡ handle_bytes c.id) }
    ensures { result ≡ made_directory before dir tree.now.tree.nodes outcome }
{
    match outcome {
        Ok(changed) => {
            let made = made_of(tree, before, dir, handle, changed);
            did(changed, Nfs::MkDirAnswer(Answer::Done(made)))
        }
        Err(status) => refuse_mkdir(status),
    }
}

/// MKDIR of a directory that is to be made. The one error is running out of memory, and the tree is then as
/// it was.
#[tactic(auto, using(crate::proofs::Steps::by_make_directory))]
fn make_directory<S: Store>(
    alloc: Global,
    tree: &mut Tree,
    store: &mut S,
    held: Reservation,
    dir: u64,
    name: &Name,
) -> Result<Done, AllocError>
    requires { may_mkdir tree.old.tree held dir name.now ≡ Ok tt }
    ensures ok { IfOk result (λ o. IsCalled (S.faults store.old) (S.faults store.new) (λ fault. mkdirs_under tree.old.tree held fault dir name.now) (tree.new.tree, o)) }
    ensures err { OnErr result (tree.new.tree ≡ tree.old.tree) }
    ensures keeps { Keeps (S.records store.old) tree.old.tree (S.records store.new) tree.new.tree }
    ensures spare { held.entries ≤ S.spare store.old → held.entries ≤ S.spare store.new }
    ensures later { S.faults store.old ≤ S.faults store.new }
{
    let (handle, name) = prepared(alloc, tree, store, held, name)?;
    let before = before(tree, dir);
    let outcome = stored_steps::mkdir(tree, store, dir, name, held);
    Ok(made_directory(tree, before, dir, handle, outcome))
}

/// MKDIR. The one error is running out of memory, where the call is not refused, and the tree is then as it
/// was.
#[tactic(auto, using(crate::proofs::Steps::by_mkdir))]
pub fn mkdir<S: Store>(
    alloc: Global,
    tree: &mut Tree,
    store: &mut S,
    held: Reservation,
    new: &NewDir,
) -> Result<Done, AllocError>
    ensures ok { IfOk result (λ o. IsCalled (S.faults store.old) (S.faults store.new)
        (λ fault. mkdirs_in_under tree.old.tree held fault new.now.place.name
        (id_of new.now.place.dir)) (tree.new.tree, o)) }
    ensures err { OnErr result (tree.new.tree ≡ tree.old.tree) }
    ensures takes { OnErr result (Takes tree.old.tree held false (nfs.MkDir new.now)) }
    ensures keeps { Keeps (S.records store.old) tree.old.tree (S.records store.new) tree.new.tree }
    ensures spare { held.entries ≤ S.spare store.old → held.entries ≤ S.spare store.new }
    ensures later { S.faults store.old ≤ S.faults store.new }
{
    let dir = match id_of(&new.place.dir) {
        Ok(dir) => dir,
        Err(status) => return Ok(refuse_mkdir(status)),
    };
    let name = &new.place.name;
    match tree.plan_mkdir(dir, name.as_slice(), held) {
        Ok(()) => make_directory(alloc, tree, store, held, dir, name),
        Err(status) => Ok(refuse_mkdir(status)),
    }
}

/// The answer to a RMDIR that is refused.
pub fn refuse_rmdir(status: Status) -> Done
    ensures { result ≡ said (nfs.RmDirAnswer (answer.Failed status no_side)) }
{
    said(Nfs::RmDirAnswer(Answer::Failed(status, no_side())))
}

fn removed_directory(
    tree: &Tree,
    before: Option<Before>,
    dir: u64,
    outcome: Result<Changed, Status>,
) -> Done
    ensures { result ≡ removed_directory before dir tree.now.tree.nodes outcome }
{
    match outcome {
        Ok(changed) => {
            let sides = both_sides(tree, before, dir);
            did(changed, Nfs::RmDirAnswer(Answer::Done(sides)))
        }
        Err(status) => refuse_rmdir(status),
    }
}

/// RMDIR of a directory that may go, for which the store has a place.
#[tactic(auto, using(crate::proofs::Steps::rmdir_step))]
fn remove_directory<S: Store>(
    tree: &mut Tree,
    store: &mut S,
    held: Reservation,
    dir: u64,
    name: &[u8],
) -> Done
    requires { held.entries + 1 ≤ S.spare store.old }
    ensures done { IsCalled (S.faults store.old) (S.faults store.new) (λ fault. rmdirs_under tree.old.tree held fault dir name.now) (tree.new.tree, result) }
    ensures keeps { Keeps (S.records store.old) tree.old.tree (S.records store.new) tree.new.tree }
    ensures spare { held.entries ≤ S.spare store.new }
    ensures later { S.faults store.old ≤ S.faults store.new }
{
    let before = before(tree, dir);
    let outcome = stored_steps::rmdir(tree, store, dir, name, held);
    removed_directory(tree, before, dir, outcome)
}

/// RMDIR. The one error is running out of memory for the store's place, where the call is not refused, and the
/// tree is then as it was.
#[tactic(auto, using(crate::proofs::Steps::by_rmdir))]
pub fn rmdir<S: Store>(
    tree: &mut Tree,
    store: &mut S,
    held: Reservation,
    place: &Place,
) -> Result<Done, AllocError>
    ensures ok { IfOk result (λ o. IsCalled (S.faults store.old) (S.faults store.new) (λ fault. rmdirs_in_under tree.old.tree held fault place.now.name (id_of place.now.dir)) (tree.new.tree, o)) }
    ensures err { OnErr result (tree.new.tree ≡ tree.old.tree) }
    ensures takes { OnErr result (Takes tree.old.tree held false (nfs.RmDir place.now)) }
    ensures keeps { Keeps (S.records store.old) tree.old.tree (S.records store.new) tree.new.tree }
    ensures spare { held.entries ≤ S.spare store.old → held.entries ≤ S.spare store.new }
    ensures later { S.faults store.old ≤ S.faults store.new }
{
    let dir = match id_of(&place.dir) {
        Ok(dir) => dir,
        Err(status) => return Ok(refuse_rmdir(status)),
    };
    let name = place.name.as_slice();
    match tree.plan_rmdir(dir, name, held) {
        Ok(_) => {
            room::reserve(store, held, 1)?;
            Ok(remove_directory(tree, store, held, dir, name))
        }
        Err(status) => Ok(refuse_rmdir(status)),
    }
}

/// The answer to a RENAME that is refused.
pub fn refuse_rename(status: Status) -> Done
    ensures { result ≡ refused_rename status }
{
    let moved = Moved {
        from: no_side(),
        to: no_side(),
    };
    said(Nfs::RenameAnswer(Answer::Failed(status, moved)))
}

fn renamed(
    tree: &Tree,
    before: (Option<Before>, Option<Before>),
    dir: u64,
    to: u64,
    outcome: Result<Changed, Status>,
) -> Done
    ensures { result ≡ renamed before.0 before.1 dir to tree.now.tree.nodes outcome }
{
    match outcome {
        Ok(changed) => {
            let moved = Moved {
                from: both_sides(tree, before.0, dir),
                to: both_sides(tree, before.1, to),
            };
            did(changed, Nfs::RenameAnswer(Answer::Done(moved)))
        }
        Err(status) => refuse_rename(status),
    }
}

/// RENAME of a name in a directory to another, for which the store has two places. It takes no memory.
#[tactic(auto, using(crate::proofs::Steps::renamed_step))]
pub fn rename<S: Store>(
    tree: &mut Tree,
    store: &mut S,
    held: Reservation,
    dir: u64,
    name: &[u8],
    to: u64,
    to_name: NamePair,
) -> Done
    requires { held.entries + 2 ≤ S.spare store.old }
    ensures done { IsCalled (S.faults store.old) (S.faults store.new) (λ fault. renames_under tree.old.tree held fault dir name.now to to_name) (tree.new.tree, result) }
    ensures keeps { Keeps (S.records store.old) tree.old.tree (S.records store.new) tree.new.tree }
    ensures spare { held.entries ≤ S.spare store.new }
    ensures later { S.faults store.old ≤ S.faults store.new }
{
    let sides = (before(tree, dir), before(tree, to));
    let outcome = stored_steps::rename(tree, store, dir, name, to, to_name, held);
    renamed(tree, sides, dir, to, outcome)
}
