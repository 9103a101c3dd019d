//! Any call of NFS (`calls` in `specs/Waiting.antt`).

ghost use Rattle.std.specs.Prelude.{◌≡◌, ◌+◌, ◌≤◌, Bool, false, IfOk, OnErr};
ghost use Rattle.tree_reading.specs.declared.call.Reservation.{Reservation};
ghost use Rattle.file_tree.specs.Stores.{Keeps};
ghost use Rattle.tree_calls.specs.Calling.{IsCalled, places_of, places_of_call};
ghost use Rattle.tree_calls.specs.Telling.{id_of, told, TakesTold};
ghost use Rattle.tree_calls.specs.Waiting.{renames_in_under, told_outcome, changes, calls_under, Takes};
ghost use Rattle.nfs3_calls.specs.declared.message.Nfs.TheVariants as nfs;

use crate::asked::Outcome;
use crate::naming::id_of;
use crate::sides::said;
use crate::{asking, changing, telling};
use file_tree::tree::Tree;
use nfs3_calls::message::Nfs;
use nfs3_calls::place::Rename;
use std::alloc::{AllocError, Global};
use store::store::Store;
use tree_reading::call::Reservation;

#[tactic(auto, using(crate::proofs::Steps::by_rename_calls))]
fn rename<S: Store>(
    alloc: Global,
    tree: &mut Tree,
    store: &mut S,
    held: Reservation,
    busy: bool,
    rename: &Rename,
) -> Result<Outcome, AllocError>
    ensures ok { IfOk result (λ o. IsCalled (S.faults store.old) (S.faults store.new)
        (λ fault.
        renames_in_under tree.old.tree held busy fault rename.now.from.name rename.now.to.name
        (id_of rename.now.from.dir) (id_of rename.now.to.dir)) (tree.new.tree, o)) }
    ensures err { OnErr result (tree.new.tree ≡ tree.old.tree) }
    ensures takes { OnErr result (Takes tree.old.tree held busy (nfs.Rename rename.now)) }
    ensures keeps { Keeps (S.records store.old) tree.old.tree (S.records store.new) tree.new.tree }
    ensures spare { held.entries ≤ S.spare store.old → held.entries ≤ S.spare store.new }
    ensures later { S.faults store.old ≤ S.faults store.new }
    ensures place { IfOk result (λ o. held.entries ≤ S.spare store.old → held.entries + places_of o ≤ S.spare store.new) }
{
    let dir = match id_of(&rename.from.dir) {
        Ok(dir) => dir,
        Err(status) => return Ok(Outcome::Answered(changing::refuse_rename(status))),
    };
    match id_of(&rename.to.dir) {
        Ok(to) => {
            asking::rename(
                alloc,
                tree,
                store,
                held,
                busy,
                dir,
                &rename.from.name,
                to,
                &rename.to.name,
            )
        }
        Err(status) => Ok(Outcome::Answered(changing::refuse_rename(status))),
    }
}

fn told(alloc: Global, tree: &Tree, call: &Nfs) -> Result<Option<Outcome>, AllocError>
    ensures ok { IfOk result (λ o. o ≡ told_outcome (told tree.now.tree.nodes call.now)) }
    ensures takes { OnErr result (TakesTold tree.now.tree.nodes call.now) }
{
    match telling::tell(alloc, tree, call)? {
        Some(answer) => Ok(Some(Outcome::Answered(said(answer)))),
        None => Ok(None),
    }
}

/// What a message comes to that changes nothing.
#[tactic(auto, using(crate::proofs::Steps::by_unchanging))]
fn unchanging(alloc: Global, tree: &Tree, call: &Nfs) -> Result<Option<Outcome>, AllocError>
    requires { changes call.now ≡ false }
    ensures ok { (held : Reservation) (busy fault : Bool) → IfOk result (λ o. calls_under tree.now.tree held busy fault call.now ≡ (tree.now.tree, o)) }
    ensures takes { (held : Reservation) (busy : Bool) → OnErr result (Takes tree.now.tree held busy call.now) }
    ensures nothing { IfOk result (λ o. places_of_call o ≡ 0) }
{
    told(alloc, tree, call)
}

/// What a call comes to, where the pending changes need so much, and one of the session's own waits
/// or not; nothing where the message is no call. The one error is running out of memory, where the
/// call is not refused, and the tree is then as it was.
#[tactic(auto, using(crate::proofs::Steps::some_answered, crate::proofs::Steps::some_outcome))]
pub fn call<S: Store>(
    alloc: Global,
    tree: &mut Tree,
    store: &mut S,
    call: &Nfs,
    held: Reservation,
    busy: bool,
) -> Result<Option<Outcome>, AllocError>
    ensures ok { IfOk result (λ o. IsCalled (S.faults store.old) (S.faults store.new) (λ fault. calls_under tree.old.tree held busy fault call.now) (tree.new.tree, o)) }
    ensures err { OnErr result (tree.new.tree ≡ tree.old.tree) }
    ensures takes { OnErr result (Takes tree.old.tree held busy call.now) }
    ensures keeps { Keeps (S.records store.old) tree.old.tree (S.records store.new) tree.new.tree }
    ensures spare { held.entries ≤ S.spare store.old → held.entries ≤ S.spare store.new }
    ensures later { S.faults store.old ≤ S.faults store.new }
    ensures place { IfOk result (λ o. held.entries ≤ S.spare store.old → held.entries + places_of_call o ≤ S.spare store.new) }
{
    match call {
        Nfs::Create(new) => match changing::create(alloc, tree, store, held, new) {
            Ok(done) => Ok(Some(Outcome::Answered(done))),
            Err(why) => Err(why),
        },
        Nfs::MkDir(new) => match changing::mkdir(alloc, tree, store, held, new) {
            Ok(done) => Ok(Some(Outcome::Answered(done))),
            Err(why) => Err(why),
        },
        Nfs::Remove(place) => match asking::remove(alloc, tree, store, held, busy, place) {
            Ok(outcome) => Ok(Some(outcome)),
            Err(why) => Err(why),
        },
        Nfs::RmDir(place) => match changing::rmdir(tree, store, held, place) {
            Ok(done) => Ok(Some(Outcome::Answered(done))),
            Err(why) => Err(why),
        },
        Nfs::Rename(names) => match rename(alloc, tree, store, held, busy, names) {
            Ok(outcome) => Ok(Some(outcome)),
            Err(why) => Err(why),
        },
        _ => unchanging(alloc, tree, call),
    }
}
