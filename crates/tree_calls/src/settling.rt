//! What waited, once nothing blocks it (`settles` and `gives_content` in `specs/Waiting.antt`). None of
//! this takes memory.

ghost use Rattle.std.specs.Prelude.{◌≡◌, ◌+◌, ◌≤◌, Ok};
ghost use Rattle.file_tree.specs.Stores.{Keeps};
ghost use Rattle.tree_calls.specs.Calling.{IsCalled};
ghost use Rattle.tree_calls.specs.Changing.{before, removed};
ghost use Rattle.tree_calls.specs.Waiting.{still, remove_again, rename_again, removes_if_under, renames_if_under, settles_under, committed, gives_content_under, spot_of, entries_of};

use crate::asked::{Asked, Committing, Done, Removing, Renaming};
use crate::asking::refuse_remove;
use crate::changing;
use crate::sides::{before, both_sides, did};
use file_tree::stored_steps;
use file_tree::tree::Tree;
use hash_calls::call::Committed;
use nfs3_calls::change::Before;
use nfs3_calls::message::Nfs;
use shared_bytes::SharedBytes;
use store::store::Store;
use tree_nodes::content::Content;
use tree_reading::call::{Changed, Reservation, Spot};
use tree_reading::checks::is_node;
use xdr_codec::answer::Answer;
use xdr_codec::status::Status;

/// Whether a name still stands for a node.
fn still(tree: &Tree, dir: u64, name: &[u8], id: u64) -> Result<(), Status>
    ensures { result ≡ still tree.now.tree.nodes (spot_of dir name.now) id }
{
    if is_node(id, tree.stands_for(dir, name)) {
        Ok(())
    } else {
        Err(Status::Jukebox)
    }
}

fn remove_again(tree: &Tree, removing: &Removing) -> Result<(), Status>
    ensures { result ≡ remove_again tree.now.tree.nodes removing.now }
{
    let _version = tree.version(removing.file)?;
    let spot = &removing.spot;
    still(tree, spot.dir, spot.name.as_slice(), removing.file)
}

fn rename_again(tree: &Tree, renaming: &Renaming) -> Result<(), Status>
    ensures { result ≡ rename_again tree.now.tree.nodes renaming.now }
{
    let _version = tree.version(renaming.file)?;
    let from = &renaming.from;
    still(tree, from.dir, from.name.as_slice(), renaming.node)?;
    let to = &renaming.to;
    still(tree, to.dir(), to.name(), renaming.file)
}

fn removed(tree: &Tree, before: Option<Before>, dir: u64, outcome: Result<Changed, Status>) -> Done
    ensures { result ≡ removed before dir tree.now.tree.nodes outcome }
{
    match outcome {
        Ok(changed) => {
            let sides = both_sides(tree, before, dir);
            did(changed, Nfs::RemoveAnswer(Answer::Done(sides)))
        }
        Err(status) => refuse_remove(status),
    }
}

/// REMOVE of the file of a name, which was checked again.
#[tactic(auto, using(crate::proofs::Steps::removed_step))]
fn remove<S: Store>(tree: &mut Tree, store: &mut S, spot: &Spot, held: Reservation) -> Done
    requires { held.entries + 1 ≤ S.spare store.old }
    ensures done { IsCalled (S.faults store.old) (S.faults store.new) (λ fault. removes_if_under tree.old.tree held fault spot.now (Ok tt)) (tree.new.tree, result) }
    ensures keeps { Keeps (S.records store.old) tree.old.tree (S.records store.new) tree.new.tree }
    ensures spare { held.entries ≤ S.spare store.new }
    ensures later { S.faults store.old ≤ S.faults store.new }
{
    let before = before(tree, spot.dir);
    let outcome = stored_steps::remove(tree, store, spot.dir, spot.name.as_slice(), held);
    removed(tree, before, spot.dir, outcome)
}

#[tactic(auto, using(crate::proofs::Steps::by_settle_remove))]
fn settle_remove<S: Store>(
    tree: &mut Tree,
    store: &mut S,
    removing: &Removing,
    held: Reservation,
) -> Done
    requires { held.entries + 1 ≤ S.spare store.old }
    ensures done { IsCalled (S.faults store.old) (S.faults store.new)
        (λ fault. removes_if_under tree.old.tree held fault removing.now.spot
        (remove_again tree.old.tree.nodes removing.now)) (tree.new.tree, result) }
    ensures keeps { Keeps (S.records store.old) tree.old.tree (S.records store.new) tree.new.tree }
    ensures spare { held.entries ≤ S.spare store.new }
    ensures later { S.faults store.old ≤ S.faults store.new }
{
    match remove_again(tree, removing) {
        Ok(()) => remove(tree, store, &removing.spot, held),
        Err(status) => refuse_remove(status),
    }
}

#[tactic(auto, using(crate::proofs::Steps::by_settle_rename))]
fn settle_rename<S: Store>(
    tree: &mut Tree,
    store: &mut S,
    renaming: Renaming,
    held: Reservation,
) -> Done
    requires { held.entries + 2 ≤ S.spare store.old }
    ensures done { IsCalled (S.faults store.old) (S.faults store.new)
        (λ fault. renames_if_under tree.old.tree held fault renaming.from renaming.to
        (rename_again tree.old.tree.nodes renaming)) (tree.new.tree, result) }
    ensures keeps { Keeps (S.records store.old) tree.old.tree (S.records store.new) tree.new.tree }
    ensures spare { held.entries ≤ S.spare store.new }
    ensures later { S.faults store.old ≤ S.faults store.new }
{
    match rename_again(tree, &renaming) {
        Ok(()) => {
            let Renaming { from, to, .. } = renaming;
            let (to, to_name) = to.split();
            changing::rename(
                tree,
                store,
                held,
                from.dir,
                from.name.as_slice(),
                to,
                to_name,
            )
        }
        Err(status) => changing::refuse_rename(status),
    }
}

/// Makes a change that waited, if all is as it was when it came. The store has a place for each of its
/// entries. It takes no memory.
pub fn settle<S: Store>(tree: &mut Tree, store: &mut S, asked: Asked, held: Reservation) -> Done
    requires { held.entries + entries_of asked ≤ S.spare store.old }
    ensures done { IsCalled (S.faults store.old) (S.faults store.new) (λ fault. settles_under tree.old.tree held fault asked) (tree.new.tree, result) }
    ensures keeps { Keeps (S.records store.old) tree.old.tree (S.records store.new) tree.new.tree }
    ensures spare { held.entries ≤ S.spare store.new }
    ensures later { S.faults store.old ≤ S.faults store.new }
{
    match asked {
        Asked::Remove(removing) => settle_remove(tree, store, &removing, held),
        Asked::Rename(renaming) => settle_rename(tree, store, renaming, held),
    }
}

fn committed(term: u32, outcome: Result<Changed, Status>) -> Committing
    ensures { result ≡ committed term outcome }
{
    match outcome {
        Ok(changed) => Committing {
            answer: Answer::Done(Committed {
                version: changed.version,
                term,
            }),
            entry: changed.first,
        },
        Err(status) => Committing {
            answer: Answer::Failed(status, ()),
            entry: None,
        },
    }
}

/// Gives a file a content that waited, if the file is there; the answer tells how long a lease
/// holds. The store gets another owner of its bytes. It takes no memory.
#[tactic(auto, using(crate::proofs::Steps::committed_step))]
pub fn give_content<S: Store>(
    tree: &mut Tree,
    store: &mut S,
    file: u64,
    content: Content,
    copy: SharedBytes,
    held: Reservation,
    term: u32,
) -> Committing
    requires copy { copy ≡ content }
    requires spare { held.entries + 1 ≤ S.spare store.old }
    ensures done { IsCalled (S.faults store.old) (S.faults store.new) (λ fault. gives_content_under tree.old.tree held fault file content term) (tree.new.tree, result) }
    ensures keeps { Keeps (S.records store.old) tree.old.tree (S.records store.new) tree.new.tree }
    ensures spare { held.entries ≤ S.spare store.new }
    ensures later { S.faults store.old ≤ S.faults store.new }
{
    let outcome = stored_steps::replace(tree, store, file, content, copy, held);
    committed(term, outcome)
}
