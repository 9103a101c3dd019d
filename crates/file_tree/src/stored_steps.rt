//! The six changes of a tree with a store (`IsStep` and `Keeps` in `specs/Stores.antt`). None of
//! this takes memory: the places that the store needs were reserved before, and a name that both
//! hold comes twice.

ghost use Rattle.std.specs.Prelude.{◌≡◌, ◌+◌, ◌<◌, ◌≤◌, Ok, None};
ghost use Rattle.tree_nodes.specs.Nodes.{named};
ghost use Rattle.tree_reading.specs.Plans.{create_plan, may_mkdir, rename_plan};
ghost use Rattle.file_tree.specs.Step.{create, mkdir, remove, rmdir, rename, replace};
ghost use Rattle.tree_reading.specs.declared.call.Planned.TheVariants.{Free, Over};
ghost use Rattle.file_tree.specs.Stores.{IsStep, Keeps, kind_if, kind_found, id_found};

use crate::pair::NamePair;
use crate::tree::Tree;
use lb_base::items::Name;
use server_rules::asking::ask;
use shared_bytes::SharedBytes;
use store::record::{ContentRecord, NodeKind, NodeRecord, RecordChange};
use store::store::Store;
use tree_nodes::content::Content;
use tree_reading::call::{Changed, CreateMode, Planned, Reservation};
use xdr_codec::status::Status;

/// CREATE of a file that is to be made.
#[tactic(auto, using(crate::proofs::Stepping::by_make_file))]
fn make_file<S: Store>(
    tree: &mut Tree,
    store: &mut S,
    dir: u64,
    name: NamePair,
    mode: CreateMode,
    held: Reservation,
) -> Result<Changed, Status>
    requires plan { create_plan tree.old.tree held dir name mode ≡ Ok None }
    requires room { 0 < tree.old.room }
    requires spare { 2 ≤ S.spare store.old }
    ensures done { IsStep (S.faults store.old) (S.faults store.new) tree.old.tree (create tree.old.tree held dir name mode) (tree.new.tree, result) }
    ensures keeps { Keeps (S.records store.old) tree.old.tree (S.records store.new) tree.new.tree }
    ensures spare { S.spare store.old ≤ S.spare store.new + 2 }
    ensures room { tree.old.room ≤ tree.new.room + 1 }
    ensures later { S.faults store.old ≤ S.faults store.new }
{
    let id = tree.head().next;
    let (name, copy) = name.split();
    let node = NodeRecord {
        id,
        parent: dir,
        kind: NodeKind::File,
        name: copy,
    };
    let content = ContentRecord {
        id,
        version: 1,
        bytes: SharedBytes::empty(),
    };
    let head = tree.head_made();
    if ask(
        store,
        head,
        RecordChange::Node(node),
        Some(RecordChange::Content(content)),
    ) {
        return Err(Status::Io);
    }
    tree.create(dir, name, mode, held)
}

/// CREATE. It needs two places in the store, and one node's in the tree.
#[tactic(auto, using(crate::proofs::Stepping::by_create))]
pub fn create<S: Store>(
    tree: &mut Tree,
    store: &mut S,
    dir: u64,
    name: NamePair,
    mode: CreateMode,
    held: Reservation,
) -> Result<Changed, Status>
    requires room { 0 < tree.old.room }
    requires spare { 2 ≤ S.spare store.old }
    ensures done { IsStep (S.faults store.old) (S.faults store.new) tree.old.tree (create tree.old.tree held dir name mode) (tree.new.tree, result) }
    ensures keeps { Keeps (S.records store.old) tree.old.tree (S.records store.new) tree.new.tree }
    ensures spare { S.spare store.old ≤ S.spare store.new + 2 }
    ensures room { tree.old.room ≤ tree.new.room + 1 }
    ensures later { S.faults store.old ≤ S.faults store.new }
{
    match tree.plan_create(dir, name.as_slice(), mode, held) {
        Ok(None) => make_file(tree, store, dir, name, mode, held),
        Ok(Some(there)) => Ok(there),
        Err(status) => Err(status),
    }
}

/// MKDIR of a directory that is to be made.
#[tactic(auto, using(crate::proofs::Stepping::by_make_directory))]
fn make_directory<S: Store>(
    tree: &mut Tree,
    store: &mut S,
    dir: u64,
    name: NamePair,
    held: Reservation,
) -> Result<Changed, Status>
    requires plan { may_mkdir tree.old.tree held dir name ≡ Ok tt }
    requires room { 0 < tree.old.room }
    requires spare { 1 ≤ S.spare store.old }
    ensures done { IsStep (S.faults store.old) (S.faults store.new) tree.old.tree (mkdir tree.old.tree held dir name) (tree.new.tree, result) }
    ensures keeps { Keeps (S.records store.old) tree.old.tree (S.records store.new) tree.new.tree }
    ensures spare { S.spare store.old ≤ S.spare store.new + 1 }
    ensures room { tree.old.room ≤ tree.new.room + 1 }
    ensures later { S.faults store.old ≤ S.faults store.new }
{
    let (name, copy) = name.split();
    let node = NodeRecord {
        id: tree.head().next,
        parent: dir,
        kind: NodeKind::Directory,
        name: copy,
    };
    let head = tree.head_made();
    if ask(store, head, RecordChange::Node(node), None) {
        return Err(Status::Io);
    }
    tree.mkdir(dir, name, held)
}

/// MKDIR. It needs one place in the store, and one node's in the tree.
#[tactic(auto, using(crate::proofs::Stepping::mkdir_refused, crate::proofs::Stepping::keeps_same))]
pub fn mkdir<S: Store>(
    tree: &mut Tree,
    store: &mut S,
    dir: u64,
    name: NamePair,
    held: Reservation,
) -> Result<Changed, Status>
    requires room { 0 < tree.old.room }
    requires spare { 1 ≤ S.spare store.old }
    ensures done { IsStep (S.faults store.old) (S.faults store.new) tree.old.tree (mkdir tree.old.tree held dir name) (tree.new.tree, result) }
    ensures keeps { Keeps (S.records store.old) tree.old.tree (S.records store.new) tree.new.tree }
    ensures spare { S.spare store.old ≤ S.spare store.new + 1 }
    ensures room { tree.old.room ≤ tree.new.room + 1 }
    ensures later { S.faults store.old ≤ S.faults store.new }
{
    match tree.plan_mkdir(dir, name.as_slice(), held) {
        Ok(()) => make_directory(tree, store, dir, name, held),
        Err(status) => Err(status),
    }
}

/// REMOVE, once nothing blocks it. It needs one place in the store.
#[tactic(auto, using(crate::proofs::Stepping::by_remove))]
pub fn remove<S: Store>(
    tree: &mut Tree,
    store: &mut S,
    dir: u64,
    name: &[u8],
    held: Reservation,
) -> Result<Changed, Status>
    requires spare { 1 ≤ S.spare store.old }
    ensures done { IsStep (S.faults store.old) (S.faults store.new) tree.old.tree (remove tree.old.tree held dir name.now) (tree.new.tree, result) }
    ensures keeps { Keeps (S.records store.old) tree.old.tree (S.records store.new) tree.new.tree }
    ensures spare { S.spare store.old ≤ S.spare store.new + 1 }
    ensures room { tree.old.room ≤ tree.new.room }
    ensures later { S.faults store.old ≤ S.faults store.new }
{
    match tree.plan_remove(dir, name, held) {
        Ok(gone) => {
            let head = tree.head_changed(1);
            if ask(store, head, RecordChange::Drop(gone.id), None) {
                return Err(Status::Io);
            }
            tree.remove(dir, name, held)
        }
        Err(status) => Err(status),
    }
}

/// RMDIR. It needs one place in the store.
#[tactic(auto, using(crate::proofs::Stepping::by_rmdir))]
pub fn rmdir<S: Store>(
    tree: &mut Tree,
    store: &mut S,
    dir: u64,
    name: &[u8],
    held: Reservation,
) -> Result<Changed, Status>
    requires spare { 1 ≤ S.spare store.old }
    ensures done { IsStep (S.faults store.old) (S.faults store.new) tree.old.tree (rmdir tree.old.tree held dir name.now) (tree.new.tree, result) }
    ensures keeps { Keeps (S.records store.old) tree.old.tree (S.records store.new) tree.new.tree }
    ensures spare { S.spare store.old ≤ S.spare store.new + 1 }
    ensures room { tree.old.room ≤ tree.new.room }
    ensures later { S.faults store.old ≤ S.faults store.new }
{
    match tree.plan_rmdir(dir, name, held) {
        Ok(gone) => {
            let head = tree.head_changed(1);
            if ask(store, head, RecordChange::Drop(gone.id), None) {
                return Err(Status::Io);
            }
            tree.rmdir(dir, name, held)
        }
        Err(status) => Err(status),
    }
}

/// The id of the node that a name stands for.
#[tactic(auto, using(crate::proofs::Stepping::id_stands, crate::proofs::Stepping::id_nothing))]
fn id_at(tree: &Tree, dir: u64, name: &[u8]) -> u64
    ensures { result ≡ id_found (named tree.now.tree.nodes dir name.now) }
{
    match tree.stands_for(dir, name) {
        Some(standing) => standing.id,
        None => 0,
    }
}

/// What the node of a name is.
#[tactic(auto, using(crate::proofs::Stepping::kind_stands, crate::proofs::Stepping::kind_nothing))]
fn kind_at(tree: &Tree, dir: u64, name: &[u8]) -> NodeKind
    ensures { result ≡ kind_found (named tree.now.tree.nodes dir name.now) }
{
    match tree.stands_for(dir, name) {
        Some(standing) => kind_of(standing.is_file),
        None => NodeKind::Directory,
    }
}

fn kind_of(is_file: bool) -> NodeKind
    ensures { result ≡ kind_if is_file }
{
    if is_file {
        NodeKind::File
    } else {
        NodeKind::Directory
    }
}

/// The record of the node of a name, under another one.
fn moved_record(tree: &Tree, dir: u64, name: &[u8], to: u64, to_name: Name) -> NodeRecord
    ensures { result ≡ record { id = id_found (named tree.now.tree.nodes dir name.now); parent = to; kind = kind_found (named tree.now.tree.nodes dir name.now); name = to_name } }
{
    NodeRecord {
        id: id_at(tree, dir, name),
        parent: to,
        kind: kind_at(tree, dir, name),
        name: to_name,
    }
}

/// RENAME to a name that is free.
#[tactic(auto, using(crate::proofs::Stepping::by_move_free))]
fn move_free<S: Store>(
    tree: &mut Tree,
    store: &mut S,
    dir: u64,
    name: &[u8],
    to: u64,
    to_name: NamePair,
    held: Reservation,
    moved: Changed,
) -> Result<Changed, Status>
    requires plan { rename_plan tree.old.tree held dir name.now to to_name ≡ Ok (Free moved) }
    requires spare { 1 ≤ S.spare store.old }
    ensures done { IsStep (S.faults store.old) (S.faults store.new) tree.old.tree (rename tree.old.tree held dir name.now to to_name) (tree.new.tree, result) }
    ensures keeps { Keeps (S.records store.old) tree.old.tree (S.records store.new) tree.new.tree }
    ensures spare { S.spare store.old ≤ S.spare store.new + 1 }
    ensures room { tree.old.room ≤ tree.new.room }
    ensures later { S.faults store.old ≤ S.faults store.new }
{
    // The contract alone names it.
    let _moved = moved;
    let (to_name, copy) = to_name.split();
    let node = moved_record(tree, dir, name, to, copy);
    let head = tree.head_changed(1);
    if ask(store, head, RecordChange::Node(node), None) {
        return Err(Status::Io);
    }
    tree.rename(dir, name, to, to_name, held)
}

/// RENAME to the name of another node, which goes.
#[tactic(auto, using(crate::proofs::Stepping::by_move_over))]
fn move_over<S: Store>(
    tree: &mut Tree,
    store: &mut S,
    dir: u64,
    name: &[u8],
    to: u64,
    to_name: NamePair,
    held: Reservation,
    moved: Changed,
) -> Result<Changed, Status>
    requires plan { rename_plan tree.old.tree held dir name.now to to_name ≡ Ok (Over moved) }
    requires spare { 2 ≤ S.spare store.old }
    ensures done { IsStep (S.faults store.old) (S.faults store.new) tree.old.tree (rename tree.old.tree held dir name.now to to_name) (tree.new.tree, result) }
    ensures keeps { Keeps (S.records store.old) tree.old.tree (S.records store.new) tree.new.tree }
    ensures spare { S.spare store.old ≤ S.spare store.new + 2 }
    ensures room { tree.old.room ≤ tree.new.room }
    ensures later { S.faults store.old ≤ S.faults store.new }
{
    // The contract alone names it.
    let _moved = moved;
    let (to_name, copy) = to_name.split();
    let node = moved_record(tree, dir, name, to, copy);
    let gone = id_at(tree, to, to_name.as_slice());
    let head = tree.head_changed(2);
    if ask(
        store,
        head,
        RecordChange::Drop(gone),
        Some(RecordChange::Node(node)),
    ) {
        return Err(Status::Io);
    }
    tree.rename(dir, name, to, to_name, held)
}

/// RENAME, once nothing blocks it. It needs two places in the store.
#[tactic(auto, using(crate::proofs::Stepping::by_rename))]
pub fn rename<S: Store>(
    tree: &mut Tree,
    store: &mut S,
    dir: u64,
    name: &[u8],
    to: u64,
    to_name: NamePair,
    held: Reservation,
) -> Result<Changed, Status>
    requires spare { 2 ≤ S.spare store.old }
    ensures done { IsStep (S.faults store.old) (S.faults store.new) tree.old.tree (rename tree.old.tree held dir name.now to to_name) (tree.new.tree, result) }
    ensures keeps { Keeps (S.records store.old) tree.old.tree (S.records store.new) tree.new.tree }
    ensures spare { S.spare store.old ≤ S.spare store.new + 2 }
    ensures room { tree.old.room ≤ tree.new.room }
    ensures later { S.faults store.old ≤ S.faults store.new }
{
    match tree.plan_rename(dir, name, to, to_name.as_slice(), held) {
        Ok(Planned::Nothing(there)) => Ok(there),
        Ok(Planned::Free(moved)) => { move_free(tree, store, dir, name, to, to_name, held, moved) }
        Ok(Planned::Over(moved)) => { move_over(tree, store, dir, name, to, to_name, held, moved) }
        Err(status) => Err(status),
    }
}

/// A file gets another content, once nothing blocks it. It needs one place in the store, which is
/// another owner of the same bytes.
#[tactic(auto, using(crate::proofs::Stepping::by_replace))]
pub fn replace<S: Store>(
    tree: &mut Tree,
    store: &mut S,
    id: u64,
    content: Content,
    copy: SharedBytes,
    held: Reservation,
) -> Result<Changed, Status>
    requires copy { copy ≡ content }
    requires spare { 1 ≤ S.spare store.old }
    ensures done { IsStep (S.faults store.old) (S.faults store.new) tree.old.tree (replace tree.old.tree held id content) (tree.new.tree, result) }
    ensures keeps { Keeps (S.records store.old) tree.old.tree (S.records store.new) tree.new.tree }
    ensures spare { S.spare store.old ≤ S.spare store.new + 1 }
    ensures room { tree.old.room ≤ tree.new.room }
    ensures later { S.faults store.old ≤ S.faults store.new }
{
    match tree.plan_replace(id, content.len() as u64, held) {
        Ok(version) => {
            let new = ContentRecord {
                id,
                version,
                bytes: copy,
            };
            let head = tree.head_changed(1);
            if ask(store, head, RecordChange::Content(new), None) {
                return Err(Status::Io);
            }
            tree.replace(id, content, held)
        }
        Err(status) => Err(status),
    }
}
