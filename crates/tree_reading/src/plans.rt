//! What the calls that change a tree will come to, or why they are refused (`specs/Plans.antt`). None
//! of this changes anything or takes memory.

ghost use Rattle.std.specs.Prelude.{◌≡◌, ◌+◌, ◌-◌, ◌<◌, ◌≤◌, ◌^◌, ◌==◌, IfOk, IfSome};
ghost use Rattle.std.specs.Option.{option_copied};
ghost use Rattle.tree_reading.specs.Tree.{contents_size, node_of};
ghost use Rattle.tree_reading.specs.Plans.{create_found, may_create, may_mkdir, may_remove, may_rmdir, planned_over, planned_found, rename_plan, may_replace_content, create_plan, remove_plan};
ghost use Rattle.tree_reading.specs.Plans.{rmdir_plan, replace_plan, is_same};
ghost use Rattle.tree_reading.specs.declared.call.CreateMode.TheVariants.{Guarded, Unchecked};
ghost use Rattle.tree_reading.specs.View.{lent, lent_option, tree_of, AreBounded, IsNodeBounded};

use crate::call::{Changed, CreateMode, Planned, Reservation};
use crate::finding::{self, named_within};
use crate::names::{spelt, undotted};
use crate::{answers, checks};
use tree_nodes::node::Node;
use tree_nodes::nodes::Nodes;
use xdr_codec::status::Status;

/// What CREATE finds where no name may be taken: nothing.
fn found_guarded(
    found: Option<&Node>,
    changes: u64,
    held: Reservation,
) -> Result<Option<&Node>, Status>
    ensures { lent_option result ≡ create_found changes held Guarded (option_copied found.entry) }
{
    finding::or_taken(found)?;
    checks::spared(changes, held, 1)?;
    Ok(None)
}

/// What CREATE finds where a file that has the name stays as it is.
fn found_unchecked(
    found: Option<&Node>,
    changes: u64,
    held: Reservation,
) -> Result<Option<&Node>, Status>
    ensures { lent_option result ≡ create_found changes held Unchecked (option_copied found.entry) }
{
    match found {
        None => {
            checks::spared(changes, held, 1)?;
            Ok(None)
        }
        Some(node) => Ok(Some(finding::file_or(node, Status::Exist)?)),
    }
}

/// What CREATE finds, or nothing, and it is to be made.
pub fn may_create<'a>(
    nodes: &'a Nodes,
    changes: u64,
    held: Reservation,
    dir: u64,
    name: &[u8],
    mode: CreateMode,
) -> Result<Option<&'a Node>, Status>
    ensures { lent_option result ≡ may_create (tree_of nodes.now changes) held dir name.now mode }
{
    let _dir = finding::directory_of(nodes, dir)?;
    spelt(name)?;
    undotted(name, Status::Inval, Status::Inval)?;
    match mode {
        CreateMode::Exclusive => Err(Status::NotSupp),
        CreateMode::Guarded => found_guarded(nodes.named(dir, name), changes, held),
        CreateMode::Unchecked => found_unchecked(nodes.named(dir, name), changes, held),
    }
}

/// Whether MKDIR may make a directory.
pub fn may_mkdir(
    nodes: &Nodes,
    changes: u64,
    held: Reservation,
    dir: u64,
    name: &[u8],
) -> Result<(), Status>
    ensures { result ≡ may_mkdir (tree_of nodes.now changes) held dir name.now }
{
    let _dir = finding::directory_of(nodes, dir)?;
    spelt(name)?;
    undotted(name, Status::Exist, Status::Exist)?;
    finding::or_taken(nodes.named(dir, name))?;
    checks::spared(changes, held, 1)
}

/// The file that REMOVE removes.
pub fn may_remove<'a>(
    nodes: &'a Nodes,
    changes: u64,
    held: Reservation,
    dir: u64,
    name: &[u8],
) -> Result<&'a Node, Status>
    requires { AreBounded nodes.now changes }
    ensures exact { lent result ≡ may_remove (tree_of nodes.now changes) held dir name.now }
    ensures bounded { IfOk result (λ n. IsNodeBounded nodes.now.next changes n.now) }
{
    let _dir = finding::directory_of(nodes, dir)?;
    spelt(name)?;
    undotted(name, Status::Inval, Status::Inval)?;
    let node = named_within(nodes, changes, dir, name)?;
    let file = finding::file_or(node, Status::IsDir)?;
    checks::spared(changes, held, 1)?;
    Ok(file)
}

/// The directory that RMDIR removes.
#[tactic(auto, using(crate::proofs::lemmas::Found::id_fits))]
pub fn may_rmdir<'a>(
    nodes: &'a Nodes,
    changes: u64,
    held: Reservation,
    dir: u64,
    name: &[u8],
) -> Result<&'a Node, Status>
    requires { AreBounded nodes.now changes }
    ensures exact { lent result ≡ may_rmdir (tree_of nodes.now changes) held dir name.now }
    ensures bounded { IfOk result (λ n. IsNodeBounded nodes.now.next changes n.now) }
{
    let _dir = finding::directory_of(nodes, dir)?;
    spelt(name)?;
    undotted(name, Status::Inval, Status::Exist)?;
    let node = named_within(nodes, changes, dir, name)?;
    let gone = finding::directory_or(node, Status::NotDir)?;
    checks::or_not_empty(nodes, gone)?;
    checks::spared(changes, held, 1)?;
    Ok(gone)
}

/// The file whose content is replaced by one of so many bytes, in a tree whose contents have that
/// many.
pub fn may_replace_content<'a>(
    nodes: &'a Nodes,
    changes: u64,
    bytes: u64,
    held: Reservation,
    id: u64,
    len: u64,
) -> Result<&'a Node, Status>
    requires bounded { AreBounded nodes.now changes }
    requires bytes { bytes ≡ contents_size nodes.now.nodes }
    ensures exact { lent result ≡ may_replace_content (tree_of nodes.now changes) held id len }
    ensures bounded { IfOk result (λ n. IsNodeBounded nodes.now.next changes n.now) }
{
    let node = finding::known(nodes, changes, id)?;
    let file = finding::file_or(node, Status::IsDir)?;
    checks::within_file(len)?;
    checks::spared(changes, held, 1)?;
    checks::spared_bytes(bytes, held, len)?;
    Ok(file)
}

/// What CREATE is answered, where nothing is to be made.
pub fn create(
    nodes: &Nodes,
    changes: u64,
    held: Reservation,
    dir: u64,
    name: &[u8],
    mode: CreateMode,
) -> Result<Option<Changed>, Status>
    ensures { result ≡ create_plan (tree_of nodes.now changes) held dir name.now mode }
{
    match may_create(nodes, changes, held, dir, name, mode)? {
        Some(node) => Ok(Some(answers::nothing(node))),
        None => Ok(None),
    }
}

/// What REMOVE is answered.
pub fn remove(
    nodes: &Nodes,
    changes: u64,
    held: Reservation,
    dir: u64,
    name: &[u8],
) -> Result<Changed, Status>
    requires { AreBounded nodes.now changes }
    ensures { result ≡ remove_plan (tree_of nodes.now changes) held dir name.now }
{
    let node = may_remove(nodes, changes, held, dir, name)?;
    Ok(answers::remove_done(node))
}

/// What RMDIR is answered.
pub fn rmdir(
    nodes: &Nodes,
    changes: u64,
    held: Reservation,
    dir: u64,
    name: &[u8],
) -> Result<Changed, Status>
    requires { AreBounded nodes.now changes }
    ensures { result ≡ rmdir_plan (tree_of nodes.now changes) held dir name.now }
{
    let node = may_rmdir(nodes, changes, held, dir, name)?;
    Ok(answers::remove_done(node))
}

/// The version that a file gets with a content of so many bytes.
pub fn replace(
    nodes: &Nodes,
    changes: u64,
    bytes: u64,
    held: Reservation,
    id: u64,
    len: u64,
) -> Result<u64, Status>
    requires bounded { AreBounded nodes.now changes }
    requires bytes { bytes ≡ contents_size nodes.now.nodes }
    ensures exact { result ≡ replace_plan (tree_of nodes.now changes) held id len }
    ensures version { IfOk result (λ v. v ≤ changes + 1) }
{
    let node = may_replace_content(nodes, changes, bytes, held, id, len)?;
    Ok(node.version + 1)
}

/// What RENAME comes to where the names stand for different nodes.
#[tactic(auto, using(crate::proofs::lemmas::Found::id_fits))]
fn rename_over(
    nodes: &Nodes,
    changes: u64,
    held: Reservation,
    node: &Node,
    found: Option<&Node>,
) -> Result<Planned, Status>
    requires bounded { AreBounded nodes.now changes }
    requires node { node.now.version < 2 ^ 32 }
    requires found { IfSome found (λ m. IsNodeBounded nodes.now.next changes m.now) }
    ensures { result ≡ planned_over (tree_of nodes.now changes) held node.now (option_copied found.entry) }
{
    match found {
        None => {
            checks::spared(changes, held, 1)?;
            Ok(Planned::Free(answers::move_free_done(node)))
        }
        Some(gone) => {
            checks::may_replace(nodes, node, gone)?;
            checks::spared(changes, held, 2)?;
            Ok(Planned::Over(answers::move_over_done(node, gone)))
        }
    }
}

/// Whether a name stands for this node.
fn is_same(node: &Node, found: Option<&Node>) -> bool
    ensures { result ≡ is_same node.now (option_copied found.entry) }
{
    match found {
        Some(found) => found.id == node.id,
        None => false,
    }
}

/// What RENAME comes to where the new name stands for a node, or for none.
fn rename_found(
    nodes: &Nodes,
    changes: u64,
    held: Reservation,
    node: &Node,
    to: u64,
    found: Option<&Node>,
) -> Result<Planned, Status>
    requires bounded { AreBounded nodes.now changes }
    requires node { node.now.version < 2 ^ 32 }
    requires found { IfSome found (λ m. IsNodeBounded nodes.now.next changes m.now) }
    ensures { result ≡ planned_found (tree_of nodes.now changes) held node.now to (option_copied found.entry) }
{
    if is_same(node, found) {
        return Ok(Planned::Nothing(answers::nothing(node)));
    }
    checks::or_within(nodes, node, to)?;
    rename_over(nodes, changes, held, node, found)
}

/// What RENAME comes to.
#[tactic(auto, using(crate::proofs::lemmas::Found::version_fits))]
pub fn rename(
    nodes: &Nodes,
    changes: u64,
    held: Reservation,
    dir: u64,
    name: &[u8],
    to: u64,
    to_name: &[u8],
) -> Result<Planned, Status>
    requires { AreBounded nodes.now changes }
    ensures { result ≡ rename_plan (tree_of nodes.now changes) held dir name.now to to_name.now }
{
    let from = finding::node_of(nodes, dir)?;
    let into = finding::node_of(nodes, to)?;
    let _from = finding::directory_or(from, Status::NotDir)?;
    let _into = finding::directory_or(into, Status::NotDir)?;
    spelt(name)?;
    undotted(name, Status::Inval, Status::Inval)?;
    spelt(to_name)?;
    undotted(to_name, Status::Inval, Status::Inval)?;
    let node = named_within(nodes, changes, dir, name)?;
    rename_found(nodes, changes, held, node, to, nodes.named(to, to_name))
}
