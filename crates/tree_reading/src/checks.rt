//! Why a change is refused, check by check (`specs/Plans.antt`). None of this takes memory.

ghost use Rattle.std.specs.Prelude.{◌≡◌, ◌-◌, ◌<◌, ◌^◌, ◌==◌, length};
ghost use Rattle.tree_nodes.specs.Nodes.{names};
ghost use Rattle.tree_reading.specs.Plans.{spared, spared_bytes, within_file, or_not_empty, or_within, may_replace, is_node};

use crate::call::Reservation;
use crate::finding::{is_directory, is_within};
use crate::reading::Standing;
use limits::{FILE_MOST, TREE_MOST};
use server_rules::tree::{are_too_many, is_still};
use tree_nodes::node::Node;
use tree_nodes::nodes::Nodes;
use xdr_codec::status::Status;

/// Whether so many changes more may be made.
pub fn spared(changes: u64, held: Reservation, more: u64) -> Result<(), Status>
    ensures { result ≡ spared changes held more }
{
    if are_too_many(changes, held.entries, more) {
        return Err(Status::NoSpc);
    }
    Ok(())
}

/// Whether a content of so many bytes has room beside the bytes of a tree.
pub fn spared_bytes(bytes: u64, held: Reservation, len: u64) -> Result<(), Status>
    ensures { result ≡ spared_bytes bytes held len }
{
    if bytes as u128 + held.bytes as u128 + len as u128 > TREE_MOST as u128 {
        return Err(Status::NoSpc);
    }
    Ok(())
}

/// Whether a file may have so many bytes.
pub fn within_file(len: u64) -> Result<(), Status>
    ensures { result ≡ within_file len }
{
    if len > FILE_MOST {
        return Err(Status::FBig);
    }
    Ok(())
}

/// Whether a directory has no entries.
pub fn is_empty(nodes: &Nodes, dir: u64) -> bool
    requires { dir < 2 ^ 64 - 1 }
    ensures { result ≡ (length (names nodes.now.nodes dir) == 0) }
{
    let (start, end) = nodes.places(dir);
    end - start == 0
}

/// Refuses a directory that has entries.
pub fn or_not_empty(nodes: &Nodes, node: &Node) -> Result<(), Status>
    requires { node.now.id < 2 ^ 64 - 1 }
    ensures { result ≡ or_not_empty nodes.now.nodes node.now }
{
    if is_empty(nodes, node.id) {
        Ok(())
    } else {
        Err(Status::NotEmpty)
    }
}

/// Whether one node may go for another.
pub fn may_replace(nodes: &Nodes, node: &Node, gone: &Node) -> Result<(), Status>
    requires { gone.now.id < 2 ^ 64 - 1 }
    ensures { result ≡ may_replace nodes.now.nodes node.now gone.now }
{
    if is_directory(node) {
        if is_directory(gone) && is_empty(nodes, gone.id) {
            return Ok(());
        }
        return Err(Status::Exist);
    }
    if is_directory(gone) {
        return Err(Status::Exist);
    }
    Ok(())
}

/// Refuses a directory into itself, or below.
pub fn or_within(nodes: &Nodes, node: &Node, to: u64) -> Result<(), Status>
    ensures { result ≡ or_within nodes.now.nodes node.now to }
{
    if is_directory(node) && is_within(nodes, node.id, to) {
        return Err(Status::Inval);
    }
    Ok(())
}

/// Whether what a name stands for is the node of this id: one that waited is to find the node that
/// stood there when it came.
pub fn is_node(id: u64, found: Option<Standing>) -> bool
    ensures { result ≡ is_node id found }
{
    match found {
        Some(standing) => is_still(standing.id, id),
        None => false,
    }
}
