//! What an id and a name stand for, or the status that tells why they stand for nothing, and which
//! directory is below which (`specs/Tree.antt`). None of this takes memory. What is said to be within
//! the bounds of a tree (`AreBounded`, `specs/View.antt`) fits into the fields of an answer.

ghost use Rattle.std.specs.Prelude.{◌≡◌, Some, IfOk};
ghost use Rattle.std.specs.Option.{option_copied};
ghost use Rattle.tree_nodes.specs.Nodes.{named, with_id};
ghost use Rattle.tree_reading.specs.Tree.{node_of, directory_or, file_or, directory_of, or_no_entry, or_taken, is_directory, is_within};
ghost use Rattle.tree_reading.specs.View.{lent, AreBounded, IsNodeBounded};

use tree_nodes::node::{Body, Node};
use tree_nodes::nodes::Nodes;
use xdr_codec::status::Status;

/// Whether a node is a directory.
pub fn is_directory(node: &Node) -> bool
    ensures { result ≡ is_directory node.now.body }
{
    match node.body {
        Body::Directory => true,
        Body::File(_) => false,
    }
}

/// The node with the id.
pub fn node_of(nodes: &Nodes, id: u64) -> Result<&Node, Status>
    ensures exact { lent result ≡ node_of nodes.now.nodes id }
    ensures there { IfOk result (λ n. with_id nodes.now.nodes id ≡ Some n.now) }
{
    match nodes.with_id(id) {
        Some(node) => Ok(node),
        None => Err(Status::Stale),
    }
}

/// The node, if it is a directory.
pub fn directory_or(node: &Node, otherwise: Status) -> Result<&Node, Status>
    ensures exact { lent result ≡ directory_or otherwise node.now }
    ensures same { IfOk result (λ n. n.now ≡ node.now) }
{
    if is_directory(node) {
        Ok(node)
    } else {
        Err(otherwise)
    }
}

/// The node, if it is a file.
pub fn file_or(node: &Node, otherwise: Status) -> Result<&Node, Status>
    ensures exact { lent result ≡ file_or otherwise node.now }
    ensures same { IfOk result (λ n. n.now ≡ node.now) }
{
    if is_directory(node) {
        Err(otherwise)
    } else {
        Ok(node)
    }
}

/// The directory with the id.
pub fn directory_of(nodes: &Nodes, id: u64) -> Result<&Node, Status>
    ensures { lent result ≡ directory_of nodes.now.nodes id }
{
    let node = node_of(nodes, id)?;
    directory_or(node, Status::NotDir)
}

/// The node of a name.
pub fn found<'a>(nodes: &'a Nodes, dir: u64, name: &[u8]) -> Result<&'a Node, Status>
    ensures exact { lent result ≡ or_no_entry (named nodes.now.nodes dir name.now) }
    ensures there { IfOk result (λ n. named nodes.now.nodes dir name.now ≡ Some n.now) }
{
    match nodes.named(dir, name) {
        Some(node) => Ok(node),
        None => Err(Status::NoEnt),
    }
}

/// Refuses a name that is taken.
pub fn or_taken(node: Option<&Node>) -> Result<(), Status>
    ensures { result ≡ or_taken (option_copied node.entry) }
{
    match node {
        Some(_) => Err(Status::Exist),
        None => Ok(()),
    }
}

/// Whether a directory is another one, or is below it: whether going up from it comes there, in as
/// many steps as there are nodes at the most.
pub fn is_within(nodes: &Nodes, top: u64, id: u64) -> bool
    ensures { result ≡ is_within nodes.now.nodes top id }
{
    let mut left = nodes.len();
    let mut at = id;
    'climb: while left > 0 {
        if at == top {
            return true;
        }
        match nodes.with_id(at) {
            Some(node) => at = node.parent,
            None => return false,
        }
        left -= 1;
    }
    at == top
}

/// The node of an id, which is within the bounds of a tree.
pub fn known(nodes: &Nodes, changes: u64, id: u64) -> Result<&Node, Status>
    requires { AreBounded nodes.now changes }
    ensures exact { lent result ≡ node_of nodes.now.nodes id }
    ensures bounded { IfOk result (λ n. IsNodeBounded nodes.now.next changes n.now) }
{
    // The contract alone names it.
    let _changes = changes;
    node_of(nodes, id)
}

/// The directory of an id, which is within the bounds of a tree.
pub fn directory_within(nodes: &Nodes, changes: u64, id: u64) -> Result<&Node, Status>
    requires { AreBounded nodes.now changes }
    ensures exact { lent result ≡ directory_of nodes.now.nodes id }
    ensures bounded { IfOk result (λ n. IsNodeBounded nodes.now.next changes n.now) }
{
    let node = known(nodes, changes, id)?;
    directory_or(node, Status::NotDir)
}

/// The node of a name, which is within the bounds of a tree.
pub fn named_within<'a>(
    nodes: &'a Nodes,
    changes: u64,
    dir: u64,
    name: &[u8],
) -> Result<&'a Node, Status>
    requires { AreBounded nodes.now changes }
    ensures exact { lent result ≡ or_no_entry (named nodes.now.nodes dir name.now) }
    ensures bounded { IfOk result (λ n. IsNodeBounded nodes.now.next changes n.now) }
{
    // The contract alone names it.
    let _changes = changes;
    found(nodes, dir, name)
}
