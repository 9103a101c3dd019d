//! A table of nodes that come all at once, in any order: `with_nodes` in `specs/Nodes.antt`, and
//! what they are on the way to it in `specs/Risen.antt`.

ghost use Rattle.std.specs.Prelude.{◌≡◌, ◌<◌, [], map, IfOk};
ghost use Rattle.std.specs.List.{AllByRecursion};
ghost use Rattle.tree_nodes.specs.Nodes.{with_nodes, AreApart};
ghost use Rattle.tree_nodes.specs.Risen.{keyed, risen_with};
ghost use Rattle.tree_nodes.specs.View.{nodes_of, IsSound};

use crate::node::Node;
use crate::table::Table;
use std::alloc::{AllocError, Global};
use std::collections::BTreeMap;

/// The nodes under their ids.
fn under_ids(alloc: Global, nodes: Vec<Node>) -> Result<BTreeMap<u64, Node>, AllocError>
    requires { AreApart nodes.items }
    ensures { IfOk result (λ m. m.entries ≡ map keyed (risen_with [] nodes.items)) }
{
    let mut by_ids = BTreeMap::new(alloc);
    for node in nodes {
        drop(by_ids.insert(node.id, node)?);
    }
    Ok(by_ids)
}

/// A table of these nodes, of which no two have one id or one name: they are added by rising ids.
/// The one error is running out of memory, as which 2^32 nodes or more count too.
pub fn from_list(alloc: Global, nodes: Vec<Node>, next: u64) -> Result<Table, AllocError>
    requires apart { AreApart nodes.items }
    requires below { AllByRecursion (λ n. n.id < next) nodes.items }
    ensures nodes { IfOk result (λ t. nodes_of t ≡ with_nodes [] nodes.items) }
    ensures sound { IfOk result IsSound }
    ensures next { IfOk result (λ t. t.next ≡ next) }
{
    let count = nodes.len();
    if count > u32::MAX as usize {
        return Err(AllocError);
    }
    let by_ids = under_ids(alloc, nodes)?;
    let mut table = Table::new(alloc, 0);
    table.reserve(count as u32)?;
    for node in by_ids.into_values() {
        table.insert(node);
    }
    table.next = next;
    Ok(table)
}
