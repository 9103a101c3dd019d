//! The nodes of a tree: their one public face, by `specs/Nodes.antt`.

ghost use Rattle.std.specs.Prelude.{◌≡◌, ℕ, ◌+◌, ◌-◌, ◌<◌, ◌^◌, ◌≤◌, [], ◌∷◌, ◌==◌, Option, Some, None, IfOk, OnOk, OnErr, IsSome, length, take, drop};
ghost use Rattle.std.specs.List.{slice_get, AllByRecursion};
ghost use Rattle.std.specs.Option.{option_copied};
ghost use Rattle.tree_nodes.specs.declared.node.Node.{Node};
ghost use Rattle.tree_nodes.specs.declared.node.Body.TheVariants.{File};
ghost use Rattle.tree_nodes.specs.Nodes.{named, with_node, with_nodes, AreApart, without, with_id, versioned, changed, names};

use crate::content::Content;
use crate::listed;
use crate::node::Node;
use crate::table::{self, Table};
use lb_base::items::Name;
use std::alloc::{AllocError, Global};
use std::marker::Model;

/// Nodes with ids and names of their own. By an id and by a name one is found in a time that goes
/// with the logarithm of their number; a node that is added, removed or renamed moves some numbers
/// (of four bytes) of one block in the order, and one of each block behind that.
pub struct Nodes {
    table: Table,
}

impl Drop for Nodes {
    fn drop(self) {
        let Nodes { table } = self;
        drop(table);
    }
}

impl Model for Nodes {
    ghost use Rattle.tree_nodes.specs.View.{NodesState, nodes_of, room_of, IsSound};

    ghost Value = { NodesState };

    ghost view = { λ n. record { nodes = nodes_of n.table; next = n.table.next; room = room_of n.table } };

    ghost invariant = { λ n. IsSound n.table };
}

impl Nodes {
    /// No nodes, with room for none. The ids below `next` are never given.
    pub fn new(alloc: Global, next: u64) -> Nodes
        ensures nodes { result.nodes ≡ [] }
        ensures next { result.next ≡ next }
    {
        Nodes {
            table: Table::new(alloc, next),
        }
    }

    /// These nodes, of which no two have one id or one name, in their order. The ids below `next` are
    /// never given. The one error is running out of memory, as which 2^32 nodes or more count too.
    pub fn from_list(alloc: Global, nodes: Vec<Node>, next: u64) -> Result<Nodes, AllocError>
        requires apart { AreApart nodes.items }
        requires below { AllByRecursion (λ n. n.id < next) nodes.items }
        ensures nodes { IfOk result (λ n. n.nodes ≡ with_nodes [] nodes.items) }
        ensures next { IfOk result (λ n. n.next ≡ next) }
    {
        let table = listed::from_list(alloc, nodes, next)?;
        Ok(Nodes { table })
    }

    /// The id that is given next, at the least.
    pub fn next(&self) -> u64
        ensures { result ≡ self.now.next }
    {
        self.table.next
    }

    /// How many nodes there are.
    pub fn len(&self) -> usize
        ensures { result ≡ length self.now.nodes }
    {
        table::len(&self.table.slots, &self.table.order)
    }

    /// Whether there are none.
    pub fn is_empty(&self) -> bool
        ensures { result ≡ (length self.now.nodes == 0) }
    {
        self.len() == 0
    }

    /// The node with the id. It takes no memory.
    pub fn with_id(&self, id: u64) -> Option<&Node>
        ensures { option_copied result ≡ with_id self.now.nodes id }
    {
        table::with_id(&self.table.slots, id)
    }

    /// The node with the name in the directory. It takes no memory.
    pub fn named(&self, dir: u64, name: &[u8]) -> Option<&Node>
        ensures { option_copied result ≡ named self.now.nodes dir name.now }
    {
        table::named(&self.table.slots, &self.table.order, dir, name)
    }

    /// The node at a place in the order.
    pub fn at(&self, place: usize) -> Option<&Node>
        ensures { option_copied result ≡ slice_get self.now.nodes place }
    {
        table::node_at(&self.table.slots, &self.table.order, place)
    }

    /// From which place on, and up to which one, the nodes of a directory stand. It takes no memory.
    pub fn places(&self, dir: u64) -> (usize, usize)
        requires { dir < 2 ^ 64 - 1 }
        ensures names { names self.now.nodes dir ≡ take (result.1 - result.0) (drop result.0 self.now.nodes) }
        ensures rises { result.0 ≤ result.1 }
        ensures within { result.1 ≤ length self.now.nodes }
        ensures count { length (names self.now.nodes dir) ≡ result.1 - result.0 }
    {
        table::places(&self.table.slots, &self.table.order, dir)
    }

    /// Makes room for so many nodes more. The one error is running out of memory, as which 2^32 nodes or more
    /// count too.
    pub fn reserve(&mut self, count: u32) -> Result<(), AllocError>
        ensures room { OnOk result (count ≤ self.new.room) }
        ensures more { self.old.room ≤ self.new.room }
        ensures rest { self.new ≡ record self.old { room = self.new.room } }
    {
        self.table.reserve(count)
    }

    /// Adds a node, whose id is to be new and its name not taken. It takes no memory.
    pub fn insert(&mut self, node: Node)
        requires id { (self.old.next ≤ node.id) × (node.id < 2 ^ 64 - 1) }
        requires fresh { named self.old.nodes node.parent node.name ≡ None }
        requires room { 0 < self.old.room }
        ensures done { self.new ≡ record self.old { nodes = with_node self.old.nodes node; next = node.id + 1; room = self.new.room } }
        ensures room { self.old.room ≤ self.new.room + 1 }
    {
        self.table.insert(node)
    }

    /// Takes out the node of a name. It takes no memory.
    pub fn remove(&mut self, dir: u64, name: &[u8]) -> Node
        requires there { IsSome (named self.old.nodes dir name.now) }
        ensures node { named self.old.nodes dir name.now ≡ Some result }
        ensures done { self.new ≡ record self.old { nodes = without self.old.nodes result.id; room = self.new.room } }
        ensures gone { named self.new.nodes dir name.now ≡ None }
        ensures room { self.old.room ≤ self.new.room }
    {
        let place = table::place_named(&self.table.slots, &self.table.order, dir, name);
        self.table.remove(place)
    }

    /// Gives the node of a name another directory and name, which is not to be taken. It takes no
    /// memory.
    pub fn rename(&mut self, dir: u64, name: &[u8], to: u64, to_name: Name)
        requires there { IsSome (named self.old.nodes dir name.now) }
        requires fresh { named self.old.nodes to to_name ≡ None }
        ensures done { (n : Node) → named self.old.nodes dir name.now ≡ Some n
            → self.new ≡ record self.old {
              nodes = with_node (without self.old.nodes n.id)
                  (record n { parent = to; name = to_name });
              room = self.new.room;
            } }
        ensures room { self.old.room ≤ self.new.room }
    {
        let place = table::place_named(&self.table.slots, &self.table.order, dir, name);
        self.table.rename(place, to, to_name)
    }

    /// Gives the node of an id another version, if there is one. It takes no memory.
    pub fn set_version(&mut self, id: u64, version: u64)
        ensures done { self.new ≡ record self.old { nodes = versioned self.old.nodes id version; room = self.new.room } }
        ensures room { self.old.room ≤ self.new.room }
    {
        self.table.set_version(id, version)
    }

    /// Gives the node of an id another version and content, as a file. It takes no memory.
    pub fn set_content(&mut self, id: u64, version: u64, content: Content)
        requires there { IsSome (with_id self.old.nodes id) }
        ensures done { self.new ≡ record self.old { nodes = changed self.old.nodes id (λ n. record n { version = version; body = File content }); room = self.new.room } }
        ensures room { self.old.room ≤ self.new.room }
    {
        self.table.set_content(id, version, content)
    }
}
