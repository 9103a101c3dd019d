//! A tree, and what its changes make of it: the trees of `specs/Step.antt`, and what always holds of
//! one (`specs/State.antt`).

ghost use Rattle.std.specs.Prelude.{◌≡◌, ◌==◌, false, ◌+◌, ◌-◌, ◌<◌, ◌≤◌, Some, None, IsSome, IfOk, length};
ghost use Rattle.std.specs.Option.{option_copied};
ghost use Rattle.tree_nodes.specs.Nodes.{named, with_id, without, versioned};
ghost use Rattle.tree_nodes.specs.declared.node.Node.{Node};
ghost use Rattle.tree_nodes.specs.declared.node.Body.TheVariants.{File};
ghost use Rattle.tree_reading.specs.Tree.{empty, content_of, contents_size, size_in, changes_most, file_most, tree_most};
ghost use Rattle.file_tree.specs.Step.{made, removed, moved, moved_at, replaced};
ghost use Rattle.file_tree.specs.State.{state_of, IsState};
ghost use Rattle.tree_reading.specs.View.{tree_of};
ghost use Rattle.file_tree.specs.View.{IsWithinLimits};

use lb_base::items::Name;
use server_rules::tree::changes_after;
use std::alloc::{AllocError, Global};
use tree_nodes::content::Content;
use tree_nodes::node::{Body, Node};
use tree_nodes::nodes::Nodes;

/// The nodes of a tree, how many changes were ever made, and how many bytes all contents have.
#[derive(Drop)]
pub struct TreeState {
    pub nodes: Nodes,
    pub changes: u64,
    pub bytes: u64,
    pub alloc: Global,
}

/// How many bytes a node contains.
pub fn size_of(node: &Node) -> u64
    ensures { result ≡ length (content_of node.now.body) }
{
    match &node.body {
        Body::Directory => 0,
        Body::File(content) => content.len() as u64,
    }
}

impl TreeState {
    /// Adds a new node with no content.
    pub fn make(&mut self, node: Node)
        requires state { IsState self.old }
        requires id { node.id ≡ self.old.nodes.next }
        requires count { self.old.changes + 1 ≤ changes_most }
        requires version { node.version ≤ self.old.changes + 1 }
        requires empty { length (content_of node.body) ≡ 0 }
        requires fresh { named self.old.nodes.nodes node.parent node.name ≡ None }
        requires room { 0 < self.old.nodes.room }
        ensures made { state_of self.new ≡ made (state_of self.old) node }
        ensures state { IsState self.new }
        ensures room { self.old.nodes.room ≤ self.new.nodes.room + 1 }
    {
        let dir = node.parent;
        self.changes = changes_after(self.changes, 1);
        self.nodes.insert(node);
        self.nodes.set_version(dir, self.changes);
    }

    /// Takes the node of a name out of the nodes.
    fn clear(&mut self, dir: u64, name: &[u8])
        requires state { IsState self.old }
        requires there { IsSome (named self.old.nodes.nodes dir name.now) }
        ensures cleared { (n : Node) → named self.old.nodes.nodes dir name.now ≡ Some n
            → self.new.nodes
            ≡ record self.old.nodes {
              nodes = without self.old.nodes.nodes n.id;
              room = self.new.nodes.room;
            } }
        ensures changes { self.new.changes ≡ self.old.changes }
        ensures gone { named self.new.nodes.nodes dir name.now ≡ None }
        ensures state { IsState self.new }
        ensures room { self.old.nodes.room ≤ self.new.nodes.room }
    {
        let gone = self.nodes.remove(dir, name);
        self.bytes -= drop_node(gone);
    }

    /// Counts a change of the names of a directory.
    fn count(&mut self, dir: u64)
        requires state { IsState self.old }
        requires count { self.old.changes + 1 ≤ changes_most }
        ensures counted { state_of self.new ≡ record (state_of self.old) { nodes = versioned self.old.nodes.nodes dir (self.old.changes + 1); changes = self.old.changes + 1 } }
        ensures state { IsState self.new }
        ensures room { self.old.nodes.room ≤ self.new.nodes.room }
    {
        self.changes = changes_after(self.changes, 1);
        self.nodes.set_version(dir, self.changes);
    }

    /// Removes the node of a name.
    pub fn take_away(&mut self, dir: u64, name: &[u8])
        requires state { IsState self.old }
        requires count { self.old.changes + 1 ≤ changes_most }
        requires there { IsSome (named self.old.nodes.nodes dir name.now) }
        ensures removed { (n : Node) → named self.old.nodes.nodes dir name.now ≡ Some n → state_of self.new ≡ removed (state_of self.old) dir n.id }
        ensures state { IsState self.new }
        ensures room { self.old.nodes.room ≤ self.new.nodes.room }
    {
        self.clear(dir, name);
        self.count(dir);
    }

    /// Moves the node of a name to another one that is free, and counts so many changes.
    fn shift(&mut self, dir: u64, name: &[u8], to: u64, to_name: Name, more: u64)
        requires state { IsState self.old }
        requires count { (self.old.changes + more ≤ changes_most) × (0 < more) }
        requires there { IsSome (named self.old.nodes.nodes dir name.now) }
        requires fresh { named self.old.nodes.nodes to to_name ≡ None }
        ensures moved { (n : Node) → named self.old.nodes.nodes dir name.now ≡ Some n
            → state_of self.new ≡ moved_at
            (state_of self.old) dir n self.old.nodes.nodes to to_name (self.old.changes + more) }
        ensures state { IsState self.new }
        ensures room { self.old.nodes.room ≤ self.new.nodes.room }
    {
        self.changes = changes_after(self.changes, more);
        self.nodes.rename(dir, name, to, to_name);
        self.nodes.set_version(dir, self.changes);
        self.nodes.set_version(to, self.changes);
    }

    /// Gives the node of a name another one that is free.
    pub fn move_free(&mut self, dir: u64, name: &[u8], to: u64, to_name: Name)
        requires state { IsState self.old }
        requires count { self.old.changes + 1 ≤ changes_most }
        requires there { IsSome (named self.old.nodes.nodes dir name.now) }
        requires fresh { named self.old.nodes.nodes to to_name ≡ None }
        ensures moved { (n : Node) → named self.old.nodes.nodes dir name.now ≡ Some n → state_of self.new ≡ moved (state_of self.old) dir n None to to_name }
        ensures state { IsState self.new }
        ensures room { self.old.nodes.room ≤ self.new.nodes.room }
    {
        self.shift(dir, name, to, to_name, 1)
    }

    /// Gives the node of a name that of another node, which goes.
    pub fn move_over(&mut self, dir: u64, name: &[u8], to: u64, to_name: Name)
        requires state { IsState self.old }
        requires count { self.old.changes + 2 ≤ changes_most }
        requires there { IsSome (named self.old.nodes.nodes dir name.now) }
        requires over { IsSome (named self.old.nodes.nodes to to_name) }
        requires other { (n m : Node) → named self.old.nodes.nodes dir name.now ≡ Some n → named self.old.nodes.nodes to to_name ≡ Some m → (n.id == m.id) ≡ false }
        ensures moved { (n m : Node) → named self.old.nodes.nodes dir name.now ≡ Some n
            → named self.old.nodes.nodes to to_name ≡ Some m
            → state_of self.new ≡ moved (state_of self.old) dir n (Some m) to to_name }
        ensures state { IsState self.new }
        ensures room { self.old.nodes.room ≤ self.new.nodes.room }
    {
        self.clear(to, to_name.as_slice());
        self.shift(dir, name, to, to_name, 2)
    }

    /// Gives the file of an id another content, of which it is told that it has room.
    pub fn refill(&mut self, id: u64, version: u64, content: Content)
        requires state { IsState self.old }
        requires count { self.old.changes + 1 ≤ changes_most }
        requires there { IsSome (with_id self.old.nodes.nodes id) }
        requires version { version ≤ self.old.changes + 1 }
        requires short { length content ≤ file_most }
        requires small { contents_size self.old.nodes.nodes + length content ≤ tree_most }
        ensures replaced { state_of self.new ≡ replaced (state_of self.old) id version content }
        ensures state { IsState self.new }
        ensures room { self.old.nodes.room ≤ self.new.nodes.room }
    {
        self.bytes -= self.size_at(id);
        self.bytes += content.len() as u64;
        self.changes += 1;
        self.nodes.set_content(id, version, content);
    }

    /// How many bytes the node of an id contains.
    fn size_at(&self, id: u64) -> u64
        ensures { result ≡ size_in (with_id self.now.nodes.nodes id) }
    {
        size_in(self.nodes.with_id(id))
    }
}

/// How many bytes a node contained that goes.
fn drop_node(node: Node) -> u64
    ensures { result ≡ length (content_of node.body) }
{
    size_of(&node)
}

/// How many bytes the nodes contain.
#[tactic(auto, using(crate::proofs::lemmas::Limits::by_bytes_in))]
fn bytes_in(nodes: &Nodes) -> u64
    requires { contents_size nodes.now.nodes ≤ tree_most }
    ensures { result ≡ contents_size nodes.now.nodes }
{
    let mut bytes = 0;
    for place in 0..nodes.len() {
        bytes += size_in(nodes.at(place));
    }
    bytes
}

/// How many bytes a node contains, if there is one.
fn size_in(node: Option<&Node>) -> u64
    ensures { result ≡ size_in (option_copied node.entry) }
{
    match node {
        Some(node) => size_of(node),
        None => 0,
    }
}

/// A tree of these nodes.
pub fn of_nodes(alloc: Global, nodes: Nodes, changes: u64) -> TreeState
    requires { IsWithinLimits nodes changes }
    ensures tree { state_of result ≡ tree_of nodes changes }
    ensures state { IsState result }
{
    let bytes = bytes_in(&nodes);
    TreeState {
        nodes,
        changes,
        bytes,
        alloc,
    }
}

/// The root alone. The one error is running out of memory.
pub fn root_alone(alloc: Global) -> Result<TreeState, AllocError>
    ensures tree { IfOk result (λ s. state_of s ≡ empty) }
    ensures state { IfOk result IsState }
{
    let mut nodes = Nodes::new(alloc, 1);
    nodes.reserve(1)?;
    nodes.insert(Node {
        id: 1,
        parent: 0,
        name: Name::new(alloc),
        version: 0,
        body: Body::Directory,
    });
    Ok(TreeState {
        nodes,
        changes: 0,
        bytes: 0,
        alloc,
    })
}
