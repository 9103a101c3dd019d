//! What a tree opens with (`specs/Opening.antt`).

ghost use Rattle.std.specs.Prelude.{◌≡◌, ◌<◌, ◌+◌, ◌^◌, ◌≤◌, None, map, length, true, IfOk, OnOk, OnErr, Ok};
ghost use Rattle.tree_nodes.specs.Nodes.{named, with_node};
ghost use Rattle.tree_nodes.specs.declared.node.Body.TheVariants.{File, Directory};
ghost use Rattle.tree_reading.specs.Tree.{content_of, contents_size, file_most, tree_most};
ghost use Rattle.file_tree.specs.Opening.{may_open, counted_at, with_change, opened, opens};
ghost use Rattle.file_tree.specs.State.{state_of, IsState};
ghost use Rattle.file_tree.specs.View.{is_directory_at, counted_if};

use crate::state::{TreeState, size_of};
use lb_base::items::Name;
use limits::{FILE_MOST, TREE_MOST};
use std::alloc::AllocError;
use tree_nodes::content::Content;
use tree_nodes::node::{Body, Node};
use tree_nodes::nodes::Nodes;
use tree_reading::finding;
use tree_reading::names::{spelt, undotted};
use xdr_codec::status::Status;

/// A node is opened with an id below this.
const IDS_MOST: u64 = 1 << 63;

/// Why no node may be opened with a name in a directory.
pub fn may_open(nodes: &Nodes, dir: u64, name: &[u8]) -> Result<(), Status>
    ensures { result ≡ may_open nodes.now.nodes dir name.now }
{
    let _dir = finding::directory_of(nodes, dir)?;
    spelt(name)?;
    undotted(name, Status::Exist, Status::Exist)?;
    finding::or_taken(nodes.named(dir, name))
}

/// Whether a directory has the id.
fn is_directory_at(nodes: &Nodes, id: u64) -> bool
    ensures { result ≡ is_directory_at nodes.now.nodes id }
{
    match nodes.with_id(id) {
        Some(node) => finding::is_directory(node),
        None => false,
    }
}

impl TreeState {
    /// Adds a node that the tree opens with, if it may have it. The one error is running out of
    /// memory, as which a content past the limits counts too, and an id of 2^63 or more.
    pub fn open(&mut self, dir: u64, name: Name, body: Body) -> Result<(), AllocError>
        requires { IsState self.old }
        ensures ok { OnOk result (state_of self.new ≡ opens (state_of self.old) dir name body) }
        ensures err { OnErr result (state_of self.new ≡ state_of self.old) }
        ensures state { IsState self.new }
    {
        match may_open(&self.nodes, dir, name.as_slice()) {
            Err(_) => {
                drop(body);
                Ok(())
            }
            Ok(()) => match body {
                Body::Directory => self.open_directory(dir, name),
                Body::File(content) => self.open_file(dir, name, content),
            },
        }
    }

    /// Adds a directory.
    fn open_directory(&mut self, dir: u64, name: Name) -> Result<(), AllocError>
        requires state { IsState self.old }
        requires may { may_open self.old.nodes.nodes dir name ≡ Ok tt }
        ensures ok { OnOk result (state_of self.new ≡ opened (state_of self.old) dir name Directory) }
        ensures err { OnErr result (state_of self.new ≡ state_of self.old) }
        ensures state { IsState self.new }
    {
        let id = self.place()?;
        let version = self.changes;
        self.add(Node {
            id,
            parent: dir,
            name,
            version,
            body: Body::Directory,
        });
        Ok(())
    }

    /// Adds a file.
    fn open_file(&mut self, dir: u64, name: Name, content: Content) -> Result<(), AllocError>
        requires state { IsState self.old }
        requires may { may_open self.old.nodes.nodes dir name ≡ Ok tt }
        ensures ok { OnOk result (state_of self.new ≡ opened (state_of self.old) dir name (File content)) }
        ensures err { OnErr result (state_of self.new ≡ state_of self.old) }
        ensures state { IsState self.new }
    {
        if !self.has_room_for(content.len() as u64) {
            return Err(AllocError);
        }
        let id = self.place()?;
        self.count_first();
        self.add(Node {
            id,
            parent: dir,
            name,
            version: 1,
            body: Body::File(content),
        });
        Ok(())
    }

    /// Whether a content of so many bytes is within the limits.
    fn has_room_for(&self, len: u64) -> bool
        requires { IsState self.now }
        ensures short { result ≡ true → len ≤ file_most }
        ensures small { result ≡ true → contents_size self.now.nodes.nodes + len ≤ tree_most }
    {
        len <= FILE_MOST && self.bytes as u128 + len as u128 <= TREE_MOST as u128
    }

    /// The next id, with a place for its node. The one error is running out of memory.
    fn place(&mut self) -> Result<u64, AllocError>
        requires { IsState self.old }
        ensures tree { state_of self.new ≡ state_of self.old }
        ensures state { IsState self.new }
        ensures room { OnOk result (0 < self.new.nodes.room) }
        ensures id { IfOk result (λ id. (id ≡ self.old.nodes.next) × (id < 2 ^ 63)) }
    {
        let id = self.nodes.next();
        if id >= IDS_MOST {
            return Err(AllocError);
        }
        self.nodes.reserve(1)?;
        Ok(id)
    }

    /// Adds a node that has the next id.
    fn add(&mut self, node: Node)
        requires state { IsState self.old }
        requires id { node.id ≡ self.old.nodes.next }
        requires few { node.id < 2 ^ 63 }
        requires version { node.version ≤ self.old.changes }
        requires short { length (content_of node.body) ≤ file_most }
        requires small { contents_size self.old.nodes.nodes + length (content_of node.body) ≤ tree_most }
        requires fresh { named self.old.nodes.nodes node.parent node.name ≡ None }
        requires room { 0 < self.old.nodes.room }
        ensures added { state_of self.new ≡ record { nodes = with_node self.old.nodes.nodes node; next = self.old.nodes.next + 1; changes = self.old.changes } }
        ensures state { IsState self.new }
    {
        self.bytes += size_of(&node);
        self.nodes.insert(node);
    }

    /// Counts the first change, if none was.
    fn count_first(&mut self)
        requires { IsState self.old }
        ensures counted { state_of self.new ≡ with_change (state_of self.old) }
        ensures room { self.old.nodes.room ≤ self.new.nodes.room }
        ensures bytes { self.new.bytes ≡ self.old.bytes }
        ensures state { IsState self.new }
    {
        if self.changes == 0 {
            self.changes = 1;
            self.count_directories();
        }
    }

    /// Gives all directories the version 1.
    fn count_directories(&mut self)
        requires state { IsState self.old }
        requires one { 1 ≤ self.old.changes }
        ensures counted { self.new.nodes.nodes ≡ map (counted_at 1) self.old.nodes.nodes }
        ensures next { self.new.nodes.next ≡ self.old.nodes.next }
        ensures changes { self.new.changes ≡ self.old.changes }
        ensures bytes { self.new.bytes ≡ self.old.bytes }
        ensures room { self.old.nodes.room ≤ self.new.nodes.room }
        ensures state { IsState self.new }
    {
        let next = self.nodes.next();
        for id in 0..next {
            self.count_directory(id);
        }
    }

    /// Gives a directory the version 1, if one has the id.
    fn count_directory(&mut self, id: u64)
        requires state { IsState self.old }
        requires one { 1 ≤ self.old.changes }
        ensures counted { self.new.nodes.nodes ≡ counted_if (is_directory_at self.old.nodes.nodes id) self.old.nodes.nodes id }
        ensures next { self.new.nodes.next ≡ self.old.nodes.next }
        ensures changes { self.new.changes ≡ self.old.changes }
        ensures bytes { self.new.bytes ≡ self.old.bytes }
        ensures room { self.old.nodes.room ≤ self.new.nodes.room }
        ensures state { IsState self.new }
    {
        if is_directory_at(&self.nodes, id) {
            self.nodes.set_version(id, 1);
        }
    }
}
