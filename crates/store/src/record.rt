//! What a store keeps, and how it is changed. `specs/Records.antt` states what each change makes.

use lb_base::items::Name;
use shared_bytes::SharedBytes;

/// What a node is.
#[derive(Clone, Copy, Drop)]
pub enum NodeKind {
    File,
    Directory,
}

/// How far a tree has come.
#[derive(Clone, Copy, Drop)]
pub struct Head {
    /// The id that the next node gets.
    pub next: u64,
    /// How many changes were ever made.
    pub changes: u64,
}

/// A node: where it stands, and under which name.
#[derive(Drop)]
pub struct NodeRecord {
    pub id: u64,
    /// The id of its directory.
    pub parent: u64,
    pub kind: NodeKind,
    pub name: Name,
}

/// What a file contains.
#[derive(Drop)]
pub struct ContentRecord {
    /// The file's id.
    pub id: u64,
    pub version: u64,
    /// Its bytes, which a tree may own too.
    pub bytes: SharedBytes,
}

/// A record that a store keeps.
#[derive(Drop)]
pub enum Kept {
    Head(Head),
    Node(NodeRecord),
    Content(ContentRecord),
}

/// A change of what a store keeps.
#[derive(Drop)]
pub enum RecordChange {
    /// A node takes the place of the one that has its id, or is added at the end.
    Node(NodeRecord),
    /// A content takes the place of the one that has its id, or is added at the end.
    Content(ContentRecord),
    /// The node and the content of this id go.
    Drop(u64),
}
