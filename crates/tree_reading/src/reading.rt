//! Attributes, LOOKUP, READ, contents and versions (`specs/Reading.antt`).

ghost use Rattle.std.specs.Prelude.{◌≡◌, ◌-◌, ◌<◌, ◌≤◌, ◌^◌, length, Ok, IfOk, IfSome};
ghost use Rattle.std.specs.Option.{option_copied};
ghost use Rattle.tree_nodes.specs.Nodes.{with_id};
ghost use Rattle.tree_reading.specs.Tree.{content_of, node_of, file_most};
ghost use Rattle.tree_reading.specs.View.{lent, lent_list, AreBounded, IsNodeBounded};
ghost use Rattle.tree_reading.specs.Reading.{time_of, file_attr, attr_of, attr, above, looked, lookup, piece_bytes, piece_of, read, content, chunks_in, chunks, version, standing_of, stands_for};
ghost use Rattle.tree_reading.specs.Reading.{Answers};

use crate::error::TreeError;
use crate::finding::{self, directory_within, known};
use crate::names::{is_dot, is_dot_dot, spelt};
use chunk_cut::chunk::Chunk;
use lb_base::items::Bytes;
use limits::PIECE_MOST;
use nfs3_calls::call::Piece;
use std::alloc::Global;
use tree_nodes::node::{Body, Node};
use tree_nodes::nodes::Nodes;
use xdr_codec::attr::{Attr, Kind, Time};
use xdr_codec::status::Status;

/// What LOOKUP found.
#[derive(Clone, Copy, Drop)]
pub struct Looked {
    /// The id of what the name stands for.
    pub id: u64,
    /// Its attributes.
    pub attr: Attr,
    /// The directory's attributes.
    pub dir: Attr,
}

/// What a name stands for.
#[derive(Clone, Copy, Drop)]
pub struct Standing {
    /// The id of the file or directory.
    pub id: u64,
    pub is_file: bool,
}

/// The time that shows a version.
fn time_of(version: u64) -> Time
    requires { version < 2 ^ 32 }
    ensures { result ≡ time_of version }
{
    Time {
        seconds: (version / 1_000_000_000) as u32,
        nanoseconds: (version % 1_000_000_000) as u32,
    }
}

/// The attributes of a node of this kind, of so many bytes or entries.
fn attr_with(kind: Kind, mode: u32, nlink: u32, id: u64, version: u64, size: u64) -> Attr
    requires { version < 2 ^ 32 }
    ensures { result ≡ record (file_attr id version size) { kind = kind; mode = mode; nlink = nlink } }
{
    let time = time_of(version);
    Attr {
        kind,
        mode,
        nlink,
        uid: 0,
        gid: 0,
        size,
        used: size,
        rdev_major: 0,
        rdev_minor: 0,
        fsid: 0x4C42_4653,
        fileid: id,
        atime: time,
        mtime: time,
        ctime: time,
    }
}

/// A node's attributes.
pub fn attr_of(nodes: &Nodes, node: &Node) -> Attr
    requires id { node.now.id < 2 ^ 64 - 1 }
    requires version { node.now.version < 2 ^ 32 }
    ensures { result ≡ attr_of nodes.now.nodes node.now }
{
    match &node.body {
        Body::Directory => {
            let (start, end) = nodes.places(node.id);
            let entries = (end - start) as u64;
            attr_with(Kind::Directory, 0o755, 2, node.id, node.version, entries)
        }
        Body::File(content) => {
            let size = content.len() as u64;
            attr_with(Kind::File, 0o644, 1, node.id, node.version, size)
        }
    }
}

/// The attributes of a node of a tree.
#[tactic(auto, using(crate::proofs::lemmas::Found::by_attr_within))]
fn attr_within(nodes: &Nodes, changes: u64, node: &Node) -> Attr
    requires bounded { AreBounded nodes.now changes }
    requires node { IsNodeBounded nodes.now.next changes node.now }
    ensures { result ≡ attr_of nodes.now.nodes node.now }
{
    // The contract alone names it.
    let _changes = changes;
    attr_of(nodes, node)
}

/// The attributes of an id's node. It takes no memory.
pub fn attr(nodes: &Nodes, changes: u64, id: u64) -> Result<Attr, Status>
    requires { AreBounded nodes.now changes }
    ensures { result ≡ attr nodes.now.nodes id }
{
    let node = known(nodes, changes, id)?;
    Ok(attr_within(nodes, changes, node))
}

/// The version of an id's node. It takes no memory.
pub fn version(nodes: &Nodes, id: u64) -> Result<u64, Status>
    ensures { result ≡ version nodes.now.nodes id }
{
    let node = finding::node_of(nodes, id)?;
    Ok(node.version)
}

/// The part of a content that a READ gives.
fn piece_bytes(content: &[u8], offset: u64, count: u32) -> &[u8]
    ensures { result.now ≡ piece_bytes content.now offset count }
{
    let start = offset.min(content.len() as u64) as usize;
    let rest = &content[start..];
    let count = rest.len().min(count.min(PIECE_MOST) as usize);
    &rest[..count]
}

/// The bytes of a node; none of a directory.
fn bytes_of(node: &Node) -> &[u8]
    ensures { result.now ≡ content_of node.now.body }
{
    match &node.body {
        Body::Directory => &[],
        Body::File(content) => content.as_slice(),
    }
}

/// What a READ gives of a file.
fn piece_of(
    alloc: Global,
    nodes: &Nodes,
    changes: u64,
    node: &Node,
    offset: u64,
    count: u32,
) -> Result<Piece, TreeError>
    requires bounded { AreBounded nodes.now changes }
    requires node { IsNodeBounded nodes.now.next changes node.now }
    ensures { Answers (Ok (piece_of nodes.now.nodes node.now offset count)) result }
{
    let content = bytes_of(node);
    let bytes = piece_bytes(content, offset, count);
    let rest = (content.len() as u64).saturating_sub(offset);
    let attr = attr_within(nodes, changes, node);
    let copy = Bytes::copy_of(alloc, bytes)?;
    Ok(Piece {
        attr: Some(attr),
        count: bytes.len() as u32,
        eof: rest <= bytes.len() as u64,
        bytes: copy,
    })
}

/// READ: a copy of the bytes from an offset on.
pub fn read(
    alloc: Global,
    nodes: &Nodes,
    changes: u64,
    id: u64,
    offset: u64,
    count: u32,
) -> Result<Piece, TreeError>
    requires { AreBounded nodes.now changes }
    ensures { Answers (read nodes.now.nodes id offset count) result }
{
    let node = known(nodes, changes, id)?;
    let file = finding::file_or(node, Status::Inval)?;
    piece_of(alloc, nodes, changes, file, offset, count)
}

/// The node of an id of a tree, if there is one.
pub fn node(nodes: &Nodes, changes: u64, id: u64) -> Option<&Node>
    requires { AreBounded nodes.now changes }
    ensures node { option_copied result ≡ with_id nodes.now.nodes id }
    ensures short { IfSome result (λ n. length (content_of n.now.body) ≤ file_most) }
{
    // The contract alone names it.
    let _changes = changes;
    nodes.with_id(id)
}

/// The bytes of a file.
pub fn file_bytes(nodes: &Nodes, id: u64) -> Result<&[u8], Status>
    ensures { lent_list result ≡ content nodes.now.nodes id }
{
    let node = finding::node_of(nodes, id)?;
    let file = finding::file_or(node, Status::IsDir)?;
    Ok(bytes_of(file))
}

/// The chunks of a file.
pub fn file_chunks(nodes: &Nodes, id: u64) -> Result<&[Chunk], Status>
    ensures { lent_list result ≡ chunks nodes.now.nodes id }
{
    let node = finding::node_of(nodes, id)?;
    chunks_in(node)
}

/// The chunks of a node, if it is a file.
fn chunks_in(node: &Node) -> Result<&[Chunk], Status>
    ensures { lent_list result ≡ chunks_in node.now }
{
    match &node.body {
        Body::Directory => Err(Status::IsDir),
        Body::File(content) => Ok(content.chunks()),
    }
}

fn standing_of(node: &Node) -> Standing
    ensures { result ≡ standing_of node.now }
{
    Standing {
        id: node.id,
        is_file: !finding::is_directory(node),
    }
}

/// What a name stands for, if for anything.
pub fn at_name(nodes: &Nodes, dir: u64, name: &[u8]) -> Option<Standing>
    ensures { result ≡ stands_for nodes.now.nodes dir name.now }
{
    match nodes.named(dir, name) {
        Some(node) => Some(standing_of(node)),
        None => None,
    }
}

/// A copy of a file's content.
pub fn content(alloc: Global, nodes: &Nodes, id: u64) -> Result<Bytes, TreeError>
    ensures { Answers (content nodes.now.nodes id) result }
{
    let bytes = file_bytes(nodes, id)?;
    Ok(Bytes::copy_of(alloc, bytes)?)
}

/// The directory above one: the root's is the root.
fn above<'a>(nodes: &'a Nodes, dir: &'a Node) -> &'a Node
    ensures { result.now ≡ above dir.now (with_id nodes.now.nodes dir.now.parent) }
{
    match nodes.with_id(dir.parent) {
        Some(node) => node,
        None => dir,
    }
}

/// What a name stands for in a directory.
fn stands_for<'a>(nodes: &'a Nodes, dir: &'a Node, name: &[u8]) -> Result<&'a Node, Status>
    ensures { lent result ≡ looked nodes.now.nodes dir.now name.now }
{
    if is_dot(name) {
        return Ok(dir);
    }
    if is_dot_dot(name) {
        return Ok(above(nodes, dir));
    }
    finding::found(nodes, dir.id, name)
}

/// The same in a tree.
fn stands_within<'a>(
    nodes: &'a Nodes,
    changes: u64,
    dir: &'a Node,
    name: &[u8],
) -> Result<&'a Node, Status>
    requires bounded { AreBounded nodes.now changes }
    requires dir { IsNodeBounded nodes.now.next changes dir.now }
    ensures exact { lent result ≡ looked nodes.now.nodes dir.now name.now }
    ensures bounded { IfOk result (λ n. IsNodeBounded nodes.now.next changes n.now) }
{
    // The contract alone names it.
    let _changes = changes;
    stands_for(nodes, dir, name)
}

/// LOOKUP. It takes no memory.
pub fn lookup(nodes: &Nodes, changes: u64, dir: u64, name: &[u8]) -> Result<Looked, Status>
    requires { AreBounded nodes.now changes }
    ensures { result ≡ lookup nodes.now.nodes dir name.now }
{
    let dir = directory_within(nodes, changes, dir)?;
    spelt(name)?;
    let node = stands_within(nodes, changes, dir, name)?;
    Ok(Looked {
        id: node.id,
        attr: attr_within(nodes, changes, node),
        dir: attr_within(nodes, changes, dir),
    })
}
