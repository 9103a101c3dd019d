//! The nodes of records that break no rule: `loaded_nodes` in `specs/Load.antt`, as they are on the
//! way to the tree in `specs/Making.antt`.

ghost use Rattle.std.specs.Prelude.{◌≡◌, ℕ, ◌++◌, [], ◌∷◌, map, ◌==◌, false, IfOk, IfSome, OnOk};
ghost use Rattle.std.specs.BTreeMap.{get};
ghost use Rattle.std.specs.Ordering.{nat_cmp};
ghost use Rattle.chunk_cut.specs.Chunks.{chunks_of};
ghost use Rattle.tree_reading.specs.Tree.{root};
ghost use Rattle.store.specs.declared.record.Kept.TheVariants as kept;
ghost use Rattle.tree_load.specs.Making.{node_list, bytes_of, content_with, content_at, or_else, with_stored, node_by, AreIdsApart};

use crate::coming::{Coming, cut_all};
use chunk_cut::chunk::Chunk;
use lb_base::items::{Items, Name};
use shared_bytes::SharedBytes;
use std::alloc::{AllocError, Global};
use std::collections::BTreeMap;
use std::thread::Threads;
use store::record::{ContentRecord, Head, Kept, NodeKind, NodeRecord};
use tree_nodes::content::Content;
use tree_nodes::node::{Body, Node};

/// What a file contains, and its version.
#[derive(Drop)]
pub struct Stored {
    pub version: u64,
    pub content: Content,
}

/// Records of nodes, and contents by their ids.
#[derive(Drop)]
pub struct Parted {
    pub nodes: Vec<NodeRecord>,
    pub contents: BTreeMap<u64, Stored>,
}

/// A content whose chunks may be known; else it is cut. The one error is running out of memory.
fn content_of(
    alloc: Global,
    bytes: SharedBytes,
    chunks: Option<Items<Chunk>>,
) -> Result<Content, AllocError>
    requires { IfSome chunks (λ known. known ≡ chunks_of bytes) }
    ensures { IfOk result (λ content. content ≡ bytes) }
{
    let chunks = match chunks {
        Some(chunks) => chunks,
        None => chunk_cut::cut(alloc, bytes.as_slice())?,
    };
    Ok(Content::loaded(bytes, chunks))
}

/// Keeps a content, unless its id has one.
#[tactic(auto, using(crate::proofs::Parting::kept_new, crate::proofs::Parting::kept_old))]
fn keep(
    alloc: Global,
    contents: &mut BTreeMap<u64, Stored>,
    one: ContentRecord,
    chunks: Option<Items<Chunk>>,
) -> Result<(), AllocError>
    requires { IfSome chunks (λ known. known ≡ chunks_of one.bytes) }
    ensures { OnOk result ((id : ℕ) → get nat_cmp contents.new id ≡ or_else (get nat_cmp contents.old id) (content_at (kept.Content one) id)) }
{
    if contents.contains_key(&one.id) {
        return Ok(());
    }
    let content = content_of(alloc, one.bytes, chunks)?;
    let stored = Stored {
        version: one.version,
        content,
    };
    let gone = contents.insert(one.id, stored)?;
    drop(gone);
    Ok(())
}

/// Takes a record apart from the others.
fn sort_out(alloc: Global, parted: &mut Parted, one: Coming) -> Result<(), AllocError>
    ensures nodes { OnOk result (parted.new.nodes.items ≡ parted.old.nodes.items ++ node_list (one ∷ [])) }
    ensures contents { OnOk result ((id : ℕ) → get nat_cmp parted.new.contents id ≡ or_else (get nat_cmp parted.old.contents id) (content_at one id)) }
{
    let (one, chunks) = one.into_parts();
    match one {
        Kept::Head(_) => Ok(()),
        Kept::Node(node) => {
            parted.nodes.push(node)?;
            Ok(())
        }
        Kept::Content(content) => keep(alloc, &mut parted.contents, content, chunks),
    }
}

/// The nodes and the contents of records.
fn part(alloc: Global, records: Vec<Coming>) -> Result<Parted, AllocError>
    ensures nodes { IfOk result (λ p. p.nodes.items ≡ node_list records.items) }
    ensures contents { IfOk result (λ p. (id : ℕ) → get nat_cmp p.contents id ≡ content_with records.items id) }
{
    let mut parted = Parted {
        nodes: Vec::new(alloc),
        contents: BTreeMap::new(alloc),
    };
    for one in records {
        sort_out(alloc, &mut parted, one)?;
    }
    Ok(parted)
}

/// The file of a record, by the content that its id has.
fn file_of(alloc: Global, one: NodeRecord, stored: Option<Stored>) -> Node
    ensures { result ≡ with_stored one stored }
{
    match stored {
        Some(stored) => Node {
            id: one.id,
            parent: one.parent,
            name: one.name,
            version: stored.version,
            body: Body::File(stored.content),
        },
        None => Node {
            id: one.id,
            parent: one.parent,
            name: one.name,
            version: 0,
            body: Body::File(Content::empty(alloc)),
        },
    }
}

/// The node of a record; the content of its id is taken out of the others.
fn node_of(
    alloc: Global,
    changes: u64,
    one: NodeRecord,
    contents: &mut BTreeMap<u64, Stored>,
) -> Node
    ensures node { result ≡ node_by changes one (get nat_cmp contents.old one.id) }
    ensures others { (id : ℕ) → (one.id == id) ≡ false → get nat_cmp contents.new id ≡ get nat_cmp contents.old id }
{
    match one.kind {
        NodeKind::Directory => Node {
            id: one.id,
            parent: one.parent,
            name: one.name,
            version: changes,
            body: Body::Directory,
        },
        NodeKind::File => {
            let stored = contents.remove(&one.id);
            file_of(alloc, one, stored)
        }
    }
}

/// The root directory.
fn root(alloc: Global, version: u64) -> Node
    ensures { result ≡ root version }
{
    Node {
        id: 1,
        parent: 0,
        name: Name::new(alloc),
        version,
        body: Body::Directory,
    }
}

/// The root and the nodes of the records, with their contents.
fn join(alloc: Global, changes: u64, parted: Parted) -> Result<Vec<Node>, AllocError>
    requires { AreIdsApart parted.nodes.items }
    ensures { IfOk result (λ v. v.items ≡ root changes ∷ map (λ n. node_by changes n (get nat_cmp parted.contents n.id)) parted.nodes.items) }
{
    let Parted {
        nodes,
        mut contents,
    } = parted;
    let mut made = Vec::new(alloc);
    made.push(root(alloc, changes))?;
    for one in nodes {
        let node = node_of(alloc, changes, one, &mut contents);
        made.push(node)?;
    }
    Ok(made)
}

/// The root and the nodes of records, of which no two nodes have one id. The one error is running
/// out of memory.
pub fn nodes_of<R: Threads + Sync>(
    rt: &R,
    alloc: Global,
    head: Head,
    records: Vec<Kept>,
) -> Result<Vec<Node>, AllocError>
    requires { AreIdsApart (node_list records.items) }
    ensures { IfOk result (λ v. v.items ≡ root head.changes ∷ map (λ n. node_by head.changes n (content_with records.items n.id)) (node_list records.items)) }
{
    let coming = cut_all(rt, alloc, records)?;
    let parted = part(alloc, coming)?;
    join(alloc, head.changes, parted)
}
