//! What a change came to, and the entries that it makes (`specs/Plans.antt`).

ghost use Rattle.std.specs.Prelude.{◌≡◌, ◌+◌, ◌<◌, ◌^◌, Some, None};
ghost use Rattle.tree_reading.specs.Plans.{made_entry, name_entry, commit_entry, gone_entry, last_version, one, nothing, remove_done, move_done};

use crate::call::Changed;
use crate::entry::{Entry, EntryKind};
use server_rules::tree::two_entries;
use tree_nodes::content::Content;
use tree_nodes::node::{Body, Node};

/// A file was made.
pub fn made_entry(id: u64) -> Entry
    ensures { result ≡ made_entry id }
{
    Entry {
        file: id,
        version: 1,
        kind: EntryKind::Make,
        len: 0,
        sha1: chunk_cut::digest(&[]),
    }
}

/// A directory was made or removed, or a node moved.
pub fn name_entry(id: u64) -> Entry
    ensures { result ≡ name_entry id }
{
    Entry {
        file: id,
        version: 0,
        kind: EntryKind::Name,
        len: 0,
        sha1: chunk_cut::digest(&[]),
    }
}

/// A file got a content.
pub fn commit_entry(id: u64, version: u64, content: &Content) -> Entry
    ensures { result ≡ commit_entry id version content.now }
{
    Entry {
        file: id,
        version,
        kind: EntryKind::Commit,
        len: content.len() as u64,
        sha1: content.digest(),
    }
}

/// A node goes.
pub fn gone_entry(node: &Node) -> Entry
    requires { node.now.version < 2 ^ 32 }
    ensures { result ≡ gone_entry node.now node.now.body }
{
    match node.body {
        Body::Directory => name_entry(node.id),
        Body::File(_) => Entry {
            file: node.id,
            version: node.version + 1,
            kind: EntryKind::Remove,
            len: 0,
            sha1: chunk_cut::digest(&[]),
        },
    }
}

/// The last version of a node that goes.
fn last_version(node: &Node) -> u64
    requires { node.now.version < 2 ^ 32 }
    ensures { result ≡ last_version node.now node.now.body }
{
    match node.body {
        Body::Directory => node.version,
        Body::File(_) => node.version + 1,
    }
}

/// One entry was made, of this node.
pub fn one(id: u64, version: u64, entry: Entry) -> Changed
    ensures { result ≡ one id version entry }
{
    Changed {
        id,
        version,
        first: Some(entry),
        second: None,
    }
}

/// Nothing was done to this node.
pub fn nothing(node: &Node) -> Changed
    ensures { result ≡ nothing node.now }
{
    Changed {
        id: node.id,
        version: node.version,
        first: None,
        second: None,
    }
}

/// This node was removed.
pub fn remove_done(node: &Node) -> Changed
    requires { node.now.version < 2 ^ 32 }
    ensures { result ≡ remove_done node.now }
{
    one(node.id, last_version(node), gone_entry(node))
}

/// This node moved to a free name.
pub fn move_free_done(node: &Node) -> Changed
    ensures { result ≡ move_done node.now None }
{
    one(node.id, node.version, name_entry(node.id))
}

/// This node moved to the name of another, which went.
pub fn move_over_done(node: &Node, gone: &Node) -> Changed
    requires { gone.now.version < 2 ^ 32 }
    ensures { result ≡ move_done node.now (Some gone.now) }
{
    let (first, second) = two_entries(gone_entry(gone), name_entry(node.id));
    Changed {
        id: node.id,
        version: node.version,
        first,
        second,
    }
}
