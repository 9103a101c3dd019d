//! The bytes of a record in its file. `specs/Folder.antt` states them.

ghost use Rattle.std.specs.Prelude.{◌≡◌, ◌≤◌, ◌++◌, length, drop, IfOk};
ghost use Rattle.folder_store.specs.Folder.{head_bytes, node_bytes, content_bytes, head_in, node_in, content_in, word_in, kind_number, kind_in};

use lb_base::items::Items;
use shared_bytes::SharedBytes;
use std::alloc::{AllocError, Global};
use store::record::{ContentRecord, Head, NodeKind, NodeRecord};

/// The number that a kind is in its file.
fn kind_number(kind: NodeKind) -> u32
    ensures { result ≡ kind_number kind }
{
    match kind {
        NodeKind::File => 1,
        NodeKind::Directory => 2,
    }
}

/// The kind of this number, if it is one.
fn kind_in(number: u32) -> Option<NodeKind>
    ensures { result ≡ kind_in number }
{
    match number {
        1 => Some(NodeKind::File),
        2 => Some(NodeKind::Directory),
        _ => None,
    }
}

/// The head's bytes.
pub fn head_bytes(head: Head) -> [u8; 16]
    ensures { result ≡ head_bytes head }
{
    let mut bytes = [0u8; 16];
    bytes[..8].copy_from_slice(&head.next.to_be_bytes());
    bytes[8..].copy_from_slice(&head.changes.to_be_bytes());
    bytes
}

/// A node's bytes, up to its name.
pub fn node_front(node: &NodeRecord) -> [u8; 12]
    ensures { result ++ node.now.name ≡ node_bytes node.now }
{
    let mut front = [0u8; 12];
    front[..8].copy_from_slice(&node.parent.to_be_bytes());
    front[8..].copy_from_slice(&kind_number(node.kind).to_be_bytes());
    front
}

/// A content's bytes, up to those of its file.
pub fn content_front(content: &ContentRecord) -> [u8; 8]
    ensures { result ++ content.now.bytes ≡ content_bytes content.now }
{
    content.version.to_be_bytes()
}

/// The number in eight bytes.
fn word(bytes: &[u8]) -> u64
    requires { 8 ≤ length bytes.now }
    ensures { result ≡ word_in bytes.now }
{
    let front = bytes.split_at(8).0;
    u64::from_be_bytes([
        front[0], front[1], front[2], front[3], front[4], front[5], front[6], front[7],
    ])
}

/// The head of which these are the bytes.
pub fn head_in(bytes: &[u8]) -> Option<Head>
    ensures { result ≡ head_in bytes.now }
{
    if bytes.len() != 16 {
        return None;
    }
    let changes = bytes.split_at(8).1;
    Some(Head {
        next: word(bytes),
        changes: word(changes),
    })
}

/// The node of which these are the bytes. The one error is running out of memory.
pub fn node_in(alloc: Global, id: u64, bytes: &[u8]) -> Result<Option<NodeRecord>, AllocError>
    ensures { IfOk result (λ node. node ≡ node_in id bytes.now) }
{
    if bytes.len() < 12 {
        return Ok(None);
    }
    let behind = bytes.split_at(8).1;
    let (number, name) = behind.split_at(4);
    let number = u32::from_be_bytes([number[0], number[1], number[2], number[3]]);
    let Some(kind) = kind_in(number) else {
        return Ok(None);
    };
    let name = Items::copy_of(alloc, name)?;
    Ok(Some(NodeRecord {
        id,
        parent: word(bytes),
        kind,
        name,
    }))
}

/// Forgets the first eight bytes; those behind them move to the front.
fn forget_word(bytes: &mut Vec<u8>)
    requires { 8 ≤ length bytes.old.items }
    ensures { bytes.new.items ≡ drop 8 bytes.old.items }
{
    let left = bytes.len() - 8;
    bytes.copy_within(8.., 0);
    bytes.truncate(left);
}

/// The content of this version and these bytes. The one error is running out of memory.
pub(crate) fn content_of(
    alloc: Global,
    id: u64,
    version: u64,
    bytes: Vec<u8>,
) -> Result<ContentRecord, AllocError>
    ensures { IfOk result (λ content. (content.id ≡ id) × (content.version ≡ version) × (content.bytes ≡ bytes.items)) }
{
    match SharedBytes::new(alloc, Items::from_vec(bytes)) {
        Ok(bytes) => Ok(ContentRecord { id, version, bytes }),
        Err(_) => Err(AllocError),
    }
}

/// The content of which these are the bytes. The one error is running out of memory.
pub fn content_in(
    alloc: Global,
    id: u64,
    bytes: Vec<u8>,
) -> Result<Option<ContentRecord>, AllocError>
    ensures { IfOk result (λ content. content ≡ content_in id bytes.items) }
{
    if bytes.len() < 8 {
        return Ok(None);
    }
    let mut bytes = bytes;
    let version = word(&bytes);
    forget_word(&mut bytes);
    Ok(Some(content_of(alloc, id, version, bytes)?))
}
