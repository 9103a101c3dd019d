//! Where a name stands, as far as its directory and its first bytes tell: `specs/Places.antt`.

ghost use Rattle.std.specs.Prelude.{◌≡◌, get_or};
ghost use Rattle.std.specs.List.{slice_get};
ghost use Rattle.tree_nodes.specs.Places.{start_of, key_of, key_or, AreBytes};

use crate::node::Node;

/// A name's directory, and where the name begins. Two keys that differ stand as their names do.
#[derive(Clone, Copy)]
pub struct Key {
    pub dir: u64,
    /// The number of the name's first eight bytes, the highest first.
    pub start: u64,
}

/// The key of no node.
pub const BLANK: Key = Key { dir: 0, start: 0 };

/// The key at a place, and that of no node past the last.
pub fn key_at(keys: &Vec<Key>, place: usize) -> Key
    ensures { result ≡ key_or (slice_get keys.now.items place) }
{
    match keys.get(place) {
        Some(key) => *key,
        None => BLANK,
    }
}

/// The byte at a place of a name, and 0 past its end.
fn byte_at(name: &[u8], place: usize) -> u8
    ensures { result ≡ get_or name.now place 0 }
{
    match name.get(place) {
        Some(byte) => *byte,
        None => 0,
    }
}

/// Where a name begins.
#[tactic(auto, using(crate::proofs::Starts::first_eight))]
pub fn start_of(name: &[u8]) -> u64
    ensures start { result ≡ start_of name.now }
    ensures bytes { AreBytes name.now }
{
    u64::from_be_bytes([
        byte_at(name, 0),
        byte_at(name, 1),
        byte_at(name, 2),
        byte_at(name, 3),
        byte_at(name, 4),
        byte_at(name, 5),
        byte_at(name, 6),
        byte_at(name, 7),
    ])
}

/// The key of a node.
pub fn key_of(node: &Node) -> Key
    ensures key { result ≡ key_of node.now }
    ensures bytes { AreBytes node.now.name }
{
    Key {
        dir: node.parent,
        start: start_of(node.name.as_slice()),
    }
}
