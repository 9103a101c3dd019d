//! The bytes that a CONDWRITE finds by the index of chunks. `specs/Indexing.antt` says which.

ghost use Rattle.std.specs.Prelude.{◌≡◌};
ghost use Rattle.std.specs.Option.{option_copied};
ghost use Rattle.chunk_index.specs.Index.{key_of, place_of, found};
ghost use Rattle.chunk_calls.specs.Writing.{bytes_known};
ghost use Rattle.chunk_calls.specs.Indexing.{wanted_bytes};
ghost use Rattle.chunk_calls.specs.Files.{file_at};

use chunk_index::index::Index;
use chunk_index::known::{bytes_placed, with_digest};
use chunk_index::place::Place;
use file_tree::tree::Tree;
use hash_calls::call::CondPiece;
use tree_nodes::node::Body;

/// The bytes that a place has for a CONDWRITE, where its file is there.
fn wanted_bytes<'a>(tree: &'a Tree, place: &Place, count: u32) -> Option<&'a [u8]>
    ensures { option_copied result ≡ wanted_bytes (file_at tree.now.tree place.now.file) place.now count }
{
    if place.count != u64::from(count) {
        return None;
    }
    let Some(node) = tree.node(place.file) else {
        return None;
    };
    match &node.body {
        Body::Directory => None,
        Body::File(content) => bytes_placed(content.as_slice(), place),
    }
}

/// The bytes that a place has for a CONDWRITE, where they have its digest: they are hashed each time,
/// since a place may say anything.
fn bytes_known<'a>(tree: &'a Tree, piece: &CondPiece, place: Option<Place>) -> Option<&'a [u8]>
    ensures { option_copied result ≡ bytes_known tree.now.tree piece.now place }
{
    match place {
        Some(place) => {
            let found = wanted_bytes(tree, &place, piece.count);
            with_digest(found, &piece.digest)
        }
        None => None,
    }
}

/// The bytes that are known by the digest of a CONDWRITE. Its pair in the index goes first, also where
/// nothing is known.
pub fn look_up<'a>(index: &mut Index, tree: &'a Tree, piece: &CondPiece) -> Option<&'a [u8]>
    ensures known { option_copied result ≡ bytes_known tree.now.tree piece.now (place_of index.old.pairs (key_of piece.now.digest)) }
    ensures order { index.new ≡ found index.old (key_of piece.now.digest) }
{
    let place = index.find(piece.digest.as_slice());
    bytes_known(tree, piece, place)
}
