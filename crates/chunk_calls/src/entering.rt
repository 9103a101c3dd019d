//! Which places of chunks enter the index: of those that a GETHASH is told, and of a file's whole
//! content. `specs/Entering.antt` says what an index is then.

ghost use Rattle.std.specs.Prelude.{◌≡◌, true, false};
ghost use Rattle.chunk_calls.specs.Answers.{node_of, chunks_told};
ghost use Rattle.chunk_calls.specs.Entering.{with_told, IsLacking};
ghost use Rattle.chunk_calls.specs.Files.{file_at, chunks_at};

use crate::hashes::told_chunks;
use chunk_index::index::Index;
use file_tree::tree::Tree;
use hash_calls::call::HashRange;
use tree_nodes::node::Body;

/// Puts the chunks that a GETHASH is told into the index. A place for which memory runs out is
/// left out; says whether one was.
pub fn enter_told(index: &mut Index, tree: &Tree, range: &HashRange) -> bool
    ensures all { result ≡ false → index.new ≡ with_told index.old (chunks_told (node_of tree.now.tree range.now.handle) range.now) }
    ensures lacks { result ≡ true → IsLacking index.old (chunks_told (node_of tree.now.tree range.now.handle) range.now) index.new }
{
    let Some(id) = range.handle.file_of() else {
        return false;
    };
    let Some(node) = tree.node(id) else {
        return false;
    };
    match &node.body {
        Body::Directory => false,
        Body::File(content) => {
            chunk_index::places::enter(index, node.id, told_chunks(content, range))
        }
    }
}

/// Puts the chunks of a file into the index. A place for which memory runs out is left out; says
/// whether one was.
pub fn enter_content(index: &mut Index, tree: &Tree, file: u64) -> bool
    ensures all { result ≡ false → index.new ≡ with_told index.old (chunks_at file (file_at tree.now.tree file)) }
    ensures lacks { result ≡ true → IsLacking index.old (chunks_at file (file_at tree.now.tree file)) index.new }
{
    let Some(node) = tree.node(file) else {
        return false;
    };
    match &node.body {
        Body::Directory => false,
        Body::File(content) => chunk_index::places::enter(index, file, content.chunks()),
    }
}
