//! The files that handles name, and what a GETLEASE is told of one. `specs/Answers.antt` says it.

ghost use Rattle.std.specs.Prelude.{◌≡◌};
ghost use Rattle.chunk_calls.specs.Answers.{node_of, target_in, lease_answer};

use file_tree::tree::Tree;
use hash_calls::call::Leased;
use tree_nodes::node::Body;
use xdr_codec::answer::Answer;
use xdr_codec::handle::Handle;
use xdr_codec::status::Status;

/// The id of the file that a handle names, or why it names none.
pub fn target_in(tree: &Tree, handle: &Handle) -> Result<u64, Status>
    ensures { result ≡ target_in (node_of tree.now.tree handle.now) }
{
    let Some(id) = handle.file_of() else {
        return Err(Status::BadHandle);
    };
    let Some(node) = tree.node(id) else {
        return Err(Status::Stale);
    };
    match &node.body {
        Body::Directory => Err(Status::IsDir),
        Body::File(_) => Ok(node.id),
    }
}

/// What a GETLEASE is answered that is granted a lease of this term, in milliseconds, or 0: the file's
/// attributes and version. It takes no memory.
#[tactic(auto, using(crate::proofs::Leases::lease_done, crate::proofs::Leases::lease_failed))]
pub fn lease_answer(term: u32, tree: &Tree, handle: &Handle) -> Answer<Leased, ()>
    ensures { result ≡ lease_answer term (node_of tree.now.tree handle.now) }
{
    let Some(id) = handle.file_of() else {
        return Answer::Failed(Status::BadHandle, ());
    };
    let Some(node) = tree.node(id) else {
        return Answer::Failed(Status::Stale, ());
    };
    match &node.body {
        Body::Directory => Answer::Failed(Status::IsDir, ()),
        Body::File(_) => match tree.attr(id) {
            Ok(attr) => Answer::Done(Leased {
                attr,
                version: node.version,
                term,
            }),
            Err(status) => Answer::Failed(status, ()),
        },
    }
}
