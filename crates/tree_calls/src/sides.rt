//! What answers tell of a directory before and after a change (`specs/Changing.antt`).

ghost use Rattle.std.specs.Prelude.{◌≡◌};
ghost use Rattle.tree_calls.specs.Changing.{before_of, known, before, both_sides, no_side, said, did};
ghost use Rattle.tree_reading.specs.Reading.{attr};

use crate::asked::Done;
use file_tree::tree::Tree;
use nfs3_calls::change::{Before, Wcc};
use nfs3_calls::message::Nfs;
use tree_reading::call::Changed;
use xdr_codec::attr::Attr;

fn before_of(attr: Attr) -> Before
    ensures { result ≡ before_of attr }
{
    Before {
        size: attr.size,
        mtime: attr.mtime,
        ctime: attr.ctime,
    }
}

/// The attributes of a node that is there.
pub fn known(tree: &Tree, id: u64) -> Option<Attr>
    ensures { result ≡ known (attr tree.now.tree.nodes id) }
{
    match tree.attr(id) {
        Ok(attr) => Some(attr),
        Err(_) => None,
    }
}

/// What is told of a directory as it is, before a change.
pub fn before(tree: &Tree, dir: u64) -> Option<Before>
    ensures { result ≡ before tree.now.tree.nodes dir }
{
    Some(before_of(known(tree, dir)?))
}

/// What is told of a directory that may have changed: how it was before, and how it is after
/// (`wcc_data` of RFC 1813, 2.6).
pub fn both_sides(tree: &Tree, before: Option<Before>, dir: u64) -> Wcc
    ensures { result ≡ both_sides before tree.now.tree.nodes dir }
{
    Wcc {
        before,
        after: known(tree, dir),
    }
}

/// Nothing is told of a directory, as where a call fails before it is looked up.
pub fn no_side() -> Wcc
    ensures { result ≡ no_side }
{
    Wcc {
        before: None,
        after: None,
    }
}

/// An answer with no entry of the journal.
pub fn said(answer: Nfs) -> Done
    ensures { result ≡ said answer }
{
    Done {
        answer,
        first: None,
        second: None,
    }
}

/// An answer with the entries of a change.
pub fn did(changed: Changed, answer: Nfs) -> Done
    ensures { result ≡ did changed answer }
{
    Done {
        answer,
        first: changed.first,
        second: changed.second,
    }
}
