//! What a store's change is as edits of its records' files: `specs/Edits.antt` states it. That they make of the
//! files those of the records which the change makes is a law (`proofs/Changes.antt`), so what `LogStore` promises of
//! edits it promises of changes.

ghost use Rattle.std.specs.Prelude.{◌≡◌, ◌++◌, ◌∷◌, List, false};
ghost use Rattle.log_store.specs.Lines.{Records};
ghost use Rattle.log_store.specs.Store.{HoldsRecords};
ghost use Rattle.folder_store.specs.Edits.{AppliedThese, IsFront, edits_in, edits_of, edited, one_or_two, two_or_none};

use crate::format::{content_front, head_bytes, node_front};
use log_store::carrying::Unfinished;
use log_store::edit::{Edit, Parts, What};
use log_store::folder::Folder;
use log_store::records::LogStore;
use log_store::which::Which;
use store::record::{Head, RecordChange};

/// The bytes that stand in front of a change's record: of a content the first eight of these.
fn front_of(change: &RecordChange) -> [u8; 12]
    ensures { IsFront change.now result }
{
    match change {
        RecordChange::Node(node) => node_front(node),
        RecordChange::Content(content) => {
            let [a, b, c, d, e, f, g, h] = content_front(content);
            [a, b, c, d, e, f, g, h, 0, 0, 0, 0]
        }
        RecordChange::Drop(_) => [0; 12],
    }
}

/// The edits of a part of a change, behind its front; with `is_large` a content has a file of its own first.
fn edits_of<'a>(
    change: &'a RecordChange,
    front: &'a [u8; 12],
    is_large: bool,
) -> (Edit<'a>, Option<Edit<'a>>)
    ensures { IsFront change.now front.now → one_or_two result ≡ edits_of change.now }
{
    match change {
        RecordChange::Node(node) => {
            let body = node.name.as_slice();
            let what = What::Put(Parts { front, body });
            let which = Which::Node(node.id);
            (Edit { which, what }, None)
        }
        RecordChange::Content(content) => {
            let (front, _rest) = front.split_at(8);
            let body = content.bytes.as_slice();
            let parts = Parts { front, body };
            let what = if is_large {
                What::Large(parts)
            } else {
                What::Put(parts)
            };
            let which = Which::Content(content.id);
            (Edit { which, what }, None)
        }
        RecordChange::Drop(id) => {
            let node = Edit {
                which: Which::Node(*id),
                what: What::Goes,
            };
            let content = Edit {
                which: Which::Content(*id),
                what: What::Goes,
            };
            (node, Some(content))
        }
    }
}

/// Makes edits of the head and of a change's parts.
#[tactic(auto, using(crate::proofs::Changes::these_by))]
fn apply_edits<'a, D: Folder>(
    store: &mut LogStore<D>,
    head: Edit<'a>,
    first: (Edit<'a>, Option<Edit<'a>>),
    second: Option<(Edit<'a>, Option<Edit<'a>>)>,
) -> Result<(), Unfinished>
    ensures { D.told → (records : Records) (past : List Records)
        → HoldsRecords records past store.old.pending.items store.old.doubt
        (D.state store.old.folder) → store.old.doubt ≡ false
        → AppliedThese (edited head.entry ∷ (one_or_two first.entry ++ two_or_none second.entry))
        records past store.new.pending.items store.new.doubt
        (D.state store.old.folder) (D.state store.new.folder) result }
{
    let (one, more) = first;
    match (more, second) {
        (None, None) => store.apply(&[head, one]),
        (Some(two), None) => store.apply(&[head, one, two]),
        (None, Some((three, None))) => store.apply(&[head, one, three]),
        (None, Some((three, Some(four)))) => store.apply(&[head, one, three, four]),
        (Some(two), Some((three, None))) => store.apply(&[head, one, two, three]),
        (Some(two), Some((three, Some(four)))) => store.apply(&[head, one, two, three, four]),
    }
}

/// Makes a change of one part or two, as a whole or not at all: the head's edit and theirs. Whether a part's content
/// has a file of its own first stands in `are_large`.
#[tactic(auto, using(crate::proofs::Changes::change_by))]
pub(crate) fn apply_change<D: Folder>(
    store: &mut LogStore<D>,
    head: Head,
    first: &RecordChange,
    second: &Option<RecordChange>,
    are_large: (bool, bool),
) -> Result<(), Unfinished>
    ensures { D.told → (records : Records) (past : List Records)
        → HoldsRecords records past store.old.pending.items store.old.doubt
        (D.state store.old.folder) → store.old.doubt ≡ false
        → AppliedThese (edits_in head first.now second.now)
        records past store.new.pending.items store.new.doubt
        (D.state store.old.folder) (D.state store.new.folder) result }
{
    let bytes = head_bytes(head);
    let head = Edit {
        which: Which::Head,
        what: What::Put(Parts {
            front: &[],
            body: &bytes,
        }),
    };
    let front = front_of(first);
    let one = edits_of(first, &front, are_large.0);
    match second {
        None => apply_edits(store, head, one, None),
        Some(second) => {
            let behind = front_of(second);
            let two = edits_of(second, &behind, are_large.1);
            apply_edits(store, head, one, Some(two))
        }
    }
}
