//! Which edits need no room: what goes, and what is no longer than its record's file.

ghost use Rattle.std.specs.Prelude.{◌≤◌};
ghost use Rattle.log_store.specs.Disk.{Looked};

use crate::edit::{Edit, Parts, What};
use crate::folder::Folder;

/// How many bytes a record has.
fn length_of(parts: Parts<'_>) -> u64 {
    (parts.front.len() as u64).saturating_add(parts.body.len() as u64)
}

/// Whether an edit needs no more room than its record's file has.
#[tactic(auto, using(crate::proofs::Steps::looked_one, crate::proofs::Steps::looked_none))]
fn is_small<D: Folder>(folder: &mut D, edit: &Edit<'_>) -> bool
    ensures does { D.told → Looked (D.state folder.old) (D.state folder.new) }
    ensures later { D.faults folder.old ≤ D.faults folder.new }
{
    match edit.what {
        What::Put(parts) => folder.fits(edit.which, length_of(parts)),
        What::Large(_) => false,
        What::Goes => true,
    }
}

/// Whether edits need no more room than their records' files have.
#[tactic(auto, using(crate::proofs::Steps::looked_on, crate::proofs::Steps::looked_none))]
pub(crate) fn is_frugal<D: Folder>(folder: &mut D, edits: &[Edit<'_>]) -> bool
    ensures does { D.told → Looked (D.state folder.old) (D.state folder.new) }
    ensures later { D.faults folder.old ≤ D.faults folder.new }
{
    match edits {
        [edit, rest @ ..] => is_small(folder, edit) && is_frugal(folder, rest),
        [] => true,
    }
}
