//! A change is made: large bytes are written in files of their own first, then its entry is added to the
//! log. One that failed is taken back.

ghost use Rattle.std.specs.Prelude.{◌≡◌, ◌≤◌, ◌++◌, ◌∷◌, [], ℕ, List, length, true, OnErr};
ghost use Rattle.lb_base.specs.Causes.{Rose};
ghost use Rattle.log_store.specs.Lines.{Records, Log, lines_of, is_clear};
ghost use Rattle.log_store.specs.Sound.{IsSound};
ghost use Rattle.log_store.specs.Making.{Staged, Ready, AreReady, IsMaybe, TakenBack, Added, Cleaned, AreGone, StaysGone, GoneAfter, IfBefore};
ghost use Rattle.log_store.specs.declared.edit.Edit.{Edit};
ghost use Rattle.log_store.specs.declared.which.Which.{Which};

use crate::carrying::write_firm;
use crate::edit::{Edit, What, has_large};
use crate::folder::{Fault, Folder};
use crate::which::FileName;

/// What is known of a change that wasn't made.
#[derive(Clone, Copy)]
pub enum Undone {
    /// All is as before.
    Before,
    /// It may be made or not.
    InDoubt,
}

/// Writes an edit's large bytes.
fn stage_one<D: Folder>(folder: &mut D, edit: &Edit<'_>) -> Result<(), Fault>
    ensures does { D.told → (records : Records) (past : List Records) (pending : List Which)
        → IsSound records past pending (D.state folder.old)
        → is_clear (edit.now ∷ []) pending ≡ true
        → Staged (edit.now ∷ []) records past pending (D.state folder.old)
        (D.state folder.new) result }
    ensures later { D.faults folder.old ≤ D.faults folder.new }
    ensures cause { OnErr result (Rose (D.faults folder.old) (D.faults folder.new)) }
{
    match edit.what {
        What::Large(parts) => {
            write_firm(folder, FileName::New(edit.which), parts.front, parts.body)
        }
        What::Put(_) | What::Goes => Ok(()),
    }
}

/// Writes the large bytes of edits, the last edit's at last.
#[tactic(auto, using(crate::proofs::Stage::by_stage))]
fn stage<D: Folder>(folder: &mut D, edits: &[Edit<'_>]) -> Result<(), Fault>
    ensures does { D.told → (records : Records) (past : List Records) (pending : List Which)
        → IsSound records past pending (D.state folder.old) → is_clear edits.now pending ≡ true
        → Staged edits.now records past pending (D.state folder.old) (D.state folder.new) result }
    ensures later { D.faults folder.old ≤ D.faults folder.new }
    ensures cause { OnErr result (Rose (D.faults folder.old) (D.faults folder.new)) }
{
    match edits {
        [edit, rest @ ..] => {
            stage_one(folder, edit)?;
            stage(folder, rest)
        }
        [] => Ok(()),
    }
}

/// Writes the large bytes of edits; they are on the disk, under their names.
fn prepare<D: Folder>(folder: &mut D, edits: &[Edit<'_>]) -> Result<(), Fault>
    ensures does { D.told → (records : Records) (past : List Records) (pending : List Which)
        → IsSound records past pending (D.state folder.old) → is_clear edits.now pending ≡ true
        → Ready edits.now records past pending (D.state folder.old) (D.state folder.new) result }
    ensures later { D.faults folder.old ≤ D.faults folder.new }
    ensures cause { OnErr result (Rose (D.faults folder.old) (D.faults folder.new)) }
{
    if !has_large(edits) {
        return Ok(());
    }
    stage(folder, edits)?;
    folder.flush_folder()
}

/// The log has as many entries again as these, which a failed call may have added one to. A cut finds no
/// more from then on.
fn take_back<D: Folder>(folder: &mut D, count: usize) -> Result<(), Fault>
    ensures does { D.told → (edits : List Edit) (records : Records) (past : List Records)
        (pending : List Which) (before : Log) → count ≡ length before
        → IsMaybe edits records past pending before (D.state folder.old)
        → TakenBack edits records past pending (D.state folder.old) (D.state folder.new) result }
    ensures later { D.faults folder.old ≤ D.faults folder.new }
{
    folder.cut_log(count)?;
    folder.flush_log()
}

/// Adds the entry of edits to the log, or takes it back where it may stand there or not.
fn add<D: Folder>(folder: &mut D, edits: &[Edit<'_>]) -> Result<(), Undone>
    ensures does { D.told → (records : Records) (past : List Records) (pending : List Which)
        → IsSound records past pending (D.state folder.old)
        → AreReady edits.now (D.state folder.old)
        → Added edits.now records past pending (D.state folder.old) (D.state folder.new) result }
    ensures later { D.faults folder.old ≤ D.faults folder.new }
    ensures cause { OnErr result (Rose (D.faults folder.old) (D.faults folder.new)) }
{
    let count = folder.count();
    match folder.append(edits) {
        Ok(()) => Ok(()),
        Err(Fault) => match take_back(folder, count) {
            Ok(()) => Err(Undone::Before),
            Err(Fault) => Err(Undone::InDoubt),
        },
    }
}

/// Removes the new files of edits, which the log doesn't name: the room that they take is free again, unless a call
/// fails.
#[tactic(auto, using(crate::proofs::Stage::cleaned_none, crate::proofs::Gone::stays_on))]
fn clean<D: Folder>(folder: &mut D, edits: &[Edit<'_>])
    ensures gone { D.told → AreGone edits.now (D.state folder.new) (D.faults folder.old) (D.faults folder.new) }
    ensures stays { D.told → StaysGone (D.state folder.old) (D.state folder.new) }
    ensures does { D.told → (records : Records) (past : List Records) (pending : List Which)
        → IsSound records past pending (D.state folder.old) → is_clear edits.now pending ≡ true
        → Cleaned records past pending (D.state folder.old) (D.state folder.new) }
    ensures later { D.faults folder.old ≤ D.faults folder.new }
{
    if let [edit, rest @ ..] = edits {
        clean_one(folder, edit);
        clean(folder, rest);
    }
}

/// Removes the new file of an edit.
fn clean_one<D: Folder>(folder: &mut D, edit: &Edit<'_>)
    ensures gone { D.told → AreGone (edit.now ∷ []) (D.state folder.new) (D.faults folder.old) (D.faults folder.new) }
    ensures stays { D.told → StaysGone (D.state folder.old) (D.state folder.new) }
    ensures does { D.told → (records : Records) (past : List Records) (pending : List Which)
        → IsSound records past pending (D.state folder.old)
        → is_clear (edit.now ∷ []) pending ≡ true
        → Cleaned records past pending (D.state folder.old) (D.state folder.new) }
    ensures later { D.faults folder.old ≤ D.faults folder.new }
{
    match edit.what {
        What::Large(_) => {
            let _later = folder.remove(FileName::New(edit.which));
        }
        What::Put(_) | What::Goes => {}
    }
}

/// Adds the entry of edits to the log, and removes their new files where it was taken back.
fn add_or_clean<D: Folder>(folder: &mut D, edits: &[Edit<'_>]) -> Result<(), Undone>
    ensures gone { D.told → IfBefore result (GoneAfter edits.now (D.state folder.new) (D.faults folder.old) (D.faults folder.new)) }
    ensures does { D.told → (records : Records) (past : List Records) (pending : List Which)
        → IsSound records past pending (D.state folder.old)
        → AreReady edits.now (D.state folder.old) → is_clear edits.now pending ≡ true
        → Added edits.now records past pending (D.state folder.old) (D.state folder.new) result }
    ensures later { D.faults folder.old ≤ D.faults folder.new }
    ensures cause { OnErr result (Rose (D.faults folder.old) (D.faults folder.new)) }
{
    match add(folder, edits) {
        Ok(()) => Ok(()),
        Err(Undone::Before) => {
            clean(folder, edits);
            Err(Undone::Before)
        }
        Err(Undone::InDoubt) => Err(Undone::InDoubt),
    }
}

/// Makes a change as a whole or not at all. What one wrote that wasn't made goes at once.
pub(crate) fn change<D: Folder>(folder: &mut D, edits: &[Edit<'_>]) -> Result<(), Undone>
    ensures gone { D.told → IfBefore result (GoneAfter edits.now (D.state folder.new) (D.faults folder.old) (D.faults folder.new)) }
    ensures does { D.told → (records : Records) (past : List Records) (pending : List Which)
        → IsSound records past pending (D.state folder.old) → is_clear edits.now pending ≡ true
        → Added edits.now records past pending (D.state folder.old) (D.state folder.new) result }
    ensures later { D.faults folder.old ≤ D.faults folder.new }
    ensures cause { OnErr result (Rose (D.faults folder.old) (D.faults folder.new)) }
{
    match prepare(folder, edits) {
        Ok(()) => add_or_clean(folder, edits),
        Err(Fault) => {
            clean(folder, edits);
            Err(Undone::Before)
        }
    }
}
