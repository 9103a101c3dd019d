//! The log is carried out into the records' files, and emptied. Whatever was carried out before is
//! carried out again, from the log's beginning: of each record what its last line says.

ghost use Rattle.std.specs.Prelude.{◌≡◌, ◌≤◌, ◌++◌, List, ◌∷◌, Some, OnErr, IsErrOf};
ghost use Rattle.lb_base.specs.Causes.{Rose};
ghost use Rattle.log_store.specs.Lines.{Records, all_lines, task_of, latest};
ghost use Rattle.log_store.specs.Sound.{IsSound, IsFirm, IsAtRest, IsRest, WroteFirm, LineDone, Passed, Redone, Finished, Emptied, Carried, unfinished_by};
ghost use Rattle.log_store.specs.declared.carrying.Unfinished.TheVariants as unfinished;
ghost use Rattle.log_store.specs.declared.which.Which.{Which};
ghost use Rattle.log_store.specs.declared.edit.Task.TheVariants as task;

use crate::edit::{Line, Task, names};
use crate::folder::{Fault, Folder};
use crate::which::{FileName, Which};
use std::alloc::{AllocError, Global};
use store::store::StoreError;

/// Writes a file whole; its bytes are on the disk.
pub(crate) fn write_firm<D: Folder>(
    folder: &mut D,
    name: FileName,
    front: &[u8],
    body: &[u8],
) -> Result<(), Fault>
    ensures does { D.told → WroteFirm (D.state folder.old) (D.state folder.new) name (front.now ++ body.now) result }
    ensures later { D.faults folder.old ≤ D.faults folder.new }
    ensures cause { OnErr result (Rose (D.faults folder.old) (D.faults folder.new)) }
{
    folder.write(name, front, body)?;
    folder.flush(name)
}

/// Gives a record its bytes, which are flushed later.
fn put<D: Folder>(folder: &mut D, which: Which, bytes: &[u8]) -> Result<(), Fault>
    ensures does { D.told → (records : Records) → IsFirm records (D.state folder.old)
        → task_of (D.state folder.old).entries which ≡ Some (task.Put bytes.now)
        → LineDone records which (D.state folder.old) (D.state folder.new) result }
    ensures later { D.faults folder.old ≤ D.faults folder.new }
    ensures cause { OnErr result (Rose (D.faults folder.old) (D.faults folder.new)) }
{
    folder.write(FileName::Record(which), &[], bytes)?;
    folder.remove(FileName::New(which))
}

/// Removes a record's files.
fn drop_record<D: Folder>(folder: &mut D, which: Which) -> Result<(), Fault>
    ensures does { D.told → (records : Records) → IsFirm records (D.state folder.old)
        → task_of (D.state folder.old).entries which ≡ Some task.Goes
        → LineDone records which (D.state folder.old) (D.state folder.new) result }
    ensures later { D.faults folder.old ≤ D.faults folder.new }
    ensures cause { OnErr result (Rose (D.faults folder.old) (D.faults folder.new)) }
{
    folder.remove(FileName::Record(which))?;
    folder.remove(FileName::New(which))
}

/// Carries out what the log says last of a record.
fn carry_line<D: Folder>(folder: &mut D, line: &Line) -> Result<(), Fault>
    ensures does { D.told → (records : Records) → IsFirm records (D.state folder.old)
        → task_of (D.state folder.old).entries line.now.which ≡ Some line.now.task
        → LineDone records line.now.which (D.state folder.old) (D.state folder.new) result }
    ensures later { D.faults folder.old ≤ D.faults folder.new }
    ensures cause { OnErr result (Rose (D.faults folder.old) (D.faults folder.new)) }
{
    match &line.task {
        Task::Put(bytes) => put(folder, line.which, bytes.as_slice()),
        Task::Moves(_) => folder.rename(line.which),
        Task::Goes => drop_record(folder, line.which),
    }
}

/// Carries out a line, if none of those behind it is of the same record.
fn carry_last<D: Folder>(folder: &mut D, line: &Line, rest: &[Line]) -> Result<(), Fault>
    ensures does { D.told → (records : Records) → IsFirm records (D.state folder.old)
        → IsRest (line.now ∷ rest.now) records (D.state folder.old)
        → Passed rest.now records (D.state folder.old) (D.state folder.new) result }
    ensures later { D.faults folder.old ≤ D.faults folder.new }
    ensures cause { OnErr result (Rose (D.faults folder.old) (D.faults folder.new)) }
{
    if names(rest, line.which) {
        return Ok(());
    }
    carry_line(folder, line)
}

/// Carries out the lines that are the last of their records.
fn redo<D: Folder>(folder: &mut D, lines: &[Line]) -> Result<(), Fault>
    ensures does { D.told → (records : Records) → IsFirm records (D.state folder.old)
        → IsRest lines.now records (D.state folder.old)
        → Redone records (D.state folder.old) (D.state folder.new) result }
    ensures later { D.faults folder.old ≤ D.faults folder.new }
    ensures cause { OnErr result (Rose (D.faults folder.old) (D.faults folder.new)) }
{
    match lines {
        [line, rest @ ..] => {
            carry_last(folder, line, rest)?;
            redo(folder, rest)
        }
        [] => Ok(()),
    }
}

/// Carries the log out, of which these are all lines. It is on the disk before any record's file is
/// touched, and what it did is on the disk behind it.
pub(crate) fn finish<D: Folder>(folder: &mut D, lines: &[Line]) -> Result<(), Fault>
    ensures does { D.told → (records : Records) (past : List Records) (pending : List Which)
        → IsSound records past pending (D.state folder.old)
        → lines.now ≡ all_lines (D.state folder.old).entries
        → Finished records past pending (D.state folder.old) (D.state folder.new) result }
    ensures later { D.faults folder.old ≤ D.faults folder.new }
    ensures cause { OnErr result (Rose (D.faults folder.old) (D.faults folder.new)) }
{
    folder.flush_log()?;
    redo(folder, lines)?;
    folder.flush_all()
}

/// Empties a log that was carried out.
pub(crate) fn empty<D: Folder>(folder: &mut D) -> Result<(), Fault>
    ensures does { D.told → (records : Records) → IsAtRest records (D.state folder.old) → Emptied records (D.state folder.old) (D.state folder.new) result }
    ensures later { D.faults folder.old ≤ D.faults folder.new }
    ensures cause { OnErr result (Rose (D.faults folder.old) (D.faults folder.new)) }
{
    folder.cut_log(0)?;
    folder.flush_log()
}

/// Why a change was not made, or the log not carried out.
#[derive(Clone, Copy)]
pub enum Unfinished {
    /// A call failed; the records are as they were.
    Failed,
    /// Memory ran out; the records are as they were.
    Memory,
    /// A call failed, and it isn't known what the folder holds.
    InDoubt,
}

impl From<AllocError> for Unfinished {
    ghost from_gives = { λ _ e. e ≡ unfinished.Memory };

    fn from(_want: AllocError) -> Unfinished {
        Unfinished::Memory
    }
}

impl From<StoreError> for Unfinished {
    ghost from_gives = { λ why e. e ≡ unfinished_by why };

    fn from(why: StoreError) -> Unfinished {
        match why {
            StoreError::Failed => Unfinished::Failed,
            StoreError::Memory => Unfinished::Memory,
        }
    }
}

/// Carries the log out, of which these are all lines, and empties it.
fn finish_and_empty<D: Folder>(folder: &mut D, lines: &[Line]) -> Result<(), Unfinished>
    ensures does { D.told → (records : Records) (past : List Records) (pending : List Which)
        → IsSound records past pending (D.state folder.old)
        → lines.now ≡ all_lines (D.state folder.old).entries
        → Carried records past pending (D.state folder.old) (D.state folder.new) result }
    ensures later { D.faults folder.old ≤ D.faults folder.new }
    ensures failed { IsErrOf result unfinished.Failed → Rose (D.faults folder.old) (D.faults folder.new) }
    ensures doubt { IsErrOf result unfinished.InDoubt → Rose (D.faults folder.old) (D.faults folder.new) }
{
    match finish(folder, lines) {
        Ok(()) => match empty(folder) {
            Ok(()) => Ok(()),
            Err(Fault) => Err(Unfinished::InDoubt),
        },
        Err(Fault) => Err(Unfinished::Failed),
    }
}

/// Carries the log out, and empties it.
pub(crate) fn carry_out<D: Folder>(folder: &mut D, alloc: Global) -> Result<(), Unfinished>
    ensures does { D.told → (records : Records) (past : List Records) (pending : List Which)
        → IsSound records past pending (D.state folder.old)
        → Carried records past pending (D.state folder.old) (D.state folder.new) result }
    ensures later { D.faults folder.old ≤ D.faults folder.new }
    ensures failed { IsErrOf result unfinished.Failed → Rose (D.faults folder.old) (D.faults folder.new) }
    ensures doubt { IsErrOf result unfinished.InDoubt → Rose (D.faults folder.old) (D.faults folder.new) }
{
    match folder.lines(alloc) {
        Ok(lines) => finish_and_empty(folder, &lines),
        Err(why) => Err(Unfinished::from(why)),
    }
}
