//! A folder as the store sees it: files of records, new files beside them, and a log of entries.
//! Of what it was given a cut of power may leave less than what is seen: `specs/Disk.antt`.

ghost use Rattle.std.specs.Prelude.{◌≡◌, ℕ, ◌≤◌, ◌++◌, length, List, Option, OnErr, IsErrOf};
ghost use Rattle.lb_base.specs.Causes.{Rose};
ghost use Rattle.store.specs.declared.store.StoreError.TheVariants as errors;
ghost use Rattle.log_store.specs.Disk.{Disk, Files, Wrote, Flushed, Renamed, Removed, FlushedFolder, FlushedAll, Stayed, Shows, Lists, Tells, Appended, Cut, FlushedLog};
ghost use Rattle.log_store.specs.Lines.{Log, lines_of};

use crate::edit::{Edit, Line};
use crate::which::{FileName, Which};
use std::alloc::Global;
use store::store::StoreError;

/// A call of the folder failed.
#[derive(Clone, Copy, Drop)]
pub struct Fault;

impl From<Fault> for StoreError {
    ghost from_gives = { λ _ e. e ≡ errors.Failed };

    fn from(_fault: Fault) -> StoreError {
        StoreError::Failed
    }
}

/// A folder, of which a cut of power may leave less than what is seen. Each `Fault`, and each `Failed`,
/// comes with one more in the count of faults.
pub trait Folder {
    /// Whether it tells what it holds: one over a machine's files doesn't, and nothing is said of it
    /// but its faults.
    ghost told: { Type 0 };

    /// What it holds.
    ghost state: { Self → Disk };

    /// How many calls failed.
    ghost faults: { Self → ℕ };

    /// The bytes of a file, if it is there.
    fn read(&mut self, alloc: Global, name: FileName) -> Result<Option<Vec<u8>>, StoreError>
        ensures does { told → Stayed (state self.old) (state self.new) }
        ensures tells { told → Shows (state self.old) name result }
        ensures later { faults self.old ≤ faults self.new }
        ensures cause { IsErrOf result errors.Failed → Rose (faults self.old) (faults self.new) };

    /// The files that are there, in the order of their records.
    fn names(&mut self, alloc: Global) -> Result<Vec<FileName>, StoreError>
        ensures does { told → Stayed (state self.old) (state self.new) }
        ensures tells { told → Lists (state self.old) result }
        ensures later { faults self.old ≤ faults self.new }
        ensures cause { IsErrOf result errors.Failed → Rose (faults self.old) (faults self.new) };

    /// Writes a file whole, in the place of any that is there: these bytes, and those behind them.
    fn write(&mut self, name: FileName, front: &[u8], body: &[u8]) -> Result<(), Fault>
        ensures does { told → Wrote (state self.old) (state self.new) name (front.now ++ body.now) result }
        ensures later { faults self.old ≤ faults self.new }
        ensures cause { OnErr result (Rose (faults self.old) (faults self.new)) };

    /// The bytes of a file that was just written are on the disk.
    fn flush(&mut self, name: FileName) -> Result<(), Fault>
        ensures does { told → Flushed (state self.old) (state self.new) name result }
        ensures later { faults self.old ≤ faults self.new }
        ensures cause { OnErr result (Rose (faults self.old) (faults self.new)) };

    /// The new file of a record takes its place. One that isn't there is passed over.
    fn rename(&mut self, which: Which) -> Result<(), Fault>
        ensures does { told → Renamed (state self.old) (state self.new) which result }
        ensures later { faults self.old ≤ faults self.new }
        ensures cause { OnErr result (Rose (faults self.old) (faults self.new)) };

    /// Removes a file. One that isn't there is passed over.
    fn remove(&mut self, name: FileName) -> Result<(), Fault>
        ensures does { told → Removed (state self.old) (state self.new) name result }
        ensures later { faults self.old ≤ faults self.new }
        ensures cause { OnErr result (Rose (faults self.old) (faults self.new)) };

    /// The names are on the disk. Where it failed once it fails for ever.
    fn flush_folder(&mut self) -> Result<(), Fault>
        ensures does { told → FlushedFolder (state self.old) (state self.new) result }
        ensures later { faults self.old ≤ faults self.new }
        ensures cause { OnErr result (Rose (faults self.old) (faults self.new)) };

    /// All files that were written are on the disk, and the names. Where it failed once it fails for ever.
    fn flush_all(&mut self) -> Result<(), Fault>
        ensures does { told → FlushedAll (state self.old) (state self.new) result }
        ensures later { faults self.old ≤ faults self.new }
        ensures cause { OnErr result (Rose (faults self.old) (faults self.new)) };

    /// The lines of the log.
    fn lines(&mut self, alloc: Global) -> Result<Vec<Line>, StoreError>
        ensures does { told → Stayed (state self.old) (state self.new) }
        ensures tells { told → Tells (state self.old) result }
        ensures later { faults self.old ≤ faults self.new }
        ensures cause { IsErrOf result errors.Failed → Rose (faults self.old) (faults self.new) };

    /// How many entries the log has.
    fn count(&self) -> usize
        ensures { told → result ≡ length (state self.now).entries };

    /// Adds an entry to the log.
    fn append(&mut self, edits: &[Edit<'_>]) -> Result<(), Fault>
        ensures does { told → Appended (state self.old) (state self.new) (lines_of edits.now) result }
        ensures later { faults self.old ≤ faults self.new }
        ensures cause { OnErr result (Rose (faults self.old) (faults self.new)) };

    /// The log has its first entries, as many as these, and no more. It needs no room.
    fn cut_log(&mut self, count: usize) -> Result<(), Fault>
        ensures does { told → Cut (state self.old) (state self.new) count result }
        ensures later { faults self.old ≤ faults self.new }
        ensures cause { OnErr result (Rose (faults self.old) (faults self.new)) };

    /// The log is on the disk. Where it failed once it fails for ever.
    fn flush_log(&mut self) -> Result<(), Fault>
        ensures does { told → FlushedLog (state self.old) (state self.new) result }
        ensures later { faults self.old ≤ faults self.new }
        ensures cause { OnErr result (Rose (faults self.old) (faults self.new)) };

    /// There is no log any more, and no room is kept: nothing but records is left.
    fn drop_log(&mut self) -> Result<(), Fault>
        ensures does { told → Cut (state self.old) (state self.new) 0 result }
        ensures later { faults self.old ≤ faults self.new }
        ensures cause { OnErr result (Rose (faults self.old) (faults self.new)) };

    /// Whether the log has become so long that it should be carried out.
    fn is_long(&self) -> bool;

    /// Whether room is kept for records' files that find none.
    fn has_reserve(&self) -> bool;

    /// Keeps such room again.
    fn take_reserve(&mut self) -> Result<(), Fault>
        ensures does { told → Stayed (state self.old) (state self.new) }
        ensures later { faults self.old ≤ faults self.new }
        ensures cause { OnErr result (Rose (faults self.old) (faults self.new)) };

    /// Whether so many bytes need no more room than the record's file has.
    fn fits(&mut self, which: Which, len: u64) -> bool
        ensures does { told → Stayed (state self.old) (state self.new) }
        ensures later { faults self.old ≤ faults self.new };

    /// What a cut may leave now, it might have left since any moment that is past.
    ghost counts_now: { told → (folder : Self) (t : ℕ) (c : Files) (l : Log) → t ≤ (state folder).moment → (state folder).may_leave c l → (state folder).left_since t c l };

    /// Since this moment there is no other.
    ghost only_now: { told → (folder : Self) (c : Files) (l : Log) → (state folder).left_since (state folder).moment c l → (state folder).may_leave c l };
}
