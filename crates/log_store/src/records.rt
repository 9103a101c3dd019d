//! Records in a folder, and changes of them.

ghost use Rattle.std.specs.Prelude.{◌≡◌, ◌⊎◌, ◌≤◌, List, [], ◌∷◌, ◌++◌, true, false, OnOk, OnErr, IfOk, IsErrOf};
ghost use Rattle.lb_base.specs.Causes.{Rose};
ghost use Rattle.store.specs.declared.store.StoreError.TheVariants as errors;
ghost use Rattle.log_store.specs.Lines.{Records, Log, changed, is_clear};
ghost use Rattle.log_store.specs.Disk.{Files, Looked};
ghost use Rattle.log_store.specs.Sound.{IsSound, Loads, AreThere};
ghost use Rattle.log_store.specs.Store.{HoldsRecords, IsLeft, Applied, Relieved, Loaded, Closed, bytes_in, doubts};
ghost use Rattle.log_store.specs.declared.carrying.Unfinished.TheVariants as unfinished;

use crate::carrying::{Unfinished, carry_out};
use crate::edit::{Edit, has_large, is_clear, push_larges};
use crate::ending::{close, rest, sweep};
use crate::folder::{Fault, Folder};
use crate::room::is_frugal;
use crate::staging::{Undone, change};
use crate::which::{FileName, Which};
use std::alloc::Global;
use store::store::StoreError;

/// A store of records in a folder.
#[derive(Drop)]
pub struct LogStore<D> {
    folder: D,
    alloc: Global,
    /// The records whose new files the log may name.
    pending: Vec<Which>,
    /// Whether it isn't known what the folder holds.
    doubt: bool,
}

impl<D: Folder> LogStore<D> {
    /// Carries the log out. Where it isn't known whether it was emptied, the store is in doubt.
    fn carry_out(&mut self) -> Result<(), Unfinished>
        ensures does { D.told → (records : Records) (past : List Records)
            → self.old.doubt ≡ false
            → HoldsRecords records past self.old.pending.items self.old.doubt
            (D.state self.old.folder)
            → Relieved records past self.new.pending.items self.new.doubt
            (D.state self.old.folder) (D.state self.new.folder) }
        ensures empty { OnOk result ((self.new.pending.items ≡ []) × (self.new.doubt ≡ false)) }
        ensures kept { OnErr result (self.new.pending.items ≡ self.old.pending.items) }
        ensures later { D.faults self.old.folder ≤ D.faults self.new.folder }
        ensures known { self.old.doubt ≡ false → doubts result ≡ self.new.doubt }
        ensures failed { IsErrOf result unfinished.Failed → Rose (D.faults self.old.folder) (D.faults self.new.folder) }
        ensures in_doubt { IsErrOf result unfinished.InDoubt → Rose (D.faults self.old.folder) (D.faults self.new.folder) }
    {
        match carry_out(&mut self.folder, self.alloc) {
            Ok(()) => {
                self.pending.clear();
                self.doubt = false;
                Ok(())
            }
            Err(Unfinished::Failed) => Err(Unfinished::Failed),
            Err(Unfinished::Memory) => Err(Unfinished::Memory),
            Err(Unfinished::InDoubt) => {
                self.doubt = true;
                Err(Unfinished::InDoubt)
            }
        }
    }

    /// Carries the log out, if it can be.
    fn relieve(&mut self) -> Result<(), Unfinished>
        ensures does { D.told → (records : Records) (past : List Records)
            → self.old.doubt ≡ false
            → HoldsRecords records past self.old.pending.items self.old.doubt
            (D.state self.old.folder)
            → Relieved records past self.new.pending.items self.new.doubt
            (D.state self.old.folder) (D.state self.new.folder) }
        ensures sure { OnOk result (self.new.doubt ≡ false) }
        ensures pending { (self.new.pending.items ≡ []) ⊎ (self.new.pending.items ≡ self.old.pending.items) }
        ensures later { D.faults self.old.folder ≤ D.faults self.new.folder }
        ensures known { self.old.doubt ≡ false → doubts result ≡ self.new.doubt }
        ensures failed { IsErrOf result unfinished.Failed → Rose (D.faults self.old.folder) (D.faults self.new.folder) }
        ensures in_doubt { IsErrOf result unfinished.InDoubt → Rose (D.faults self.old.folder) (D.faults self.new.folder) }
    {
        match self.carry_out() {
            Ok(()) => Ok(()),
            Err(why) => {
                if self.doubt {
                    return Err(why);
                }
                Ok(())
            }
        }
    }

    /// Whether edits need no more room than their records' files have.
    fn is_frugal(&mut self, edits: &[Edit<'_>]) -> bool
        ensures does { D.told → Looked (D.state self.old.folder) (D.state self.new.folder) }
        ensures pending { self.new.pending.items ≡ self.old.pending.items }
        ensures doubt { self.new.doubt ≡ self.old.doubt }
        ensures later { D.faults self.old.folder ≤ D.faults self.new.folder }
    {
        is_frugal(&mut self.folder, edits)
    }

    /// Makes room for edits, where it is scarce: the log is carried out, and room kept again for what
    /// finds none. Edits that need none go on without.
    fn save_room(&mut self, edits: &[Edit<'_>]) -> Result<(), Unfinished>
        ensures does { D.told → (records : Records) (past : List Records)
            → self.old.doubt ≡ false
            → HoldsRecords records past self.old.pending.items self.old.doubt
            (D.state self.old.folder)
            → Relieved records past self.new.pending.items self.new.doubt
            (D.state self.old.folder) (D.state self.new.folder) }
        ensures sure { self.old.doubt ≡ false → OnOk result (self.new.doubt ≡ false) }
        ensures pending { (self.new.pending.items ≡ []) ⊎ (self.new.pending.items ≡ self.old.pending.items) }
        ensures later { D.faults self.old.folder ≤ D.faults self.new.folder }
        ensures known { self.old.doubt ≡ false → doubts result ≡ self.new.doubt }
        ensures failed { IsErrOf result unfinished.Failed → Rose (D.faults self.old.folder) (D.faults self.new.folder) }
        ensures in_doubt { IsErrOf result unfinished.InDoubt → Rose (D.faults self.old.folder) (D.faults self.new.folder) }
    {
        if self.folder.has_reserve() || self.is_frugal(edits) {
            return Ok(());
        }
        self.carry_out()?;
        match self.folder.take_reserve() {
            Ok(()) => Ok(()),
            Err(Fault) => Err(Unfinished::Failed),
        }
    }

    /// Brings the log to where edits may be added: it names no new file that they write.
    fn make_way(&mut self, edits: &[Edit<'_>]) -> Result<(), Unfinished>
        ensures does { D.told → (records : Records) (past : List Records)
            → self.old.doubt ≡ false
            → HoldsRecords records past self.old.pending.items self.old.doubt
            (D.state self.old.folder)
            → Relieved records past self.new.pending.items self.new.doubt
            (D.state self.old.folder) (D.state self.new.folder) }
        ensures sure { self.old.doubt ≡ false → OnOk result (self.new.doubt ≡ false) }
        ensures clear { OnOk result (is_clear edits.now self.new.pending.items ≡ true) }
        ensures later { D.faults self.old.folder ≤ D.faults self.new.folder }
        ensures known { self.old.doubt ≡ false → doubts result ≡ self.new.doubt }
        ensures failed { IsErrOf result unfinished.Failed → Rose (D.faults self.old.folder) (D.faults self.new.folder) }
        ensures in_doubt { IsErrOf result unfinished.InDoubt → Rose (D.faults self.old.folder) (D.faults self.new.folder) }
    {
        if !is_clear(edits, &self.pending) {
            return self.carry_out();
        }
        if self.folder.is_long() && !has_large(edits) {
            return self.relieve();
        }
        self.save_room(edits)
    }

    /// Makes a change as a whole or not at all: of each record what its last edit says. It is on the disk
    /// once the folder's log was flushed. `Ok` says that it was made. An error comes where a call failed or
    /// memory ran out, and nothing is changed then; `InDoubt` where that isn't known, and from then on.
    pub fn apply(&mut self, edits: &[Edit<'_>]) -> Result<(), Unfinished>
        ensures does { D.told → (records : Records) (past : List Records)
            → HoldsRecords records past self.old.pending.items self.old.doubt
            (D.state self.old.folder) → self.old.doubt ≡ false
            → Applied edits.now records past self.new.pending.items self.new.doubt
            (D.state self.old.folder) (D.state self.new.folder) result }
        ensures made { OnOk result (self.old.doubt ≡ false) }
        ensures known { doubts result ≡ self.new.doubt }
        ensures later { D.faults self.old.folder ≤ D.faults self.new.folder }
        ensures failed { IsErrOf result unfinished.Failed → Rose (D.faults self.old.folder) (D.faults self.new.folder) }
        ensures in_doubt { IsErrOf result unfinished.InDoubt → (self.old.doubt ≡ true) ⊎ Rose (D.faults self.old.folder) (D.faults self.new.folder) }
    {
        if self.doubt {
            return Err(Unfinished::InDoubt);
        }
        self.make_way(edits)?;
        self.add_or_again(edits)
    }

    /// Adds a change. Where that failed and the log has entries, it is carried out, which may give room
    /// back, and the change is added once more.
    fn add_or_again(&mut self, edits: &[Edit<'_>]) -> Result<(), Unfinished>
        ensures does { D.told → (records : Records) (past : List Records)
            → IsSound records past self.old.pending.items (D.state self.old.folder)
            → is_clear edits.now self.old.pending.items ≡ true → self.old.doubt ≡ false
            → Applied edits.now records past self.new.pending.items self.new.doubt
            (D.state self.old.folder) (D.state self.new.folder) result }
        ensures later { D.faults self.old.folder ≤ D.faults self.new.folder }
        ensures known { self.old.doubt ≡ false → doubts result ≡ self.new.doubt }
        ensures failed { IsErrOf result unfinished.Failed → Rose (D.faults self.old.folder) (D.faults self.new.folder) }
        ensures in_doubt { IsErrOf result unfinished.InDoubt → Rose (D.faults self.old.folder) (D.faults self.new.folder) }
    {
        match self.add(edits) {
            Ok(()) => Ok(()),
            Err(why) => {
                if self.doubt || self.folder.count() == 0 {
                    return Err(why);
                }
                self.add_behind(edits)
            }
        }
    }

    /// Adds a change once the log was carried out.
    fn add_behind(&mut self, edits: &[Edit<'_>]) -> Result<(), Unfinished>
        ensures does { D.told → (records : Records) (past : List Records)
            → IsSound records past self.old.pending.items (D.state self.old.folder)
            → self.old.doubt ≡ false
            → Applied edits.now records past self.new.pending.items self.new.doubt
            (D.state self.old.folder) (D.state self.new.folder) result }
        ensures later { D.faults self.old.folder ≤ D.faults self.new.folder }
        ensures known { self.old.doubt ≡ false → doubts result ≡ self.new.doubt }
        ensures failed { IsErrOf result unfinished.Failed → Rose (D.faults self.old.folder) (D.faults self.new.folder) }
        ensures in_doubt { IsErrOf result unfinished.InDoubt → Rose (D.faults self.old.folder) (D.faults self.new.folder) }
    {
        self.carry_out()?;
        self.add(edits)
    }

    /// Adds a change, once the log names no new file that it writes.
    fn add(&mut self, edits: &[Edit<'_>]) -> Result<(), Unfinished>
        ensures does { D.told → (records : Records) (past : List Records)
            → IsSound records past self.old.pending.items (D.state self.old.folder)
            → is_clear edits.now self.old.pending.items ≡ true → self.old.doubt ≡ false
            → Applied edits.now records past self.new.pending.items self.new.doubt
            (D.state self.old.folder) (D.state self.new.folder) result }
        ensures later { D.faults self.old.folder ≤ D.faults self.new.folder }
        ensures known { self.old.doubt ≡ false → doubts result ≡ self.new.doubt }
        ensures failed { IsErrOf result unfinished.Failed → Rose (D.faults self.old.folder) (D.faults self.new.folder) }
        ensures in_doubt { IsErrOf result unfinished.InDoubt → Rose (D.faults self.old.folder) (D.faults self.new.folder) }
    {
        push_larges(&mut self.pending, edits)?;
        match change(&mut self.folder, edits) {
            Ok(()) => Ok(()),
            Err(Undone::Before) => Err(Unfinished::Failed),
            Err(Undone::InDoubt) => {
                self.doubt = true;
                Err(Unfinished::InDoubt)
            }
        }
    }

    /// A store of a folder of which nothing was loaded yet. It is in doubt until then.
    pub fn new(folder: D, alloc: Global) -> LogStore<D>
        ensures { (result.folder ≡ folder) × (result.doubt ≡ true) × (result.pending.items ≡ []) }
    {
        LogStore {
            folder,
            alloc,
            pending: Vec::new(alloc),
            doubt: true,
        }
    }

    /// Brings a folder to rest that a cut of power or a kill left, and gives the records that it has, in
    /// their order. What earlier runs left goes. A cut may come again at any moment.
    pub fn load(&mut self) -> Result<Vec<Which>, StoreError>
        ensures does { D.told → (c : Files) (l : Log) (records : Records) (past : List Records)
            → IsLeft c l past (D.state self.old.folder) → Loads l c records
            → Loaded records past (D.state self.old.folder) (D.state self.new.folder) result }
        ensures sure { IfOk result (λ names. (self.new.doubt ≡ false) × (self.new.pending.items ≡ [])) }
        ensures later { D.faults self.old.folder ≤ D.faults self.new.folder }
        ensures cause { IsErrOf result errors.Failed → Rose (D.faults self.old.folder) (D.faults self.new.folder) }
    {
        self.doubt = true;
        self.pending.clear();
        rest(&mut self.folder, self.alloc)?;
        let names = sweep(&mut self.folder, self.alloc)?;
        let _later = self.folder.take_reserve();
        self.doubt = false;
        Ok(names)
    }

    /// The bytes of a record, if it is there.
    pub fn read(&mut self, which: Which) -> Result<Option<Vec<u8>>, StoreError>
        ensures tells { D.told → (records : Records) → AreThere records (D.state self.old.folder) → IfOk result (λ bytes. bytes_in bytes ≡ records which) }
        ensures does { D.told → Looked (D.state self.old.folder) (D.state self.new.folder) }
        ensures doubt { self.new.doubt ≡ self.old.doubt }
        ensures pending { self.new.pending.items ≡ self.old.pending.items }
        ensures later { D.faults self.old.folder ≤ D.faults self.new.folder }
        ensures cause { IsErrOf result errors.Failed → Rose (D.faults self.old.folder) (D.faults self.new.folder) }
    {
        self.folder.read(self.alloc, FileName::Record(which))
    }

    /// Carries all out; the folder then holds the records' files alone. `Ok` says that it was done. From
    /// then on the store is in doubt, until a folder is loaded again.
    pub fn close(&mut self) -> Result<(), Unfinished>
        ensures does { D.told → (records : Records) (past : List Records)
            → HoldsRecords records past self.old.pending.items self.old.doubt
            (D.state self.old.folder) → self.old.doubt ≡ false
            → Closed records past (D.state self.old.folder) (D.state self.new.folder) result }
        ensures made { OnOk result (self.old.doubt ≡ false) }
        ensures known { self.new.doubt ≡ true }
        ensures later { D.faults self.old.folder ≤ D.faults self.new.folder }
        ensures failed { IsErrOf result unfinished.Failed → Rose (D.faults self.old.folder) (D.faults self.new.folder) }
        ensures in_doubt { IsErrOf result unfinished.InDoubt → (self.old.doubt ≡ true) ⊎ Rose (D.faults self.old.folder) (D.faults self.new.folder) }
    {
        if self.doubt {
            return Err(Unfinished::InDoubt);
        }
        self.doubt = true;
        close(&mut self.folder, self.alloc)
    }

    /// Whether it isn't known what the folder holds.
    pub fn is_in_doubt(&self) -> bool
        ensures { result ≡ self.now.doubt }
    {
        self.doubt
    }
}
