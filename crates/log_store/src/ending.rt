//! A folder is brought to rest, as it is loaded and as it is left.

ghost use Rattle.std.specs.Prelude.{◌≡◌, ◌⊎◌, ◌≤◌, ◌++◌, List, Contains, OnOk, OnErr, IfOk, IsErrOf};
ghost use Rattle.lb_base.specs.Causes.{Rose};
ghost use Rattle.store.specs.declared.store.StoreError.TheVariants as errors;
ghost use Rattle.log_store.specs.Lines.{Records, Log};
ghost use Rattle.log_store.specs.Disk.{Files};
ghost use Rattle.log_store.specs.Sound.{IsSound, IsQuiet, Loads};
ghost use Rattle.log_store.specs.Store.{IsLeft, CaughtUp, Rested, Swept, Closed, Tidied, carried};
ghost use Rattle.log_store.specs.declared.carrying.Unfinished.TheVariants as unfinished;
ghost use Rattle.log_store.specs.declared.which.Which.{Which};
ghost use Rattle.log_store.specs.declared.which.FileName.TheVariants as file_name;

use crate::carrying::{Unfinished, carry_out};
use crate::folder::{Fault, Folder};
use crate::which::{FileName, Which};
use std::alloc::{AllocError, Global};
use store::store::StoreError;

/// All that is seen is on the disk: what an earlier run wrote and didn't flush, too.
fn catch_up<D: Folder>(folder: &mut D) -> Result<(), Fault>
    ensures does { D.told → (c : Files) (l : Log) (past : List Records) → IsLeft c l past (D.state folder.old) → CaughtUp c l past (D.state folder.old) (D.state folder.new) result }
    ensures later { D.faults folder.old ≤ D.faults folder.new }
    ensures cause { OnErr result (Rose (D.faults folder.old) (D.faults folder.new)) }
{
    folder.flush_log()?;
    folder.flush_all()
}

/// Carries out what a cut or a kill left of a log.
pub(crate) fn rest<D: Folder>(folder: &mut D, alloc: Global) -> Result<(), StoreError>
    ensures does { D.told → (c : Files) (l : Log) (records : Records) (past : List Records)
        → IsLeft c l past (D.state folder.old) → Loads l c records
        → Rested records past (D.state folder.old) (D.state folder.new) result }
    ensures later { D.faults folder.old ≤ D.faults folder.new }
    ensures cause { IsErrOf result errors.Failed → Rose (D.faults folder.old) (D.faults folder.new) }
{
    catch_up(folder)?;
    carried(carry_out(folder, alloc))
}

/// What carrying out came to, for one who goes no further where it isn't done.
fn carried(done: Result<(), Unfinished>) -> Result<(), StoreError>
    ensures { result ≡ carried done }
{
    match done {
        Ok(()) => Ok(()),
        Err(Unfinished::Memory) => Err(StoreError::Memory),
        Err(Unfinished::Failed | Unfinished::InDoubt) => Err(StoreError::Failed),
    }
}

/// Removes the new files among these, which an empty log doesn't name. What stays is no harm.
fn remove_news<D: Folder>(folder: &mut D, names: &[FileName])
    ensures does { D.told → (records : Records) → IsQuiet records (D.state folder.old) → Tidied records (D.state folder.old) (D.state folder.new) }
    ensures later { D.faults folder.old ≤ D.faults folder.new }
{
    if let [name, rest @ ..] = names {
        remove_new(folder, *name);
        remove_news(folder, rest);
    }
}

/// Removes a file, if it is a new one.
fn remove_new<D: Folder>(folder: &mut D, name: FileName)
    ensures does { D.told → (records : Records) → IsQuiet records (D.state folder.old) → Tidied records (D.state folder.old) (D.state folder.new) }
    ensures later { D.faults folder.old ≤ D.faults folder.new }
{
    match name {
        FileName::New(which) => {
            let _later = folder.remove(FileName::New(which));
        }
        FileName::Record(_) => {}
    }
}

/// Adds the records among these files to others. The one error is running out of memory.
fn push_records(records: &mut Vec<Which>, names: &[FileName]) -> Result<(), AllocError>
    ensures stays { (n : Which) → Contains records.old.items n → Contains records.new.items n }
    ensures done { OnOk result ((n : Which) → Contains names.now (file_name.Record n) → Contains records.new.items n) }
{
    match names {
        [name, rest @ ..] => {
            match *name {
                FileName::Record(which) => records.push(which)?,
                FileName::New(_) => {}
            }
            push_records(records, rest)
        }
        [] => Ok(()),
    }
}

/// The records of a folder whose log is empty. What earlier runs left beside them goes.
pub(crate) fn sweep<D: Folder>(folder: &mut D, alloc: Global) -> Result<Vec<Which>, StoreError>
    ensures does { D.told → (records : Records) → IsQuiet records (D.state folder.old) → Swept records (D.state folder.old) (D.state folder.new) result }
    ensures later { D.faults folder.old ≤ D.faults folder.new }
    ensures cause { IsErrOf result errors.Failed → Rose (D.faults folder.old) (D.faults folder.new) }
{
    let names = folder.names(alloc)?;
    remove_news(folder, &names);
    let mut records = Vec::new(alloc);
    push_records(&mut records, &names)?;
    Ok(records)
}

/// Carries all out; the folder then holds the records' files alone.
pub(crate) fn close<D: Folder>(folder: &mut D, alloc: Global) -> Result<(), Unfinished>
    ensures does { D.told → (records : Records) (past : List Records) (pending : List Which)
        → IsSound records past pending (D.state folder.old)
        → Closed records past (D.state folder.old) (D.state folder.new) result }
    ensures later { D.faults folder.old ≤ D.faults folder.new }
    ensures failed { IsErrOf result unfinished.Failed → Rose (D.faults folder.old) (D.faults folder.new) }
    ensures in_doubt { IsErrOf result unfinished.InDoubt → Rose (D.faults folder.old) (D.faults folder.new) }
{
    carry_out(folder, alloc)?;
    let _names = sweep(folder, alloc)?;
    match folder.drop_log() {
        Ok(()) => Ok(()),
        Err(Fault) => Err(Unfinished::Failed),
    }
}
