//! A store in a folder of the host. It tells nothing of its records; what is proved is that each
//! fault is counted. How a change is made, and what a cut of power leaves, `log_store` proves of a folder
//! that does what its calls say; that the host's does is trusted (`disk_folder`).

ghost use Rattle.std.specs.Prelude.{◌≡◌, None};

use crate::ahead::{LongContent, OPEN_MOST, read_long, take_content};
use crate::commit::FolderSyncs;
use crate::edits::apply_change;
use crate::found::record_in;
use crate::look::look;
use lb_base::faults::one_more;
use lb_base::source::Failed;
use log_store::carrying::Unfinished;
use log_store::records::LogStore;
use log_store::which::Which;
use std::alloc::{AllocError, Global};
use std::fs;
use std::fs::File;
use std::rt::Files;
use std::thread::Threads;
use store::record::{Head, Kept, RecordChange};
use store::store::{Store, StoreError};
use synced_store::checks::{CheckedStore, Checks};
use synced_store::syncs::Synced;
use system_files::disk_files::has_room;
use system_files::naming::put_name;
use system_folder::disk_folder::DiskFolder;

/// A record of more bytes is written in a file of its own before the log names it, unless its file has room
/// for them already.
const LARGE: usize = 32 << 10;

/// And one of more bytes than these always: the log says no more of one.
const LARGE_ALWAYS: usize = 256 << 10;

/// A store in a folder.
pub struct FolderStore<R> {
    rt: R,
    /// The folder, once it was loaded.
    held: Option<LoadedFolder<R>>,
    /// The place at which it was loaded ahead, and what `load` is to answer of it.
    ahead: Option<(String, Result<Vec<Kept>, StoreError>)>,
    /// Whether nothing is flushed.
    unsynced: bool,
    spare: u32,
    faults: u64,
}

// By hand: docs/proving/dropping.md.
impl<R: Drop> Drop for FolderStore<R> {
    fn drop(self) {
        let FolderStore {
            rt,
            held,
            ahead,
            unsynced: _unsynced,
            spare: _spare,
            faults: _faults,
        } = self;
        drop(rt);
        drop(held);
        drop(ahead);
    }
}

/// A folder that is loaded.
struct LoadedFolder<R> {
    /// The folder's path, and a slash behind it.
    front: String,
    store: LogStore<DiskFolder<R>>,
    syncs: FolderSyncs<R>,
}

// By hand: docs/proving/dropping.md.
impl<R: Drop> Drop for LoadedFolder<R> {
    fn drop(self) {
        let LoadedFolder {
            front,
            store,
            syncs,
        } = self;
        drop(front);
        drop(store);
        drop(syncs);
    }
}

impl<R> FolderStore<R> {
    /// A store with no fault so far, of whichever folder is loaded first.
    pub fn new(rt: R) -> FolderStore<R>
        ensures { (result.spare ≡ 0) × (result.faults ≡ 0) }
    {
        FolderStore {
            rt,
            held: None,
            ahead: None,
            unsynced: false,
            spare: 0,
            faults: 0,
        }
    }
}

/// Tells that a record's file says no record.
fn tell_no_record<R: Eprint>(
    rt: &R,
    alloc: Global,
    folder: &str,
    which: Which,
) -> Result<(), AllocError> {
    let mut name = String::new(alloc);
    put_name(&mut name, which)?;
    let _told = eprintln!(rt; "lbfs: {folder}{name}: holds no record (was it cut?)");
    Ok(())
}

/// What is sure of a store whose log is at a place.
fn syncs_of<R: Files<File = File> + Eprint + Clone + Drop>(
    rt: &R,
    alloc: Global,
    place: &str,
    unsynced: bool,
) -> Result<FolderSyncs<R>, StoreError> {
    let path = format!(in alloc; "{place}/log")?;
    let log = if unsynced {
        None
    } else {
        match fs::open(rt, path.as_str()) {
            Ok(log) => Some(log),
            Err(why) => {
                let _told = eprintln!(rt; "lbfs: {path}: {why}");
                return Err(StoreError::Failed);
            }
        }
    };
    let rt = rt.clone()?;
    Ok(FolderSyncs::new(rt, alloc, path.as_str(), log)?)
}

/// Opens a folder, and says which records it has.
fn open_folder<R: Files<File = File> + AllocGlobal + Eprint + Clone + Drop>(
    rt: &R,
    alloc: Global,
    place: &str,
    unsynced: bool,
) -> Result<(LoadedFolder<R>, Vec<Which>), StoreError> {
    let front = format!(in alloc; "{place}/")?;
    let folder = DiskFolder::open(rt.clone()?, alloc, place, unsynced)?;
    let mut store = LogStore::new(folder, alloc);
    let there = store.load()?;
    let syncs = syncs_of(rt, alloc, place, unsynced)?;
    let held = LoadedFolder {
        front,
        store,
        syncs,
    };
    Ok((held, there))
}

/// Opens a folder, and reads its records.
fn load_folder<R: Files<File = File> + AllocGlobal + Eprint + Clone + Drop>(
    rt: &R,
    alloc: Global,
    place: &str,
    unsynced: bool,
) -> Result<(LoadedFolder<R>, Vec<Kept>), StoreError> {
    let (mut held, there) = open_folder(rt, alloc, place, unsynced)?;
    let mut records = Vec::new(alloc);
    held.read(rt, there.as_slice(), Vec::new(alloc), &mut records)?;
    Ok((held, records))
}

/// The same where threads read the long contents.
fn load_by_threads<H: Threads + Sync, R: Files<File = File> + AllocGlobal + Eprint + Clone + Drop>(
    handle: &H,
    rt: &R,
    alloc: Global,
    place: &str,
    unsynced: bool,
) -> Result<(LoadedFolder<R>, Vec<Kept>), StoreError> {
    let (mut held, there) = open_folder(rt, alloc, place, unsynced)?;
    let mut records = Vec::new(alloc);
    for these in there.as_slice().chunks(OPEN_MOST) {
        held.read_by_threads(handle, rt, these, &mut records)?;
    }
    Ok((held, records))
}

/// Whether a change's record has a file of its own first. It needs none where so many bytes are in its file's
/// place already: the log says them then, and one flush is enough.
fn is_large<R: Files<File = File>>(
    rt: &R,
    alloc: Global,
    folder: &str,
    change: &RecordChange,
) -> bool {
    let RecordChange::Content(content) = change else {
        return false;
    };
    let len = content.bytes.len().saturating_add(8);
    if len <= LARGE || LARGE_ALWAYS < len {
        return LARGE < len;
    }
    let mut path = String::new(alloc);
    if path.push_str(folder).is_err() || put_name(&mut path, Which::Content(content.id)).is_err() {
        return true;
    }
    !has_room(rt, path.as_str(), len as u64)
}

/// Whether the records of a change's parts have files of their own first.
fn are_large<R: Files<File = File>>(
    rt: &R,
    alloc: Global,
    folder: &str,
    first: &RecordChange,
    second: &Option<RecordChange>,
) -> (bool, bool) {
    let is_second_large = match second {
        Some(second) => is_large(rt, alloc, folder, second),
        None => false,
    };
    (is_large(rt, alloc, folder, first), is_second_large)
}

impl<R: Files<File = File> + AllocGlobal + Eprint + Clone + Drop> LoadedFolder<R> {
    /// Adds these of its records, of which threads read the long contents.
    fn read_by_threads<H: Threads + Sync>(
        &mut self,
        handle: &H,
        rt: &R,
        these: &[Which],
        records: &mut Vec<Kept>,
    ) -> Result<(), StoreError> {
        let long = read_long(handle, rt, rt.alloc(), self.front.as_str(), these)?;
        self.read(rt, these, long, records)
    }

    /// Adds these of its records. Some contents were read already.
    fn read(
        &mut self,
        rt: &R,
        these: &[Which],
        long: Vec<LongContent>,
        records: &mut Vec<Kept>,
    ) -> Result<(), StoreError> {
        let mut long = long;
        for which in these {
            let record = match take_content(long.as_mut_slice(), *which) {
                Some(content) => Kept::Content(content),
                None => self.read_record(rt, *which)?,
            };
            match records.push(record) {
                Ok(()) => {}
                Err(_want) => return Err(StoreError::Memory),
            }
        }
        Ok(())
    }

    /// A record that it has.
    fn read_record(&mut self, rt: &R, which: Which) -> Result<Kept, StoreError> {
        let Some(bytes) = self.store.read(which)? else {
            return Err(StoreError::Failed);
        };
        match record_in(rt.alloc(), which, bytes)? {
            Some(record) => Ok(record),
            None => {
                tell_no_record(rt, rt.alloc(), self.front.as_str(), which)?;
                Err(StoreError::Failed)
            }
        }
    }

    /// Makes a change, or leaves the records as they were, or is in doubt.
    fn apply(
        &mut self,
        rt: &R,
        head: Head,
        first: &RecordChange,
        second: &Option<RecordChange>,
    ) -> Result<(), Failed> {
        if self.syncs.group_flush().is_in_doubt() {
            return Err(Failed);
        }
        let made = self.make(rt, head, first, second);
        self.syncs.group_flush().note_given();
        match made {
            Ok(()) => Ok(()),
            Err(Unfinished::InDoubt) => {
                self.syncs.group_flush().note_doubt();
                Err(Failed)
            }
            Err(Unfinished::Failed | Unfinished::Memory) => Err(Failed),
        }
    }

    /// Makes a change, or says why it wasn't made. One for which no new file finds room is made without one, if that
    /// is no longer wanted: as the log was carried out the record's file may have got the room of a longer content.
    fn make(
        &mut self,
        rt: &R,
        head: Head,
        first: &RecordChange,
        second: &Option<RecordChange>,
    ) -> Result<(), Unfinished> {
        let alloc = rt.alloc();
        let wanted = are_large(rt, alloc, self.front.as_str(), first, second);
        match apply_change(&mut self.store, head, first, second, wanted) {
            Err(Unfinished::Failed) => {}
            made => return made,
        }
        let behind = are_large(rt, alloc, self.front.as_str(), first, second);
        if behind.0 == wanted.0 && behind.1 == wanted.1 {
            return Err(Unfinished::Failed);
        }
        apply_change(&mut self.store, head, first, second, behind)
    }

    /// The log is carried out, and nothing but records' files is left. Where memory runs out the log stays,
    /// for the next start.
    fn close(&mut self) -> Result<(), StoreError> {
        if self.syncs.group_flush().is_in_doubt() {
            return Err(StoreError::Failed);
        }
        match self.store.close() {
            Ok(()) => Ok(()),
            Err(Unfinished::Memory) => Err(StoreError::Memory),
            Err(Unfinished::Failed | Unfinished::InDoubt) => Err(StoreError::Failed),
        }
    }
}

impl<R: Files<File = File> + AllocGlobal + Eprint + Clone + Drop> FolderStore<R> {
    /// Loads a folder by threads, ahead of `load`, which then answers what came. Where memory runs out for that `load`
    /// does it all.
    pub fn load_ahead<H: Threads + Sync>(&mut self, handle: &H, alloc: Global, place: &str)
        ensures { (self.new.spare ≡ self.old.spare) × (self.new.faults ≡ self.old.faults) }
    {
        self.held = None;
        self.ahead = None;
        let Ok(at) = String::from_str(alloc, place) else {
            return;
        };
        let came = load_by_threads(handle, &self.rt, alloc, place, self.unsynced);
        let came = self.hold(came);
        self.ahead = Some((at, came));
    }

    /// Loads a folder now.
    fn load_now(&mut self, alloc: Global, place: &str) -> Result<Vec<Kept>, StoreError>
        ensures { (self.new.spare ≡ self.old.spare) × (self.new.faults ≡ self.old.faults) }
    {
        // The folder that was loaded before is dropped, so that it may be this one.
        self.held = None;
        let came = load_folder(&self.rt, alloc, place, self.unsynced);
        self.hold(came)
    }
}

impl<R: Drop> FolderStore<R> {
    /// What was loaded ahead, if it is of this place. It is forgotten.
    fn take_ahead(&mut self, place: &str) -> Option<Result<Vec<Kept>, StoreError>>
        ensures { (self.new.spare ≡ self.old.spare) × (self.new.faults ≡ self.old.faults) }
    {
        let (at, came) = self.ahead.take()?;
        if at.as_str() == place {
            Some(came)
        } else {
            None
        }
    }

    /// Holds a folder that was loaded, and gives its records.
    fn hold(
        &mut self,
        came: Result<(LoadedFolder<R>, Vec<Kept>), StoreError>,
    ) -> Result<Vec<Kept>, StoreError>
        ensures { (self.new.spare ≡ self.old.spare) × (self.new.faults ≡ self.old.faults) }
    {
        match came {
            Ok((held, records)) => {
                self.held = Some(held);
                Ok(records)
            }
            Err(why) => Err(why),
        }
    }
}

impl<R: Files<File = File> + AllocGlobal + Eprint + Clone + Drop> Store for FolderStore<R> {
    ghost records = { λ _. None };

    ghost there = { λ _ _. None };

    ghost spare = { λ s. s.spare };

    ghost faults = { λ s. s.faults };

    fn load(&mut self, alloc: Global, place: &str) -> Result<Vec<Kept>, StoreError> {
        let came = match self.take_ahead(place) {
            Some(came) => came,
            None => self.load_now(alloc, place),
        };
        match came {
            Ok(records) => Ok(records),
            Err(StoreError::Failed) => {
                self.faults = one_more(self.faults);
                Err(StoreError::Failed)
            }
            Err(StoreError::Memory) => Err(StoreError::Memory),
        }
    }

    fn reserve(&mut self, count: u32) -> Result<(), AllocError> {
        self.spare = self.spare.max(count);
        Ok(())
    }

    fn apply(
        &mut self,
        head: Head,
        first: RecordChange,
        second: Option<RecordChange>,
    ) -> Result<(), Failed> {
        let made = match &mut self.held {
            Some(held) => held.apply(&self.rt, head, &first, &second),
            None => Err(Failed),
        };
        drop(first);
        drop(second);
        if made.is_err() {
            self.faults = one_more(self.faults);
        }
        made
    }
}

impl<R: Files<File = File> + AllocGlobal + Eprint + Clone + Drop + Send + Sync> Synced
    for FolderStore<R> {
    type Y = FolderSyncs<R>;

    fn syncs(&self) -> Result<FolderSyncs<R>, AllocError> {
        match &self.held {
            Some(held) => held.syncs.share(),
            None => Err(AllocError),
        }
    }

    fn leave_unflushed(&mut self) {
        self.unsynced = true;
    }

    fn close(&mut self) -> Result<(), StoreError> {
        let done = match &mut self.held {
            Some(held) => held.close(),
            None => Ok(()),
        };
        if let Err(StoreError::Failed) = &done {
            self.faults = one_more(self.faults);
        }
        done
    }

    fn fault_count(&self) -> u64 {
        self.faults
    }
}

impl<R: Files<File = File> + AllocGlobal + Eprint + Clone + Drop> Checks for FolderStore<R> {
    fn check(&mut self, alloc: Global, place: &str) -> Result<CheckedStore, StoreError> {
        match look(&self.rt, alloc, place) {
            Ok(found) => Ok(found),
            Err(StoreError::Failed) => {
                self.faults = one_more(self.faults);
                Err(StoreError::Failed)
            }
            Err(StoreError::Memory) => Err(StoreError::Memory),
        }
    }
}
