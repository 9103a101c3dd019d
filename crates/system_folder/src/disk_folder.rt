//! The folder of a store by the system's calls (`Folder` of `log_store`). It tells nothing of its files, so
//! that these calls do what the trait says of them is trusted. Each fault is counted, and told on standard
//! error with the system's reason.

ghost use Rattle.std.specs.Prelude.{◌≡◌, ◌≤◌, OnOk, OnErr, IsErrOf};
ghost use Rattle.lb_base.specs.Causes.{Rose};
ghost use Rattle.store.specs.declared.store.StoreError.TheVariants as errors;
ghost use Rattle.system_folder.specs.Untold.{untold};

use crate::open_folder::{OpenFolder, lock_folder};
use crate::strangers::Stranger;
use lb_base::faults::one_more;
use log_store::edit::{Edit, Line};
use log_store::folder::{Fault, Folder};
use log_store::which::{FileName, Which};
use std::alloc::Global;
use std::fs::{File, TryLockError};
use std::io;
use std::io::ErrorKind;
use std::rt::Files;
use store::store::StoreError;

/// A folder that is locked, and how many of its calls failed.
pub struct DiskFolder<R> {
    open: OpenFolder<R>,
    faults: u64,
}

// By hand: docs/proving/dropping.md.
impl<R: Drop> Drop for DiskFolder<R> {
    fn drop(self) {
        let DiskFolder {
            open,
            faults: _faults,
        } = self;
        drop(open);
    }
}

/// Tells why a folder isn't opened, unless memory runs out.
fn tell_unopened<R: Eprint>(rt: &R, place: &str, why: TryLockError) -> StoreError {
    let TryLockError::Error(why) = why else {
        let _told = eprintln!(rt; "lbfs: {place}: locked by another server");
        return StoreError::Failed;
    };
    if why.kind() == ErrorKind::OutOfMemory {
        return StoreError::Memory;
    }
    let advice = if why.kind() == ErrorKind::NotFound {
        " (make it first)"
    } else {
        ""
    };
    let _told = eprintln!(rt; "lbfs: {place}: {why}{advice}");
    StoreError::Failed
}

/// Tells what is no store's.
fn tell_stranger<R: Eprint>(rt: &R, place: &str, stranger: &Stranger) {
    match stranger {
        Stranger::File(name) => {
            let name = name.as_str();
            let _told = eprintln!(rt;
                "lbfs: {place}/{name}: no store's file, though it has the name of one"
            );
        }
        Stranger::Folder => {
            let _told = eprintln!(rt;
                "lbfs: {place}: it isn't empty, and is no store (take an empty folder)"
            );
        }
    }
}

impl<R: Files<File = File> + AllocGlobal + Eprint + Clone + Drop> DiskFolder<R> {
    /// A folder that is locked, in which a change of an earlier form was carried out. Where that isn't had
    /// the reason is told, unless memory runs out. One that has what is no store's isn't opened, and stays
    /// as it is. With `unsynced` nothing is flushed.
    pub fn open(
        rt: R,
        alloc: Global,
        place: &str,
        unsynced: bool,
    ) -> Result<DiskFolder<R>, StoreError> {
        let lock = match lock_folder(&rt, place) {
            Ok(lock) => lock,
            Err(why) => return Err(tell_unopened(&rt, place, why)),
        };
        let open = OpenFolder::new(rt, alloc, place, lock, unsynced)?;
        let mut folder = DiskFolder { open, faults: 0 };
        folder.begin(place)?;
        Ok(folder)
    }

    /// Looks for what is no store's, and carries out a change of an earlier form.
    fn begin(&mut self, place: &str) -> Result<(), StoreError> {
        self.refuse_strangers(place)?;
        self.open.find_reserve();
        let done = self.open.finish_list();
        self.counted_apart(done)
    }

    /// Refuses a folder that has what is no store's, which is told.
    fn refuse_strangers(&mut self, place: &str) -> Result<(), StoreError> {
        let found = self.open.stranger();
        match self.counted_apart(found)? {
            Some(stranger) => {
                tell_stranger(self.open.rt(), place, &stranger);
                self.faults = one_more(self.faults);
                Err(StoreError::Failed)
            }
            None => Ok(()),
        }
    }

    /// Tells why something failed with the file that was named last, and counts it.
    fn counted<A>(&mut self, done: io::Result<A>) -> Result<A, Fault>
        ensures later { self.old.faults ≤ self.new.faults }
        ensures cause { OnErr result (Rose self.old.faults self.new.faults) }
    {
        match done {
            Ok(done) => Ok(done),
            Err(why) => {
                let rt = self.open.rt();
                let at = self.open.at();
                let _told = eprintln!(rt; "lbfs: {at}: {why}");
                self.faults = one_more(self.faults);
                Err(Fault)
            }
        }
    }

    /// The same where running out of memory is told apart, and isn't counted.
    fn counted_apart<A>(&mut self, done: io::Result<A>) -> Result<A, StoreError>
        ensures later { self.old.faults ≤ self.new.faults }
        ensures cause { IsErrOf result errors.Failed → Rose self.old.faults self.new.faults }
    {
        match done {
            Err(why) if why.kind() == ErrorKind::OutOfMemory => Err(StoreError::Memory),
            done => match self.counted(done) {
                Ok(done) => Ok(done),
                Err(Fault) => Err(StoreError::Failed),
            },
        }
    }
}

impl<R: Files<File = File> + AllocGlobal + Eprint + Clone + Drop> Folder for DiskFolder<R> {
    ghost told = { ⊥ };

    ghost state = { λ _. untold };

    ghost faults = { λ s. s.faults };

    ghost counts_now = { λ none. absurd none };

    ghost only_now = { λ none. absurd none };

    fn read(&mut self, alloc: Global, name: FileName) -> Result<Option<Vec<u8>>, StoreError> {
        let read = self.open.read(alloc, name);
        self.counted_apart(read)
    }

    fn names(&mut self, alloc: Global) -> Result<Vec<FileName>, StoreError> {
        let names = self.open.names(alloc);
        self.counted_apart(names)
    }

    fn write(&mut self, name: FileName, front: &[u8], body: &[u8]) -> Result<(), Fault> {
        let done = self.open.write(name, front, body);
        self.counted(done)
    }

    fn flush(&mut self, name: FileName) -> Result<(), Fault> {
        let done = self.open.flush(name);
        self.counted(done)
    }

    fn rename(&mut self, which: Which) -> Result<(), Fault> {
        let done = self.open.rename(which);
        self.counted(done)
    }

    fn remove(&mut self, name: FileName) -> Result<(), Fault> {
        let done = self.open.remove(name);
        self.counted(done)
    }

    fn flush_folder(&mut self) -> Result<(), Fault> {
        let done = self.open.flush_folder();
        self.counted(done)
    }

    fn flush_all(&mut self) -> Result<(), Fault> {
        let done = self.open.flush_all();
        self.counted(done)
    }

    fn lines(&mut self, alloc: Global) -> Result<Vec<Line>, StoreError> {
        let lines = self.open.lines(alloc);
        self.counted_apart(lines)
    }

    fn append(&mut self, edits: &[Edit<'_>]) -> Result<(), Fault> {
        let done = self.open.append(edits);
        self.counted(done)
    }

    fn cut_log(&mut self, count: usize) -> Result<(), Fault> {
        let done = self.open.cut_log(count);
        self.counted(done)
    }

    fn flush_log(&mut self) -> Result<(), Fault> {
        let done = self.open.flush_log();
        self.counted(done)
    }

    fn count(&self) -> usize {
        self.open.count()
    }

    fn drop_log(&mut self) -> Result<(), Fault> {
        let gone = self.open.drop_log();
        self.counted(gone)
    }

    fn is_long(&self) -> bool {
        self.open.is_long()
    }

    fn has_reserve(&self) -> bool {
        self.open.has_reserve()
    }

    fn take_reserve(&mut self) -> Result<(), Fault> {
        let done = self.open.take_reserve();
        self.counted(done)
    }

    fn fits(&mut self, which: Which, len: u64) -> bool {
        self.open.fits(which, len)
    }
}
