//! Files in memory, which tell what they hold: some that fail when told to, and their twin type that
//! never fails. Their states stand in `specs/Memory.antt`, what a call makes of them in
//! `specs/Files.antt`.

ghost use Rattle.std.specs.Prelude.{◌≡◌, ℕ, ◌+◌, ◌-◌, ◌^◌, ◌≤◌, ◌<◌, ◌↔◌, ◌⊎◌, if◌then◌else◌, List, [], ◌∷◌, length, drop, min, Contains, Option, Some, None, Ok, Err, IfOk, OnOk, OnErr, IfSome, IsOk};
ghost use Rattle.std.specs.Prelude.{IsErr, IsErrOf, IsTrue, is_err, true, false, not};
ghost use Rattle.std.specs.List.{filter};
ghost use Rattle.std.specs.Vec.{vec_capacity};
ghost use Rattle.std.specs.Option.{option_map};
ghost use Rattle.lb_base.specs.Causes.{Rose};
ghost use Rattle.lb_base.specs.declared.sink.GiveError.TheVariants as give_errors;
ghost use Rattle.limits.specs.declared.TheConstants.{FILE_MOST};
ghost use Rattle.links.specs.Files.{is_of, is_there, bytes_of, with_file};
ghost use Rattle.links.specs.declared.files.HostFile.{HostFile};
ghost use Rattle.links.specs.declared.files.FilesError.TheVariants as errors;

use crate::calls::Calls;
use crate::files::{Files, FilesError, HostFile};
use lb_base::faults::one_more;
use lb_base::items::{Bytes, Items};
use lb_base::sink::GiveError;
use limits::FILE_MOST;
use std::alloc::{AllocError, Global};
use std::marker::Model;

/// Whether the file is of this name.
fn is_of(name: &[u8], file: &HostFile) -> bool
    ensures { result ≡ is_of name.now file.now }
{
    file.name.as_slice() == name
}

/// Whether there is a file of this name.
fn is_there(files: &Vec<HostFile>, name: &[u8]) -> bool
    ensures { result ≡ is_there name.now files.now.items }
{
    let mut place = 0;
    'places: while place < files.len() {
        if is_of(name, &files[place]) {
            return true;
        }
        place += 1;
    }
    false
}

/// The bytes of the first file of this name; where there is none, no bytes.
fn bytes_of<'a>(files: &'a Vec<HostFile>, name: &[u8]) -> &'a [u8]
    ensures { result.now ≡ bytes_of name.now files.now.items }
{
    let mut place = 0;
    'places: while place < files.len() {
        let file = &files[place];
        if is_of(name, file) {
            return file.bytes.as_slice();
        }
        place += 1;
    }
    &[]
}

/// A copy of a file's bytes, where they are not too many.
fn copy_within(alloc: Global, bytes: &[u8]) -> Result<Bytes, FilesError>
    ensures copy { IfOk result (λ copy. (copy ≡ bytes.now) × (length copy ≤ FILE_MOST)) }
    ensures big { (len : ℕ) → result ≡ Err (errors.TooBig len) → (length bytes.now ≡ len) × (FILE_MOST < len) }
    ensures fits { IsErrOf result errors.Failed → ⊥ }
{
    let len = bytes.len() as u64;
    if FILE_MOST < len {
        return Err(FilesError::TooBig { len });
    }
    let copy = Items::copy_of(alloc, bytes)?;
    Ok(copy)
}

/// Takes out all files of this name.
fn take_out(files: &mut Vec<HostFile>, name: &[u8])
    ensures done { files.new.items ≡ filter (λ f. not (is_of name.now f)) files.old.items }
    ensures capacity { vec_capacity files.old ≤ vec_capacity files.new }
    ensures len { length files.new.items ≤ length files.old.items }
{
    files.retain(|file| !is_of(name, file));
}

/// Puts a file in the place of all of its name. The one error is running out of memory; all files
/// are then as before.
fn put(
    alloc: Global,
    files: &mut Vec<HostFile>,
    name: &[u8],
    bytes: &[u8],
) -> Result<(), AllocError>
    ensures ok { OnOk result (files.new.items ≡ with_file name.now bytes.now files.old.items) }
    ensures err { OnErr result (files.new.items ≡ files.old.items) }
{
    let file = HostFile {
        name: Items::copy_of(alloc, name)?,
        bytes: Items::copy_of(alloc, bytes)?,
    };
    files.reserve(1)?;
    take_out(files, name);
    files.push_reserved(file);
    Ok(())
}

/// Files in memory that never fail; only memory may run out. A file that isn't there has no bytes.
pub struct SureFiles {
    files: Vec<HostFile>,
}

// By hand: docs/proving/dropping.md.
impl Drop for SureFiles {
    fn drop(self) {
        let SureFiles { files } = self;
        drop(files);
    }
}

impl Model for SureFiles {
    ghost use Rattle.std.specs.Prelude.{List};
    ghost use Rattle.links.specs.declared.files.HostFile.{HostFile};

    ghost Value = { List HostFile };

    ghost view = { λ f. f.files.items };
}

impl SureFiles {
    /// These files. It takes no memory.
    pub fn new(files: Items<HostFile>) -> SureFiles
        ensures { result ≡ files }
    {
        SureFiles {
            files: files.into_vec(),
        }
    }

    /// The files that there are.
    pub fn files(&self) -> &[HostFile]
        ensures { result.now ≡ self.now }
    {
        self.files.as_slice()
    }
}

impl Files for SureFiles {
    ghost files = { λ f. Some f };

    ghost faults = { λ _. 0 };

    fn has(&self, name: &str) -> bool
        ensures told { result ≡ is_there name.now self.now }
    {
        is_there(&self.files, name.as_bytes())
    }

    fn leave(&self, _name: &str) {}

    fn get(&mut self, alloc: Global, name: &str) -> Result<Bytes, FilesError>
        ensures told { IfOk result (λ bytes. bytes ≡ bytes_of name.now self.old) }
        ensures within { IfOk result (λ bytes. length bytes ≤ FILE_MOST) }
        ensures big { (len : ℕ) → result ≡ Err (errors.TooBig len) → (length (bytes_of name.now self.old) ≡ len) × (FILE_MOST < len) }
        ensures kept { self.new ≡ self.old }
        ensures sure { IsErrOf result errors.Failed → ⊥ }
    {
        copy_within(alloc, bytes_of(&self.files, name.as_bytes()))
    }

    fn put(&mut self, alloc: Global, name: &str, bytes: &[u8]) -> Result<(), GiveError>
        ensures ok { OnOk result (self.new ≡ with_file name.now bytes.now self.old) }
        ensures err { OnErr result (self.new ≡ self.old) }
        ensures sure { IsErrOf result give_errors.Failed → ⊥ }
    {
        put(alloc, &mut self.files, name.as_bytes(), bytes)?;
        Ok(())
    }
}

/// Files in memory, of which some calls fail; so does `get` of a name that isn't there.
pub struct MemFiles {
    files: SureFiles,
    calls: Calls,
    faults: u64,
}

// By hand: docs/proving/dropping.md.
impl Drop for MemFiles {
    fn drop(self) {
        let MemFiles {
            files,
            calls,
            faults: _,
        } = self;
        drop(files);
        drop(calls);
    }
}

impl Model for MemFiles {
    ghost use Rattle.links.specs.Memory.{FilesState};

    ghost Value = { FilesState };

    ghost view = { λ f. record { files = f.files; calls = f.calls; faults = f.faults } };
}

impl MemFiles {
    /// These files. The calls whose numbers are listed fail; the first, of whichever kind, is number
    /// 0. It takes no memory.
    pub fn new(files: Items<HostFile>, failing: Items<u64>) -> MemFiles
        ensures { result ≡ record { files = files; calls = record { made = 0; failing = failing }; faults = 0 } }
    {
        MemFiles {
            files: SureFiles::new(files),
            calls: Calls::new(failing),
            faults: 0,
        }
    }

    /// The files that there are.
    pub fn files(&self) -> &[HostFile]
        ensures { result.now ≡ self.now.files }
    {
        self.files.files()
    }

    /// How many faults there were.
    pub fn faults(&self) -> u64
        ensures { result ≡ self.now.faults }
    {
        self.faults
    }
}

impl Files for MemFiles {
    ghost files = { λ f. Some f.files };

    ghost faults = { λ f. f.faults };

    fn has(&self, name: &str) -> bool
        ensures told { result ≡ is_there name.now self.now.files }
    {
        self.files.has(name)
    }

    fn leave(&self, _name: &str) {}

    fn get(&mut self, alloc: Global, name: &str) -> Result<Bytes, FilesError>
        ensures told { IfOk result (λ bytes. bytes ≡ bytes_of name.now self.old.files) }
        ensures within { IfOk result (λ bytes. length bytes ≤ FILE_MOST) }
        ensures big { (len : ℕ) → result ≡ Err (errors.TooBig len) → (length (bytes_of name.now self.old.files) ≡ len) × (FILE_MOST < len) }
        ensures kept { self.new.files ≡ self.old.files }
        ensures later { self.old.faults ≤ self.new.faults }
        ensures cause { IsErrOf result errors.Failed → Rose self.old.faults self.new.faults }
        ensures sound { OnErr result (IsErrOf result errors.Failed ⊎ (self.new.faults ≡ self.old.faults)) }
        ensures given { OnOk result (self.new.faults ≡ self.old.faults) }
        ensures fails { IsErrOf result errors.Failed ↔ (Contains self.old.calls.failing self.old.calls.made ⊎ (is_there name.now self.old.files ≡ false)) }
        ensures calls { self.new.calls ≡ record self.old.calls { made = min (self.old.calls.made + 1) (2 ^ 64 - 1) } }
    {
        let fails = self.calls.next();
        if fails || !is_there(&self.files.files, name.as_bytes()) {
            self.faults = one_more(self.faults);
            return Err(FilesError::Failed);
        }
        self.files.get(alloc, name)
    }

    fn put(&mut self, alloc: Global, name: &str, bytes: &[u8]) -> Result<(), GiveError>
        ensures ok { OnOk result (self.new.files ≡ with_file name.now bytes.now self.old.files) }
        ensures err { OnErr result (self.new.files ≡ self.old.files) }
        ensures later { self.old.faults ≤ self.new.faults }
        ensures cause { IsErrOf result give_errors.Failed → Rose self.old.faults self.new.faults }
        ensures fails { IsErrOf result give_errors.Failed ↔ Contains self.old.calls.failing self.old.calls.made }
        ensures given { OnOk result (self.new.faults ≡ self.old.faults) }
        ensures memory { IsErrOf result give_errors.Memory → self.new.faults ≡ self.old.faults }
        ensures calls { self.new.calls ≡ record self.old.calls { made = min (self.old.calls.made + 1) (2 ^ 64 - 1) } }
    {
        if self.calls.next() {
            self.faults = one_more(self.faults);
            return Err(GiveError::Failed);
        }
        self.files.put(alloc, name, bytes)
    }
}
