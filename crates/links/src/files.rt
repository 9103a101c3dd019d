//! Files of the host, by their names. `specs/Files.antt` states what a call makes of them.

ghost use Rattle.std.specs.Prelude.{◌≡◌, ℕ, ◌≤◌, ◌<◌, List, length, Option, Some, Err, IfOk, OnOk, OnErr, IsErrOf};
ghost use Rattle.std.specs.Option.{option_map};
ghost use Rattle.lb_base.specs.Causes.{Rose};
ghost use Rattle.lb_base.specs.declared.sink.GiveError.TheVariants as give_errors;
ghost use Rattle.limits.specs.declared.TheConstants.{FILE_MOST};
ghost use Rattle.links.specs.Files.{bytes_of, is_there, with_file};
ghost use Rattle.links.specs.declared.files.HostFile.{HostFile};
ghost use Rattle.links.specs.declared.files.FilesError.TheVariants as errors;

use lb_base::items::{Bytes, Name};
use lb_base::sink::GiveError;
use lb_base::source::Failed;
use std::alloc::{AllocError, Global};

/// A file of the host.
pub struct HostFile {
    pub name: Name,
    pub bytes: Bytes,
}

// By hand: docs/proving/dropping.md.
impl Drop for HostFile {
    fn drop(self) {
        let HostFile { name, bytes } = self;
        drop(name);
        drop(bytes);
    }
}

/// Why a file's bytes were not given.
#[derive(Clone, Copy)]
pub enum FilesError {
    /// The outside failed, as where there is no file of the name; the count of faults rose.
    Failed,
    /// The file has so many bytes, which are more than `FILE_MOST`.
    TooBig {
        /// How many it has.
        len: u64,
    },
    /// Memory ran out.
    Memory,
}

impl From<Failed> for FilesError {
    ghost from_gives = { λ _ e. e ≡ errors.Failed };

    fn from(_failed: Failed) -> FilesError {
        FilesError::Failed
    }
}

impl From<AllocError> for FilesError {
    ghost from_gives = { λ _ e. e ≡ errors.Memory };

    fn from(_want: AllocError) -> FilesError {
        FilesError::Memory
    }
}

/// Files of the host.
pub trait Files {
    /// The files that there are, where it tells.
    ghost files: { Self → Option (List HostFile) };

    /// How many faults there were.
    ghost faults: { Self → ℕ };

    /// Whether there is a file of this name that `get` can be asked for. It is no fault where there is none.
    fn has(&self, name: &str) -> bool
        ensures told { (held : List HostFile) → files self.now ≡ Some held → result ≡ is_there name.now held };

    /// The bytes of a file, where it has at most `FILE_MOST`. `Failed` comes only where the count of
    /// faults rose, `TooBig` only where the file has more bytes.
    fn get(&mut self, alloc: Global, name: &str) -> Result<Bytes, FilesError>
        ensures told { IfOk result (λ bytes. (held : List HostFile) → files self.old ≡ Some held → bytes ≡ bytes_of name.now held) }
        ensures within { IfOk result (λ bytes. length bytes ≤ FILE_MOST) }
        ensures big { (len : ℕ) → result ≡ Err (errors.TooBig len) → FILE_MOST < len }
        ensures told_big { (len : ℕ) → result ≡ Err (errors.TooBig len) → (held : List HostFile) → files self.old ≡ Some held → length (bytes_of name.now held) ≡ len }
        ensures kept { files self.new ≡ files self.old }
        ensures later { faults self.old ≤ faults self.new }
        ensures cause { IsErrOf result errors.Failed → Rose (faults self.old) (faults self.new) }
        ensures sound { (len : ℕ) → result ≡ Err (errors.TooBig len) → faults self.new ≡ faults self.old };

    /// Whoever looks on is told that the file of this name, which was to be replaced, stays as it is, since it
    /// isn't taken for what was to be in its place.
    fn leave(&self, name: &str);

    /// Makes a file of this name, or puts these bytes in the place of the one that there is. `Failed`
    /// comes only where the count of faults rose. After an `Err` all files are as before.
    fn put(&mut self, alloc: Global, name: &str, bytes: &[u8]) -> Result<(), GiveError>
        ensures ok { OnOk result (files self.new ≡ option_map (with_file name.now bytes.now) (files self.old)) }
        ensures err { OnErr result (files self.new ≡ files self.old) }
        ensures later { faults self.old ≤ faults self.new }
        ensures cause { IsErrOf result give_errors.Failed → Rose (faults self.old) (faults self.new) };
}
