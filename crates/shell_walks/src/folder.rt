//! What a shell asks of the host's files, by their paths.

ghost use Rattle.std.specs.Prelude.{◌≡◌, ℕ, ◌≤◌, Bool, List, length, Result, IfOk};
ghost use Rattle.limits.specs.declared.TheConstants.{FILE_MOST};
ghost use Rattle.shell_walks.specs.declared.folder.Kind.{Kind};
ghost use Rattle.shell_walks.specs.declared.folder.LocalFault.{LocalFault};

use lb_base::items::{Bytes, Items, Name};
use std::alloc::Global;

/// Why something wasn't done with a file of the host.
#[derive(Clone, Copy)]
pub enum LocalFault {
    /// There is none.
    Missing,
    /// The folder that it is to be in isn't there.
    NoFolder,
    /// It is there already.
    Exists,
    /// It is a folder.
    IsFolder,
    /// It is a folder, and a file alone was to be stored.
    NotDeep,
    /// It is no folder.
    NotFolder,
    /// It may not be read, or written.
    Denied,
    /// The disk is full.
    Full,
    /// The file has more bytes than any may have.
    TooBig,
    /// The name can't be one of this host's.
    BadName,
    /// It is the cache file, to which nothing is fetched.
    Cache,
    /// The name is no UTF-8, in which alone this host's files are asked for.
    NotText,
    /// It is a symbolic link, and those aren't followed there.
    Link,
    /// It is a symbolic link that leads to nothing.
    Nowhere,
    /// It is neither a file nor a folder.
    Odd,
    /// Its name is of the form that a stopped fetch leaves, and so it goes nowhere.
    LeftOver,
    /// It changed while it was read.
    Changed,
    /// The system failed otherwise.
    Failed,
    /// Memory ran out.
    Memory,
}

/// What a path stands for.
#[derive(Clone, Copy)]
pub enum Kind {
    Missing,
    File,
    Folder,
    /// A symbolic link, where those aren't followed.
    Link,
    Other,
    /// It can't be told.
    Hidden(LocalFault),
}

/// The host's files.
pub trait Folder {
    /// What a path may be found to stand for, by whether links are followed.
    ghost finds: { Self → Bool → List ℕ → Kind → Self → Type 0 };

    /// What the reading of a file may come to.
    ghost reads: { Self → List ℕ → Result (List ℕ) LocalFault → Self → Type 0 };

    /// What the writing of a file may come to.
    ghost writes: { Self → List ℕ → List ℕ → Result Unit LocalFault → Self → Type 0 };

    /// What the listing of a folder may come to.
    ghost lists: { Self → List ℕ → Result (List (List ℕ)) LocalFault → Self → Type 0 };

    /// What the making of a folder may come to.
    ghost makes: { Self → List ℕ → Result Unit LocalFault → Self → Type 0 };

    /// What a trial whether a file can be written may come to.
    ghost tries: { Self → List ℕ → Result Unit LocalFault → Self → Type 0 };

    /// What the clearing of a folder may leave.
    ghost clears: { Self → List ℕ → Self → Type 0 };

    /// What a path stands for. Where links are followed, a symbolic link stands for what it leads to.
    fn kind(&mut self, path: &str, follows: bool) -> Kind
        ensures { finds self.old follows path.now result self.new };

    /// The bytes of a file, which has at most `FILE_MOST`, as it was at one moment as far as can be told.
    fn read(&mut self, alloc: Global, path: &str) -> Result<Bytes, LocalFault>
        ensures read { reads self.old path.now result self.new }
        ensures within { IfOk result (λ bytes. length bytes ≤ FILE_MOST) };

    /// Whether `write` could put a file there, as far as can be told without one: in what would be its
    /// folder a file is made, and removed. What the path stands for stays.
    fn try_write(&mut self, alloc: Global, path: &str) -> Result<(), LocalFault>
        ensures { tries self.old path.now result self.new };

    /// Makes a file with these bytes, or puts them in the place of those that it has: as a whole, or not
    /// at all. Its permissions stay, and where the path is a symbolic link, what it leads to is replaced.
    fn write(&mut self, alloc: Global, path: &str, bytes: &[u8]) -> Result<(), LocalFault>
        ensures { writes self.old path.now bytes.now result self.new };

    /// The names in a folder, in no order.
    fn names(&mut self, alloc: Global, path: &str) -> Result<Items<Name>, LocalFault>
        ensures { lists self.old path.now result self.new };

    /// Makes a folder. `Exists` comes where something has the name already.
    fn make_folder(&mut self, path: &str) -> Result<(), LocalFault>
        ensures { makes self.old path.now result self.new };

    /// Removes from a folder the files that stopped fetches left in it: those that were being written (`is_temporary`
    /// of their names) by a process that isn't there any more. Each that goes is told. Where that can't be known, or
    /// done, they stay.
    fn clear(&mut self, alloc: Global, path: &str)
        ensures { clears self.old path.now self.new };
}

/// What gives each thread the host's files.
pub trait Folders {
    /// The host's files, as one thread has them.
    type F: Folder;

    /// The host's files for the thread of this number, which no other thread has.
    fn folder(&self, number: u32) -> Self::F;
}
