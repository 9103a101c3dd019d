//! What the program may be asked for.

ghost use Rattle.std.specs.Prelude.{◌≡◌, IfOk, string_bytes};

use std::alloc::{AllocError, Global};
use std::marker::Model;

/// The last port there is.
pub const PORT_MOST: u64 = 65_535;

/// The greatest seed: the greatest number of 64 bits.
pub const SEED_MOST: u64 = 18_446_744_073_709_551_615;

/// The greatest number of bytes that a mount may be told to keep: the greatest number of 64 bits.
pub const KEEP_MOST: u64 = 18_446_744_073_709_551_615;

/// How many bytes a mount keeps that isn't told: 256 MiB.
pub const KEEP: u64 = 268_435_456;

/// How a run is told.
#[derive(Clone, Copy)]
pub enum View {
    /// Its whole history.
    History,
    /// The counts of its history, and of the server's journal.
    Summary,
}

/// What is done with the input.
#[derive(Clone, Copy)]
pub enum InputCommand {
    /// `replay`: it is a trace, which is run.
    Replay(View),
    /// `cut`: it is a content, whose chunks are listed.
    Cut,
    /// `show`: it is a stream, whose records are listed.
    Show,
}

/// What is done with a trace that is made from a seed.
#[derive(Clone, Copy)]
pub enum SeedCommand {
    /// `gen`: it is written.
    Write,
    /// `replay`: it is run.
    Replay(View),
}

/// A command that needs nothing but the input and the output.
#[derive(Clone, Copy)]
pub enum Command {
    /// A command that reads its input.
    OfInput(InputCommand),
    /// One that makes a trace of so many blocks, and reads nothing.
    OfSeed {
        seed: u64,
        blocks: u64,
        command: SeedCommand,
    },
}

/// The path of a store's folder, or of a cache file.
#[derive(Drop)]
pub struct StorePath {
    path: String,
}

impl Model for StorePath {
    ghost use Rattle.std.specs.Prelude.{ℕ, List, string_bytes};

    ghost Value = { List ℕ };

    ghost view = { λ p. string_bytes p.path };
}

impl StorePath {
    /// A copy of this path. The one error is running out of memory.
    pub fn copy_of(alloc: Global, path: &str) -> Result<StorePath, AllocError>
        ensures { IfOk result (λ p. p ≡ path.now) }
    {
        Ok(StorePath {
            path: String::from_str(alloc, path)?,
        })
    }

    /// The path.
    pub fn as_str(&self) -> &str
        ensures { result.now ≡ self.now }
    {
        self.path.as_str()
    }
}

/// How a store is served.
#[derive(Drop)]
pub struct ServeOptions {
    /// The port at which clients dial.
    pub port: u16,
    /// `--term`: how long a lease is to last, in milliseconds.
    pub term: u64,
    /// After how many sessions the server ends.
    pub sessions: u32,
    /// Where the store is.
    pub store: StorePath,
    /// `--unsynced`: changes aren't flushed to the disk before they are told.
    pub unsynced: bool,
}

/// Which store is looked over.
#[derive(Drop)]
pub struct CheckOptions {
    /// Where it is.
    pub store: StorePath,
}

/// How a server's tree is mounted.
#[derive(Drop)]
pub struct MountOptions {
    /// The port at which the server listens.
    pub port: u16,
    /// `--drift`: how far clocks may drift apart while a lease lasts, in milliseconds.
    pub drift: u64,
    /// `--cache`: the cache file, where there is one.
    pub cache: Option<StorePath>,
    /// `--keep`: how many bytes of contents are kept at most.
    pub keep: u64,
}

/// What the program may be asked for.
#[derive(Drop)]
pub enum Asked {
    /// `replay`, `gen`, `cut` and `show`.
    Command(Command),
    /// `serve`: the tree of a store is served.
    Serve(ServeOptions),
    /// `mount`: the input's lines are commands on a server's tree.
    Mount(MountOptions),
    /// `check`: a store is looked over, and stays as it is.
    Check(CheckOptions),
}
