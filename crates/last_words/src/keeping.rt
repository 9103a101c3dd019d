//! The file in which a program keeps what it did so far.

ghost use Rattle.std.specs.Prelude.{◌≡◌, None};

use std::fs;
use std::fs::{File, OpenOptions};
use std::os::unix::fs::FileExt;
use std::rt::Files as HostDisk;

/// Where what was done so far is kept, for who says it once the program was ended in the midst of it.
pub trait Keeps {
    /// This line, with its line feed, is what was done so far. A line feed alone leaves nothing to be said.
    fn keep(&self, line: &[u8]);
}

/// A file whose first line is what was done so far; or none, and then nobody asks.
#[derive(Drop)]
pub struct LastWords {
    file: Option<File>,
}

impl LastWords {
    /// Nobody asks.
    pub fn none() -> LastWords
        ensures { result ≡ record { file = None } }
    {
        LastWords { file: None }
    }

    /// The file at a path, which has to be there and a regular one; else nobody asks.
    pub fn open<R: HostDisk<File = File>>(rt: &R, path: &str) -> LastWords {
        match fs::metadata(rt, path) {
            Ok(facts) if facts.is_file() => LastWords {
                file: OpenOptions::new().write(true).open(rt, path).ok(),
            },
            _ => LastWords::none(),
        }
    }
}

impl Keeps for LastWords {
    fn keep(&self, line: &[u8]) {
        if let Some(file) = &self.file {
            // In one call: what a signal cuts off is the line before, or this one.
            let _kept = file.write_at(line, 0);
        }
    }
}
