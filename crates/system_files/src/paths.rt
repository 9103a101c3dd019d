//! The paths of a folder's files.

use crate::made::put_made_name;
use crate::naming::put_name;
use log_store::which::{FileName, Which};
use std::alloc::{AllocError, Global};
use std::fmt::Write;

/// Stands behind the name of a file that is not in its place yet.
const BESIDE: &str = "~";

/// The log of changes.
pub const LOG: &str = "log";

/// What keeps room for changes that free some.
pub const RESERVE: &str = "reserve";

/// The list of a change, as an earlier form of the folder has it.
pub const CHANGE: &str = "change";

/// The same before it was whole.
pub const NEW_CHANGE: &str = "change~";

/// How many bytes a name has at most: a letter, twenty digits, and what stands behind them.
const NAME_ROOM: usize = 32;

/// The paths of the folder's files. They have room for the longest, so that naming one takes no
/// memory.
pub struct Paths {
    folder: String,
    at: String,
    beside: String,
}

// By hand: docs/proving/dropping.md.
impl Drop for Paths {
    fn drop(self) {
        let Paths { folder, at, beside } = self;
        drop(folder);
        drop(at);
        drop(beside);
    }
}

/// A text of these bytes, with room for a name behind them.
fn roomy(alloc: Global, text: &str) -> Result<String, AllocError> {
    let mut copy = String::from_str(alloc, text)?;
    copy.reserve(NAME_ROOM)?;
    Ok(copy)
}

impl Paths {
    /// The paths of the folder at a place. The one error is running out of memory.
    pub fn new(alloc: Global, place: &str) -> Result<Paths, AllocError> {
        let mut folder = roomy(alloc, place)?;
        folder.push_str("/")?;
        Ok(Paths {
            at: roomy(alloc, folder.as_str())?,
            beside: roomy(alloc, folder.as_str())?,
            folder,
        })
    }

    /// The folder.
    pub fn folder(&self) -> &str {
        self.folder.as_str()
    }

    /// The path that was named last.
    pub fn at(&self) -> &str {
        self.at.as_str()
    }

    /// The path of the file beside the one named last: the new one of a record (`NAME~`).
    pub fn beside(&self) -> &str {
        self.beside.as_str()
    }

    /// Names a record's file.
    pub fn name(&mut self, which: Which) -> Result<(), AllocError> {
        self.begin()?;
        put_name(&mut self.at, which)?;
        put_name(&mut self.beside, which)?;
        self.beside.push_str(BESIDE)
    }

    /// Names a file, whose path is `at` then.
    pub fn name_file(&mut self, name: FileName) -> Result<(), AllocError> {
        match name {
            FileName::Record(which) => self.name(which),
            FileName::New(which) => {
                self.begin()?;
                put_name(&mut self.at, which)?;
                self.at.push_str(BESIDE)
            }
        }
    }

    /// Names the second name of a content's file, which stands beside the first (`beside`).
    pub fn name_made(&mut self, id: u64) -> Result<(), AllocError> {
        self.begin()?;
        put_name(&mut self.beside, Which::Content(id))?;
        put_made_name(&mut self.at, id)
    }

    /// Names the log.
    pub fn name_log(&mut self) -> Result<(), AllocError> {
        self.name_text(LOG)
    }

    /// Names the reserve.
    pub fn name_reserve(&mut self) -> Result<(), AllocError> {
        self.name_text(RESERVE)
    }

    /// Names an empty file of the reserve, by its number.
    pub fn name_spare(&mut self, number: usize) -> Result<(), AllocError> {
        self.name_reserve()?;
        write!(&mut self.at, "{number}")
    }

    /// Names the list of a change.
    pub fn name_list(&mut self) -> Result<(), AllocError> {
        self.name_text(CHANGE)
    }

    /// Names the folder itself.
    pub fn name_folder(&mut self) -> Result<(), AllocError> {
        self.begin()
    }

    fn name_text(&mut self, name: &str) -> Result<(), AllocError> {
        self.begin()?;
        self.at.push_str(name)?;
        self.beside.push_str(name)?;
        self.beside.push_str(BESIDE)
    }

    /// Both paths are the folder's again, with no name behind.
    fn begin(&mut self) -> Result<(), AllocError> {
        self.at.clear();
        self.beside.clear();
        self.at.push_str(self.folder.as_str())?;
        self.beside.push_str(self.folder.as_str())
    }
}
