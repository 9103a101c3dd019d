//! What room carrying out the log needs, and what is kept for it.

use log_store::which::{Which, is_same};
use std::alloc::{AllocError, Global};

/// What is needed, at most.
#[derive(Clone, Copy)]
pub struct Need {
    /// So many bytes.
    pub bytes: u64,
    /// So many files that aren't there yet.
    pub files: usize,
}

impl Need {
    /// Nothing.
    pub const NONE: Need = Need { bytes: 0, files: 0 };

    /// Whether anything is needed.
    pub fn is_some(self) -> bool {
        0 < self.bytes || 0 < self.files
    }

    /// What both need.
    pub fn and(self, other: Need) -> Need {
        Need {
            bytes: self.bytes.saturating_add(other.bytes),
            files: self.files.saturating_add(other.files),
        }
    }

    /// What the larger needs.
    fn or(self, other: Need) -> Need {
        Need {
            bytes: self.bytes.max(other.bytes),
            files: self.files.max(other.files),
        }
    }

    /// What is needed beyond another.
    fn beyond(self, other: Need) -> Need {
        Need {
            bytes: self.bytes.saturating_sub(other.bytes),
            files: self.files.saturating_sub(other.files),
        }
    }
}

/// How many bytes the reserve has, where there is room for them: what finds no room when the log is carried out
/// gets its. Beside them it has
/// empty files, for a file system that has room for so many files alone: as many as it has pages, or as there
/// is room for.
pub const RESERVE: Need = Need {
    bytes: 256 << 10,
    files: 64,
};

/// The same before any of its empty files is known to be there.
pub const BARE_RESERVE: Need = Need {
    bytes: 256 << 10,
    files: 0,
};

/// The same where the log was long, and there is room for many times as much.
pub const LARGE_RESERVE: Need = Need {
    bytes: 2 << 20,
    files: 512,
};

/// The sizes of which the first is kept that there is room for.
pub const SIZES: [u64; 3] = [256 << 10, 128 << 10, 64 << 10];

/// So much is left of a reserve as the log is carried out: what one entry may need, and the folder's own names.
const LEFT: u64 = 64 << 10;

/// What the folder's own names may need.
const NAMES: u64 = 32 << 10;

/// What carrying out a record needs.
#[derive(Clone, Copy)]
struct OfRecord {
    which: Which,
    need: Need,
}

/// What carrying out the log needs: of each record what the largest of its bytes do, since the last alone are
/// written.
pub struct Needs {
    records: Vec<OfRecord>,
    all: Need,
}

// By hand: docs/proving/dropping.md.
impl Drop for Needs {
    fn drop(self) {
        let Needs { records, all: _all } = self;
        drop(records);
    }
}

impl Needs {
    /// Nothing is needed.
    pub fn new(alloc: Global) -> Needs {
        Needs {
            records: Vec::new(alloc),
            all: Need::NONE,
        }
    }

    /// Nothing is needed any more.
    pub fn clear(&mut self) {
        self.records.clear();
        self.all = Need::NONE;
    }

    /// How many records are written.
    pub fn count(&self) -> usize {
        self.records.len()
    }

    /// A record needs so much.
    pub fn add(&mut self, which: Which, need: Need) -> Result<(), AllocError> {
        let place = self.place_of(which);
        match self.records.get_mut(place) {
            Some(one) => {
                self.all = self.all.and(need.beyond(one.need));
                one.need = one.need.or(need);
                Ok(())
            }
            None => {
                self.records.push(OfRecord { which, need })?;
                self.all = self.all.and(need);
                Ok(())
            }
        }
    }

    /// Where a record stands, or would stand.
    fn place_of(&self, which: Which) -> usize {
        for (place, one) in self.records.iter().enumerate() {
            if is_same(one.which, which) {
                return place;
            }
        }
        self.records.len()
    }

    /// Whether more is needed than a reserve has, with what the folder's names may need.
    pub fn is_past(&self, reserve: Need) -> bool {
        reserve.bytes < self.all.bytes.saturating_add(NAMES) || reserve.files < self.all.files
    }

    /// Whether nearly as much is needed as a reserve has.
    pub fn is_near(&self, reserve: Need) -> bool {
        reserve.bytes <= self.all.bytes.saturating_add(LEFT)
            || (0 < self.all.files && reserve.files <= self.all.files.saturating_add(1))
    }
}
