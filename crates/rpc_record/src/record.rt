//! The contents of a record, where they stand in the bytes that came.

ghost use Rattle.std.specs.Prelude.{◌≡◌, ◌≤◌, length, drop};

use lb_base::items::Bytes;
use std::marker::Model;

/// The contents of a record. A record that came as one fragment, and alone, keeps the bytes in which
/// it came; of any other the contents were copied.
pub struct Record {
    /// The bytes that hold them.
    held: Bytes,
    /// Where they begin.
    start: usize,
}

// Written by hand, it is proved here alone.
impl Drop for Record {
    fn drop(self) {
        let Record { held, start: _ } = self;
        drop(held)
    }
}

impl Model for Record {
    ghost use Rattle.std.specs.Prelude.{◌≤◌, List, ℕ, drop, length};

    ghost Value = { List ℕ };

    ghost view = { λ r. drop r.start r.held };

    ghost invariant = { λ r. r.start ≤ length r.held };
}

impl Record {
    /// These contents. It takes no memory.
    pub(crate) fn of(held: Bytes) -> Record
        ensures { result ≡ held }
    {
        Record { held, start: 0 }
    }

    /// The contents that stand behind so many bytes. It takes no memory.
    pub(crate) fn behind(held: Bytes, start: usize) -> Record
        requires { start ≤ length held }
        ensures { result ≡ drop start held }
    {
        Record { held, start }
    }

    /// The contents.
    pub fn as_slice(&self) -> &[u8]
        ensures { result.now ≡ self.now }
    {
        self.held.as_slice().split_at(self.start).1
    }
}
