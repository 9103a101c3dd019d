//! What a command of a shell comes to, as whoever gave it is told.

ghost use Rattle.std.specs.Prelude.{◌≡◌, ◌++◌, [], IfOk};
ghost use Rattle.shell_walks.specs.Telling.{fine, is_fine, notes};

use lb_base::items::{Bytes, Items};
use std::alloc::{AllocError, Global};

/// What a command comes to.
pub struct Told {
    /// What is written.
    pub text: Bytes,
    /// What is said of it beside that, on standard error: why it wasn't done.
    pub note: Bytes,
}

// By hand: docs/proving/dropping.md.
impl Drop for Told {
    fn drop(self) {
        let Told { text, note } = self;
        drop(text);
        drop(note);
    }
}

impl Told {
    /// Whether it was done.
    pub fn is_fine(&self) -> bool
        ensures { result ≡ is_fine self.now }
    {
        self.note.is_empty()
    }
}

/// It was done, and this is written.
pub fn fine(alloc: Global, text: Bytes) -> Told
    ensures { result ≡ fine text }
{
    Told {
        text,
        note: Items::new(alloc),
    }
}

/// It wasn't done, and this is said.
pub fn notes(alloc: Global, note: Bytes) -> Told
    ensures { result ≡ notes note }
{
    Told {
        text: Items::new(alloc),
        note,
    }
}
