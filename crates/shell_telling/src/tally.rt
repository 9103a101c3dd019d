//! What the tasks of a command came to so far.

ghost use Rattle.std.specs.Prelude.{◌≡◌, true};
ghost use Rattle.shell_telling.specs.Tally.{nothing_yet, lines_of, with_visit, capped_sum, is_told};

use folder_tasks::visiting::Visited;

/// What tasks came to.
#[derive(Clone, Copy)]
pub struct Tally {
    /// How many files were stored, fetched or left as they are.
    pub files: u64,
    /// How many bytes these have.
    pub bytes: u64,
    /// How many names were told that weren't stored, fetched or removed, or were passed over.
    pub undone: u64,
    /// Whether all was done.
    pub is_fine: bool,
}

/// How many names a note says: a line for each.
fn lines_of(note: &[u8]) -> u64
    ensures { result ≡ lines_of note.now }
{
    note.iter().filter(|byte| **byte == b'\n').count() as u64
}

impl Tally {
    /// Nothing was done yet.
    pub fn new() -> Tally
        ensures { result ≡ nothing_yet }
    {
        Tally {
            files: 0,
            bytes: 0,
            undone: 0,
            is_fine: true,
        }
    }

    /// The same with what a task came to.
    pub fn with(self, visited: &Visited) -> Tally
        ensures { result ≡ with_visit self visited.now }
    {
        let undone = lines_of(visited.note.as_slice());
        Tally {
            files: self.files.saturating_add(visited.files),
            bytes: self.bytes.saturating_add(visited.bytes),
            undone: self.undone.saturating_add(undone),
            is_fine: self.is_fine && visited.note.is_empty(),
        }
    }

    /// Whether it is told at the end: where nothing was done, and why was said, it needn't be.
    pub fn is_told(self) -> bool
        ensures { result ≡ is_told self }
    {
        self.is_fine || self.files > 0
    }
}
