//! What is kept stays within so many bytes: `kept_within` of `specs/Bounding.antt`.

ghost use Rattle.std.specs.Prelude.{◌≡◌, slice_get};
ghost use Rattle.client_cache.specs.Cache.{contents_in};
ghost use Rattle.client_state.specs.Bounding.{is_tasks, in_use, evicted_if_over, kept_within};
ghost use Rattle.client_state.specs.View.{state_of, IsSound};

use crate::parts;
use crate::state::ClientState;
use crate::task::Task;

/// The most contents that are kept.
const CONTENTS_MOST: usize = 256;

/// Whether this is the file that an operation is under way on.
fn is_tasks(task: &Option<Task>, file: u64) -> bool
    ensures { result ≡ is_tasks task.now file }
{
    match task {
        None => false,
        Some(task) => task.file == file,
    }
}

impl ClientState {
    /// Whether the file is open, or an operation is under way on it.
    fn in_use(&self, file: u64) -> bool
        ensures { result ≡ in_use (state_of self.now) file }
    {
        parts::is_open(&self.opened, file) || is_tasks(&self.task, file)
    }

    /// The content at a place goes where more is kept than may be, unless it is in use.
    fn evict_if_over(&mut self, most: u64, place: usize)
        requires { IsSound self.old }
        ensures rest { state_of self.new ≡ evicted_if_over most (state_of self.old) (slice_get (contents_in self.old.cache) place) }
        ensures sound { IsSound self.new }
    {
        let Some((file, _content)) = self.cache.at(place) else {
            return;
        };
        if !self.cache.has_at_most(most) && !self.in_use(file) {
            self.evict(file);
        }
    }

    /// Contents that are kept are dropped, the oldest first, until all have at most so many bytes together.
    /// One that is open, or that an operation is under way on, stays. It takes no memory.
    pub fn keep_within(&mut self, most: u64)
        requires { IsSound self.old }
        ensures rest { state_of self.new ≡ kept_within most (state_of self.old) }
        ensures sound { IsSound self.new }
    {
        let mut left = CONTENTS_MOST;
        'contents: while left > 0 {
            left -= 1;
            self.evict_if_over(most, left);
        }
    }
}
