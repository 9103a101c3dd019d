//! What a person is told of a program that was ended in the midst of its work, by who waits for its end
//! (`bin/last-words`): the first line of the file that `LBFS_LAST_WORDS` names.

use host::screen::HostScreen;
use last_words::counts::Done;
use last_words::keeping::{Keeps, LastWords};
use shell_walks::screen::Screen;
use std::alloc::AllocError;
use std::env;
use std::sync::Arc;

/// The file in which it is kept what was done so far, where somebody waits for the end.
pub(crate) fn words_file(rt: &HostRuntime) -> LastWords {
    match env::var(rt, "LBFS_LAST_WORDS") {
        Ok(path) => LastWords::open(rt, path.as_str()),
        Err(_) => LastWords::none(),
    }
}

/// What is done with the store at this place, which its network and its store tell.
pub(crate) fn shared_at(rt: &HostRuntime, place: &str) -> Result<Arc<Done>, AllocError> {
    let done = Done::new(rt.alloc(), place, words_file(rt))?;
    Ok(Arc::new(rt.alloc(), done)?)
}

/// Standard error, and the file of the last words.
#[derive(Drop)]
pub(crate) struct Person {
    pub(crate) screen: HostScreen,
    pub(crate) words: LastWords,
}

impl Screen for Person {
    fn is_watched(&self) -> bool {
        self.screen.is_watched()
    }

    fn is_typed(&self) -> bool {
        self.screen.is_typed()
    }

    fn say(&self, text: &[u8]) {
        self.screen.say(text);
    }
}

impl Keeps for Person {
    fn keep(&self, line: &[u8]) {
        self.words.keep(line);
    }
}
