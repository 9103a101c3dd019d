//! Standard error as the place where a person is told things, and whether a person is there.

use shell_walks::screen::Screen;
use std::io::{IsTerminal, Stderr, Stdin, Write};

/// Standard error, and whether it and standard input are terminals.
#[derive(Drop)]
pub struct HostScreen {
    err: Stderr,
    is_watched: bool,
    is_typed: bool,
}

impl HostScreen {
    /// These streams. Whether they are terminals is asked once.
    pub fn new(err: Stderr, input: Stdin) -> HostScreen {
        HostScreen {
            err,
            is_watched: err.is_terminal(),
            is_typed: input.is_terminal(),
        }
    }
}

impl Screen for HostScreen {
    fn is_watched(&self) -> bool {
        self.is_watched
    }

    fn is_typed(&self) -> bool {
        self.is_typed
    }

    fn say(&self, text: &[u8]) {
        let mut err = self.err;
        let _said = err.write_all(text);
    }
}
