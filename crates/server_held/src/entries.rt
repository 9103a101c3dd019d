//! What stands in the journal that turns hand on. No value of it is made: contracts alone see it.

use server_core::journal::Entry;
use server_core::server::Server;

/// An entry of that journal.
pub enum Entered {
    /// The server as it was opened. It stands first, and nowhere else.
    Opened(Server),
    /// A change that was made.
    Made(Entry),
}

// By hand: docs/proving/dropping.md.
impl Drop for Entered {
    fn drop(self) {
        match self {
            Entered::Opened(server) => drop(server),
            Entered::Made(_) => {}
        }
    }
}
