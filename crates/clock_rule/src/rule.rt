//! The rule on two events, and what is answered where it is broken: `breaks` and `first_broken` of
//! `specs/Clocks.antt`.

ghost use Rattle.std.specs.Prelude.{◌≡◌};
ghost use Rattle.clock_rule.specs.declared.rule.NoteError.TheVariants as errors;
ghost use Rattle.clock_rule.specs.Clocks.{breaks, first_broken};

use std::alloc::{AllocError, AllocFailed};

/// An event of a client: its reading, and the last reading of the server, in milliseconds.
#[derive(Clone, Copy, Drop)]
pub struct Note {
    /// The client.
    pub client: u64,
    /// Its reading.
    pub reading: u64,
    /// The server's last reading, 0 before its first.
    pub server: u64,
}

/// How readings break the rule. All numbers but the client are milliseconds.
#[derive(Clone, Copy, Debug, Drop)]
pub enum ClockFault {
    /// The server's reading fell.
    Server {
        /// Its last reading.
        from: u64,
        /// The reading below that.
        to: u64,
    },
    /// A client's reading fell.
    Client {
        /// The client.
        client: u64,
        /// Its last reading.
        from: u64,
        /// The reading below that.
        to: u64,
    },
    /// The server's clock went on too far between two events of a client.
    Drift {
        /// The client.
        client: u64,
        /// Its reading at the earliest earlier event with which the rule is broken.
        from: u64,
        /// The server's last reading there.
        server_from: u64,
        /// Its reading now.
        to: u64,
        /// The server's last reading now.
        server_to: u64,
    },
}

/// What a line of a trace reads, in milliseconds.
#[derive(Clone, Copy, Drop)]
pub enum Reading {
    /// The server's clock.
    Server(u64),
    /// A client's clock, at an event of the client.
    Client {
        /// The client.
        client: u64,
        /// Its reading.
        at: u64,
    },
    /// The server's clock, and then a client's at an event of the client.
    Both {
        /// The server's reading.
        server: u64,
        /// The client.
        client: u64,
        /// Its reading.
        at: u64,
    },
}

/// Why a reading was not taken: the server's, or a client's at an event, which is then not noted.
#[derive(Clone, Copy, Drop)]
pub enum NoteError {
    /// It breaks the rule: the server's reading fell, the client's did, or the server's clock went on
    /// too far.
    Fault(ClockFault),
    /// Memory ran out.
    Memory,
}

impl From<AllocError> for NoteError {
    ghost from_gives = { λ _ e. e ≡ errors.Memory };

    fn from(_e: AllocError) -> NoteError {
        NoteError::Memory
    }
}

/// Whether the later of two events of one client breaks the rule with the earlier one.
pub(crate) fn breaks(term: u64, drift: u64, earlier: Note, later: Note) -> bool
    ensures { result ≡ breaks term drift earlier later }
{
    let apart = later.reading.saturating_sub(earlier.reading);
    let ahead = later.server.saturating_sub(earlier.server);
    apart <= term && ahead > apart && ahead - apart > drift
}

/// The earliest of the client's events with which the later one breaks the rule.
pub(crate) fn first_broken(term: u64, drift: u64, notes: &[Note], later: Note) -> Option<Note>
    ensures { result ≡ first_broken term drift notes.now later }
{
    for earlier in notes {
        if earlier.client == later.client && breaks(term, drift, *earlier, later) {
            return Some(*earlier);
        }
    }
    None
}
