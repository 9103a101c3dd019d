//! The clocks of a trace. `specs/Timed.antt` says what a line says of them.

ghost use Rattle.std.specs.Prelude.{◌≡◌, map};
ghost use Rattle.trace_ends.specs.Numbers.{numbered};
ghost use Rattle.trace_replay.specs.Timed.{no_times, down_timing, pass_timing, timing_of, times_with, IsTaken};
ghost use Rattle.trace_replay.specs.WorldView.{times_of};

use clock_rule::clocks::Clocks;
use clock_rule::rule::{NoteError, Reading};
use session_rules::numbers::place_of;
use session_rules::session::Session;
use std::alloc::Global;
use trace_text::line::Line;

/// What a line says of the clocks.
#[derive(Clone, Copy)]
pub enum Timing {
    /// Nothing.
    Nothing,
    /// The term, in milliseconds.
    Term(u64),
    /// The drift, in milliseconds.
    Drift(u64),
    /// What they read.
    Reads(Reading),
}

/// The clocks of a trace: the term that its header told, and the readings by that term and the
/// header's drift.
#[derive(Drop)]
pub struct Times {
    pub term: u64,
    pub clocks: Clocks,
}

/// The owner of a session, if such a session was ever made.
#[tactic(auto, using(crate::proofs::Numbers::owner_at))]
fn owner_of(sessions: &Vec<Session>, number: u64) -> Option<u64>
    ensures { result ≡ numbered (map (λ x. x.owner) sessions.now.items) number }
{
    let place = place_of(sessions.len(), number)?;
    Some(sessions[place].owner)
}

/// A delivery down a session.
fn down_timing(at: u64, owner: Option<u64>) -> Timing
    ensures { result ≡ down_timing at owner }
{
    match owner {
        None => Timing::Nothing,
        Some(client) => Timing::Reads(Reading::Client { client, at }),
    }
}

/// Rounds of a session.
fn pass_timing(server: u64, at: u64, owner: Option<u64>) -> Timing
    ensures { result ≡ pass_timing server at owner }
{
    match owner {
        None => Timing::Nothing,
        Some(client) => Timing::Reads(Reading::Both { server, client, at }),
    }
}

/// What a line says of the clocks, where these sessions were made: a session's lines are events of
/// its owner's clock, also where the owner has left it.
pub fn timing_of(sessions: &Vec<Session>, line: &Line) -> Timing
    ensures { result ≡ timing_of (map (λ x. x.owner) sessions.now.items) line.now }
{
    match line {
        Line::Term(term) => Timing::Term(*term),
        Line::Drift(drift) => Timing::Drift(*drift),
        Line::Join { client, at, server } => Timing::Reads(Reading::Both {
            server: *server,
            client: *client,
            at: *at,
        }),
        Line::Do { client, at, .. } | Line::Cut { client, at } => Timing::Reads(Reading::Client {
            client: *client,
            at: *at,
        }),
        Line::Up { server, .. } | Line::Settle { server } | Line::Hang { server, .. } => {
            Timing::Reads(Reading::Server(*server))
        }
        Line::RawJoin { server } => Timing::Reads(Reading::Server(*server)),
        Line::Down { session, at, .. } => down_timing(*at, owner_of(sessions, *session)),
        Line::Pass {
            session,
            server,
            at,
            ..
        } => pass_timing(*server, *at, owner_of(sessions, *session)),
        Line::Skipped | Line::Version(_) | Line::Clients(_) => Timing::Nothing,
        Line::Dir(_) | Line::File { .. } => Timing::Nothing,
        Line::Forge { .. } | Line::Clear(_) | Line::Evict { .. } => Timing::Nothing,
        Line::Warm { .. } | Line::Raw { .. } => Timing::Nothing,
    }
}

impl Times {
    /// The clocks before the first line. It takes no memory.
    pub fn new(alloc: Global) -> Times
        ensures { times_of result ≡ no_times }
    {
        Times {
            term: 0,
            clocks: Clocks::new(alloc, 0, 0),
        }
    }

    /// What a line says of the clocks is taken. The errors are the first fault by the clock rule, and
    /// running out of memory, and after either all is as before.
    pub fn take(&mut self, alloc: Global, timing: Timing) -> Result<(), NoteError>
        ensures { IsTaken result (times_with (times_of self.old) timing) (times_of self.old) (times_of self.new) }
    {
        match timing {
            Timing::Nothing => Ok(()),
            Timing::Term(term) => {
                self.term = term;
                Ok(())
            }
            Timing::Drift(drift) => {
                self.clocks = Clocks::new(alloc, self.term, drift);
                Ok(())
            }
            Timing::Reads(reading) => self.clocks.read(alloc, reading),
        }
    }
}
