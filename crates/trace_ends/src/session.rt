//! What becomes of what is kept of a session (`session` of `session_rules`): `specs/Session.antt` says
//! what a command and a call that is taken leave of it.

ghost use Rattle.std.specs.Prelude.{◌≡◌, OnOk, IfOk};
ghost use Rattle.trace_ends.specs.Session.{is_newest, taken_with, taken_of, session_of, commanded_session};

use crate::places::closing_with;
use client_state::step::ClientStep;
use register_model::op::Word;
use session_rules::numbers::place_of;
use session_rules::session::Session;
use session_rules::taken_call::TakenCall;
use std::alloc::AllocError;
use wire::message::Message;

/// What a command of its client leaves of a session, where it is that one's newest.
pub fn commanded(
    session: &mut Session,
    running: Option<usize>,
    place: usize,
    word: Word,
    acts: &ClientStep,
)
    ensures { session.new ≡ commanded_session session.old running place word acts.now }
{
    if running.is_none() {
        session.taken.clear();
    }
    session.closing = closing_with(session.closing, place, word, &acts.ended);
}

/// Remembers a session's call that is taken, with its step.
pub fn remember(session: &mut Session, message: &Message, step: u64) -> Result<(), AllocError>
    ensures { OnOk result (session.new ≡ record session.old { taken = taken_with session.old.taken message.now step }) }
{
    match message {
        Message::Call(xid, _) => {
            session.taken.push(TakenCall { xid: *xid, step })?;
            Ok(())
        }
        Message::Answer(..) | Message::Refuse(..) | Message::Unfit(..) => Ok(()),
    }
}

/// The calls that the server took of a client's newest session.
pub fn taken_of(sessions: &[Session], session: Option<u32>) -> &[TakenCall]
    ensures { result.now ≡ taken_of (session_of sessions.now session) }
{
    match session {
        Some(number) => match place_of(sessions.len(), u64::from(number)) {
            Some(place) => {
                let own = &sessions[place];
                own.taken.as_slice()
            }
            None => &[],
        },
        None => &[],
    }
}

/// Whether this is the newest session of a client.
pub fn is_newest(newest: Option<u32>, number: u64) -> bool
    ensures { result ≡ is_newest newest number }
{
    match newest {
        Some(newest) => u64::from(newest) == number,
        None => false,
    }
}

/// A number in 32 bits. No trace has 2^32 clients or sessions, so there it is running out of
/// memory.
pub fn short_number(number: u64) -> Result<u32, AllocError>
    ensures { IfOk result (λ short. short ≡ number) }
{
    match u32::try_from(number) {
        Ok(short) => Ok(short),
        Err(_) => Err(AllocError),
    }
}
