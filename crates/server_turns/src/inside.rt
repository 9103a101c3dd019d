//! What a turn does inside: calls of `Turns` on what is shared, and what it tells the threads by.

ghost use Rattle.std.specs.Prelude.{◌≡◌, nat_le, ◌<◌, ◌^◌};
ghost use Rattle.server_turns.specs.Turned.{TakesOut};
ghost use Rattle.server_core.specs.Step.{IsTimed};
ghost use Rattle.server_law.specs.Growth.{MayAdd};
ghost use Rattle.server_held.specs.Held.{server_waits};
ghost use Rattle.wire.specs.Parse.{parse_of, IsParsed};

use crate::bells::{Bells, PLACES, Rung, bit};
use crate::outgoing::Taken;
use hash_calls::call::Commit;
use hash_calls::message::Lb;
use server_core::event::Event;
use server_held::held::Went;
use server_held::turns::Turns;
use std::alloc::Global;
use tree_nodes::content::Content;
use wire::fault::{WireError, WireFault};
use wire::message::{Body, Message};

/// A record of a session as it was read, and what was made of it before its turn.
pub struct Prepared {
    pub(crate) read: Result<Message, WireError>,
    /// The content that its COMMITTMP comes to, cut and hashed.
    pub(crate) ahead: Option<Content>,
}

// By hand: docs/proving/dropping.md.
impl Drop for Prepared {
    fn drop(self) {
        let Prepared { read, ahead } = self;
        drop(read);
        drop(ahead);
    }
}

impl Prepared {
    /// Whether the record is an answer: it was read as if nothing had been asked for.
    pub fn answers(&self) -> bool {
        match &self.read {
            Ok(_) => false,
            Err(error) => matches!(error, WireError::Fault(WireFault::UnknownXid { .. })),
        }
    }

    fn into_parts(self) -> (Result<Message, WireError>, Option<Content>)
        ensures { result ≡ (self.read, self.ahead) }
    {
        let Prepared { read, ahead } = self;
        (read, ahead)
    }
}

/// The bit of a session's place, where there is one that stands.
fn bit_of<H: Turns>(held: &H, session: Option<u32>) -> u64 {
    let Some(session) = session else {
        return 0;
    };
    match held.place(session) {
        Some(place) => bit(place),
        None => 0,
    }
}

/// What a session's bell has rung, if the session stands and nothing is to be said to it.
pub(crate) fn quiet_bell<H: Turns>(bells: &Bells, held: &H, session: u32) -> Option<Rung> {
    let place = held.place(session)?;
    if held.is_full_at(place) {
        return None;
    }
    Some(bells.rung(held, place))
}

/// Whether something is to be said to a session that stands, or will be once a change of it is made.
pub(crate) fn is_owed<H: Turns>(held: &H, session: u32) -> bool {
    match held.place(session) {
        Some(place) => held.is_full_at(place) || held.waits(session),
        None => false,
    }
}

/// The bits of the places of those sessions to which something is to be said, where that is asked.
fn said_in<H: Turns>(held: &H, looks: bool) -> u64 {
    if !looks || held.is_still() {
        return 0;
    }
    let mut places = 0;
    for place in 0..PLACES {
        if held.is_full_at(place) {
            places |= bit(place);
        }
    }
    places
}

/// Whether a change waits of a session that stands.
pub(crate) fn any_waits<H: Turns>(held: &H) -> bool {
    for place in 0..PLACES {
        if held.waits_at(place) {
            return true;
        }
    }
    false
}

/// Whether a change of a session waits, if there is one.
fn its_waits<H: Turns>(held: &H, session: Option<u32>) -> bool {
    match session {
        Some(session) => held.waits(session),
        None => false,
    }
}

/// Whether changes that wait are made at a reading: from this one on.
pub(crate) fn settles_from(quiet: u64, now: u64) -> bool
    ensures { result ≡ nat_le quiet now }
{
    quiet <= now
}

/// What came of a turn in which a pending change may be made, and a session that has no xid left for what it
/// was to be asked, if there is one. It can't be dropped, but by `close_spent`.
pub(crate) struct Settled {
    pub(crate) went: Went,
    pub(crate) spent: Option<u32>,
}

/// A pending change is made, if it may be, and if the quiet is over.
#[tactic(auto, using(crate::proofs::Adding::adds_none))]
fn settle_in<H: Turns>(held: &mut H, alloc: Global, quiet: u64, now: u64) -> Settled
    requires { now < 2 ^ 63 }
    ensures { MayAdd (H.journal held.old) (H.journal held.new) }
{
    let went = if settles_from(quiet, now) {
        held.event(alloc, Event::Settle { now })
    } else {
        Went::NotReady
    };
    Settled {
        went,
        spent: held.spent(),
    }
}

/// A record of a session is heard, with what was made of it before.
fn hear_in<H: Turns>(
    held: &mut H,
    alloc: Global,
    session: u32,
    bytes: &[u8],
    prepared: Prepared,
    now: u64,
) -> Went
    requires { now < 2 ^ 63 }
    ensures heard { IsParsed prepared.read (parse_of server_waits bytes.now) → H.hears held.old session bytes.now now result held.new }
    ensures grows { MayAdd (H.journal held.old) (H.journal held.new) }
{
    let (read, ahead) = prepared.into_parts();
    held.prepare(ahead);
    let heard = held.heard(alloc, session, bytes, read, now);
    held.prepare(None);
    heard
}

/// What came of the turn of an event.
#[derive(Clone, Copy)]
pub(crate) struct Happened {
    pub(crate) went: Went,
    /// The bits of the places whose threads it wakes.
    pub(crate) wakes: u64,
    /// Whether a change of its session waits.
    pub(crate) waits: bool,
}

/// The bits of the places of those to whom an event said something: where no change could be made nothing was
/// said to anybody.
fn said_behind<H: Turns>(held: &H, went: Went) -> u64 {
    said_in(held, !matches!(went, Went::NotReady))
}

/// One event.
pub(crate) fn event_in<H: Turns>(held: &mut H, alloc: Global, event: Event) -> Happened
    requires { IsTimed event }
    ensures after { H.does held.old event result.went held.new }
    ensures grows { MayAdd (H.journal held.old) (H.journal held.new) }
{
    let its = session_of(&event);
    let own = bit_of(held, its);
    let went = held.event(alloc, event);
    Happened {
        went,
        wakes: gone(went, own) | said_behind(held, went),
        waits: its_waits(held, its),
    }
}

/// What came of the turn of a record.
pub(crate) struct Got {
    pub(crate) heard: Went,
    /// The bits of the places whose threads it wakes.
    pub(crate) wakes: u64,
    /// What there is to say to its session; none, where a change may be made in a turn behind this one, which
    /// takes it.
    pub(crate) answer: Option<Taken>,
}

/// What there is to say to a session is taken, and whether more may follow.
pub(crate) fn taken_in<H: Turns>(held: &mut H, session: u32) -> Taken
    ensures gave { H.gives held.old session result.messages.items held.new }
    ensures same { H.journal held.new ≡ H.journal held.old }
{
    let messages = held.take_out(session);
    let stands = held.place(session).is_some();
    Taken::new(messages, stands)
}

/// What there is to say to a session behind a record of it is taken; nothing, where a change of it waits or the
/// record was an answer.
fn answer_in<H: Turns>(held: &mut H, session: u32, answers: bool) -> Option<Taken>
    ensures took { TakesOut H.gives session result held.old held.new }
    ensures same { H.journal held.new ≡ H.journal held.old }
{
    if answers || held.waits(session) {
        return None;
    }
    Some(taken_in(held, session))
}

/// A record of a session is heard, and answered where nothing waits.
pub(crate) fn got_in<H: Turns>(
    held: &mut H,
    alloc: Global,
    session: u32,
    bytes: &[u8],
    prepared: Prepared,
    now: u64,
) -> Got
    requires { now < 2 ^ 63 }
    ensures heard { IsParsed prepared.read (parse_of server_waits bytes.now)
        → (left : H) × H.hears held.old session bytes.now now result.heard left
        × TakesOut H.gives session result.answer left held.new × (H.journal held.new ≡ H.journal left) }
    ensures grows { MayAdd (H.journal held.old) (H.journal held.new) }
{
    let answers = prepared.answers();
    let own = bit_of(held, Some(session));
    let heard = hear_in(held, alloc, session, bytes, prepared, now);
    let answer = answer_in(held, session, answers);
    // Where it wasn't answered the turn behind it finds them.
    let said = said_in(held, answer.is_some());
    Got {
        heard,
        wakes: gone(heard, own) | said,
        answer,
    }
}

/// What came of the turn behind that of a record.
pub(crate) struct Behind {
    pub(crate) settled: Settled,
    /// What there is to say to the record's session.
    pub(crate) taken: Taken,
    /// The bits of the places of those to whom something is said.
    pub(crate) said: u64,
    /// Whether a change of the session waits still.
    pub(crate) waits: bool,
}

/// A pending change is made, if it may be, and behind that what there is to say to a session is taken.
pub(crate) fn behind_in<H: Turns>(
    held: &mut H,
    alloc: Global,
    quiet: u64,
    session: u32,
    now: u64,
) -> Behind
    requires { now < 2 ^ 63 }
    ensures took { (left : H) × MayAdd (H.journal held.old) (H.journal left) × H.gives left session result.taken.messages.items held.new × (H.journal held.new ≡ H.journal left) }
    ensures grows { MayAdd (H.journal held.old) (H.journal held.new) }
{
    let settled = settle_in(held, alloc, quiet, now);
    let taken = taken_in(held, session);
    Behind {
        settled,
        taken,
        said: said_in(held, true),
        waits: held.waits(session),
    }
}

/// The bits of those whose session an event may have ended: that of its own session, where it went, and
/// all where memory ran out.
pub(crate) fn gone(went: Went, own: u64) -> u64 {
    match went {
        Went::Closed => own,
        Went::Memory => u64::MAX,
        Went::Open { .. } | Went::NotReady | Went::Full => 0,
    }
}

/// The session that an event may end for another reason than running out of memory.
fn session_of(event: &Event) -> Option<u32> {
    match event {
        Event::Got { session, .. } | Event::Hang { session } => Some(*session),
        Event::Connect | Event::Settle { .. } => None,
    }
}

/// The COMMITTMP that a record is, if it is one.
pub(crate) fn commit_in(read: &Result<Message, WireError>) -> Option<&Commit> {
    match read {
        Ok(message) => match message {
            Message::Call(_, body) => match body {
                Body::Lb(Lb::CommitTmp(commit)) => Some(commit),
                _ => None,
            },
            _ => None,
        },
        Err(_) => None,
    }
}
