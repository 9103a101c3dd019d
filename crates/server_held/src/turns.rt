//! What a turn asks of that which the threads of a server share. It is `SharedServer`; the turns and the loops
//! are written for any such thing, and so none of them is checked with all that a server consists of. What an
//! event and a record make, and what is taken out, is a relation of the thing's own (`does`, `hears`, `gives`),
//! which a loop owes by these.

ghost use Rattle.std.specs.Prelude.{◌≡◌, ℕ, ◌<◌, ◌^◌, List};
ghost use Rattle.server_law.specs.Growth.{MayAdd};
ghost use Rattle.server_core.specs.Step.{IsTimed};
ghost use Rattle.server_core.specs.declared.event.Event.{Event};
ghost use Rattle.server_held.specs.Held.{server_waits};
ghost use Rattle.server_held.specs.declared.held.Went.{Went};
ghost use Rattle.wire.specs.Parse.{parse_of, IsParsed};
ghost use Rattle.wire.specs.declared.message.Message.{Message};

use crate::held::Went;
use hash_calls::call::Commit;
use server_core::event::Event;
use shared_bytes::SharedBytes;
use std::alloc::Global;
use tree_nodes::content::Content;
use turn_post::journaled::Journaled;
use wire::fault::WireError;
use wire::message::Message;

/// What a turn asks; `SharedServer` says what each call does.
pub trait Turns: Journaled {
    /// What an event makes, and what is said of it.
    ghost does: { Self → Event → Went → Self → Type 0 };

    /// What a record of a session makes at a reading, and what is said of it.
    ghost hears: { Self → ℕ → List ℕ → ℕ → Went → Self → Type 0 };

    /// What is left where these messages to a session are taken out.
    ghost gives: { Self → ℕ → List Message → Self → Type 0 };

    /// The place of a session's box, if it stands; it is no other session's as long as it does.
    fn place(&self, session: u32) -> Option<usize>;

    /// Whether something is to be said to the session whose box is at a place.
    fn is_full_at(&self, place: usize) -> bool;

    /// Whether nothing is to be said to any session.
    fn is_still(&self) -> bool;

    /// Whether a change of the session waits.
    fn waits(&self, session: u32) -> bool;

    /// Whether a change waits of the session whose box is at a place.
    fn waits_at(&self, place: usize) -> bool;

    /// A session that is to be asked for something and has no xid left, if there is one.
    fn spent(&self) -> Option<u32>;

    /// One event of the server.
    fn event(&mut self, alloc: Global, event: Event) -> Went
        requires { IsTimed event }
        ensures after { does self.old event result self.new }
        ensures grows { MayAdd (Self.journal self.old) (Self.journal self.new) };

    /// A record of a session came, and was read before, as if nothing had been asked for.
    fn heard(
        &mut self,
        alloc: Global,
        session: u32,
        bytes: &[u8],
        read: Result<Message, WireError>,
        now: u64,
    ) -> Went
        requires { now < 2 ^ 63 }
        ensures heard { IsParsed read (parse_of server_waits bytes.now) → hears self.old session bytes.now now result self.new }
        ensures grows { MayAdd (Self.journal self.old) (Self.journal self.new) };

    /// An owner of the whole content of a temporary file of a session.
    fn share_temp(&mut self, session: u32, commit: &Commit) -> Option<SharedBytes>
        ensures { self.new ≡ self.old };

    /// Keeps a content that was made ahead, or none.
    fn prepare(&mut self, ahead: Option<Content>)
        ensures { self.new ≡ self.old };

    /// All that is to be said to a session.
    fn take_out(&mut self, session: u32) -> Vec<Message>
        ensures gave { gives self.old session result.items self.new }
        ensures same { Self.journal self.new ≡ Self.journal self.old };
}

/// The same of what lies elsewhere: a turn then moves a pointer, and not all that a server is.
impl<H: Turns> Turns for Box<H> {
    ghost does = { λ old event said new. H.does old.value event said new.value };

    ghost hears = { λ old session bytes now said new. H.hears old.value session bytes now said new.value };

    ghost gives = { λ old session messages new. H.gives old.value session messages new.value };

    fn place(&self, session: u32) -> Option<usize> {
        (**self).place(session)
    }

    fn is_full_at(&self, place: usize) -> bool {
        (**self).is_full_at(place)
    }

    fn is_still(&self) -> bool {
        (**self).is_still()
    }

    fn waits(&self, session: u32) -> bool {
        (**self).waits(session)
    }

    fn waits_at(&self, place: usize) -> bool {
        (**self).waits_at(place)
    }

    fn spent(&self) -> Option<u32> {
        (**self).spent()
    }

    fn event(&mut self, alloc: Global, event: Event) -> Went {
        self.as_mut().event(alloc, event)
    }

    fn heard(
        &mut self,
        alloc: Global,
        session: u32,
        bytes: &[u8],
        read: Result<Message, WireError>,
        now: u64,
    ) -> Went {
        self.as_mut().heard(alloc, session, bytes, read, now)
    }

    fn share_temp(&mut self, session: u32, commit: &Commit) -> Option<SharedBytes> {
        self.as_mut().share_temp(session, commit)
    }

    fn prepare(&mut self, ahead: Option<Content>) {
        self.as_mut().prepare(ahead);
    }

    fn take_out(&mut self, session: u32) -> Vec<Message> {
        self.as_mut().take_out(session)
    }
}
