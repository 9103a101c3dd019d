//! What the threads of a server share: the server, and what it has to say to each session.
//! `specs/Held.antt` states what an event makes of it.

ghost use Rattle.std.specs.Prelude.{◌≡◌, ℕ, ◌<◌, ◌≤◌, ◌^◌, ◌↔◌, List, [], ◌∷◌, IsTrue, IfSome, IfNone, Some, None, Err, false};
ghost use Rattle.server_held.specs.Boxes.{AllEmpty, Lacks};
ghost use Rattle.server_core.specs.Closing.{has_waiting};
ghost use Rattle.server_core.specs.State.{entries_held};
ghost use Rattle.server_core.specs.Step.{IsTimed};
ghost use Rattle.server_core.specs.declared.event.Event.TheVariants as event;
ghost use Rattle.wire.specs.Parse.{parse_of, IsParsed};
ghost use Rattle.wire.specs.declared.message.Message.{Message};
ghost use Rattle.server_law.specs.Facts.{Holds as HoldsSince};
ghost use Rattle.callback_core.specs.BackCalls.{spent};
ghost use Rattle.server_law.specs.Growth.{MayAdd};
ghost use Rattle.server_held.specs.Kept.{KeepsTree, journal_of};
ghost use Rattle.server_held.specs.declared.boxes.Outbox.{Outbox};
ghost use Rattle.slab.specs.Slab.{get};
ghost use Rattle.server_held.specs.Held.{After, Delivered, HeardOrLeft, Joined, Left, Stands, TakenOut, Took, Unread, server_waits, given_up_if, is_farewell, is_unknown, settled_as, waits_for};
ghost use Rattle.server_held.specs.declared.held.Went.TheVariants as went;

use crate::entries::Entered;
use crate::kept::KeptServer;
use crate::outboxes::Outboxes;
use crate::turns::Turns;
use hash_calls::call::Commit;
use lb_base::items::Items;
use send_list::SendList;
use server_core::event::{Event, Sent, ServerStep};
use server_core::server::Server;
use server_rules::told::Told;
use shared_bytes::SharedBytes;
use std::alloc::Global;
use store::store::Store;
use tree_nodes::content::Content;
use turn_post::journaled::Journaled;
use wire::fault::{WireError, WireFault};
use wire::message::{LBFS_SERVED, Message, Side, Waiting};
use wire::parse::parse;

/// What came of an event.
#[derive(Clone, Copy)]
pub enum Went {
    /// It was done, and this session stands: the one that was made or that sent a message, or whose
    /// change was settled.
    Open {
        /// Its number.
        session: u32,
    },
    /// No change can be made yet.
    NotReady,
    /// The session doesn't stand any more.
    Closed,
    /// No further session can stand.
    Full,
    /// Memory ran out; a session that should have been told something is hung.
    Memory,
}

/// What the threads of a server share.
pub struct SharedServer<S: Store> {
    /// The server, and what keeps its tree from one start to the next.
    kept: KeptServer<S>,
    boxes: Outboxes<Message>,
}

// By hand: docs/proving/dropping.md.
impl<S: Store + Drop> Drop for SharedServer<S> {
    fn drop(self) {
        let SharedServer { kept, boxes } = self;
        drop(kept);
        drop(boxes);
    }
}

/// Whether both are so. A function of its own in place of `&&`, so that the loop below has one way on.
fn both(one: bool, other: bool) -> bool
    ensures { IsTrue result → IsTrue one × IsTrue other }
{
    one && other
}

/// The message that a record to a server is, or why it is none, as it is read before its turn: as if the
/// server had asked its clients for nothing. An answer is of an unknown xid then, and is read again in
/// its turn (`Turns::heard`).
pub fn read_record(alloc: Global, bytes: &[u8]) -> Result<Message, WireError>
    ensures { IsParsed result (parse_of server_waits bytes.now) }
{
    let waiting = Waiting {
        side: Side::Server,
        lbfs: LBFS_SERVED,
        calls: Items::new(alloc),
    };
    parse(alloc, bytes, &waiting)
}

/// Whether a record is an answer that nobody waits for.
fn is_unknown(error: WireError) -> bool
    ensures { result ≡ is_unknown error }
{
    match error {
        WireError::Fault(fault) => matches!(fault, WireFault::UnknownXid { .. }),
        WireError::Memory => false,
    }
}

/// Whether an answer that nobody waits for is a farewell of its session.
fn is_farewell(xid: u32, went: Went) -> bool
    ensures { result ≡ is_farewell xid went }
{
    match went {
        Went::Open { .. } => xid == 0,
        Went::NotReady | Went::Closed | Went::Full | Went::Memory => false,
    }
}

/// What came of a change that was to be made.
fn settled_as(told: Told) -> Went
    ensures { result ≡ settled_as told }
{
    match told {
        Told::Settled { session, .. } => Went::Open { session },
        Told::Nothing | Told::Session(_) | Told::Full | Told::Memory | Told::NotReady => {
            Went::NotReady
        }
    }
}

impl<S: Store + Drop> SharedServer<S> {
    /// A server that was opened with its tree, and its store, which keeps that tree and has room for what
    /// waits; there is nothing to say to any session. It takes no memory.
    pub fn new(alloc: Global, server: Server, store: S) -> SharedServer<S>
        requires room { entries_held server.waiting ≤ S.spare store }
        requires opened { HoldsSince server.tree server }
        requires kept { KeepsTree (S.records store) server.tree }
        ensures kept { result.kept ≡ record { server = server; store = store; opened = server } }
        ensures boxes { (session : ℕ) → Lacks result.boxes session }
    {
        SharedServer {
            kept: KeptServer::new(server, store),
            boxes: Outboxes::new(alloc),
        }
    }

    /// A session's connection is lost.
    fn hang(&mut self, alloc: Global, session: u32)
        ensures { Left S.records S.faults self.old session self.new }
    {
        let step = self.kept.step(alloc, Event::Hang { session });
        drop(step);
        self.boxes.close(session);
    }

    /// Puts a message into its session's box, and answers whether memory sufficed. Where it didn't
    /// the session is hung.
    fn put(&mut self, alloc: Global, sent: Sent) -> bool
        ensures { Delivered S.records S.faults self.old (sent ∷ []) result self.new }
    {
        let Sent { session, message } = sent;
        match self.boxes.put(session, message) {
            Ok(()) => true,
            Err(_) => {
                self.hang(alloc, session);
                false
            }
        }
    }

    /// Puts messages into the boxes, and answers whether memory sufficed.
    fn put_all(&mut self, alloc: Global, messages: Vec<Sent>) -> bool
        ensures { Delivered S.records S.faults self.old messages.items result self.new }
    {
        let mut all = true;
        for sent in messages {
            let put = self.put(alloc, sent);
            all = both(all, put);
        }
        all
    }

    /// Puts the messages of a step into the boxes, and answers whether memory sufficed.
    fn deliver(&mut self, alloc: Global, send: SendList<Sent>) -> bool
        ensures { Delivered S.records S.faults self.old send result self.new }
    {
        let (first, rest) = send.into_parts();
        match first {
            Some(sent) => {
                let put = self.put(alloc, sent);
                let all = self.put_all(alloc, rest.into_vec());
                both(put, all)
            }
            None => self.put_all(alloc, rest.into_vec()),
        }
    }

    /// A connection is made. A session that was made is given an empty box; where memory runs out for
    /// it, it is hung.
    fn connect(&mut self, alloc: Global) -> Went
        ensures { Joined S.records S.faults self.old result self.new }
    {
        let step = self.kept.step(alloc, Event::Connect);
        let told = step.told;
        drop(step);
        match told {
            Told::Session(session) => match self.boxes.open(session) {
                Ok(()) => Went::Open { session },
                Err(_) => {
                    self.hang(alloc, session);
                    Went::Memory
                }
            },
            Told::Full => Went::Full,
            Told::Nothing | Told::Memory | Told::Settled { .. } | Told::NotReady => Went::Memory,
        }
    }

    /// Whether a session stands.
    fn standing(&self, session: u32) -> Went
        ensures { Stands self.now session result × ¬ (result ≡ went.Memory) }
    {
        if self.boxes.has(session) {
            Went::Open { session }
        } else {
            Went::Closed
        }
    }

    /// A message of a session came.
    fn take_message(&mut self, alloc: Global, session: u32, message: Message, now: u64) -> Went
        requires { now < 2 ^ 63 }
        ensures { Took S.records S.faults self.old (event.Got session message now) result self.new }
    {
        let event = Event::Got {
            session,
            message,
            now,
        };
        let ServerStep { send, .. } = self.kept.step(alloc, event);
        if self.deliver(alloc, send) {
            self.standing(session)
        } else {
            Went::Memory
        }
    }

    /// A pending change may be made.
    fn settle(&mut self, alloc: Global, now: u64) -> Went
        requires { now < 2 ^ 63 }
        ensures { Took S.records S.faults self.old (event.Settle now) result self.new }
    {
        let ServerStep { send, told, .. } = self.kept.step(alloc, Event::Settle { now });
        if self.deliver(alloc, send) {
            settled_as(told)
        } else {
            Went::Memory
        }
    }

    /// A record came of which no message was read before its turn. An answer is read again, by what was
    /// asked for on the session's connection.
    fn hear_again(
        &mut self,
        alloc: Global,
        session: u32,
        bytes: &[u8],
        error: WireError,
        now: u64,
    ) -> Went
        requires { now < 2 ^ 63 }
        ensures heard { IsParsed (Err error) (parse_of server_waits bytes.now) → HeardOrLeft S.records S.faults self.old session now (parse_of (waits_for self.old session) bytes.now) result self.new }
        ensures grows { MayAdd (journal_of self.old.kept) (journal_of self.new.kept) }
    {
        if !is_unknown(error) {
            return self.unread(alloc, session, error);
        }
        match self.kept.read(alloc, session, bytes) {
            Ok(message) => self.take_message(alloc, session, message, now),
            Err(error) => self.unread(alloc, session, error),
        }
    }

    /// An answer came that nobody waits for: it changes nothing, but for a farewell.
    fn unawaited(&mut self, session: u32, xid: u32) -> Went
        ensures { (self.new ≡ given_up_if (is_farewell xid result) self.old session) × Stands self.new session result }
    {
        let went = self.standing(session);
        if is_farewell(xid, went) {
            self.kept.give_up(session);
        }
        went
    }

    /// A record came of which no message was read.
    fn unread(&mut self, alloc: Global, session: u32, error: WireError) -> Went
        ensures { Unread S.records S.faults self.old session error result self.new }
    {
        match error {
            WireError::Fault(fault) => match fault {
                WireFault::UnknownXid { xid } => self.unawaited(session, xid),
                WireFault::NotRpc { .. } | WireFault::Garbage { .. } => {
                    self.hang(alloc, session);
                    Went::Closed
                }
            },
            WireError::Memory => {
                self.hang(alloc, session);
                Went::Memory
            }
        }
    }

    /// The store, once nobody is told anything any more.
    pub fn into_store(self) -> S
        ensures store { result ≡ self.kept.store }
        ensures accounted { HoldsSince self.kept.opened.tree self.kept.server }
        ensures kept { KeepsTree (S.records result) self.kept.server.tree }
    {
        let SharedServer { kept, boxes } = self;
        drop(boxes);
        kept.into_store()
    }
}

impl<S: Store + Drop> Journaled for SharedServer<S> {
    type Entry = Entered;

    ghost journal = { λ h. journal_of h.kept };

    fn count(&self) -> u64 {
        self.kept.count()
    }
}

impl<S: Store + Drop> Turns for SharedServer<S> {
    ghost does = { λ old event said new. After S.records S.faults old event said new };

    ghost hears = { λ old session bytes now said new. HeardOrLeft S.records S.faults old session now (parse_of (waits_for old session) bytes) said new };

    ghost gives = { λ old session messages new. TakenOut old session messages new };

    /// The place of a session's box, if it stands; it is no other session's as long as it does.
    fn place(&self, session: u32) -> Option<usize>
        ensures some { IfSome result (λ place. (messages : List Message) × (get self.now.boxes place ≡ Some (record { session = session; messages = messages }))) }
        ensures none { IfNone result (Lacks self.now.boxes session) }
    {
        self.boxes.place(session)
    }

    /// Whether something is to be said to the session whose box is at a place.
    fn is_full_at(&self, place: usize) -> bool
        ensures some { (one : Outbox Message) → get self.now.boxes place ≡ Some one → IsTrue result ↔ ¬ (one.messages ≡ []) }
        ensures none { get self.now.boxes place ≡ None → result ≡ false }
    {
        self.boxes.is_full_at(place)
    }

    /// Whether nothing is to be said to any session.
    fn is_still(&self) -> bool
        ensures { IsTrue result ↔ AllEmpty self.now.boxes }
    {
        self.boxes.is_still()
    }

    /// Whether a change of the session waits.
    fn waits(&self, session: u32) -> bool
        ensures { result ≡ has_waiting self.now.kept.server.waiting session }
    {
        self.kept.waits(session)
    }

    /// Whether a change waits of the session whose box is at a place.
    fn waits_at(&self, place: usize) -> bool
        ensures some { (one : Outbox Message) → get self.now.boxes place ≡ Some one → result ≡ has_waiting self.now.kept.server.waiting one.session }
        ensures none { get self.now.boxes place ≡ None → result ≡ false }
    {
        match self.boxes.owner_at(place) {
            Some(session) => self.kept.waits(session),
            None => false,
        }
    }

    /// A session that was to be asked for a lease and has no xid left, if there is one.
    fn spent(&self) -> Option<u32>
        ensures { result ≡ spent self.now.kept.server.leasing.calls }
    {
        self.kept.spent()
    }

    /// One event of the server. What it sends goes into the boxes of its sessions; where memory
    /// runs out for that the session is hung.
    fn event(&mut self, alloc: Global, event: Event) -> Went
        requires { IsTimed event }
        ensures after { After S.records S.faults self.old event result self.new }
        ensures grows { MayAdd (journal_of self.old.kept) (journal_of self.new.kept) }
    {
        match event {
            Event::Connect => self.connect(alloc),
            Event::Got {
                session,
                message,
                now,
            } => self.take_message(alloc, session, message, now),
            Event::Settle { now } => self.settle(alloc, now),
            Event::Hang { session } => {
                self.hang(alloc, session);
                Went::Closed
            }
        }
    }

    /// A record of a session came, and was read before (`read_record`): the event of its message, where an
    /// answer is to what was asked for on the session's connection. A record that is no message hangs the
    /// session, and an answer that nobody waits for is no event, but by a farewell the session gives up all
    /// its leases; running out of memory hangs it too.
    fn heard(
        &mut self,
        alloc: Global,
        session: u32,
        bytes: &[u8],
        read: Result<Message, WireError>,
        now: u64,
    ) -> Went
        requires { now < 2 ^ 63 }
        ensures heard { IsParsed read (parse_of server_waits bytes.now) → HeardOrLeft S.records S.faults self.old session now (parse_of (waits_for self.old session) bytes.now) result self.new }
        ensures grows { MayAdd (journal_of self.old.kept) (journal_of self.new.kept) }
    {
        match read {
            Ok(message) => self.take_message(alloc, session, message, now),
            Err(error) => self.hear_again(alloc, session, bytes, error, now),
        }
    }

    /// An owner of the whole content of a temporary file of a session, where it has one of this size
    /// and memory suffices. Nothing changes.
    fn share_temp(&mut self, session: u32, commit: &Commit) -> Option<SharedBytes>
        ensures { self.new ≡ self.old }
    {
        self.kept.share_temp(session, commit)
    }

    /// Keeps a content that was made ahead, or none. Nothing changes.
    fn prepare(&mut self, ahead: Option<Content>)
        ensures { self.new ≡ self.old }
    {
        self.kept.prepare(ahead);
    }

    /// All that is to be said to a session, in order; nothing is left. It takes no memory.
    fn take_out(&mut self, session: u32) -> Vec<Message>
        ensures gave { TakenOut self.old session result.items self.new }
        ensures same { journal_of self.new.kept ≡ journal_of self.old.kept }
    {
        self.boxes.take(session).into_vec()
    }
}
