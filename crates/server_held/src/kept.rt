//! A server, and the store that keeps its tree. `specs/Kept.antt` states what an event makes of both.

ghost use Rattle.std.specs.Prelude.{◌≡◌, ◌≤◌, length};
ghost use Rattle.callback_core.specs.BackCalls.{spent, waiting_at};
ghost use Rattle.wire.specs.Parse.{parse_of, IsParsed};
ghost use Rattle.server_core.specs.Closing.{has_waiting};
ghost use Rattle.server_core.specs.State.{entries_held};
ghost use Rattle.server_core.specs.Step.{IsTimed, gives_up};
ghost use Rattle.server_held.specs.Kept.{KeepsTree, Steps, StoreKeeps, journal_of};
ghost use Rattle.server_law.specs.Facts.{Holds};

use hash_calls::call::Commit;
use server_core::event::{Event, ServerStep};
use server_core::server::Server;
use shared_bytes::SharedBytes;
use std::alloc::Global;
use std::marker::Model;
use std::snapshot::Snapshot;
use store::store::Store;
use tree_nodes::content::Content;
use wire::fault::WireError;
use wire::message::Message;
use wire::parse::parse;

/// A server, and the store that keeps its tree. There is room in the store for what waits, the tree holds
/// what the journal says over the tree that the server was opened with, and a store that tells its records
/// keeps the tree.
#[derive(Drop)]
pub struct KeptServer<S: Store> {
    server: Server,
    store: S,
    /// The server as it was opened. It has no bytes: contracts alone see it.
    opened: Snapshot<Server>,
}

impl<S: Store> Model for KeptServer<S> {
    ghost use Rattle.std.specs.Prelude.{◌≤◌};
    ghost use Rattle.server_core.specs.State.{entries_held};
    ghost use Rattle.server_held.specs.Kept.{KeepsTree, KeptState};
    ghost use Rattle.server_law.specs.Facts.{Holds};

    ghost Value = { KeptState S };

    ghost view = { λ k. record { server = k.server; store = k.store; opened = k.opened.value } };

    ghost invariant = { λ k. (entries_held k.server.waiting ≤ S.spare k.store) × Holds k.opened.value.tree k.server × KeepsTree (S.records k.store) k.server.tree };
}

impl<S: Store + Drop> KeptServer<S> {
    /// A server that was opened, and its store. It takes no memory.
    pub fn new(server: Server, store: S) -> KeptServer<S>
        requires room { entries_held server.waiting ≤ S.spare store }
        requires opened { Holds server.tree server }
        requires kept { KeepsTree (S.records store) server.tree }
        ensures { result ≡ record { server = server; store = store; opened = server } }
    {
        let opened = Snapshot::of(&server);
        KeptServer {
            server,
            store,
            opened,
        }
    }

    /// One event: each change is given to the store before it is made.
    pub fn step(&mut self, alloc: Global, event: Event) -> ServerStep
        requires { IsTimed event }
        ensures stepped { Steps (S.faults self.old.store) (S.faults self.new.store) self.old.server event self.new.server result }
        ensures store { StoreKeeps S.records S.faults self.old self.new }
    {
        // Named first: the invariant is proved after the call.
        let step = self.server.step(alloc, &mut self.store, event);
        step
    }

    /// The message that a record of a session is, or why it is none, where answers are to what was asked
    /// for on its connection.
    pub fn read(&self, alloc: Global, session: u32, bytes: &[u8]) -> Result<Message, WireError>
        ensures { IsParsed result (parse_of (waiting_at self.now.server.leasing.calls session) bytes.now) }
    {
        parse(alloc, bytes, self.server.waiting(session))
    }

    /// A session gives up all the leases that it has. It takes no memory.
    pub fn give_up(&mut self, session: u32)
        ensures { self.new ≡ record self.old { server = gives_up self.old.server session } }
    {
        self.server.gives_up(session);
    }

    /// An owner of the whole content of a temporary file of a session, where it has one of this size
    /// and memory suffices. Nothing changes.
    pub fn share_temp(&mut self, session: u32, commit: &Commit) -> Option<SharedBytes>
        ensures { self.new ≡ self.old }
    {
        self.server.share_temp(session, commit)
    }

    /// Keeps a content that was made ahead, or none. Nothing changes.
    pub fn prepare(&mut self, ahead: Option<Content>)
        ensures { self.new ≡ self.old }
    {
        self.server.prepare(ahead);
    }

    /// Whether a change of the session waits.
    pub fn waits(&self, session: u32) -> bool
        ensures { result ≡ has_waiting self.now.server.waiting session }
    {
        self.server.has_waiting(session)
    }

    /// A session that was to be asked for a lease and has no xid left, if there is one.
    pub fn spent(&self) -> Option<u32>
        ensures { result ≡ spent self.now.server.leasing.calls }
    {
        self.server.spent()
    }

    /// How long the journal is that turns hand on.
    pub fn count(&self) -> u64
        ensures { result ≡ length (journal_of self.now) }
    {
        self.server.journal().len() as u64 + 1
    }

    /// The store.
    pub fn into_store(self) -> S
        ensures store { result ≡ self.store }
        ensures accounted { Holds self.opened.tree self.server }
        ensures kept { KeepsTree (S.records result) self.server.tree }
    {
        let KeptServer {
            server,
            store,
            opened,
        } = self;
        drop(server);
        drop(opened);
        store
    }
}
