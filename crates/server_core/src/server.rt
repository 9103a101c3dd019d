//! The server. `specs/State.antt` says what it is, and `specs/Step.antt` what it does.

ghost use Rattle.std.specs.Prelude.{◌≡◌, ◌≤◌, length, false, true, Some, IfOk, IfSome, OnOk, OnErr};
ghost use Rattle.callback_core.specs.BackCalls.{spent, waiting_at};
ghost use Rattle.server_core.specs.Closing.{has_waiting};
ghost use Rattle.server_core.specs.Served.{IsServed};
ghost use Rattle.server_core.specs.State.{empty, with_term, entries_held};
ghost use Rattle.server_core.specs.Step.{server_step, server_step_under, with_tree, opens_with, forges, learns, LearnsSome, clears_index, gives_up, IsTimed, Misses};
ghost use Rattle.file_tree.specs.Stores.{Keeps};
ghost use Rattle.file_tree.specs.Opening.{can_open};
ghost use Rattle.temp_files.specs.Temps.{temp_at, whole_of};
ghost use Rattle.tree_reading.specs.Reading.{content, stands_for, Answers};

use crate::event::{Event, ServerStep};
use crate::journal::Entry;
use crate::state::ServerState;
use crate::unkept::NoStore;
use callback_core::back_calls::BackCalls;
use callback_core::waits::Waits;
use chunk_calls::entering::enter_content;
use chunk_index::place::Place;
use file_tree::tree::Tree;
use hash_calls::call::Commit;
use lb_base::items::{Bytes, Name};
use server_rules::sessions::Sessions;
use shared_bytes::SharedBytes;
use std::alloc::{AllocError, Global};
use std::marker::Model;
use store::store::Store;
use temp_files::temps::Temps;
use tree_nodes::content::Content;
use tree_nodes::node::Body;
use tree_reading::error::TreeError;
use tree_reading::reading::Standing;
use wire::message::Waiting;

/// A server of a tree of files and directories.
pub struct Server {
    state: ServerState,
}

impl Drop for Server {
    fn drop(self) {
        let Server { state } = self;
        drop(state);
    }
}

impl Model for Server {
    ghost use Rattle.server_core.specs.State.{State};

    ghost Value = { State };

    ghost use Rattle.server_core.specs.View.{state_of, IsBounded};

    ghost view = { λ s. state_of s.state };

    ghost invariant = { λ s. IsBounded s.state };
}

impl Server {
    /// A server with the root directory alone, and no session, which grants leases for this term in
    /// milliseconds, and none where it is 0. The one error is running out of memory.
    pub fn new(alloc: Global, term: u32) -> Result<Server, AllocError>
        ensures { IfOk result (λ server. server ≡ with_term empty term) }
    {
        let tree = Tree::new(alloc)?;
        Server::with_tree(alloc, tree, term)
    }

    /// A server over a tree, with no session, which grants leases for this term in milliseconds, and none
    /// where it is 0. The one error is running out of memory.
    pub fn with_tree(alloc: Global, tree: Tree, term: u32) -> Result<Server, AllocError>
        ensures { IfOk result (λ server. server ≡ with_term (with_tree tree.tree) term) }
    {
        let index = chunk_index::places::empty(alloc)?;
        Ok(Server {
            state: ServerState {
                tree,
                journal: Vec::new(alloc),
                temps: Temps::new(alloc),
                index,
                waits: Waits::new(alloc),
                sessions: Sessions::new(alloc),
                term,
                moment: 0,
                calls: BackCalls::new(alloc),
                ahead: None,
            },
        })
    }

    /// Leases are granted for this term from now on, in milliseconds, and none where it is 0. Those that
    /// stand stay as they are.
    pub fn set_term(&mut self, term: u32)
        ensures { self.new ≡ with_term self.old term }
    {
        self.state.term = term;
    }

    /// Whether the tree may open with a node of a name in a directory: the directory is there, and
    /// the name is one that a node may have, and free. It takes no memory.
    pub fn can_open(&self, dir: u64, name: &[u8]) -> bool
        ensures { result ≡ can_open self.now.tree dir name.now }
    {
        self.state.tree.can_open(dir, name)
    }

    /// The tree opens with a node more, if it may have it. The one error is running out of memory, as which
    /// a content past the limits counts too, and an id of 2^63 or more; the server then stays as it
    /// was.
    pub fn open(&mut self, dir: u64, name: Name, body: Body) -> Result<(), AllocError>
        ensures ok { OnOk result (self.new ≡ opens_with self.old dir name body) }
        ensures err { OnErr result (self.new ≡ self.old) }
    {
        self.state.tree.open(dir, name, body)
    }

    /// The id that the next node of the tree gets.
    pub fn next_id(&self) -> u64
        ensures { result ≡ self.now.tree.next }
    {
        self.state.tree.head().next
    }

    /// What a name of a directory stands for, if for anything. It takes no memory.
    pub fn stands_for(&self, dir: u64, name: &[u8]) -> Option<Standing>
        ensures { result ≡ stands_for self.now.tree.nodes dir name.now }
    {
        self.state.tree.stands_for(dir, name)
    }

    /// Puts a place into the index of chunks, under a key. The one error is running out of memory,
    /// and the server then stays as it was.
    pub fn forge(&mut self, key: u64, place: Place) -> Result<(), AllocError>
        ensures ok { OnOk result (self.new ≡ forges self.old key place) }
        ensures err { OnErr result (self.new ≡ self.old) }
    {
        match self.state.index.forge(key, place) {
            Ok(()) => Ok(()),
            Err(_) => Err(AllocError),
        }
    }

    /// The places of the chunks of a file's content enter the index, if there is such a file: a hint, as a
    /// forged place is. Says whether some were left out, for running out of memory.
    pub fn learn(&mut self, file: u64) -> bool
        ensures all { result ≡ false → self.new ≡ learns self.old file }
        ensures lacks { result ≡ true → LearnsSome self.old file self.new }
    {
        enter_content(&mut self.state.index, &self.state.tree, file)
    }

    /// Drops all pairs of the index of chunks. It takes no memory.
    pub fn clear_index(&mut self)
        ensures { self.new ≡ clears_index self.old }
    {
        self.state.index.clear();
    }

    /// The session gives all of its leases up, whether it stands or not: its client goes by none of
    /// them any more. Nothing else changes. It takes no memory.
    pub fn gives_up(&mut self, session: u32)
        ensures { self.new ≡ gives_up self.old session }
    {
        self.state.waits.give_up_all(session);
    }

    /// The changes that were made, the oldest first.
    pub fn journal(&self) -> &[Entry]
        ensures { result.now ≡ self.now.journal }
    {
        self.state.journal.as_slice()
    }

    /// How many changes were ever made, those that an opening tree tells of included.
    pub fn changes(&self) -> u64
        ensures { result ≡ self.now.tree.changes }
    {
        self.state.tree.head().changes
    }

    /// Whether a change of the session waits.
    pub fn has_waiting(&self, session: u32) -> bool
        ensures { result ≡ has_waiting self.now.waiting session }
    {
        self.state.waits.has(session)
    }

    /// What may come on a session's connection: calls, and the answers to the RECALLs that wait for them.
    /// It takes no memory.
    pub fn waiting(&self, session: u32) -> &Waiting
        ensures { result.now ≡ waiting_at self.now.leasing.calls session }
    {
        self.state.calls.waiting(session)
    }

    /// A session that was to be asked for a lease and has no xid left, if there is one: its connection is
    /// to be ended. It takes no memory.
    pub fn spent(&self) -> Option<u32>
        ensures { result ≡ spent self.now.leasing.calls }
    {
        self.state.calls.spent()
    }

    /// A copy of a file's content.
    pub fn content(&self, file: u64) -> Result<Bytes, TreeError>
        ensures { Answers (content self.now.tree.nodes file) result }
    {
        self.state.tree.content(file)
    }

    /// How many sessions stand.
    pub fn standing(&self) -> usize
        ensures { result ≡ length self.now.sessions }
    {
        self.state.sessions.len()
    }

    /// An owner of the whole content of a temporary file of a session, where it has one of this size
    /// and memory suffices. Nothing changes.
    pub fn share_temp(&mut self, session: u32, commit: &Commit) -> Option<SharedBytes>
        ensures whole { IfSome result (λ bytes. Some bytes ≡ whole_of (temp_at self.old.temps session commit.now.fd) commit.now.size) }
        ensures same { self.new ≡ self.old }
    {
        self.state.temps.share(session, commit.fd, commit.size)
    }

    /// Lets the temporary files of all sessions hold so much memory together at most from now on: what
    /// would need more is answered as where memory runs out. Nothing changes.
    pub fn bound_temps(&mut self, most: u64)
        ensures { self.new ≡ self.old }
    {
        self.state.temps.bound(most);
    }

    /// Keeps a content that was made ahead, or none, in place of the one that was kept. A COMMITTMP whose
    /// content it is takes it, and comes to the same as without it. Nothing changes.
    pub fn prepare(&mut self, ahead: Option<Content>)
        ensures { self.new ≡ self.old }
    {
        self.state.ahead = ahead;
    }

    /// One event, whose reading of the clock is below 2^63. Each change is given to the store before
    /// it is made, and before its answer goes out; where the store fails the answer is IO, and nothing
    /// has changed but that a change that waited is gone. Where memory runs out the step says so: a
    /// call is answered SYSTEM_ERR and a connection told so, and all stays as it was, but for the
    /// moment of the reading and a look-up; or all is done but that places are left out of the index of
    /// chunks. A pending change is made without memory, and a connection lost; an answer to a RECALL is
    /// heard without any.
    pub fn step<S: Store>(&mut self, alloc: Global, store: &mut S, event: Event) -> ServerStep
        requires timed { IsTimed event }
        requires spare { entries_held self.old.waiting ≤ S.spare store.old }
        ensures exact { result.missed ≡ false → IsServed (S.faults store.old) (S.faults store.new) (λ fault. server_step_under self.old fault event) (self.new, result) }
        ensures missed { result.missed ≡ true → Misses self.old event self.new result }
        ensures keeps { Keeps (S.records store.old) self.old.tree (S.records store.new) self.new.tree }
        ensures spare { entries_held self.new.waiting ≤ S.spare store.new }
        ensures later { S.faults store.old ≤ S.faults store.new }
    {
        // Named first: what a server keeps to is proved once the call is over.
        let step = self.state.step(alloc, store, event);
        step
    }

    /// One event on a server that no store keeps. Else it is `step`.
    pub fn step_unkept(&mut self, alloc: Global, event: Event) -> ServerStep
        requires { IsTimed event }
        ensures exact { result.missed ≡ false → server_step self.old event ≡ (self.new, result) }
        ensures missed { result.missed ≡ true → Misses self.old event self.new result }
    {
        let mut store = NoStore;
        // Named first, as in `step`.
        let step = self.state.step(alloc, &mut store, event);
        step
    }
}
