//! The server's fields, and one event on them. `specs/View.antt` says which state they are, and
//! `specs/Step.antt` what an event does.

ghost use Rattle.std.specs.Prelude.{◌≡◌, ◌<◌, ◌≤◌, ◌^◌, [], OnErr, IfOk, false, true};
ghost use Rattle.hash_calls.specs.declared.message.Lb.TheVariants as lb;
ghost use Rattle.wire.specs.declared.message.Body.TheVariants as body;
ghost use Rattle.wire.specs.declared.message.Message.TheVariants as message;
ghost use Rattle.wire.specs.declared.message.RpcRefusal.TheVariants as refusal;
ghost use Rattle.server_core.specs.Steps.{sends};
ghost use Rattle.chunk_calls.specs.Calling.{is_committmp};
ghost use Rattle.file_tree.specs.Stores.{Keeps};
ghost use Rattle.server_core.specs.Served.{IsServed};
ghost use Rattle.server_core.specs.State.{entries_held};
ghost use Rattle.server_core.specs.Step.{server_step_under, called, called_under, got_if_under, hears, stands, connect, has_room, chunks_called, IsTimed, missed_call, TakesMemory, Lacks};
ghost use Rattle.server_core.specs.Step.{MissesCall, Misses};
ghost use Rattle.server_core.specs.View.{state_of, IsBounded};
ghost use Rattle.server_core.specs.declared.event.Event.TheVariants as event;
ghost use Rattle.server_rules.specs.declared.told.Told.TheVariants as told;

use crate::change::Wanted;
use crate::event::{Event, ServerStep};
use crate::journal::Entry;
use crate::leasing::{self, grant_on, is_recalled, leased_file, term_on};
use crate::steps::{self, refuse};
use callback_core::back_calls::BackCalls;
use callback_core::waits::Waits;
use chunk_calls::calls::{self, Outcome};
use chunk_index::index::Index;
use file_tree::tree::Tree;
use hash_calls::message::Lb;
use server_rules::sessions::Sessions;
use server_rules::told::Told;
use std::alloc::{AllocError, Global};
use store::store::Store;
use temp_files::temps::Temps;
use tree_nodes::content::Content;
use wire::message::{Body, Message, RpcRefusal};

/// A server's fields.
#[derive(Drop)]
pub struct ServerState {
    /// The files and directories, and how many changes were ever made.
    pub tree: Tree,
    /// The changes that were made since the server stands.
    pub journal: Vec<Entry>,
    /// The temporary files of all sessions.
    pub temps: Temps,
    /// Where the bytes of a digest may be found.
    pub index: Index,
    /// The pending changes, in the order of their arrival, and the leases.
    pub waits: Waits<Wanted>,
    /// The sessions that stand, and how many were ever made.
    pub sessions: Sessions,
    /// For how long a lease is granted, in milliseconds; 0 where none is.
    pub term: u32,
    /// The last moment used, in milliseconds of the server's clock.
    pub moment: u64,
    /// What was asked for on the connections of sessions that stand.
    pub calls: BackCalls,
    /// A content that was made ahead, for the COMMITTMP that comes next. It is no part of the state: a
    /// COMMITTMP whose content it is cuts and hashes none, and comes to the same.
    pub ahead: Option<Content>,
}

impl ServerState {
    /// One event.
    pub fn step<S: Store>(&mut self, alloc: Global, store: &mut S, event: Event) -> ServerStep
        requires bounded { IsBounded self.old }
        requires timed { IsTimed event }
        requires spare { entries_held self.old.waits.waits ≤ S.spare store.old }
        ensures exact { result.missed ≡ false → IsServed (S.faults store.old) (S.faults store.new) (λ fault. server_step_under (state_of self.old) fault event) (state_of self.new, result) }
        ensures missed { result.missed ≡ true → Misses (state_of self.old) event (state_of self.new) result }
        ensures bounded { IsBounded self.new }
        ensures keeps { Keeps (S.records store.old) self.old.tree.tree (S.records store.new) self.new.tree.tree }
        ensures spare { entries_held self.new.waits.waits ≤ S.spare store.new }
        ensures later { S.faults store.old ≤ S.faults store.new }
    {
        match event {
            Event::Connect => self.connect(alloc),
            Event::Got {
                session,
                mut message,
                now,
            } => {
                let step = self.got(alloc, store, session, &mut message, now);
                drop(message);
                step
            }
            Event::Settle { now } => self.settle(alloc, store, now),
            Event::Hang { session } => self.hang(alloc, session),
        }
    }

    /// A connection is made. Where memory runs out all stays as it was.
    fn connect(&mut self, alloc: Global) -> ServerStep
        requires { IsBounded self.old }
        ensures exact { result.missed ≡ false → connect (state_of self.old) (has_room (state_of self.old)) ≡ (state_of self.new, result) }
        ensures missed { result.missed ≡ true → state_of self.new ≡ state_of self.old }
        ensures said { result.missed ≡ true → result ≡ record (sends []) { told = told.Memory; missed = true } }
        ensures sure { result.missed ≡ true → has_room (state_of self.old) ≡ true }
        ensures bounded { IsBounded self.new }
        ensures tree { self.new.tree ≡ self.old.tree }
        ensures waiting { self.new.waits.waits ≡ self.old.waits.waits }
    {
        match self.sessions.join() {
            Ok(Some(session)) => steps::tell(alloc, Told::Session(session)),
            Ok(None) => steps::tell(alloc, Told::Full),
            Err(_) => steps::miss_connection(alloc),
        }
    }

    /// A message of a session.
    fn got<S: Store>(
        &mut self,
        alloc: Global,
        store: &mut S,
        session: u32,
        message: &mut Message,
        now: u64,
    ) -> ServerStep
        requires bounded { IsBounded self.old }
        requires timed { now < 2 ^ 63 }
        requires spare { entries_held self.old.waits.waits ≤ S.spare store.old }
        ensures exact { result.missed ≡ false
            → IsServed (S.faults store.old) (S.faults store.new)
            (λ fault. got_if_under (state_of self.old) fault
            (stands (state_of self.old) session) session message.old now)
            (state_of self.new, result) }
        ensures missed { result.missed ≡ true → Misses (state_of self.old) (event.Got session message.old now) (state_of self.new) result }
        ensures bounded { IsBounded self.new }
        ensures keeps { Keeps (S.records store.old) self.old.tree.tree (S.records store.new) self.new.tree.tree }
        ensures spare { entries_held self.new.waits.waits ≤ S.spare store.new }
        ensures later { S.faults store.old ≤ S.faults store.new }
    {
        if !self.sessions.stands(session) {
            return steps::nothing(alloc);
        }
        self.moment = self.moment.max(now);
        match message {
            Message::Call(xid, body) => self.call(alloc, store, session, *xid, body),
            Message::Unfit(xid, why) => refuse(alloc, session, *xid, *why),
            Message::Answer(xid, told) => {
                let done = is_recalled(told);
                self.hear(alloc, session, *xid, done)
            }
            Message::Refuse(xid, _) => self.hear(alloc, session, *xid, false),
        }
    }

    /// What was asked for on the session's connection under this xid is answered. It takes no memory.
    fn hear(&mut self, alloc: Global, session: u32, xid: u32, done: bool) -> ServerStep
        requires { IsBounded self.old }
        ensures exact { hears (state_of self.old) session xid done ≡ (state_of self.new, result) }
        ensures done { result.missed ≡ false }
        ensures bounded { IsBounded self.new }
        ensures tree { self.new.tree ≡ self.old.tree }
        ensures waiting { self.new.waits.waits ≡ self.old.waits.waits }
    {
        self.calls.answered(alloc, session, xid);
        if done {
            self.waits.answered(session, xid);
        }
        steps::nothing(alloc)
    }

    /// A call of a session that stands. Where memory runs out it is refused, and all stays as it
    /// was, but for a look-up; or places are left out of the index.
    fn call<S: Store>(
        &mut self,
        alloc: Global,
        store: &mut S,
        session: u32,
        xid: u32,
        body: &mut Body,
    ) -> ServerStep
        requires bounded { IsBounded self.old }
        requires spare { entries_held self.old.waits.waits ≤ S.spare store.old }
        ensures exact { result.missed ≡ false → IsServed (S.faults store.old) (S.faults store.new) (λ fault. called_under (state_of self.old) fault session xid body.old) (state_of self.new, result) }
        ensures missed { result.missed ≡ true → MissesCall (state_of self.old) session xid body.old (state_of self.new) result }
        ensures bounded { IsBounded self.new }
        ensures keeps { Keeps (S.records store.old) self.old.tree.tree (S.records store.new) self.new.tree.tree }
        ensures spare { entries_held self.new.waits.waits ≤ S.spare store.new }
        ensures later { S.faults store.old ≤ S.faults store.new }
    {
        match self.try_call(alloc, store, session, xid, body) {
            Ok(step) => step,
            Err(_) => steps::miss_call(alloc, session, xid),
        }
    }

    /// A call of a session that stands. An `Err` changes nothing, but for a look-up.
    fn try_call<S: Store>(
        &mut self,
        alloc: Global,
        store: &mut S,
        session: u32,
        xid: u32,
        body: &mut Body,
    ) -> Result<ServerStep, AllocError>
        requires bounded { IsBounded self.old }
        requires spare { entries_held self.old.waits.waits ≤ S.spare store.old }
        ensures ok { IfOk result (λ o. o.missed ≡ false
            → IsServed (S.faults store.old) (S.faults store.new)
            (λ fault. called_under (state_of self.old) fault session xid body.old)
            (state_of self.new, o)) }
        ensures lacks { IfOk result (λ o. o.missed ≡ true
            → Lacks (state_of self.old).index (chunks_called (state_of self.old) body.old)
            (called (state_of self.old) session xid body.old) (state_of self.new) o) }
        ensures err { OnErr result (state_of self.new ≡ missed_call (state_of self.old) body.old) }
        ensures takes { OnErr result (TakesMemory (state_of self.old) session body.old) }
        ensures bounded { IsBounded self.new }
        ensures keeps { Keeps (S.records store.old) self.old.tree.tree (S.records store.new) self.new.tree.tree }
        ensures spare { entries_held self.new.waits.waits ≤ S.spare store.new }
        ensures later { S.faults store.old ≤ S.faults store.new }
    {
        match body {
            Body::Lb(call) => self.call_lbfs(alloc, store, session, xid, call),
            Body::Nfs(call) => self.call_nfs(alloc, store, session, xid, call),
            Body::Back(_) => Ok(refuse(alloc, session, xid, RpcRefusal::ProcUnavail)),
        }
    }

    /// A call of LBFS: it changes no tree. An `Err` changes nothing, but for a look-up.
    fn call_lbfs<S: Store>(
        &mut self,
        alloc: Global,
        store: &mut S,
        session: u32,
        xid: u32,
        call: &mut Lb,
    ) -> Result<ServerStep, AllocError>
        requires bounded { IsBounded self.old }
        requires spare { entries_held self.old.waits.waits ≤ S.spare store.old }
        ensures ok { IfOk result (λ o. o.missed ≡ false → called (state_of self.old) session xid (body.Lb call.old) ≡ (state_of self.new, o)) }
        ensures lacks { IfOk result (λ o. o.missed ≡ true
            → Lacks (state_of self.old).index
            (chunks_called (state_of self.old) (body.Lb call.old))
            (called (state_of self.old) session xid (body.Lb call.old)) (state_of self.new) o) }
        ensures err { OnErr result (state_of self.new ≡ missed_call (state_of self.old) (body.Lb call.old)) }
        ensures takes { OnErr result (TakesMemory (state_of self.old) session (body.Lb call.old)) }
        ensures bounded { IsBounded self.new }
        ensures tree { self.new.tree ≡ self.old.tree }
        ensures records { S.records store.new ≡ S.records store.old }
        ensures spare { entries_held self.new.waits.waits ≤ S.spare store.new }
        ensures later { S.faults store.old ≤ S.faults store.new }
    {
        match call {
            Lb::CommitTmp(commit) => self.take_commit(alloc, store, session, xid, commit),
            _ => self.call_chunks(alloc, session, xid, call),
        }
    }

    /// A call of LBFS but COMMITTMP. Memory for the lease that it is granted is taken first. An `Err`
    /// changes nothing, but for a look-up.
    #[tactic(auto, using(crate::proofs::Delegated::by_call_chunks))]
    fn call_chunks(
        &mut self,
        alloc: Global,
        session: u32,
        xid: u32,
        call: &mut Lb,
    ) -> Result<ServerStep, AllocError>
        requires bounded { IsBounded self.old }
        requires other { is_committmp call.old ≡ false }
        ensures ok { IfOk result (λ o. o.missed ≡ false → called (state_of self.old) session xid (body.Lb call.old) ≡ (state_of self.new, o)) }
        ensures lacks { IfOk result (λ o. o.missed ≡ true
            → Lacks (state_of self.old).index
            (chunks_called (state_of self.old) (body.Lb call.old))
            (called (state_of self.old) session xid (body.Lb call.old)) (state_of self.new) o) }
        ensures err { OnErr result (state_of self.new ≡ missed_call (state_of self.old) (body.Lb call.old)) }
        ensures takes { OnErr result (TakesMemory (state_of self.old) session (body.Lb call.old)) }
        ensures bounded { IsBounded self.new }
        ensures tree { self.new.tree ≡ self.old.tree }
        ensures waiting { self.new.waits.waits ≡ self.old.waits.waits }
    {
        let file = leased_file(&self.tree, call);
        let term = term_on(&self.waits, self.term, file);
        leasing::reserve(&mut self.waits, term)?;
        let outcome = calls::call(
            alloc,
            &self.tree,
            &mut self.temps,
            &mut self.index,
            session,
            term,
            call,
        )?;
        grant_on(&mut self.waits, session, file, self.moment, term);
        let Outcome {
            answer: told,
            left_out,
        } = outcome;
        let mut step = steps::answer_if(alloc, session, xid, told);
        step.missed = left_out;
        Ok(step)
    }
}
