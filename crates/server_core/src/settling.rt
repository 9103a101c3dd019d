//! How a pending change is made. `settles` in `specs/Closing.antt` says it.

ghost use Rattle.std.specs.Prelude.{◌≡◌, ℕ, ◌+◌, ◌≤◌, ◌<◌, ◌^◌, ◌++◌, length, false, true, vec_capacity};
ghost use Rattle.file_tree.specs.Stores.{Keeps};
ghost use Rattle.tree_calls.specs.Calling.{IsCalled};
ghost use Rattle.tree_calls.specs.Waiting.{gives_content_under, entries_of};
ghost use Rattle.server_core.specs.Closing.{ready_by, settles, settles_under, leases_done, makes_change, makes_change_under, index_with, entered_by, one_if, entries_by, count_of};
ghost use Rattle.server_core.specs.Served.{IsServed};
ghost use Rattle.server_core.specs.State.{change_of, entries_held, entries_wanted};
ghost use Rattle.server_core.specs.Step.{Lacks, chunks_got, chunks_of_change, change_entered};
ghost use Rattle.chunk_calls.specs.Entering.{IsLacking};
ghost use Rattle.server_core.specs.View.{state_of, IsBounded, IsMade, IsSettling};
ghost use Rattle.server_core.specs.declared.change.Wanted.TheVariants as wanted;

use crate::change::Wanted;
use crate::event::ServerStep;
use crate::journal::Entry;
use crate::leasing::{grant, term_on};
use crate::state::ServerState;
use crate::steps::{self, tell_change};
use crate::waiting::held;
use callback_core::waits::Waits;
use chunk_calls::contents::ContentPair;
use chunk_calls::entering::enter_content;
use chunk_index::index::Index;
use file_tree::tree::Tree;
use hash_calls::call::Committed;
use hash_calls::message::Lb;
use lease_rules::change::PendingChange;
use server_rules::told::Told;
use std::alloc::Global;
use store::store::Store;
use tree_calls::asked::{Asked, Committing, Done};
use tree_calls::settling;
use tree_reading::call::Reservation;
use tree_reading::entry::Entry as TreeEntry;
use wire::message::Body;
use xdr_codec::answer::Answer;

/// A place of the journal is taken for an entry, if there is one; says how many were.
fn enter(journal: &mut Vec<Entry>, session: u32, entry: Option<TreeEntry>) -> u32
    requires { length journal.old.items + one_if entry ≤ vec_capacity journal.old }
    ensures items { journal.new.items ≡ journal.old.items ++ entered_by session entry }
    ensures count { result ≡ one_if entry }
    ensures capacity { vec_capacity journal.new ≡ vec_capacity journal.old }
{
    match entry {
        Some(entry) => {
            let sha1 = entry.sha1;
            journal.push_reserved(Entry {
                file: entry.file,
                version: entry.version,
                kind: entry.kind,
                len: entry.len,
                sha1,
                session,
            });
            1
        }
        None => 0,
    }
}

/// The entries of a change are appended to the journal, which has room for them; says how many there
/// are.
pub fn enter_both(
    journal: &mut Vec<Entry>,
    session: u32,
    first: Option<TreeEntry>,
    second: Option<TreeEntry>,
) -> u32
    requires { length journal.old.items + count_of first second ≤ vec_capacity journal.old }
    ensures items { journal.new.items ≡ journal.old.items ++ entries_by session first second }
    ensures count { result ≡ count_of first second }
    ensures capacity { vec_capacity journal.new ≡ vec_capacity journal.old }
{
    let entered = enter(journal, session, first);
    entered + enter(journal, session, second)
}

/// Gives a file a content that waited, if the file is there and the store keeps it; then the places of
/// its chunks enter the index. A lease for this term is told.
fn give_content<S: Store>(
    tree: &mut Tree,
    store: &mut S,
    index: &mut Index,
    file: u64,
    content: ContentPair,
    held: Reservation,
    term: u32,
) -> (Committing, bool)
    requires { held.entries + 1 ≤ S.spare store.old }
    ensures done { IsCalled (S.faults store.old) (S.faults store.new) (λ fault. gives_content_under tree.old.tree held fault file content term) (tree.new.tree, result.0) }
    ensures all { result.1 ≡ false → index.new ≡ index_with index.old file content result.0.answer }
    ensures lacks { result.1 ≡ true → IsLacking index.old (chunks_got file content result.0.answer) index.new }
    ensures keeps { Keeps (S.records store.old) tree.old.tree (S.records store.new) tree.new.tree }
    ensures spare { held.entries ≤ S.spare store.new }
    ensures later { S.faults store.old ≤ S.faults store.new }
{
    let (content, copy) = content.split();
    let done = settling::give_content(tree, store, file, content, copy, held, term);
    let left_out = match &done.answer {
        Answer::Done(_) => enter_content(index, tree, file),
        Answer::Failed(..) => false,
    };
    (done, left_out)
}

/// A COMMITTMP that was done is granted the lease whose term it is told.
fn grant_done<P: Drop>(
    waits: &mut Waits<P>,
    session: u32,
    file: u64,
    moment: u64,
    answer: &Answer<Committed, ()>,
)
    requires early { moment < 2 ^ 63 }
    requires place { 0 < waits.old.spare }
    ensures leases { waits.new.leases ≡ leases_done waits.old.leases moment session file answer.now }
    ensures waits { waits.new.waits ≡ waits.old.waits }
{
    match answer {
        Answer::Done(told) => grant(waits, session, file, moment, told.term),
        Answer::Failed(..) => {}
    }
}

impl ServerState {
    /// The change is made that came first of those that no lease blocks, if there is one; else nothing
    /// changes. Places of its chunks for which memory runs out are left out of the index, and nothing
    /// else.
    pub fn settle<S: Store>(&mut self, alloc: Global, store: &mut S, now: u64) -> ServerStep
        requires bounded { IsBounded self.old }
        requires timed { now < 2 ^ 63 }
        requires spare { entries_held self.old.waits.waits ≤ S.spare store.old }
        ensures exact { result.missed ≡ false → IsServed (S.faults store.old) (S.faults store.new) (λ fault. settles_under (state_of self.old) fault now) (state_of self.new, result) }
        ensures lacks { result.missed ≡ true
            → Lacks (state_of self.old).index
            (chunks_of_change (state_of self.old) (ready_by (state_of self.old) now))
            (settles (state_of self.old) now) (state_of self.new) result }
        ensures bounded { IsBounded self.new }
        ensures keeps { Keeps (S.records store.old) self.old.tree.tree (S.records store.new) self.new.tree.tree }
        ensures spare { entries_held self.new.waits.waits ≤ S.spare store.new }
        ensures later { S.faults store.old ≤ S.faults store.new }
    {
        let moment = self.moment.max(now);
        let Some(change) = self.waits.settle(moment) else {
            return steps::tell(alloc, Told::NotReady);
        };
        self.moment = moment;
        self.make_change(alloc, store, change)
    }

    /// A change that has left the queue is made, if all is as it was when it came.
    fn make_change<S: Store>(
        &mut self,
        alloc: Global,
        store: &mut S,
        change: PendingChange<Wanted>,
    ) -> ServerStep
        requires settling { IsSettling self.old }
        requires made { IsMade change }
        requires spare { entries_held self.old.waits.waits + entries_wanted change.what ≤ S.spare store.old }
        ensures exact { result.missed ≡ false
            → IsServed (S.faults store.old) (S.faults store.new)
            (λ fault. makes_change_under (state_of self.old) fault change change.what)
            (state_of self.new, result) }
        ensures lacks { result.missed ≡ true
            → Lacks (state_of self.old).index
            (change_entered (state_of self.old) change change.what)
            (makes_change (state_of self.old) change change.what) (state_of self.new) result }
        ensures bounded { IsBounded self.new }
        ensures keeps { Keeps (S.records store.old) self.old.tree.tree (S.records store.new) self.new.tree.tree }
        ensures spare { entries_held self.new.waits.waits ≤ S.spare store.new }
        ensures later { S.faults store.old ≤ S.faults store.new }
    {
        let PendingChange {
            session,
            xid,
            file,
            kind: _,
            entries: _,
            bytes: _,
            what,
        } = change;
        match what {
            Wanted::Content(content) => self.commit_waiting(
                alloc, store, session, xid, file, content,
            ),
            Wanted::Asked(asked) => self.settle_asked(alloc, store, session, xid, asked),
        }
    }

    /// A COMMITTMP is made.
    fn commit_waiting<S: Store>(
        &mut self,
        alloc: Global,
        store: &mut S,
        session: u32,
        xid: u32,
        file: u64,
        content: ContentPair,
    ) -> ServerStep
        requires settling { IsSettling self.old }
        requires spare { entries_held self.old.waits.waits + 1 ≤ S.spare store.old }
        ensures exact { result.missed ≡ false
            → IsServed (S.faults store.old) (S.faults store.new)
            (λ fault. makes_change_under (state_of self.old) fault
            (change_of session xid file (wanted.Content content)) (wanted.Content content))
            (state_of self.new, result) }
        ensures lacks { result.missed ≡ true
            → Lacks (state_of self.old).index
            (change_entered (state_of self.old)
            (change_of session xid file (wanted.Content content)) (wanted.Content content))
            (makes_change (state_of self.old)
            (change_of session xid file (wanted.Content content)) (wanted.Content content))
            (state_of self.new) result }
        ensures bounded { IsBounded self.new }
        ensures keeps { Keeps (S.records store.old) self.old.tree.tree (S.records store.new) self.new.tree.tree }
        ensures spare { entries_held self.new.waits.waits ≤ S.spare store.new }
        ensures later { S.faults store.old ≤ S.faults store.new }
    {
        let held = held(&self.waits);
        let term = term_on(&self.waits, self.term, Some(file));
        let (done, left_out) = give_content(
            &mut self.tree,
            store,
            &mut self.index,
            file,
            content,
            held,
            term,
        );
        let entries = enter_both(&mut self.journal, session, done.entry, None);
        grant_done(&mut self.waits, session, file, self.moment, &done.answer);
        let body = Body::Lb(Lb::CommitTmpAnswer(done.answer));
        let mut step = tell_change(alloc, session, xid, entries, body);
        step.missed = left_out;
        step
    }

    /// A REMOVE, or a RENAME over a file, is made.
    fn settle_asked<S: Store>(
        &mut self,
        alloc: Global,
        store: &mut S,
        session: u32,
        xid: u32,
        asked: Asked,
    ) -> ServerStep
        requires settling { IsSettling self.old }
        requires spare { entries_held self.old.waits.waits + entries_of asked ≤ S.spare store.old }
        ensures exact { (id : ℕ) → IsServed (S.faults store.old) (S.faults store.new)
            (λ fault. makes_change_under (state_of self.old) fault
            (change_of session xid id (wanted.Asked asked)) (wanted.Asked asked))
            (state_of self.new, result) }
        ensures done { result.missed ≡ false }
        ensures bounded { IsBounded self.new }
        ensures keeps { Keeps (S.records store.old) self.old.tree.tree (S.records store.new) self.new.tree.tree }
        ensures spare { entries_held self.new.waits.waits ≤ S.spare store.new }
        ensures later { S.faults store.old ≤ S.faults store.new }
    {
        let held = held(&self.waits);
        let Done {
            answer,
            first,
            second,
        } = settling::settle(&mut self.tree, store, asked, held);
        let entries = enter_both(&mut self.journal, session, first, second);
        tell_change(alloc, session, xid, entries, Body::Nfs(answer))
    }
}
