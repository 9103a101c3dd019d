//! COMMITTMP, the call that ends a close. `specs/Closing.antt` says what it does, and
//! `specs/Asking.antt` when its change may wait.

ghost use Rattle.std.specs.Prelude.{◌≡◌, ◌+◌, ◌≤◌, ℕ, List, ◌∷◌, ◌++◌, [], Some, None, length, is_some, IfOk, OnOk, OnErr, true, false};
ghost use Rattle.hash_calls.specs.declared.message.Lb.TheVariants as lb;
ghost use Rattle.wire.specs.declared.message.Body.TheVariants as body;
ghost use Rattle.wire.specs.declared.message.Message.TheVariants as message;
ghost use Rattle.xdr_codec.specs.declared.answer.Answer.TheVariants.{Failed};
ghost use Rattle.temp_files.specs.Pieces.{size_most};
ghost use Rattle.temp_files.specs.Temps.{temp_at, without_temp, whole_of};
ghost use Rattle.chunk_calls.specs.Answers.{node_of, target_in};
ghost use Rattle.server_core.specs.Asking.{commit_target, CanWait, admits};
ghost use Rattle.lease_rules.specs.Changes.{asker};
ghost use Rattle.server_core.specs.Closing.{takes_commit, has_waiting, is_full, tree_most};
ghost use Rattle.server_core.specs.Recalling.{comes};
ghost use Rattle.server_core.specs.Steps.{to};
ghost use Rattle.server_core.specs.State.{entries_held, waiting_size, size_wanted};
ghost use Rattle.server_core.specs.View.{state_of, IsBounded, IsMade, IsRecalling, HasRoom};

use crate::change::{Wanted, change_of};
use crate::event::ServerStep;
use crate::recalling::{self, Recalling};
use crate::state::ServerState;
use crate::steps::{answer, send_all};
use crate::waiting::held;
use chunk_calls::answers;
use chunk_calls::contents::take_content;
use file_tree::places::places;
use hash_calls::call::Commit;
use hash_calls::message::Lb;
use lease_rules::change::PendingChange;
use limits::{CHANGES_MOST, FILE_MOST, TREE_MOST};
use std::alloc::{AllocError, Global};
use store::store::Store;
use temp_files::temp::Temp;
use wire::message::Body;
use xdr_codec::answer::Answer;
use xdr_codec::status::Status;

/// The answer to a COMMITTMP that is refused.
fn refuse_commit(alloc: Global, session: u32, xid: u32, status: Status) -> ServerStep
    ensures { result ≡ to session (message.Answer xid (body.Lb (lb.CommitTmpAnswer (Failed status tt)))) }
{
    let body = Body::Lb(Lb::CommitTmpAnswer(Answer::Failed(status, ())));
    answer(alloc, session, xid, body)
}

impl ServerState {
    /// A COMMITTMP. Whether it can be done is found first, and memory taken only where it can. An
    /// `Err` changes nothing.
    pub fn take_commit<S: Store>(
        &mut self,
        alloc: Global,
        store: &mut S,
        session: u32,
        xid: u32,
        commit: &Commit,
    ) -> Result<ServerStep, AllocError>
        requires bounded { IsBounded self.old }
        requires spare { entries_held self.old.waits.waits ≤ S.spare store.old }
        ensures ok { IfOk result (λ o. takes_commit (state_of self.old) session xid commit.now (temp_at (state_of self.old).temps session commit.now.fd) ≡ (state_of self.new, o)) }
        ensures done { IfOk result (λ o. o.missed ≡ false) }
        ensures err { OnErr result (state_of self.new ≡ state_of self.old) }
        ensures takes { OnErr result (CanWait (state_of self.old) session commit.now (temp_at (state_of self.old).temps session commit.now.fd)) }
        ensures bounded { IsBounded self.new }
        ensures tree { self.new.tree ≡ self.old.tree }
        ensures records { S.records store.new ≡ S.records store.old }
        ensures spare { entries_held self.new.waits.waits ≤ S.spare store.new }
        ensures later { S.faults store.old ≤ S.faults store.new }
    {
        let Some(temp) = self.temps.find(session, commit.fd) else {
            return Ok(refuse_commit(alloc, session, xid, Status::BadFd));
        };
        let file = match self.commit_target(session, temp, commit) {
            Ok(file) => file,
            Err(status) => {
                self.temps.end(session, commit.fd);
                return Ok(refuse_commit(alloc, session, xid, status));
            }
        };
        match self.admit(alloc, store, session, xid, file, commit) {
            Ok(step) => Ok(step),
            Err(why) => Err(why),
        }
    }

    /// What a temporary file comes to waits from now on as the next content of a file, and the
    /// temporary file ends. All memory is taken first, for what it asks for too, so an `Err` changes
    /// nothing. The session's own lease doesn't hold it up.
    fn admit<S: Store>(
        &mut self,
        alloc: Global,
        store: &mut S,
        session: u32,
        xid: u32,
        file: u64,
        commit: &Commit,
    ) -> Result<ServerStep, AllocError>
        requires bounded { IsBounded self.old }
        requires size { commit.now.size ≤ size_most }
        requires whole { is_some (whole_of (temp_at (state_of self.old).temps session commit.now.fd) commit.now.size) ≡ true }
        requires room { is_full (state_of self.old) commit.now.size ≡ false }
        requires new { has_waiting (state_of self.old).waiting session ≡ false }
        requires spare { entries_held self.old.waits.waits ≤ S.spare store.old }
        ensures ok { (content : List ℕ)
            → Some content ≡ whole_of
            (temp_at (state_of self.old).temps session commit.now.fd) commit.now.size
            → IfOk result (λ o. admits
            (state_of self.old) session xid file commit.now.fd content ≡ (state_of self.new, o)) }
        ensures done { IfOk result (λ o. o.missed ≡ false) }
        ensures err { OnErr result (state_of self.new ≡ state_of self.old) }
        ensures bounded { IsBounded self.new }
        ensures tree { self.new.tree ≡ self.old.tree }
        ensures records { S.records store.new ≡ S.records store.old }
        ensures spare { entries_held self.new.waits.waits ≤ S.spare store.new }
        ensures later { S.faults store.old ≤ S.faults store.new }
    {
        self.reserve()?;
        store.reserve(places(held(&self.waits), 1)?)?;
        let recalling = self.recalls(alloc, file, session)?;
        let ahead = self.ahead.take();
        let content = take_content(alloc, &mut self.temps, ahead, session, commit)?;
        let change = change_of(session, xid, file, Wanted::Content(content));
        Ok(self.wait(change, recalling))
    }

    /// The id of the file that is to get what a temporary file comes to, or why it can't get it.
    fn commit_target(&self, session: u32, temp: &Temp, commit: &Commit) -> Result<u64, Status>
        requires { IsBounded self.now }
        ensures { result ≡ commit_target (state_of self.now) session commit.now.size temp.now (target_in (node_of (state_of self.now).tree commit.now.handle)) }
    {
        let id = answers::target_in(&self.tree, &commit.handle)?;
        if commit.size > FILE_MOST {
            return Err(Status::FBig);
        }
        if !temp.covers(commit.size) {
            return Err(Status::Inval);
        }
        if self.waits.has(session) {
            return Err(Status::Jukebox);
        }
        if self.is_full(commit.size) {
            return Err(Status::NoSpc);
        }
        Ok(id)
    }

    /// Whether a change with so many bytes has no place: by the changes ever made, or by the bytes
    /// of the tree.
    fn is_full(&self, size: u64) -> bool
        requires bounded { IsBounded self.now }
        ensures { result ≡ is_full (state_of self.now) size }
    {
        let held = held(&self.waits);
        let changes = self.tree.head().changes as u128 + held.entries as u128 + 1;
        let bytes = self.tree.bytes() as u128 + held.bytes as u128 + size as u128;
        changes > CHANGES_MOST as u128 || bytes > TREE_MOST as u128
    }

    /// Takes memory for one change more that waits, for its entries and its lease, and for those of a
    /// call that comes. Nothing else changes.
    pub fn reserve(&mut self) -> Result<(), AllocError>
        requires { IsBounded self.old }
        ensures same { state_of self.new ≡ state_of self.old }
        ensures bounded { IsBounded self.new }
        ensures room { OnOk result (HasRoom self.new) }
        ensures tree { self.new.tree ≡ self.old.tree }
        ensures waiting { self.new.waits.waits ≡ self.old.waits.waits }
    {
        let waiting = self.waits.len();
        self.journal.reserve(waiting + waiting + 2)?;
        self.waits.make_room()?;
        Ok(())
    }

    /// What a change of a file asks for that comes now. No lease of the asker's holds it up; 0 is
    /// nobody. Nothing changes. The one error is running out of memory.
    pub fn recalls(&self, alloc: Global, file: u64, asker: u32) -> Result<Recalling, AllocError>
        ensures { IfOk result (λ r. IsRecalling (state_of self.now) file asker r) }
    {
        recalling::recalls(
            alloc,
            &self.waits,
            &self.calls,
            &self.sessions,
            file,
            asker,
            self.moment,
        )
    }

    /// A change waits from now on, behind the others, and what it asks for is sent. It takes no memory.
    pub fn wait(&mut self, change: PendingChange<Wanted>, recalling: Recalling) -> ServerStep
        requires bounded { IsBounded self.old }
        requires made { IsMade change }
        requires new { has_waiting (state_of self.old).waiting change.session ≡ false }
        requires size { waiting_size self.old.waits.waits + size_wanted change.what ≤ tree_most }
        requires room { HasRoom self.old }
        requires recalling { IsRecalling (state_of self.old) change.file (asker change) recalling }
        ensures exact { comes (state_of self.old) change ≡ (state_of self.new, result) }
        ensures done { result.missed ≡ false }
        ensures tree { self.new.tree ≡ self.old.tree }
        ensures waiting { self.new.waits.waits ≡ self.old.waits.waits ++ change ∷ [] }
        ensures bounded { IsBounded self.new }
    {
        let Recalling { calls, asked, send } = recalling;
        self.waits.wait(change);
        self.waits.mark_all(asked.as_slice());
        self.calls = calls;
        send_all(send)
    }
}
