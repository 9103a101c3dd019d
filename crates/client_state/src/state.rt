//! The client's fields, and how they change where an operation goes on or ends. `specs/View.antt`
//! says which state they are, and what always holds of them.

ghost use Rattle.limits.specs.declared.TheConstants.{FILE_MOST};
ghost use Rattle.std.specs.Prelude.{◌≡◌, ◌^◌, ◌+◌, ◌<◌, ◌≤◌, ◌++◌, [], length, map, None, Some, IfOk, IfSome, OnOk, OnErr, false, true};
ghost use Rattle.client_cache.specs.Cache.{reserved};
ghost use Rattle.client_state.specs.State.{State, start_with, evicted, forged, index_cleared, read_pending, pending, pending_in, has_call, local_at, with_local, without_local, local_bytes};
ghost use Rattle.client_state.specs.Ending.{bad_peer, refused, denied, drops, unknown, cut, cut_off, joined, forgets, idle, is_open, may_ask, may_walk};
ghost use Rattle.client_state.specs.View.{state_of, whole_of, IsBase, IsHeld, IsLocalBounded, IsSound, IsThere, StageIsThere, HasXids, IsWithin, open_left, walk_left};
ghost use Rattle.std.specs.List.{All};
ghost use Rattle.std.specs.Map.{values_of};
ghost use Rattle.std.specs.Option.{option_copied};
ghost use Rattle.client_state.specs.declared.task.Stage.TheVariants as stage;

use crate::step::{BadPeer, ClientStep, Outcome};
use crate::task::{Local, ReadCall, Stage, Task};
use crate::{parts, waiting};
use chunk_index::index::{Index, Key};
use chunk_index::place::Place;
use client_cache::cache::Cache;
use cut_bytes::CutBytes;
use lb_base::items::Items;
use path_calls::walk::{Goal, Walk};
use send_list::SendList;
use shared_bytes::SharedBytes;
use std::alloc::{AllocError, Global};
use std::collections::BTreeMap;
use std::mem;
use transfer_rules::{answers, counts};
use wire::message::{Pending, RpcRefusal, Side, Waiting};
use xdr_codec::status::Status;

/// An operation begins only below this xid, while 1,000,000 of a session are left: it is 2^32 - 999,999.
pub const XID_END: u32 = 4_293_967_297;

/// How many xids a session has, with 0.
const XIDS: u128 = 4_294_967_296;

/// The most calls of an open that may follow its walk: a GETLEASE, and four attempts of a GETHASH and a
/// READ for each of 32,769 chunks at most, 65,540 with two to spare; and one more to spare.
const OPEN_CALLS_MOST: u128 = 262_162;

/// A client's fields.
pub struct ClientState {
    /// Whether a connection is joined.
    pub(crate) linked: bool,
    /// The xid of the next call on it.
    pub(crate) next_xid: u32,
    /// The number of the next temporary file on it.
    pub(crate) next_temp: u32,
    /// The open files by their ids.
    pub(crate) opened: BTreeMap<u64, Local>,
    /// The operation under way.
    pub(crate) task: Option<Task>,
    /// The calls that have no answer yet: those of the operation under way, and behind them those of
    /// ended operations and attempts.
    pub(crate) waiting: Waiting,
    /// How many of them are of the operation under way.
    pub(crate) own: usize,
    /// What is kept of files.
    pub(crate) cache: Cache,
    /// Where the bytes of chunks may be found among what is kept.
    pub(crate) index: Index,
    /// The reading of its clock at the last command or message, in milliseconds.
    pub(crate) clock: u64,
    /// The reading at which a call went out last that may bring a lease.
    pub(crate) sent: u64,
    /// How far its clock and the server's may drift apart while a lease lasts, in milliseconds.
    pub(crate) drift: u64,
}

/// By hand, so that the crates above prove nothing of how the parts are dropped.
impl Drop for ClientState {
    fn drop(self) {
        let ClientState {
            linked: _,
            next_xid: _,
            next_temp: _,
            opened,
            task,
            waiting,
            own: _,
            cache,
            index,
            clock: _,
            sent: _,
            drift: _,
        } = self;
        drop(opened);
        drop(task);
        drop(waiting);
        drop(cache);
        drop(index);
    }
}

/// The calls of a stage, and behind them those of ended operations and attempts.
fn with_forgotten(
    alloc: Global,
    stage: &Stage,
    forgotten: &[Pending],
) -> Result<(Items<Pending>, usize), AllocError>
    ensures calls { IfOk result (λ p. p.0 ≡ pending_in stage.now ++ forgotten.now) }
    ensures own { IfOk result (λ p. p.1 ≡ length (pending_in stage.now)) }
{
    let mut calls = waiting::pending_in(alloc, stage)?;
    let own = calls.len();
    calls.extend_from_slice(forgotten)?;
    Ok((Items::from_vec(calls), own))
}

/// The most calls of the open that may follow.
fn open_left(goal: &Goal) -> u128
    ensures { result ≡ open_left goal.now }
{
    match goal {
        Goal::Find(_) => OPEN_CALLS_MOST,
        Goal::Rewrite(_) => 1,
        _ => 0,
    }
}

/// The most calls that a walk may still send behind its next one.
fn walk_left(walk: &Walk) -> u128
    ensures left { result ≡ walk_left walk.now }
    ensures small { result < 2 ^ 127 }
{
    walk.calls_left() + open_left(&walk.goal)
}

impl ClientState {
    /// A client with no connection and no file, whose clock and the server's may drift apart so far, in
    /// milliseconds, while a lease lasts, and whose calls are of this version of LBFS. The one error is
    /// running out of memory.
    pub fn new(alloc: Global, drift: u64, lbfs: u32) -> Result<ClientState, AllocError>
        ensures start { IfOk result (λ s. state_of s ≡ start_with drift lbfs) }
        ensures sound { IfOk result (λ s. IsSound s) }
    {
        let cache = Cache::new(alloc)?;
        let index = chunk_index::places::empty(alloc)?;
        Ok(ClientState {
            linked: false,
            next_xid: 1,
            next_temp: 1,
            opened: BTreeMap::new(alloc),
            task: None,
            waiting: Waiting {
                side: Side::Client,
                lbfs,
                calls: Items::new(alloc),
            },
            own: 0,
            cache,
            index,
            clock: 0,
            sent: 0,
            drift,
        })
    }

    /// Whether a connection is joined.
    pub fn linked(&self) -> bool
        ensures { result ≡ self.now.linked }
    {
        self.linked
    }

    /// Whether the file is open.
    pub fn is_open(&self, file: u64) -> bool
        ensures { result ≡ is_open self.now.opened.entries file }
    {
        parts::is_open(&self.opened, file)
    }

    /// The open file, which is within the limit of a file.
    pub fn local(&self, file: u64) -> Option<&Local>
        requires { All IsLocalBounded (values_of self.now.opened.entries) }
        ensures found { option_copied result ≡ local_at self.now.opened.entries file }
        ensures bounded { IfSome result (λ l. IsLocalBounded l.now) }
    {
        parts::find_local(&self.opened, file)
    }

    /// The local content of a file; nothing where it isn't open.
    pub fn local_bytes(&self, file: u64) -> &[u8]
        requires { All IsLocalBounded (values_of self.now.opened.entries) }
        ensures bytes { result.now ≡ local_bytes self.now.opened.entries file }
        ensures bounded { length result.now ≤ FILE_MOST }
    {
        parts::local_bytes(&self.opened, file)
    }

    /// The reading at which a call went out last that may bring a lease.
    pub fn sent(&self) -> u64
        ensures { result ≡ self.now.sent }
    {
        self.sent
    }

    /// Whether an operation may begin: a connection is joined, and has enough xids.
    pub fn may_ask(&self) -> bool
        ensures { result ≡ may_ask (state_of self.now) }
    {
        self.linked && self.next_xid < XID_END
    }

    /// Whether a command on names may begin with this walk: each call that it may send has an xid, too.
    pub fn may_walk(&self, walk: &Walk) -> bool
        ensures { result ≡ may_walk (state_of self.now) walk.now }
    {
        self.may_ask() && u128::from(self.next_xid) + 1 + walk_left(walk) < XIDS
    }

    /// The calls of the operation under way.
    #[tactic(auto, using(crate::proofs::lemmas::Pending::own_first))]
    pub fn own_calls(&self) -> &[Pending]
        requires { IsSound self.now }
        ensures { result.now ≡ pending self.now.task }
    {
        answers::own_calls(self.waiting.calls.as_slice(), self.own)
    }

    /// The calls of ended operations and attempts.
    pub fn forgotten(&self) -> &[Pending]
        requires { IsBase self.now }
        ensures { result.now ≡ (state_of self.now).forgotten }
    {
        &self.waiting.calls.as_slice()[self.own..]
    }

    /// These READs, and behind them the calls of ended operations and attempts, and how many are
    /// READs of these.
    pub fn list_reads(
        &self,
        alloc: Global,
        under: &[ReadCall],
    ) -> Result<(Items<Pending>, usize), AllocError>
        requires { IsBase self.now }
        ensures calls { IfOk result (λ p. p.0 ≡ map read_pending under.now ++ (state_of self.now).forgotten) }
        ensures own { IfOk result (λ p. p.1 ≡ length (map read_pending under.now)) }
    {
        let mut calls = waiting::reads_pending(alloc, under)?;
        let own = calls.len();
        calls.extend_from_slice(self.forgotten())?;
        Ok((Items::from_vec(calls), own))
    }

    /// The operation under way has come this far, this is the next xid, and these calls wait, of which
    /// so many are its own. It takes no memory.
    #[tactic(auto, using(crate::proofs::lemmas::Pending::by_set_waiting))]
    pub fn set_waiting(
        &mut self,
        calls: Items<Pending>,
        own: usize,
        file: u64,
        stage: Stage,
        next_xid: u32,
    )
        requires held { IsHeld self.old }
        requires rises { self.old.next_xid ≤ next_xid }
        requires xids { HasXids next_xid stage }
        requires within { IsWithin stage }
        requires there { StageIsThere self.old.cache file stage }
        requires calls { calls ≡ pending_in stage ++ (state_of self.old).forgotten }
        requires own { own ≡ length (pending_in stage) }
        ensures rest { state_of self.new ≡ record (state_of self.old) { next_xid = next_xid; task = Some (record { file = file; stage = stage }) } }
        ensures sound { IsSound self.new }
    {
        self.waiting.calls = calls;
        self.own = own;
        self.next_xid = next_xid;
        let old = self.task.replace(Task { file, stage });
        drop(old);
    }

    /// The operation under way has come this far, and this is the next xid. An `Err` changes nothing.
    pub fn wait(
        &mut self,
        alloc: Global,
        file: u64,
        stage: Stage,
        next_xid: u32,
    ) -> Result<(), AllocError>
        requires held { IsHeld self.old }
        requires rises { self.old.next_xid ≤ next_xid }
        requires xids { HasXids next_xid stage }
        requires within { IsWithin stage }
        requires there { StageIsThere self.old.cache file stage }
        ensures ok { OnOk result (state_of self.new ≡ record (state_of self.old) { next_xid = next_xid; task = Some (record { file = file; stage = stage }) }) }
        ensures err { OnErr result (whole_of self.new ≡ whole_of self.old) }
        ensures sound { OnOk result (IsSound self.new) }
        ensures held { OnErr result (IsHeld self.new) }
    {
        match with_forgotten(alloc, &stage, self.forgotten()) {
            Ok((calls, own)) => {
                self.set_waiting(calls, own, file, stage, next_xid);
                Ok(())
            }
            Err(error) => {
                drop(stage);
                Err(error)
            }
        }
    }

    /// As `wait`, for the MKTMPFILE of the next xid, and tells the number of the temporary file that it asks for,
    /// which is the next. An `Err` changes nothing.
    pub fn wait_temp(&mut self, alloc: Global, file: u64) -> Result<u32, AllocError>
        requires held { IsHeld self.old }
        requires xids { HasXids (self.old.next_xid + 1) (stage.Making 0 0) }
        ensures temp { IfOk result (λ temp. temp ≡ self.old.next_temp) }
        ensures ok { OnOk result (state_of self.new
            ≡ record (state_of self.old) {
              next_xid = self.old.next_xid + 1;
              next_temp = self.old.next_temp + 1;
              task = Some (record {
                file = file;
                stage = stage.Making self.old.next_xid self.old.next_temp;
              });
            }) }
        ensures err { OnErr result (whole_of self.new ≡ whole_of self.old) }
        ensures sound { OnOk result (IsSound self.new) }
        ensures held { OnErr result (IsHeld self.new) }
    {
        let xid = self.next_xid;
        let temp = self.next_temp;
        self.wait(alloc, file, Stage::Making { xid, temp }, xid + 1)?;
        self.next_temp = temp + 1;
        Ok(temp)
    }

    /// As `wait`, with a call that may bring a lease, for which the file's entry is there in the cache, and
    /// goes first. An `Err` changes nothing.
    pub fn wait_there(
        &mut self,
        alloc: Global,
        file: u64,
        stage: Stage,
        next_xid: u32,
    ) -> Result<(), AllocError>
        requires held { IsHeld self.old }
        requires rises { self.old.next_xid ≤ next_xid }
        requires xids { HasXids next_xid stage }
        requires within { IsWithin stage }
        ensures ok { OnOk result (state_of self.new
            ≡ record (state_of self.old) {
              next_xid = next_xid;
              task = Some (record { file = file; stage = stage });
              cache = reserved self.old.cache file;
              sent = self.old.clock;
            }) }
        ensures err { OnErr result (whole_of self.new ≡ whole_of self.old) }
        ensures sound { OnOk result (IsSound self.new) }
        ensures held { OnErr result (IsHeld self.new) }
    {
        let (calls, own) = match with_forgotten(alloc, &stage, self.forgotten()) {
            Ok(listed) => listed,
            Err(error) => {
                drop(stage);
                return Err(error);
            }
        };
        match self.cache.reserve(file) {
            Ok(()) => {
                self.set_waiting(calls, own, file, stage, next_xid);
                self.mark_sent();
                Ok(())
            }
            Err(error) => {
                drop(stage);
                Err(error)
            }
        }
    }

    /// An attempt has ended by the answer with this xid, and the next is under way with the GETHASH of
    /// the next xid. An `Err` changes nothing.
    pub fn wait_anew(
        &mut self,
        alloc: Global,
        file: u64,
        tries: u32,
        xid: u32,
    ) -> Result<(), AllocError>
        requires held { IsHeld self.old }
        requires xids { HasXids (self.old.next_xid + 1) (stage.Hashing tries self.old.next_xid) }
        requires within { IsWithin (stage.Hashing tries self.old.next_xid) }
        requires there { IsThere self.old.cache file }
        ensures ok { OnOk result (state_of self.new
            ≡ record (forgets
            (state_of self.old) self.old.waiting.calls xid) {
              next_xid = self.old.next_xid + 1;
              task = Some (record { file = file; stage = stage.Hashing tries self.old.next_xid });
              sent = self.old.clock;
            }) }
        ensures err { OnErr result (whole_of self.new ≡ whole_of self.old) }
        ensures sound { OnOk result (IsSound self.new) }
        ensures held { OnErr result (IsHeld self.new) }
    {
        let asked = self.next_xid;
        let calls = waiting::anew(alloc, asked, self.waiting.calls.as_slice(), xid)?;
        self.waiting.calls = calls;
        self.own = 1;
        self.next_xid = asked + 1;
        self.sent = self.clock;
        let stage = Stage::Hashing { tries, xid: asked };
        let old = self.task.replace(Task { file, stage });
        drop(old);
        Ok(())
    }

    /// The operation has ended by the answer with this xid: the other calls that wait are forgotten. It
    /// takes no memory.
    pub fn forget(&mut self, alloc: Global, xid: u32)
        requires { IsHeld self.old }
        ensures rest { state_of self.new ≡ forgets (state_of self.old) self.old.waiting.calls xid }
        ensures sound { IsSound self.new }
    {
        let calls = mem::replace(&mut self.waiting.calls, Items::new(alloc));
        self.waiting.calls = waiting::without_call(calls, xid);
        self.own = 0;
    }

    /// The file is open with this content, whatever it was before. An `Err` changes nothing.
    pub fn put(&mut self, file: u64, version: u64, bytes: SharedBytes) -> Result<(), AllocError>
        requires base { IsBase self.old }
        requires small { length bytes ≤ FILE_MOST }
        ensures ok { OnOk result (state_of self.new ≡ record (state_of self.old) { opened = with_local self.old.opened.entries file (record { version = version; bytes = bytes }) }) }
        ensures err { OnErr result (state_of self.new ≡ state_of self.old) }
        ensures task { self.new.task ≡ self.old.task }
        ensures waiting { self.new.waiting ≡ self.old.waiting }
        ensures own { self.new.own ≡ self.old.own }
        ensures next_xid { self.new.next_xid ≡ self.old.next_xid }
        ensures cache { self.new.cache ≡ self.old.cache }
        ensures index { self.new.index ≡ self.old.index }
        ensures base { IsBase self.new }
    {
        self.put_cut(file, version, CutBytes::whole(bytes))
    }

    /// As `put`, of a content whose chunks may have been found ahead, which stay with it.
    #[tactic(auto, using(crate::proofs::lemmas::Bounds::locals_with))]
    pub fn put_cut(&mut self, file: u64, version: u64, bytes: CutBytes) -> Result<(), AllocError>
        requires base { IsBase self.old }
        requires small { length bytes ≤ FILE_MOST }
        ensures ok { OnOk result (state_of self.new ≡ record (state_of self.old) { opened = with_local self.old.opened.entries file (record { version = version; bytes = bytes }) }) }
        ensures err { OnErr result (state_of self.new ≡ state_of self.old) }
        ensures task { self.new.task ≡ self.old.task }
        ensures waiting { self.new.waiting ≡ self.old.waiting }
        ensures own { self.new.own ≡ self.old.own }
        ensures next_xid { self.new.next_xid ≡ self.old.next_xid }
        ensures cache { self.new.cache ≡ self.old.cache }
        ensures index { self.new.index ≡ self.old.index }
        ensures base { IsBase self.new }
    {
        let old = self.opened.insert(file, Local { version, bytes })?;
        drop(old);
        Ok(())
    }

    /// The file is no longer open, and this was its local content; nothing where it wasn't open. It
    /// takes no memory.
    #[tactic(auto, using(crate::proofs::lemmas::Locals::by_take_local))]
    pub fn take_local(&mut self, file: u64) -> CutBytes
        requires { IsBase self.old }
        ensures bytes { result ≡ local_bytes self.old.opened.entries file }
        ensures rest { state_of self.new ≡ record (state_of self.old) { opened = without_local self.old.opened.entries file } }
        ensures task { self.new.task ≡ self.old.task }
        ensures waiting { self.new.waiting ≡ self.old.waiting }
        ensures own { self.new.own ≡ self.old.own }
        ensures cache { self.new.cache ≡ self.old.cache }
        ensures base { IsBase self.new }
    {
        let local = self.opened.remove(&file);
        parts::bytes_of(local)
    }

    /// The content that is kept of a file is dropped, if one is. It takes no memory.
    pub fn evict(&mut self, file: u64)
        requires { IsSound self.old }
        ensures rest { state_of self.new ≡ evicted (state_of self.old) file }
        ensures sound { IsSound self.new }
    {
        self.cache.evict(file);
    }

    /// Any place stands in the index under any key. The one error is running out of memory, and
    /// changes nothing.
    pub fn forge(&mut self, key: Key, place: Place) -> Result<(), AllocError>
        requires { IsSound self.old }
        ensures ok { OnOk result (state_of self.new ≡ forged (state_of self.old) key place) }
        ensures err { OnErr result (state_of self.new ≡ state_of self.old) }
        ensures sound { IsSound self.new }
    {
        match self.index.forge(key, place) {
            Ok(()) => Ok(()),
            Err(_) => Err(AllocError),
        }
    }

    /// All places are dropped from the index. It takes no memory.
    pub fn clear_index(&mut self)
        requires { IsSound self.old }
        ensures rest { state_of self.new ≡ index_cleared (state_of self.old) }
        ensures sound { IsSound self.new }
    {
        self.index.clear();
    }

    /// The connection is no longer used, and nothing waits.
    fn unlink(&mut self, alloc: Global)
        requires { IsBase self.old }
        ensures rest { state_of self.new ≡ record (state_of self.old) { linked = false; task = None; forgotten = [] } }
        ensures sound { IsSound self.new }
    {
        let task = self.task.take();
        drop(task);
        self.linked = false;
        self.waiting.calls = Items::new(alloc);
        self.own = 0;
    }

    /// The operation under way ends by the peer's fault, and the connection counts as cut.
    pub fn bad_peer(&mut self, alloc: Global, fault: BadPeer, bytes: u64) -> ClientStep
        requires { IsBase self.old }
        ensures ok { bad_peer (state_of self.old) fault bytes ≡ (state_of self.new, result) }
        ensures done { result.missed ≡ false }
        ensures sound { IsSound self.new }
    {
        self.unlink(alloc);
        parts::ends(alloc, Outcome::BadPeer(fault), 0, bytes)
    }

    /// An answer to nothing that waits for one.
    pub fn unknown(&mut self, alloc: Global, xid: u32) -> ClientStep
        requires { IsBase self.old }
        ensures ok { unknown (state_of self.old) xid ≡ (state_of self.new, result) }
        ensures done { result.missed ≡ false }
        ensures sound { IsSound self.new }
    {
        self.bad_peer(alloc, BadPeer::UnknownXid { xid }, 0)
    }

    /// With no operation under way a fault of the peer only cuts the connection.
    pub fn cut_off(&mut self, alloc: Global) -> ClientStep
        requires sound { IsBase self.old }
        requires idle { self.old.task ≡ None }
        ensures ok { cut_off (state_of self.old) ≡ (state_of self.new, result) }
        ensures done { result.missed ≡ false }
        ensures sound { IsSound self.new }
    {
        self.unlink(alloc);
        parts::nothing_done(alloc)
    }

    /// The connection is lost: the operation under way ends by that, if there is one. It takes no
    /// memory.
    pub fn cut(&mut self, alloc: Global) -> ClientStep
        requires { IsBase self.old }
        ensures ok { cut (state_of self.old) ≡ (state_of self.new, result) }
        ensures done { result.missed ≡ false }
        ensures sound { IsSound self.new }
    {
        let is_busy = self.task.is_some();
        self.unlink(alloc);
        if is_busy {
            parts::ends(alloc, Outcome::Lost, 0, 0)
        } else {
            parts::nothing_done(alloc)
        }
    }

    /// A connection is joined: its xids and the numbers of its temporary files begin anew, and no call
    /// was sent on it. It takes no memory.
    pub fn join(&mut self, alloc: Global)
        requires { IsSound self.old }
        ensures rest { state_of self.new ≡ joined (state_of self.old) }
        ensures sound { IsSound self.new }
    {
        let calls = mem::replace(&mut self.waiting.calls, Items::new(alloc));
        self.waiting.calls = waiting::first_calls(calls, self.own);
        self.linked = true;
        self.next_xid = 1;
        self.next_temp = 1;
    }

    /// The operation ends by a status.
    pub fn refused(&mut self, alloc: Global, xid: u32, status: Status) -> ClientStep
        requires { IsHeld self.old }
        ensures ok { refused (state_of self.old) self.old.waiting.calls xid status ≡ (state_of self.new, result) }
        ensures done { result.missed ≡ false }
        ensures sound { IsSound self.new }
    {
        self.forget(alloc, xid);
        parts::ends(alloc, Outcome::Refused(status), xid, 0)
    }

    /// The operation under way ends by a refusal of its call.
    pub fn denied(&mut self, alloc: Global, xid: u32, refusal: RpcRefusal) -> ClientStep
        requires { IsBase self.old }
        ensures ok { denied (idle (state_of self.old)) self.old.waiting.calls xid refusal ≡ (state_of self.new, result) }
        ensures done { result.missed ≡ false }
        ensures sound { IsSound self.new }
    {
        let task = self.task.take();
        drop(task);
        match refusal {
            RpcRefusal::SystemErr => {
                self.forget(alloc, xid);
                parts::ends(alloc, Outcome::PeerMemory, 0, 0)
            }
            _ => {
                let code = parts::refusal_code(refusal);
                self.bad_peer(alloc, BadPeer::Denied { code }, 0)
            }
        }
    }

    /// The answer to a call of an ended operation or attempt is dropped. It takes no memory.
    fn drop_answer(&mut self, alloc: Global, xid: u32) -> ClientStep
        requires sound { IsSound self.old }
        requires other { has_call (pending self.old.task) xid ≡ false }
        ensures ok { drops (state_of self.old) self.old.task xid true ≡ (state_of self.new, result) }
        ensures done { result.missed ≡ false }
        ensures sound { IsSound self.new }
    {
        let calls = mem::replace(&mut self.waiting.calls, Items::new(alloc));
        self.waiting.calls = waiting::without_call(calls, xid);
        parts::sends(SendList::none(alloc), counts::late_counts())
    }

    /// An answer to no call of the operation under way: to one that is forgotten, or to none.
    pub fn take_other(&mut self, alloc: Global, xid: u32) -> ClientStep
        requires sound { IsSound self.old }
        requires other { has_call (pending self.old.task) xid ≡ false }
        ensures ok { drops (state_of self.old) self.old.task xid (has_call (state_of self.old).forgotten xid) ≡ (state_of self.new, result) }
        ensures done { result.missed ≡ false }
        ensures sound { IsSound self.new }
    {
        if waiting::has_call(self.forgotten(), xid) {
            self.drop_answer(alloc, xid)
        } else if self.task.is_some() {
            self.unknown(alloc, xid)
        } else {
            self.cut_off(alloc)
        }
    }
}
