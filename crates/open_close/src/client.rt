//! The client. `specs/State.antt` says what it is, and `specs/Step.antt` what it does.

ghost use Rattle.limits.specs.declared.TheConstants.{FILE_MOST};
ghost use Rattle.std.specs.Prelude.{◌≡◌, ◌≤◌, length, false, true, option_map, Some, IfOk, OnOk, OnErr};
ghost use Rattle.client_state.specs.Bounding.{kept_within};
ghost use Rattle.client_state.specs.Hints.{Learns, Offers, Warms};
ghost use Rattle.std.specs.Option.{option_copied};
ghost use Rattle.client_state.specs.Noting.{at};
ghost use Rattle.client_state.specs.State.{start_with, evicted, forged, index_cleared, waiting_of, local_at};
ghost use Rattle.client_state.specs.Counting.{misses, by_memory};
ghost use Rattle.file_open.specs.Caching.{fresh_content};
ghost use Rattle.open_close.specs.Putting.{put_of};
ghost use Rattle.open_close.specs.Step.{command_step, got_step, Misses, MayMissCommand};
ghost use Rattle.client_state.specs.Ending.{cut, joined};

use crate::{commands, taking};
use chunk_index::index::Key;
use chunk_index::place::Place;
use client_cache::cache::Cache;
use client_state::state::ClientState;
use client_state::step::{ClientStep, Ended, Outcome};
use command_text::command::Command;
use cut_bytes::CutBytes;
use cut_bytes::ahead::Ahead;
use file_open::caching;
use lb_base::items::Bytes;
use send_list::SendList;
use shared_bytes::SharedBytes;
use std::alloc::{AllocError, Global};
use std::marker::Model;
use transfer_rules::counts::no_counts;
use wire::fault::WireFault;
use wire::message::{Message, Waiting};

/// A client of one connection, with its open files and at most one operation under way.
pub struct Client {
    state: ClientState,
}

/// By hand, so that the crates above prove nothing of how the parts are dropped.
impl Drop for Client {
    fn drop(self) {
        let Client { state } = self;
        drop(state);
    }
}

impl Model for Client {
    ghost use Rattle.client_state.specs.State.{State};

    ghost Value = { State };

    ghost use Rattle.client_state.specs.View.{state_of, IsSound};

    ghost view = { λ c. state_of c.state };

    ghost invariant = { λ c. IsSound c.state };
}

/// Memory ran out, and the operation or the command ends by that.
fn missed(alloc: Global) -> ClientStep
    ensures { result ≡ misses (Some by_memory) }
{
    ClientStep {
        send: SendList::none(alloc),
        ended: Some(Ended {
            outcome: Outcome::Memory,
            rests_on: 0,
        }),
        counts: no_counts(),
        found: None,
        missed: true,
    }
}

impl Client {
    /// A client with no connection and no file, whose clock and the server's may drift apart so far, in
    /// milliseconds, while a lease lasts, and whose calls are of this version of LBFS. The one error is
    /// running out of memory.
    pub fn new(alloc: Global, drift: u64, lbfs: u32) -> Result<Client, AllocError>
        ensures { IfOk result (λ c. c ≡ start_with drift lbfs) }
    {
        let state = ClientState::new(alloc, drift, lbfs)?;
        Ok(Client { state })
    }

    /// A command, at a reading of the client's clock in milliseconds: it says whether what is kept is fresh,
    /// and from when on a lease counts that a call may bring. Only a command that sends a call, makes a local
    /// content or opens what is fresh may run out of memory: it then ends by that, and all else is as before.
    pub fn command(&mut self, alloc: Global, command: Command, now: u64) -> ClientStep
        ensures exact { result.missed ≡ false → command_step self.old command now ≡ (self.new, result) }
        ensures missed { result.missed ≡ true → self.new ≡ self.old }
        ensures silent { result.missed ≡ true → result ≡ misses (Some by_memory) }
        ensures sure { result.missed ≡ true → MayMissCommand (at self.old now) command }
    {
        let before = self.state.clock();
        self.state.set_clock(now);
        match taking::command(alloc, &mut self.state, command) {
            Ok(step) => step,
            Err(_) => {
                self.state.set_clock(before);
                missed(alloc)
            }
        }
    }

    /// As `command`, of a write from the first byte on: of a content whose chunks and digest may have been found
    /// ahead. A close then neither cuts nor hashes it, where it replaced all of the file's.
    pub fn put(&mut self, alloc: Global, file: u64, content: CutBytes, now: u64) -> ClientStep
        ensures exact { result.missed ≡ false → command_step self.old (put_of file content) now ≡ (self.new, result) }
        ensures missed { result.missed ≡ true → self.new ≡ self.old }
        ensures silent { result.missed ≡ true → result ≡ misses (Some by_memory) }
        ensures sure { result.missed ≡ true → MayMissCommand (at self.old now) (put_of file content) }
    {
        let before = self.state.clock();
        self.state.set_clock(now);
        match commands::put(alloc, &mut self.state, file, content) {
            Ok(step) => step,
            Err(_) => {
                self.state.set_clock(before);
                missed(alloc)
            }
        }
    }

    /// What comes from the other end, at a reading of the client's clock in milliseconds: a message, or why a
    /// record is none. Only an answer to a call of the operation
    /// under way may run out of memory, and none once COMMITTMP was sent: the operation then ends by
    /// that, its other calls are forgotten, and all else is as before; or a fetch ended well, and the
    /// index lacks places of its chunks.
    pub fn got(
        &mut self,
        alloc: Global,
        message: Result<Message, WireFault>,
        now: u64,
    ) -> ClientStep
        ensures exact { result.missed ≡ false → got_step self.old message now ≡ (self.new, result) }
        ensures missed { result.missed ≡ true → Misses self.old message now self.new result }
    {
        let before = self.state.clock();
        self.state.set_clock(now);
        match taking::got(alloc, &mut self.state, message) {
            Ok(step) => step,
            Err(_) => {
                self.state.set_clock(before);
                missed(alloc)
            }
        }
    }

    /// Whether so much came of a file that is being fetched that some should be lent.
    pub fn may_lend(&self) -> bool {
        self.state.may_lend()
    }

    /// What came of a file that is being fetched is lent to be hashed while more comes, and is given back with the
    /// next call: a hint, on which nothing depends that is told.
    pub fn lend(&mut self, alloc: Global, back: Option<Ahead>) -> Option<Ahead>
        ensures { self.new ≡ self.old }
    {
        self.state.lend(alloc, back)
    }

    /// The content that is kept of a file is dropped, if one is. It takes no memory.
    pub fn evict(&mut self, file: u64)
        ensures { self.new ≡ evicted self.old file }
    {
        self.state.evict(file);
    }

    /// Any place stands in the index under any key: nobody trusts it. The one error is running out of memory,
    /// and changes nothing.
    pub fn forge(&mut self, key: Key, place: Place) -> Result<(), AllocError>
        ensures ok { OnOk result (self.new ≡ forged self.old key place) }
        ensures err { OnErr result (self.new ≡ self.old) }
    {
        self.state.forge(key, place)
    }

    /// All places are dropped from the index. It takes no memory.
    pub fn clear_index(&mut self)
        ensures { self.new ≡ index_cleared self.old }
    {
        self.state.clear_index();
    }

    /// The places of the chunks of what is kept of a file enter the index, if anything is kept of it: a
    /// hint, as a forged place is. Says whether some were left out, for running out of memory. An `Err`, which is
    /// running out of memory too, changes nothing.
    pub fn learn(&mut self, alloc: Global, file: u64) -> Result<bool, AllocError>
        ensures ok { IfOk result (λ left_out. Learns self.old file left_out self.new) }
        ensures err { OnErr result (self.new ≡ self.old) }
    {
        self.state.learn(alloc, file)
    }

    /// A content is kept that is no file's, in place of the one that was offered before, and the places of
    /// its chunks enter the index: so a chunk of a fetch that has its bytes doesn't travel. While an
    /// operation is under way nothing is done. Says whether some places were left out, for running out of memory.
    /// An `Err`, which is running out of memory too, changes nothing.
    pub fn offer(&mut self, alloc: Global, content: SharedBytes) -> Result<bool, AllocError>
        requires { length content ≤ FILE_MOST }
        ensures ok { IfOk result (λ left_out. Offers self.old content left_out self.new) }
        ensures err { OnErr result (self.new ≡ self.old) }
    {
        self.state.offer(alloc, content)
    }

    /// The items of a cache file are kept, one behind the other, in place of those before, and their places
    /// enter the index, each under the digest of its bytes: so a chunk of a fetch that is one of them doesn't
    /// travel. They are no file's, so they are never opened. While an operation is under way nothing is done,
    /// and neither where they have more bytes than a file may have. Says whether some places were left out,
    /// for running out of memory. An `Err`, which is running out of memory too, changes nothing.
    pub fn warm(&mut self, alloc: Global, items: &[Bytes]) -> Result<bool, AllocError>
        ensures ok { IfOk result (λ left_out. Warms self.old items.now left_out self.new) }
        ensures err { OnErr result (self.new ≡ self.old) }
    {
        self.state.warm(alloc, items)
    }

    /// Contents that are kept are dropped, the oldest first, until all have at most so many bytes together.
    /// One that is open, or that an operation is under way on, stays. It takes no memory.
    pub fn keep_within(&mut self, most: u64)
        ensures { self.new ≡ kept_within most self.old }
    {
        self.state.keep_within(most);
    }

    /// What an open of a file that isn't open would give at this reading with no message: the content that is
    /// kept of it, where it is fresh. It takes no memory.
    pub fn fresh(&self, file: u64, now: u64) -> Option<&[u8]>
        ensures { option_copied result ≡ option_map (λ c. c.bytes) (fresh_content self.now.cache file now) }
    {
        match caching::fresh_at(&self.state, file, now) {
            Some((_version, bytes)) => Some(bytes.as_slice()),
            None => None,
        }
    }

    /// What is kept of files. It takes no memory.
    pub fn cache(&self) -> &Cache
        ensures { result.now ≡ self.now.cache }
    {
        self.state.kept()
    }

    /// What may come: answers to the calls that wait, those of ended operations and attempts too.
    pub fn waiting(&self) -> &Waiting
        ensures { result.now ≡ waiting_of self.now }
    {
        self.state.waiting()
    }

    /// A connection is joined, and its first xid is 1, as is the number of its first temporary file.
    /// It takes no memory.
    pub fn joined(&mut self, alloc: Global)
        ensures { self.new ≡ joined self.old }
    {
        self.state.join(alloc);
    }

    /// The connection is lost. The operation under way ends by that, if there is one, and open files
    /// stay open. It takes no memory.
    pub fn cut(&mut self, alloc: Global) -> ClientStep
        ensures exact { cut self.old ≡ (self.new, result) }
        ensures done { result.missed ≡ false }
    {
        self.state.cut(alloc)
    }

    /// Whether a connection is joined.
    pub fn linked(&self) -> bool
        ensures { result ≡ self.now.linked }
    {
        self.state.linked()
    }

    /// An owner of the local content of an open file, of which others can be made; none where it isn't
    /// open. It takes no memory.
    pub fn shared_local(&self, file: u64) -> Option<&SharedBytes>
        ensures { option_copied result ≡ option_map (λ l. l.bytes) (local_at self.now.opened file) }
    {
        match self.state.local(file) {
            Some(local) => Some(local.bytes.shared()),
            None => None,
        }
    }

    /// The local content of an open file; none where it isn't open. It takes no memory.
    pub fn local(&self, file: u64) -> Option<&[u8]>
        ensures { option_copied result ≡ option_map (λ l. l.bytes) (local_at self.now.opened file) }
    {
        match self.shared_local(file) {
            Some(bytes) => Some(bytes.as_slice()),
            None => None,
        }
    }

    /// The version in which the local content of an open file was fetched; none where it isn't open.
    pub fn version(&self, file: u64) -> Option<u64>
        ensures { result ≡ option_map (λ l. l.version) (local_at self.now.opened file) }
    {
        match self.state.local(file) {
            Some(local) => Some(local.version),
            None => None,
        }
    }
}
