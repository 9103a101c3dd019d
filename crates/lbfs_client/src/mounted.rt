//! The client behind a mount, and the four things that may happen to it. `specs/Mounting.antt` says
//! what they come to.

ghost use Rattle.std.specs.Prelude.{◌≡◌, IfOk, IfErr, None, true, false};
ghost use Rattle.std.specs.Option.{option_copied};
ghost use Rattle.lbfs_client.specs.Caching.{Loads, Saves, within};
ghost use Rattle.lbfs_client.specs.Hinting.{LearnsIn, OffersIf, closing_of, has_fresh};
ghost use Rattle.client_state.specs.State.{start_with};
ghost use Rattle.wire.specs.declared.message.TheConstants.{LBFS_SPOKEN};
ghost use Rattle.lbfs_client.specs.Mounting.{Runs, Continues, Receives, Stops, joined_step, read_bytes};

use crate::answer::Answer;
use crate::caching::{load_read, look, save_kept};
use crate::fetching::read;
use crate::hinting::{closing, has_fresh, offer_read};
use crate::line::{MountLine, Place};
use crate::local::LocalName;
use crate::running::{get, go_on_with, join, joined, plain, put, read_bytes};
use crate::said::{Said, sends};
use crate::walk::Walk;
use crate::walking::{hear, lose, receive};
use cut_bytes::CutBytes;
use cut_bytes::ahead::Ahead;
use lb_base::items::Items;
use links::files::Files;
use open_close::client::Client;
use record_ends::end::End;
use std::alloc::{AllocError, Global};
use std::marker::Model;
use wire::fault::WireFault;
use wire::message::LBFS_SPOKEN;

/// A client, the files of the host, and what the line under way has left to do.
pub struct Mounted<F: Files> {
    files: F,
    client: Client,
    walk: Option<Walk>,
}

// By hand: docs/proving/dropping.md.
impl<F: Files + Drop> Drop for Mounted<F> {
    fn drop(self) {
        let Mounted {
            files,
            client,
            walk,
        } = self;
        drop(files);
        drop(client);
        drop(walk);
    }
}

impl<F: Files> Model for Mounted<F> {
    ghost use Rattle.lbfs_client.specs.Mounting.{Mount};

    ghost Value = { Mount };

    ghost view = { λ m. record { host = record { files = F.files m.files; faults = F.faults m.files }; client = m.client; walk = m.walk } };
}

impl<F: Files> Mounted<F> {
    /// A client with no connection and no file, over these files of the host, whose clock and the server's
    /// may drift apart so far, in milliseconds, while a lease lasts, and which speaks the version of LBFS that
    /// clients speak. It is refused for running out of memory alone, and the files are handed back.
    pub fn new(alloc: Global, files: F, drift: u64) -> Result<Mounted<F>, F>
        ensures ok { IfOk result (λ m. m ≡ record { host = record { files = F.files files; faults = F.faults files }; client = start_with drift LBFS_SPOKEN; walk = None }) }
        ensures back { IfErr result (λ f. f ≡ files) }
    {
        match Client::new(alloc, drift, LBFS_SPOKEN) {
            Ok(client) => Ok(Mounted {
                files,
                client,
                walk: None,
            }),
            Err(_want) => Err(files),
        }
    }

    /// A line of the script, at a reading of the client's clock in milliseconds: what is to be sent,
    /// and the line to write where it has ended. A put whose file of the host was read waits for `go_on`. The
    /// one error is running out of memory, which is the end of the mount.
    pub fn line(&mut self, alloc: Global, line: MountLine, now: u64) -> Result<Said, AllocError>
        ensures { IfOk result (λ said. Runs self.old line now self.new said) }
    {
        match line {
            MountLine::Plain(command) => plain(alloc, &mut self.client, command, now),
            MountLine::Put { local, place } => {
                let said = put(alloc, &mut self.files, &mut self.walk, &local, place);
                drop(local);
                said
            }
            MountLine::Get { place, local } => get(
                alloc,
                &mut self.files,
                &mut self.client,
                &mut self.walk,
                place,
                local,
                now,
            ),
            MountLine::Join => join(alloc, &self.client, &mut self.walk),
            MountLine::Skipped => Ok(sends(Items::new(alloc))),
        }
    }

    /// The bytes of a put's file of the host, which was read: the line waits with them until it is to go on
    /// (`go_on`), so that they can be cut and hashed where nobody waits for the client. None where no such line
    /// is under way. It takes no memory.
    pub fn read_bytes(&self) -> Option<&CutBytes>
        ensures { option_copied result ≡ read_bytes self.now.walk }
    {
        read_bytes(&self.walk)
    }

    /// A put that waits goes on, with what was found of its bytes ahead, if anything was; the rest is as for a
    /// line.
    pub fn go_on(
        &mut self,
        alloc: Global,
        found: Option<CutBytes>,
        now: u64,
    ) -> Result<Said, AllocError>
        ensures { IfOk result (λ said. Continues self.old now self.new said) }
    {
        match self.walk.take() {
            Some(held) => go_on_with(
                alloc,
                &mut self.files,
                &mut self.client,
                &mut self.walk,
                held,
                found,
                now,
            ),
            None => Ok(sends(Items::new(alloc))),
        }
    }

    /// A record came from the other end, with which the answers to the line under way have so many bytes.
    pub fn got(
        &mut self,
        alloc: Global,
        listed: u64,
        bytes: &[u8],
        now: u64,
    ) -> Result<Said, AllocError>
        ensures { IfOk result (λ said. Receives self.old listed bytes.now now self.new said) }
    {
        receive(
            alloc,
            &mut self.files,
            &mut self.client,
            &mut self.walk,
            listed,
            bytes,
            now,
        )
    }

    /// The link has ended so, for records or for messages. Where that was for running out of
    /// memory, the answer is running out of memory.
    pub fn ended(&mut self, alloc: Global, end: End, now: u64) -> Result<Said, AllocError>
        ensures { IfOk result (λ said. Stops self.old end now self.new said) }
    {
        match end {
            End::InputEnd => lose(
                alloc,
                &mut self.files,
                &mut self.client,
                &mut self.walk,
                now,
            ),
            End::Failed => lose(
                alloc,
                &mut self.files,
                &mut self.client,
                &mut self.walk,
                now,
            ),
            End::Spoilt => hear(
                alloc,
                &mut self.files,
                &mut self.client,
                &mut self.walk,
                Err(WireFault::NotRpc { at: 0 }),
                now,
            ),
            End::Memory => Err(AllocError),
        }
    }

    /// A connection is joined.
    pub fn joined(&mut self, alloc: Global) -> Result<Said, AllocError>
        ensures { IfOk result (λ said. joined_step self.old ≡ (self.new, said)) }
    {
        joined(alloc, &mut self.client, &mut self.walk)
    }

    /// The places of the chunks of what the client keeps of a file enter its index: a hint, which nobody
    /// trusts. Says whether that was done; where memory ran out nothing was.
    pub fn learn(&mut self, alloc: Global, file: u64) -> bool
        ensures done { result ≡ true → LearnsIn self.old file self.new }
        ensures same { result ≡ false → self.new ≡ self.old }
    {
        self.client.learn(alloc, file).is_ok()
    }

    /// Whether so much came of a file that is being fetched that some should be lent.
    pub fn may_lend(&self) -> bool {
        self.client.may_lend()
    }

    /// What came of a file that is being fetched is lent, so that it is hashed where nobody waits for the client, and
    /// is given back with the next call: a hint, on which nothing depends that is told.
    pub fn lend(&mut self, alloc: Global, back: Option<Ahead>) -> Option<Ahead>
        ensures { self.new ≡ self.old }
    {
        self.client.lend(alloc, back)
    }

    /// Whether an open of this place, whose file isn't open, asks nobody at this reading: its id is known, and the
    /// content that is kept of it fresh. It takes no memory.
    pub fn has_fresh(&self, place: &Place, now: u64) -> bool
        ensures { result ≡ has_fresh self.now.client place.now now }
    {
        has_fresh(&self.client, place, now)
    }

    /// A file of the host, if it is there, is read, and offered to the client's index, so that a chunk of a
    /// fetch that has bytes of it doesn't travel: a hint, which nobody trusts. Says whether that was done:
    /// not where it can't be read, or memory ran out. While an operation is under way nothing is
    /// offered.
    #[tactic(auto, using(crate::proofs::Hintings::offered_if))]
    pub fn offer(&mut self, alloc: Global, local: &LocalName) -> bool
        ensures { OffersIf result self.old local.now self.new }
    {
        if !self.files.has(local.as_str()) {
            return false;
        }
        let bytes = read(alloc, &mut self.files, local);
        offer_read(alloc, &mut self.client, bytes)
    }

    /// The cache file of this name is read, and its items are the client's: hints, which nobody trusts. What
    /// is answered is to be said: that it couldn't be read, is too large, or memory ran out; the client
    /// goes on without then. With it comes whether what stands there may be replaced.
    #[tactic(auto, using(crate::proofs::Cachings::loaded))]
    pub fn load(&mut self, alloc: Global, name: &str) -> (Option<Answer>, bool)
        ensures { Loads self.old name.now result.0 result.1 self.new }
    {
        let (read, replaces) = look(alloc, &mut self.files, name);
        let told = load_read(alloc, &mut self.client, read);
        (told, replaces)
    }

    /// What the client keeps is written to the cache file of this name, and behind it the items that stand in it
    /// now; it is as it was or new. What is answered is to be said: that it couldn't be written, or memory ran
    /// out.
    #[tactic(auto, using(crate::proofs::Cachings::saved))]
    pub fn save(&mut self, alloc: Global, name: &str) -> Option<Answer>
        ensures { Saves self.old name.now result self.new }
    {
        save_kept(alloc, &mut self.files, &self.client, name)
    }

    /// What the client keeps is dropped, the oldest first, until it has at most so many bytes. It takes no
    /// memory.
    pub fn keep_within(&mut self, most: u64)
        ensures { self.new ≡ within most self.old }
    {
        self.client.keep_within(most);
    }

    /// The file that the line under way closes, if it closes one. It takes no memory.
    pub fn closing(&self) -> Option<u64>
        ensures { result ≡ closing_of self.now.walk }
    {
        closing(&self.walk)
    }

    /// Whether a connection is joined. It takes no memory.
    pub fn linked(&self) -> bool
        ensures { result ≡ self.now.client.linked }
    {
        self.client.linked()
    }

    /// The files of the host, which the mount drops.
    pub fn into_files(self) -> F
        ensures { self.host ≡ record { files = F.files result; faults = F.faults result } }
    {
        let Mounted {
            files,
            client,
            walk,
        } = self;
        drop(client);
        drop(walk);
        files
    }
}
