//! A client of the trace, with what is kept of it beside its own state. `Seat` in
//! `specs/Session.antt` says what that is.

ghost use Rattle.std.specs.Prelude.{◌≡◌, Some, IfOk, OnOk};
ghost use Rattle.wire.specs.Parse.{parse_of};
ghost use Rattle.client_state.specs.Hints.{warms};
ghost use Rattle.client_state.specs.State.{waiting_of};
ghost use Rattle.open_close.specs.Step.{command_step, got_step};
ghost use Rattle.client_state.specs.Ending.{joined, cut};
ghost use Rattle.trace_ends.specs.Core.{client_changed};
ghost use Rattle.trace_ends.specs.Session.{may_warm, new_seat};
ghost use Rattle.trace_ends.specs.Ops.{place_after, place_with};

use crate::adjusting::CacheChange;
use crate::places::{place_after, place_with};
use client_state::step::ClientStep;
use command_text::command::Command;
use lb_base::items::Bytes;
use open_close::client::Client;
use session_rules::running::Runs;
use std::alloc::{AllocError, Global};
use std::marker::Model;
use wire::parse::message_of;

/// A client, which may have joined or not.
pub struct Seat {
    client: Client,
    /// The number of its newest session, if it ever had one.
    session: Option<u32>,
    /// The place of its operation under way.
    place: Option<usize>,
}

// Written by hand, it is proved here alone; derived, each crate above would prove how each part is
// dropped.
impl Drop for Seat {
    fn drop(self) {
        let Seat {
            client,
            session: _,
            place: _,
        } = self;
        drop(client);
    }
}

impl Model for Seat {
    ghost use Rattle.trace_ends.specs.Session.{Seat as CoreSeat};

    ghost Value = { CoreSeat };

    ghost view = { λ s. record { client = s.client; session = s.session; place = s.place } };
}

impl Runs for Seat {
    ghost running = { λ s. s.place };

    fn place(&self) -> Option<usize>
        ensures { result ≡ self.now.place }
    {
        self.place
    }
}

impl Seat {
    /// A client that has not joined, takes its clock and the server's to drift apart so far, in
    /// milliseconds, and speaks this version of LBFS. The one error is running out of memory.
    pub fn new(alloc: Global, drift: u64, lbfs: u32) -> Result<Seat, AllocError>
        ensures { IfOk result (λ seat. seat ≡ new_seat drift lbfs) }
    {
        let client = Client::new(alloc, drift, lbfs)?;
        Ok(Seat {
            client,
            session: None,
            place: None,
        })
    }

    /// The client.
    pub fn client(&self) -> &Client
        ensures { result.now ≡ self.now.client }
    {
        &self.client
    }

    /// Whether it is joined.
    pub fn linked(&self) -> bool
        ensures { result ≡ self.now.client.linked }
    {
        self.client.linked()
    }

    /// The number of its newest session, if it ever had one.
    pub fn session(&self) -> Option<u32>
        ensures { result ≡ self.now.session }
    {
        self.session
    }

    /// The client joins, and has the session of this number then.
    pub fn joins(&mut self, alloc: Global, made: u32)
        ensures { self.new ≡ record self.old { client = joined self.old.client; session = Some made } }
    {
        self.client.joined(alloc);
        self.session = Some(made);
    }

    /// The client does what it is told to; the command's own operation has this place.
    pub fn does(
        &mut self,
        alloc: Global,
        command: Command,
        now: u64,
        place: usize,
    ) -> Result<ClientStep, AllocError>
        ensures acts { IfOk result (λ acts. (command_step self.old.client command now).1 ≡ acts) }
        ensures seat { IfOk result (λ acts. self.new ≡ record self.old { client = (command_step self.old.client command now).0; place = place_with self.old.place place acts.ended }) }
    {
        let acts = self.client.command(alloc, command, now);
        if acts.missed {
            return Err(AllocError);
        }
        self.place = place_with(self.place, place, &acts.ended);
        Ok(acts)
    }

    /// A record comes to the client.
    pub fn hears(&mut self, alloc: Global, bytes: &[u8], now: u64) -> Result<ClientStep, AllocError>
        ensures acts { IfOk result (λ acts. (got_step self.old.client (parse_of (waiting_of self.old.client) bytes.now) now).1 ≡ acts) }
        ensures seat { IfOk result (λ acts.
            self.new ≡ record self.old {
              client = (got_step self.old.client
                  (parse_of (waiting_of self.old.client) bytes.now) now).0;
              place = place_after self.old.place acts.ended;
            }) }
    {
        let said = message_of(alloc, bytes, self.client.waiting())?;
        let acts = self.client.got(alloc, said, now);
        if acts.missed {
            return Err(AllocError);
        }
        self.place = place_after(self.place, &acts.ended);
        Ok(acts)
    }

    /// The client's index or cache is changed so, and nothing else. The one error is running out of memory.
    pub fn changes(&mut self, change: CacheChange) -> Result<(), AllocError>
        ensures { OnOk result (self.new ≡ record self.old { client = client_changed change self.old.client }) }
    {
        match change {
            CacheChange::Forge { key, place } => self.client.forge(key, place),
            CacheChange::Clear => {
                self.client.clear_index();
                Ok(())
            }
            CacheChange::Evict(file) => {
                self.client.evict(file);
                Ok(())
            }
        }
    }

    /// Whether it may get the items of a cache file: it has not joined yet, and keeps nothing.
    pub fn may_warm(&self) -> bool
        ensures { result ≡ may_warm self.now }
    {
        self.session.is_none() && self.client.cache().is_empty()
    }

    /// The client gets these items of a cache file. The one error is running out of memory.
    #[tactic(auto, using(client_state::proofs::lemmas::Warming::all_entered))]
    pub fn warms(&mut self, alloc: Global, items: &[Bytes]) -> Result<(), AllocError>
        ensures { OnOk result (self.new ≡ record self.old { client = warms self.old.client items.now }) }
    {
        match self.client.warm(alloc, items) {
            Ok(left_out) => { if left_out { Err(AllocError) } else { Ok(()) } }
            Err(want) => Err(want),
        }
    }

    /// The client sees its connection lost.
    pub fn cuts(&mut self, alloc: Global) -> ClientStep
        ensures acts { (cut self.old.client).1 ≡ result }
        ensures seat { self.new ≡ record self.old { client = (cut self.old.client).0; place = place_after self.old.place result.ended } }
    {
        let acts = self.client.cut(alloc);
        self.place = place_after(self.place, &acts.ended);
        acts
    }
}
