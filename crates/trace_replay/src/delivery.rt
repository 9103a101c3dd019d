//! Bytes that reach an end: each record that they complete is a step of that end.
//! `specs/Delivery.antt` says what a delivery, a round and a pass make of a world.

ghost use Rattle.std.specs.Prelude.{◌≡◌, ◌<◌, ◌^◌, ◌++◌, map, OnOk};
ghost use Rattle.trace_ends.specs.Core.{Event.Serves};
ghost use Rattle.trace_ends.specs.Numbers.{numbered};
ghost use Rattle.trace_replay.specs.Delivery.{all_happened, spoilt_as, up_some, down_some, up_all, down_all, up_length, down_length, is_still, round, passes};
ghost use Rattle.trace_ends.specs.Queue.{count_of};
ghost use Rattle.trace_replay.specs.WorldView.{taken_at, world_of, IsEndBounded};

use crate::state::{End, WorldState};
use rpc_record::record::Record;
use rpc_record::refusal::Refusal;
use session_rules::numbers::place_of;
use std::alloc::{AllocError, Global};
use trace_text::line::Amount;

impl WorldState {
    /// An end takes records of a session, in order, at a reading of its clock.
    fn takes_all(
        &mut self,
        alloc: Global,
        end: End,
        session: u64,
        now: u64,
        records: &[Record],
    ) -> Result<(), AllocError>
        requires { IsEndBounded end now }
        ensures { OnOk result (world_of self.new ≡ all_happened (world_of self.old) (map (taken_at end session now) records.now)) }
    {
        for bytes in records {
            self.takes(alloc, end, session, now, bytes.as_slice())?;
        }
        Ok(())
    }

    /// The server takes records of a session, in order, at a reading of its clock, and where none can
    /// follow any more one of no bytes, which is no message.
    fn takes_up(
        &mut self,
        alloc: Global,
        session: u64,
        now: u64,
        records: &[Record],
        spoilt: Option<Refusal>,
    ) -> Result<(), AllocError>
        requires { now < 2 ^ 63 }
        ensures { OnOk result (world_of self.new ≡ all_happened (world_of self.old) (map (Serves session now) (records.now ++ spoilt_as spoilt))) }
    {
        self.takes_all(alloc, End::Server, session, now, records)?;
        match spoilt {
            Some(_) => self.takes(alloc, End::Server, session, now, &[]),
            None => Ok(()),
        }
    }

    /// Bytes that are on their way up a session reach the server, at a reading of its clock.
    pub fn up_some(
        &mut self,
        alloc: Global,
        session: u64,
        amount: Amount,
        now: u64,
    ) -> Result<(), AllocError>
        requires { now < 2 ^ 63 }
        ensures { OnOk result (world_of self.new ≡ up_some (world_of self.old) session (count_of amount (up_length (numbered (world_of self.old).wires session))) now) }
    {
        let Some(place) = place_of(self.wires.len(), session) else {
            return Ok(());
        };
        let wire = &mut self.wires[place];
        let records = wire.take_up(alloc, amount)?;
        let spoilt = wire.spoilt();
        self.takes_up(alloc, session, now, records.as_slice(), spoilt)
    }

    /// Bytes that are on their way down a session reach its client, at a reading of that one's clock.
    pub fn down_some(
        &mut self,
        alloc: Global,
        session: u64,
        amount: Amount,
        now: u64,
    ) -> Result<(), AllocError>
        ensures { OnOk result (world_of self.new ≡ down_some (world_of self.old) session (count_of amount (down_length (numbered (world_of self.old).wires session))) now) }
    {
        let Some(place) = place_of(self.wires.len(), session) else {
            return Ok(());
        };
        let records = self.wires[place].take_down(alloc, amount)?;
        self.takes_all(alloc, End::Client, session, now, records.as_slice())
    }

    /// Whether nothing is on its way on a session.
    fn is_still(&self, session: u64) -> bool
        ensures { result ≡ is_still (world_of self.now) session }
    {
        match place_of(self.wires.len(), session) {
            None => true,
            Some(place) => self.wires[place].is_still(),
        }
    }

    /// All bytes on their way up a session reach the server, at a reading of its clock, and then all
    /// on their way down the client, at one of that one's.
    fn round(&mut self, alloc: Global, session: u64, server: u64, at: u64) -> Result<(), AllocError>
        requires { server < 2 ^ 63 }
        ensures { OnOk result (world_of self.new ≡ round (world_of self.old) session server at) }
    {
        self.up_some(alloc, session, Amount::All, server)?;
        self.down_some(alloc, session, Amount::All, at)
    }

    /// Rounds of a session, `count` at most, while anything is on its way.
    pub fn passes(
        &mut self,
        alloc: Global,
        session: u64,
        count: u64,
        server: u64,
        at: u64,
    ) -> Result<(), AllocError>
        requires { server < 2 ^ 63 }
        ensures { OnOk result (world_of self.new ≡ passes count (world_of self.old) session server at) }
    {
        let mut left = count;
        'rounds: while left > 0 {
            if self.is_still(session) {
                return Ok(());
            }
            self.round(alloc, session, server, at)?;
            left -= 1;
        }
        Ok(())
    }
}
