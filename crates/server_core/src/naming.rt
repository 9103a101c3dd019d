//! The calls of NFS: what they come to over the tree, and in the journal. `asks` in `specs/Step.antt`
//! says it.

ghost use Rattle.std.specs.Prelude.{◌≡◌, ◌≤◌, ◌+◌, IfOk, OnOk, OnErr, false, true};
ghost use Rattle.wire.specs.declared.message.Body.TheVariants as body;
ghost use Rattle.server_core.specs.Served.{IsServed};
ghost use Rattle.server_core.specs.State.{entries_held};
ghost use Rattle.server_core.specs.Step.{called_under, asks, TakesMemory};
ghost use Rattle.server_core.specs.Closing.{has_waiting};
ghost use Rattle.server_core.specs.View.{state_of, IsBounded, HasRoom, RoomFor, IsWaiting};
ghost use Rattle.file_tree.specs.Stores.{Keeps};
ghost use Rattle.tree_calls.specs.Calling.{places_of_call};
ghost use Rattle.tree_calls.specs.Waiting.{enters};

use crate::change::{Wanted, change_of};
use crate::event::ServerStep;
use crate::settling::enter_both;
use crate::state::ServerState;
use crate::steps::{answer, refuse};
use crate::waiting::held;
use nfs3_calls::message::Nfs;
use std::alloc::{AllocError, Global};
use store::store::Store;
use tree_calls::asked::{Done, Outcome};
use tree_calls::{calls, entering};
use tree_reading::call::Reservation;
use wire::message::{Body, RpcRefusal};

impl ServerState {
    /// A call of NFS. Memory is taken for its entries only where it is not refused. An `Err` changes
    /// nothing.
    pub fn call_nfs<S: Store>(
        &mut self,
        alloc: Global,
        store: &mut S,
        session: u32,
        xid: u32,
        call: &Nfs,
    ) -> Result<ServerStep, AllocError>
        requires bounded { IsBounded self.old }
        requires spare { entries_held self.old.waits.waits ≤ S.spare store.old }
        ensures ok { IfOk result (λ o. IsServed (S.faults store.old) (S.faults store.new) (λ fault. called_under (state_of self.old) fault session xid (body.Nfs call.now)) (state_of self.new, o)) }
        ensures done { IfOk result (λ o. o.missed ≡ false) }
        ensures err { OnErr result (state_of self.new ≡ state_of self.old) }
        ensures takes { OnErr result (TakesMemory (state_of self.old) session (body.Nfs call.now)) }
        ensures bounded { IsBounded self.new }
        ensures keeps { Keeps (S.records store.old) self.old.tree.tree (S.records store.new) self.new.tree.tree }
        ensures spare { entries_held self.new.waits.waits ≤ S.spare store.new }
        ensures later { S.faults store.old ≤ S.faults store.new }
    {
        let held = held(&self.waits);
        let busy = self.waits.has(session);
        self.reserve_for(call, held, busy)?;
        let outcome = calls::call(alloc, &mut self.tree, store, call, held, busy)?;
        match self.take_outcome(alloc, session, xid, outcome) {
            Ok(step) => Ok(step),
            Err(why) => Err(why),
        }
    }

    /// Takes memory for what a call may leave behind it, if it is not refused. Nothing else changes.
    fn reserve_for(&mut self, call: &Nfs, held: Reservation, busy: bool) -> Result<(), AllocError>
        requires { IsBounded self.old }
        ensures same { state_of self.new ≡ state_of self.old }
        ensures bounded { IsBounded self.new }
        ensures room { OnOk result (enters self.old.tree.tree held busy call.now ≡ true → HasRoom self.new) }
        ensures takes { OnErr result (enters self.old.tree.tree held busy call.now ≡ true) }
        ensures tree { self.new.tree ≡ self.old.tree }
        ensures waiting { self.new.waits.waits ≡ self.old.waits.waits }
    {
        if entering::enters(&self.tree, call, held, busy) {
            self.reserve()?;
        }
        Ok(())
    }

    /// What a call of NFS came to over the tree. An `Err` changes nothing, and comes only where it waits.
    fn take_outcome(
        &mut self,
        alloc: Global,
        session: u32,
        xid: u32,
        outcome: Option<Outcome>,
    ) -> Result<ServerStep, AllocError>
        requires bounded { IsBounded self.old }
        requires room { RoomFor self.old outcome }
        requires new { IsWaiting outcome → has_waiting (state_of self.old).waiting session ≡ false }
        ensures exact { IfOk result (λ o. asks (state_of self.old) session xid outcome ≡ (state_of self.new, o)) }
        ensures done { IfOk result (λ o. o.missed ≡ false) }
        ensures err { OnErr result (state_of self.new ≡ state_of self.old) }
        ensures waits { OnErr result (IsWaiting outcome) }
        ensures bounded { IsBounded self.new }
        ensures tree { self.new.tree ≡ self.old.tree }
        ensures entries { OnOk result (entries_held self.new.waits.waits ≡ entries_held self.old.waits.waits + places_of_call outcome) }
        ensures same { OnErr result (self.new.waits.waits ≡ self.old.waits.waits) }
    {
        match outcome {
            None => Ok(refuse(alloc, session, xid, RpcRefusal::ProcUnavail)),
            Some(Outcome::Answered(done)) => {
                let Done {
                    answer: told,
                    first,
                    second,
                } = done;
                let entries = enter_both(&mut self.journal, session, first, second);
                let mut step = answer(alloc, session, xid, Body::Nfs(told));
                step.entries = entries;
                Ok(step)
            }
            Some(Outcome::Waits(asked)) => {
                let file = asked.file();
                let change = change_of(session, xid, file, Wanted::Asked(asked));
                let recalling = self.recalls(alloc, file, change.asker())?;
                Ok(self.wait(change, recalling))
            }
        }
    }
}
