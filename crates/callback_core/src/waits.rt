//! The pending changes, and the leases that they wait for. `specs/Waits.antt` has the words of the
//! contracts.

ghost use Rattle.std.specs.Prelude.{◌≡◌, ◌+◌, ◌<◌, ◌≤◌, ◌^◌, ◌∷◌, ◌++◌, [], OnOk, OnErr, IfOk, IsOk, IsSome, ◌⊎◌, false, length};
ghost use Rattle.lease_table.specs.Leases.{grant, without_recalled, without_ended, without_session, lease_at};
ghost use Rattle.callback_core.specs.BackCalls.{all_marked};
ghost use Rattle.callback_core.specs.Waits.{recalls_of, ready, change_of, has_wait, waits_on, without, without_made, places_of, entries_of, bytes_of};

use crate::back_calls::Asked;
use crate::{asking, ready, sizes};
use lb_base::items::Items;
use lease_rules::change::{PendingChange, Recall};
use lease_rules::leaving::{KeepsLeases, hang, take_out};
use lease_table::table::Leases;
use std::alloc::{AllocError, Global};
use std::marker::Model;

/// The pending changes, in the order of their arrival, and the leases. Contracts see both as
/// lists, and how many leases more may be granted for certain, beside the one that each change has
/// its place for.
#[derive(Drop)]
pub struct Waits<P: Drop> {
    leases: Leases,
    /// At most one of a session.
    waits: Vec<PendingChange<P>>,
}

impl<P: Drop> Model for Waits<P> {
    ghost use Rattle.std.specs.Prelude.{◌-◌, ◌<◌, ◌≤◌, ◌^◌, length, min, vec_len, vec_capacity};
    ghost use Rattle.callback_core.specs.Waits.{Waiting, AreBounded};

    ghost Value = { Waiting P };

    ghost view = { λ w. record {
      leases = w.leases.leases;
      spare = w.leases.room - length w.waits.items;
      room = min (w.leases.room - length w.waits.items)
          (vec_capacity w.waits - vec_len w.waits);
      waits = w.waits.items;
    } };

    ghost invariant = { λ w. AreBounded w.waits.items w.leases.room };
}

impl<P: Drop> Waits<P> {
    /// No change that waits, and no lease. It takes no memory.
    pub fn new(alloc: Global) -> Waits<P>
        ensures waits { result.waits ≡ [] }
        ensures leases { result.leases ≡ [] }
    {
        Waits {
            leases: Leases::new(alloc),
            waits: Vec::new(alloc),
        }
    }

    /// Makes room for one change more, and for the lease that is granted when it is made. The one error
    /// is running out of memory, which never comes where there is room; nothing else changes.
    pub fn make_room(&mut self) -> Result<(), AllocError>
        ensures ok { OnOk result (0 < self.new.room) }
        ensures sure { 0 < self.old.room → IsOk result }
        ensures room { self.old.room ≤ self.new.room }
        ensures spare { self.old.spare ≤ self.new.spare }
        ensures waits { self.new.waits ≡ self.old.waits }
        ensures leases { self.new.leases ≡ self.old.leases }
    {
        asking::make_room(&mut self.leases, &mut self.waits)
    }

    /// A change waits, for which there is room. It takes no memory. The recalls that are due are those
    /// of `recalls_due`, with the change's asker.
    pub fn wait(&mut self, change: PendingChange<P>)
        requires new { has_wait self.old.waits change.session ≡ false }
        requires room { 0 < self.old.room }
        requires entries { entries_of self.old.waits + change.entries < 2 ^ 64 }
        requires bytes { bytes_of self.old.waits + change.bytes < 2 ^ 64 }
        ensures waits { self.new.waits ≡ self.old.waits ++ change ∷ [] }
        ensures leases { self.new.leases ≡ self.old.leases }
        ensures room { self.new.room + 1 ≡ self.old.room }
        ensures spare { self.new.spare + 1 ≡ self.old.spare }
    {
        asking::push(&mut self.waits, change);
    }

    /// Takes out the change that is made next at this reading of the server's clock, if there is
    /// one. A further lease has its place then. It takes no memory.
    pub fn settle(&mut self, now: u64) -> Option<PendingChange<P>>
        ensures ready { result ≡ ready self.old.leases now self.old.waits }
        ensures waits { self.new.waits ≡ without_made self.old.waits result }
        ensures leases { self.new.leases ≡ self.old.leases }
        ensures room { self.new.room ≡ self.old.room + places_of result }
        ensures spare { self.new.spare ≡ self.old.spare + places_of result }
    {
        let at = ready::place_of_ready(&self.waits, &self.leases, now);
        take_out(&mut self.waits, at)
    }

    /// Takes out the change of a session whose connection is lost, if it has one. Its leases stay.
    /// It takes no memory.
    pub fn hang(&mut self, session: u32) -> Option<PendingChange<P>>
        ensures change { result ≡ change_of self.old.waits session }
        ensures waits { self.new.waits ≡ without self.old.waits session }
        ensures leases { self.new.leases ≡ self.old.leases }
        ensures room { self.new.room ≡ self.old.room + places_of result }
        ensures spare { self.new.spare ≡ self.old.spare + places_of result }
    {
        let at = ready::place_of(&self.waits, session);
        hang(&mut self.leases, &mut self.waits, at)
    }

    /// Whether a change of the session waits. It takes no memory.
    pub fn has(&self, session: u32) -> bool
        ensures { result ≡ has_wait self.now.waits session }
    {
        ready::has(&self.waits, session)
    }

    /// Whether a change of the file waits. It takes no memory.
    pub fn waits_on(&self, file: u64) -> bool
        ensures { result ≡ waits_on self.now.waits file }
    {
        ready::waits_on(&self.waits, file)
    }

    /// How many entries of the journal, and how many bytes of the tree, the pending changes will
    /// make. It takes no memory.
    pub fn sizes(&self) -> (u64, u64)
        ensures { result ≡ (entries_of self.now.waits, bytes_of self.now.waits) }
    {
        (sizes::entries_of(&self.waits), sizes::bytes_of(&self.waits))
    }

    /// Makes room for so many leases, beside the one that each change has its place for. A change
    /// that comes takes one of these places. The one error is running out of memory, which never comes where
    /// there is room; no lease changes.
    pub fn reserve(&mut self, count: usize) -> Result<(), AllocError>
        ensures ok { OnOk result (count ≤ self.new.spare) }
        ensures leases { self.new.leases ≡ self.old.leases }
        ensures spare { self.old.spare ≤ self.new.spare }
        ensures room { self.old.room ≤ self.new.room }
        ensures sure { count ≤ self.old.spare → IsOk result }
        ensures waits { self.new.waits ≡ self.old.waits }
    {
        asking::reserve(&mut self.leases, &self.waits, count)
    }

    /// Grants a lease on a file to a session, in place of the one that it has on it, from this
    /// reading of the server's clock on, and for this term, both in milliseconds. The one error is
    /// running out of memory, which never comes where the session has a lease on the file, or right after a
    /// change was taken out; all then stays as it was.
    pub fn grant(&mut self, session: u32, file: u64, now: u64, term: u32) -> Result<(), AllocError>
        requires { now + term < 2 ^ 64 }
        ensures ok { OnOk result (self.new.leases ≡ grant self.old.leases session file (now + term)) }
        ensures err { OnErr result (self.new.leases ≡ self.old.leases) }
        ensures sure { IsSome (lease_at self.old.leases session file) ⊎ (0 < self.old.spare) → IsOk result }
        ensures same_spare { IsSome (lease_at self.old.leases session file) → self.old.spare ≤ self.new.spare }
        ensures err_spare { OnErr result (self.old.spare ≤ self.new.spare) }
        ensures spare { self.old.spare ≤ self.new.spare + 1 }
        ensures same_room { IsSome (lease_at self.old.leases session file) → self.old.room ≤ self.new.room }
        ensures err_room { OnErr result (self.old.room ≤ self.new.room) }
        ensures room { self.old.room ≤ self.new.room + 1 }
        ensures waits { self.new.waits ≡ self.old.waits }
    {
        asking::grant(&mut self.leases, &self.waits, session, file, now, term)
    }

    /// The session answered the RECALL with this xid: the lease that remembers it is no more, and
    /// no other. It takes no memory.
    pub fn answered(&mut self, session: u32, xid: u32)
        ensures leases { self.new.leases ≡ without_recalled self.old.leases session xid }
        ensures spare { self.old.spare ≤ self.new.spare }
        ensures room { self.old.room ≤ self.new.room }
        ensures waits { self.new.waits ≡ self.old.waits }
    {
        self.leases.answered(session, xid);
    }

    /// The session has no lease any more. It takes no memory.
    pub fn give_up_all(&mut self, session: u32)
        ensures leases { self.new.leases ≡ without_session self.old.leases session }
        ensures spare { self.old.spare ≤ self.new.spare }
        ensures room { self.old.room ≤ self.new.room }
        ensures waits { self.new.waits ≡ self.old.waits }
    {
        self.leases.give_up_all(session);
    }

    /// Forgets the leases that have ended at this reading of the server's clock. It takes no
    /// memory.
    pub fn forget_ended(&mut self, now: u64)
        ensures leases { self.new.leases ≡ without_ended self.old.leases now }
        ensures spare { self.old.spare ≤ self.new.spare }
        ensures room { self.old.room ≤ self.new.room }
        ensures waits { self.new.waits ≡ self.old.waits }
    {
        self.leases.forget_ended(now);
    }

    /// The recalls that are due where this session asks for a change of the file: of all leases that
    /// block it and that no RECALL asked for. Session 0 is nobody. The one error is running out of memory.
    pub fn recalls_due(
        &self,
        alloc: Global,
        file: u64,
        session: u32,
        now: u64,
    ) -> Result<Items<Recall>, AllocError>
        ensures { IfOk result (λ recalls. recalls ≡ recalls_of self.now.leases session file now) }
    {
        asking::recalls_of(alloc, &self.leases, file, session, now)
    }

    /// Each lease that a session was asked for remembers the xid of the RECALL. It takes no memory.
    pub fn mark_all(&mut self, asked: &[Asked])
        ensures leases { self.new.leases ≡ all_marked self.old.leases asked.now }
        ensures spare { self.old.spare ≤ self.new.spare }
        ensures room { self.old.room ≤ self.new.room }
        ensures waits { self.new.waits ≡ self.old.waits }
    {
        asking::mark_all(&mut self.leases, asked);
    }

    /// How many changes wait. It takes no memory.
    pub fn len(&self) -> usize
        ensures { result ≡ length self.now.waits }
    {
        self.waits.len()
    }
}
