//! The table of leases. `specs/Leases.antt` has the words of its contracts.

ghost use Rattle.std.specs.Prelude.{◌≡◌, ◌+◌, ◌<◌, ◌≤◌, ◌^◌, [], OnOk, OnErr, IfOk, IsOk, IsSome, is_some, ◌⊎◌, length};
ghost use Rattle.lease_table.specs.Leases.{grant, marked, without_recalled, without_ended, without_session, is_blocked, others, lease_at};

use crate::keyed::{Ends, Keyed, Recalls};
use crate::map::ReservedMap;
use crate::{blocking, changes, farewell};
use lb_base::items::Items;
use lease_rules::lease::end_of;
use lease_rules::leaving::KeepsLeases;
use std::alloc::{AllocError, Global};
use std::marker::Model;

/// The leases that a server has granted, by file, and by session within a file. Contracts see the
/// list of them, and how many more have their place already.
#[derive(Drop)]
pub struct Leases {
    leases: Keyed,
    /// The RECALLs that they remember. Each lease has a place here.
    recalls: Recalls,
    /// When they end. Each lease has a place here too.
    ends: Ends,
}

impl Model for Leases {
    ghost use Rattle.std.specs.Prelude.{◌-◌, ◌≤◌, length, min};
    ghost use Rattle.lease_table.specs.Leases.{Table};
    ghost use Rattle.lease_table.specs.Kept.{AreKept, leases_of};

    ghost Value = { Table };

    ghost view = { λ t. record { leases = leases_of t.leases.entries; room = min (t.leases.places - t.leases.taken) (min t.recalls.places t.ends.places - length t.leases.entries) } };

    ghost invariant = { λ t. AreKept t.leases.entries t.recalls.entries t.ends.entries × (length t.leases.entries ≤ t.recalls.places) × (length t.leases.entries ≤ t.ends.places) };
}

impl Leases {
    /// No lease. It takes no memory.
    pub fn new(alloc: Global) -> Leases
        ensures { result.leases ≡ [] }
    {
        Leases {
            leases: ReservedMap::new(alloc),
            recalls: ReservedMap::new(alloc),
            ends: ReservedMap::new(alloc),
        }
    }

    /// How many more leases have their place already.
    pub fn room(&self) -> usize
        ensures { result ≡ self.now.room }
    {
        let beside = self.recalls.places().min(self.ends.places());
        self.leases.free().min(beside - self.leases.len())
    }

    /// Makes room for so many further leases. The one error is running out of memory; no lease
    /// changes.
    pub fn reserve(&mut self, count: usize) -> Result<(), AllocError>
        ensures ok { OnOk result (count ≤ self.new.room) }
        ensures leases { self.new.leases ≡ self.old.leases }
        ensures room { self.old.room ≤ self.new.room }
        ensures sure { count ≤ self.old.room → IsOk result }
    {
        changes::reserve(&mut self.leases, &mut self.recalls, &mut self.ends, count)
    }

    /// Grants a lease on a file to a session, in place of the one that it has on it, from this
    /// reading of the server's clock on, and for this term, both in milliseconds. The one error is
    /// running out of memory, which never comes where there is room or the session has a lease on the file;
    /// all then stays as it was.
    pub fn grant(&mut self, session: u32, file: u64, now: u64, term: u32) -> Result<(), AllocError>
        requires { now + term < 2 ^ 64 }
        ensures ok { OnOk result (self.new.leases ≡ grant self.old.leases session file (now + term)) }
        ensures err { OnErr result (self.new.leases ≡ self.old.leases) }
        ensures room { self.old.room ≤ self.new.room + 1 }
        ensures same_room { IsSome (lease_at self.old.leases session file) → self.old.room ≤ self.new.room }
        ensures err_room { OnErr result (self.old.room ≤ self.new.room) }
        ensures sure { IsSome (lease_at self.old.leases session file) ⊎ (0 < self.old.room) → IsOk result }
    {
        let ends = end_of(now, term);
        changes::grant(
            &mut self.leases,
            &mut self.recalls,
            &mut self.ends,
            session,
            file,
            ends,
        )
    }

    /// Whether the session has a lease on the file, recalled or not, and ended or not. It takes no
    /// memory.
    pub fn has(&self, session: u32, file: u64) -> bool
        ensures { result ≡ is_some (lease_at self.now.leases session file) }
    {
        changes::has(&self.leases, session, file)
    }

    /// The session's lease on the file remembers the xid of the RECALL that asks for it, if it is
    /// there. It takes no memory.
    pub fn mark_recalled(&mut self, session: u32, file: u64, xid: u32)
        ensures leases { self.new.leases ≡ marked self.old.leases session file xid }
        ensures room { self.old.room ≤ self.new.room }
    {
        changes::mark(
            &mut self.leases,
            &mut self.recalls,
            &mut self.ends,
            session,
            file,
            xid,
        );
    }

    /// The session answered the RECALL with this xid: the lease that remembers it is no more, and
    /// no other. It takes no memory.
    pub fn answered(&mut self, session: u32, xid: u32)
        ensures leases { self.new.leases ≡ without_recalled self.old.leases session xid }
        ensures room { self.old.room ≤ self.new.room }
    {
        changes::give_up(
            &mut self.leases,
            &mut self.recalls,
            &mut self.ends,
            session,
            xid,
        );
    }

    /// The session has no lease any more. It takes no memory, and its time is some passes over the
    /// leases, and a look-up for each that goes.
    pub fn give_up_all(&mut self, session: u32)
        ensures leases { self.new.leases ≡ without_session self.old.leases session }
        ensures room { self.old.room ≤ self.new.room }
    {
        farewell::give_up_all(&mut self.leases, &mut self.recalls, &mut self.ends, session);
    }

    /// The sessions, in their order, whose leases on the file are to be asked for back where this
    /// session asks for a change of it: those of others that have not ended at this reading of the
    /// server's clock, and that no RECALL asked for. Session 0 is nobody, so it leaves none out. The
    /// one error is running out of memory.
    pub fn others(
        &self,
        alloc: Global,
        file: u64,
        session: u32,
        now: u64,
    ) -> Result<Items<u32>, AllocError>
        ensures { IfOk result (λ sessions. sessions ≡ others self.now.leases session file now) }
    {
        blocking::others(alloc, &self.leases, file, session, now)
    }

    /// Whether a lease of another session than this one on the file has not ended at this reading
    /// of the server's clock, recalled or not. Session 0 is nobody, so it leaves none out. It takes
    /// no memory.
    pub fn blocked(&self, file: u64, session: u32, now: u64) -> bool
        ensures { result ≡ is_blocked self.now.leases session file now }
    {
        blocking::blocked(&self.leases, file, session, now)
    }
}

impl KeepsLeases for Leases {
    ghost leases = { λ t. t.leases };

    ghost room = { λ t. t.room };

    /// Forgets the leases that have ended at this reading of the server's clock. It takes no
    /// memory.
    fn forget_ended(&mut self, now: u64)
        ensures leases { self.new.leases ≡ without_ended self.old.leases now }
        ensures room { self.old.room ≤ self.new.room }
    {
        changes::forget_ended(&mut self.leases, &mut self.recalls, &mut self.ends, now);
    }
}
