//! The outboxes of all sessions. `specs/Boxes.antt` states what they hold.

ghost use Rattle.std.specs.Prelude.{◌≡◌, ℕ, List, [], ◌∷◌, ◌++◌, OnOk, OnErr, IfSome, IfNone, Some, None, IsTrue, false, ◌↔◌};
ghost use Rattle.slab.specs.Slab.{get};
ghost use Rattle.server_held.specs.Boxes.{AllEmpty, Holds, Lacks, KeepsOthers};
ghost use Rattle.server_held.specs.declared.boxes.Outbox.{Outbox};

use crate::boxes::{
    Outbox, close_in, is_full_in, is_still_in, key_of, open_in, owner_in, put_in, take_in,
};
use lb_base::items::Items;
use slab::Slab;
use std::alloc::{AllocError, Global};
use std::marker::Model;

/// The outboxes of sessions.
pub struct Outboxes<T> {
    boxes: Slab<Outbox<T>>,
    alloc: Global,
}

// By hand: docs/proving/dropping.md.
impl<T: Drop> Drop for Outboxes<T> {
    fn drop(self) {
        let Outboxes { boxes, alloc: _ } = self;
        drop(boxes);
    }
}

impl<T> Model for Outboxes<T> {
    ghost use Rattle.slab.specs.Slab.{Slab};
    ghost use Rattle.server_held.specs.Boxes.{IsUnique};
    ghost use Rattle.server_held.specs.declared.boxes.Outbox.{Outbox};

    ghost Value = { Slab (Outbox T) };

    ghost view = { λ o. o.boxes };

    ghost invariant = { λ o. IsUnique o.boxes };
}

impl<T: Drop> Outboxes<T> {
    /// No session has a box. It takes no memory.
    pub fn new(alloc: Global) -> Outboxes<T>
        ensures { (session : ℕ) → Lacks result session }
    {
        Outboxes {
            boxes: Slab::new(alloc),
            alloc,
        }
    }

    /// Whether the session has a box.
    pub fn has(&self, session: u32) -> bool
        ensures some { IsTrue result → (messages : List T) × Holds self.now session messages }
        ensures none { result ≡ false → Lacks self.now session }
    {
        key_of(&self.boxes, session).is_some()
    }

    /// The place of a session's box, where it has one. It stays there until it is closed.
    pub fn place(&self, session: u32) -> Option<usize>
        ensures some { IfSome result (λ place. (messages : List T) × (get self.now place ≡ Some (record { session = session; messages = messages }))) }
        ensures none { IfNone result (Lacks self.now session) }
    {
        key_of(&self.boxes, session)
    }

    /// Whose box is at a place, where there is one.
    pub fn owner_at(&self, place: usize) -> Option<u32>
        ensures some { (one : Outbox T) → get self.now place ≡ Some one → result ≡ Some one.session }
        ensures none { get self.now place ≡ None → result ≡ None }
    {
        owner_in(&self.boxes, place)
    }

    /// Whether there is something in the box at a place, where there is one.
    pub fn is_full_at(&self, place: usize) -> bool
        ensures some { (one : Outbox T) → get self.now place ≡ Some one → IsTrue result ↔ ¬ (one.messages ≡ []) }
        ensures none { get self.now place ≡ None → result ≡ false }
    {
        is_full_in(&self.boxes, place)
    }

    /// Whether nothing is in any box.
    pub fn is_still(&self) -> bool
        ensures { IsTrue result ↔ AllEmpty self.now }
    {
        is_still_in(&self.boxes)
    }

    /// Gives a session an empty box, in place of one that it had. The one error is running out of
    /// memory; the session has none then.
    pub fn open(&mut self, session: u32) -> Result<(), AllocError>
        ensures opened { OnOk result (Holds self.new session []) }
        ensures err { OnErr result (Lacks self.new session) }
        ensures others { KeepsOthers self.old self.new session }
    {
        open_in(self.alloc, &mut self.boxes, session)
    }

    /// Adds a message at the end of a session's box; where it has none, the message goes. The one
    /// error is running out of memory, and changes nothing.
    pub fn put(&mut self, session: u32, message: T) -> Result<(), AllocError>
        ensures put { (messages : List T) → Holds self.old session messages → OnOk result (Holds self.new session (messages ++ message ∷ [])) }
        ensures kept { (messages : List T) → Holds self.old session messages → OnErr result (Holds self.new session messages) }
        ensures none { Lacks self.old session → Lacks self.new session }
        ensures others { KeepsOthers self.old self.new session }
    {
        put_in(&mut self.boxes, session, message)
    }

    /// All messages of a session's box, in order; the box is empty then. It takes no memory.
    pub fn take(&mut self, session: u32) -> Items<T>
        ensures taken { (messages : List T) → Holds self.old session messages → (result ≡ messages) × Holds self.new session [] }
        ensures none { Lacks self.old session → (result ≡ []) × Lacks self.new session }
        ensures others { KeepsOthers self.old self.new session }
    {
        take_in(self.alloc, &mut self.boxes, session)
    }

    /// Takes away a session's box, with all that is in it. It takes no memory.
    pub fn close(&mut self, session: u32)
        ensures gone { Lacks self.new session }
        ensures others { KeepsOthers self.old self.new session }
    {
        close_in(&mut self.boxes, session);
    }
}
