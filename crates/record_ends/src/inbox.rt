//! Records out of the bytes that come on a link. `specs/Ends.antt` states which they are.

ghost use Rattle.std.specs.Prelude.{◌≡◌, ℕ, ◌≤◌, ◌<◌, ◌↔◌, List, [], length, None, IfOk, IsTrue, OnOk, OnErr, IsErrOf};
ghost use Rattle.std.specs.Io.KnownBytes.{Consumes, IsAtEnd};
ghost use Rattle.lb_base.specs.Causes.{Rose};
ghost use Rattle.rpc_record.specs.Records.{fed};
ghost use Rattle.record_ends.specs.Ends.{Kept, nothing_kept, Gives, Takes};
ghost use Rattle.record_ends.specs.declared.end.End.TheVariants as ends;

use crate::end::End;
use lb_base::source::piece_room;
use links::link::Link;
use rpc_record::record::Record;
use rpc_record::records::{Fed, Records};
use std::alloc::{AllocError, Global};
use std::collections::VecDeque;
use std::marker::Model;

/// The end of a link at which records come out of its bytes.
pub struct Inbox {
    /// What came behind the last whole record.
    end: Records,
    /// The records that came and were not given yet.
    waiting: VecDeque<Record>,
    /// Whether no record can follow those.
    spoilt: bool,
    /// Room for the next piece.
    room: Vec<u8>,
}

// By hand: docs/proving/dropping.md.
impl Drop for Inbox {
    fn drop(self) {
        let Inbox {
            end,
            waiting,
            spoilt: _,
            room,
        } = self;
        drop(end);
        drop(waiting);
        drop(room)
    }
}

impl Model for Inbox {
    ghost use Rattle.std.specs.Prelude.{◌≡◌, ◌<◌, length};
    ghost use Rattle.std.specs.Option.{is_some};
    ghost use Rattle.record_ends.specs.Ends.{Kept};

    ghost Value = { Kept };

    ghost view = { λ i. record { waiting = i.waiting.items; unread = i.end } };

    ghost invariant = { λ i. (i.spoilt ≡ is_some i.end.spoilt) × (0 < length i.room.items) };
}

/// Takes a piece of what comes into the room, and feeds it to the end.
fn take_piece<L: Link>(
    alloc: Global,
    end: &mut Records,
    room: &mut [u8],
    link: &mut L,
) -> Result<Fed, End>
    requires { 0 < length room.old }
    ensures given { IfOk result (λ given. (bytes : List ℕ) × Consumes (L.left link.old) (L.left link.new) bytes × (fed end.old bytes ≡ (end.new, given))) }
    ensures ended { IsErrOf result ends.InputEnd → Consumes (L.left link.old) (L.left link.new) [] × IsAtEnd (L.left link.new) }
    ensures failed { IsErrOf result ends.Failed → Consumes (L.left link.old) (L.left link.new) [] × Rose (L.faults link.old) (L.faults link.new) }
    ensures sound { IsErrOf result ends.Spoilt → ⊥ }
    ensures stays { OnErr result (end.new ≡ end.old) }
    ensures out { L.held link.new ≡ L.held link.old }
    ensures later { L.faults link.old ≤ L.faults link.new }
{
    let taken = link.take(room)?;
    if taken == 0 {
        return Err(End::InputEnd);
    }
    let given = end.feed(alloc, &room[..taken])?;
    Ok(given)
}

impl Inbox {
    /// Nothing has come yet. The one error is running out of memory.
    pub fn new(alloc: Global) -> Result<Inbox, AllocError>
        ensures { IfOk result (λ inbox. inbox ≡ nothing_kept) }
    {
        let room = piece_room(alloc)?;
        Ok(Inbox {
            end: Records::new(alloc),
            waiting: VecDeque::new(alloc),
            spoilt: false,
            room,
        })
    }

    /// Whether no record is there that wasn't given yet, so that the next one has to come. It takes no
    /// bytes.
    pub fn is_empty(&self) -> bool
        ensures { IsTrue result ↔ (self.now.waiting ≡ []) }
    {
        self.waiting.is_empty()
    }

    /// Takes a piece of what comes, and keeps the records that it completes.
    fn fill<L: Link>(&mut self, alloc: Global, link: &mut L) -> Result<(), End>
        requires { self.old.waiting ≡ [] }
        ensures ok { OnOk result ((bytes : List ℕ) × Consumes (L.left link.old) (L.left link.new) bytes × Takes self.old bytes self.new) }
        ensures ended { IsErrOf result ends.InputEnd → Consumes (L.left link.old) (L.left link.new) [] × IsAtEnd (L.left link.new) × (self.new ≡ self.old) × (self.old.unread.spoilt ≡ None) }
        ensures failed { IsErrOf result ends.Failed → Consumes (L.left link.old) (L.left link.new) [] × (self.new ≡ self.old) × Rose (L.faults link.old) (L.faults link.new) }
        ensures spoilt { IsErrOf result ends.Spoilt → Consumes (L.left link.old) (L.left link.new) [] × (self.new ≡ self.old) × ¬ (self.old.unread.spoilt ≡ None) }
        ensures out { L.held link.new ≡ L.held link.old }
        ensures later { L.faults link.old ≤ L.faults link.new }
    {
        if self.spoilt {
            return Err(End::Spoilt);
        }
        let given = take_piece(alloc, &mut self.end, &mut self.room, link)?;
        self.spoilt = given.spoilt.is_some();
        self.waiting = VecDeque::from(given.records.into_vec());
        Ok(())
    }

    /// The next record that comes on the link. It takes bytes only where none is there yet, and may
    /// wait for them.
    ///
    /// Whatever bytes are taken at once, the records are those of all bytes that come, in order.
    /// `InputEnd` comes where the input ended, and `Spoilt` where no record can follow, once all
    /// records before that were given; `Failed` comes only where the link's count rose, and no
    /// record is lost then. After `Memory` the bytes that were taken last may be gone.
    pub fn next<L: Link>(&mut self, alloc: Global, link: &mut L) -> Result<Record, End>
        ensures given { IfOk result (λ r. (bytes : List ℕ) × Consumes (L.left link.old) (L.left link.new) bytes × Gives self.old bytes r self.new) }
        ensures ended { IsErrOf result ends.InputEnd → (bytes : List ℕ)
            × Consumes (L.left link.old) (L.left link.new) bytes × Takes self.old bytes self.new
            × IsAtEnd (L.left link.new) × (self.new.waiting ≡ [])
            × (self.new.unread.spoilt ≡ None) }
        ensures failed { IsErrOf result ends.Failed → (bytes : List ℕ)
            × Consumes (L.left link.old) (L.left link.new) bytes × Takes self.old bytes self.new
            × Rose (L.faults link.old) (L.faults link.new) }
        ensures spoilt { IsErrOf result ends.Spoilt → (bytes : List ℕ)
            × Consumes (L.left link.old) (L.left link.new) bytes × Takes self.old bytes self.new
            × (self.new.waiting ≡ []) × ¬ (self.new.unread.spoilt ≡ None) }
        ensures out { L.held link.new ≡ L.held link.old }
        ensures later { L.faults link.old ≤ L.faults link.new }
    {
        for _round in 0..u64::MAX {
            match self.waiting.pop_front() {
                Some(record) => return Ok(record),
                None => self.fill(alloc, link)?,
            }
        }
        Err(End::Memory)
    }
}
