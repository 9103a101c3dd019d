//! Bytes that are on their way, delivered in any number. `specs/Queue.antt` says what an end is given
//! of them, and how many bytes a line asks for.
//!
//! They stand in pieces, each the record of a message. A piece that is delivered whole goes on as it is,
//! and a part of one is copied once; what is left is never moved.

ghost use Rattle.std.specs.Prelude.{◌≡◌, ℕ, ◌+◌, ◌<◌, ◌≤◌, ◌++◌, [], length, take, drop, IfOk, OnOk};
ghost use Rattle.rpc_record.specs.Records.{fed};
ghost use Rattle.trace_wires.specs.Queue.{IsGiven, IsNext, CanGive, is_none, count_of};

use lb_base::items::{Bytes, Items};
use rpc_record::record::Record;
use rpc_record::records::Records;
use std::alloc::{AllocError, Global};
use std::collections::VecDeque;
use std::marker::Model;
use trace_text::line::Amount;

/// What an end was given of a queue.
#[derive(Drop)]
struct Given {
    /// How many bytes.
    pub count: u64,
    /// The records that they completed.
    pub records: Items<Record>,
}

/// Gives an end the next bytes of a piece, at most so many.
fn give_part(
    alloc: Global,
    piece: &[u8],
    done: &mut usize,
    most: u64,
    end: &mut Records,
) -> Result<Given, AllocError>
    requires some { done.old < length piece.now }
    requires more { 0 < most }
    ensures { IfOk result (λ g. IsGiven (drop done.old piece.now) (drop done.new piece.now) end.old end.new most g) }
{
    let rest = piece.split_at(*done).1;
    let count = if most < rest.len() as u64 {
        most as usize
    } else {
        rest.len()
    };
    let fed = end.feed(alloc, rest.split_at(count).0)?;
    *done += count;
    Ok(Given {
        count: count as u64,
        records: fed.records,
    })
}

/// Gives an end a whole piece.
fn give_whole(alloc: Global, piece: Bytes, end: &mut Records) -> Result<Given, AllocError>
    ensures count { IfOk result (λ g. g.count ≡ length piece) }
    ensures end { OnOk result (end.new ≡ (fed end.old piece).0) }
    ensures records { IfOk result (λ g. g.records ≡ (fed end.old piece).1.records) }
{
    let count = piece.len() as u64;
    let fed = end.take(alloc, piece)?;
    Ok(Given {
        count,
        records: fed.records,
    })
}

/// Bytes that are on their way.
pub struct Queue {
    /// A piece of which a part may have been delivered.
    begun: Bytes,
    /// How many of its bytes were.
    done: usize,
    /// The pieces behind it, none of them empty.
    behind: VecDeque<Bytes>,
}

// Written by hand, it is proved here alone; derived, each crate above would prove how each part is
// dropped.
impl Drop for Queue {
    fn drop(self) {
        let Queue {
            begun,
            done: _,
            behind,
        } = self;
        drop(begun);
        drop(behind);
    }
}

impl Model for Queue {
    ghost use Rattle.std.specs.Prelude.{◌<◌, ◌++◌, List, ℕ, All, drop, length};
    ghost use Rattle.std.specs.List.{concat};

    ghost Value = { List ℕ };

    ghost view = { λ q. drop q.done q.begun ++ concat q.behind.items };

    ghost invariant = { λ q. All (λ piece. 0 < length piece) q.behind.items };
}

impl Queue {
    /// Nothing is on its way. It takes no memory.
    pub fn new(alloc: Global) -> Queue
        ensures { result ≡ [] }
    {
        Queue {
            begun: Bytes::new(alloc),
            done: 0,
            behind: VecDeque::new(alloc),
        }
    }

    /// Whether nothing is on its way.
    pub fn is_empty(&self) -> bool
        ensures { result ≡ is_none self.now }
    {
        if self.done < self.begun.len() {
            return false;
        }
        match self.behind.front() {
            None => true,
            Some(_) => false,
        }
    }

    /// Puts a piece on its way. The one error is running out of memory.
    pub fn put(&mut self, piece: Bytes) -> Result<(), AllocError>
        ensures { OnOk result (self.new ≡ self.old ++ piece) }
    {
        if piece.is_empty() {
            return Ok(());
        }
        self.behind.push_back(piece)?;
        Ok(())
    }

    /// Gives an end the next bytes, at most so many: a whole piece, or a part of one.
    fn give(
        &mut self,
        alloc: Global,
        most: u64,
        end: &mut Records,
    ) -> Result<Option<Given>, AllocError>
        requires { 0 < most }
        ensures { IfOk result (λ next. IsNext self.old self.new end.old end.new most next) }
    {
        if self.done < self.begun.len() {
            let given = give_part(alloc, self.begun.as_slice(), &mut self.done, most, end)?;
            return Ok(Some(given));
        }
        let Some(piece) = self.behind.pop_front() else {
            return Ok(None);
        };
        if piece.len() as u64 <= most {
            let given = give_whole(alloc, piece, end)?;
            return Ok(Some(given));
        }
        self.begun = piece;
        self.done = 0;
        let given = give_part(alloc, self.begun.as_slice(), &mut self.done, most, end)?;
        Ok(Some(given))
    }
}

/// At most how many bytes may be given, before any were.
fn most_of(amount: Amount) -> u64
    ensures { CanGive amount 0 result }
{
    match amount {
        Amount::All => u64::MAX,
        Amount::Bytes(count) => count,
    }
}

/// At most how many bytes may be given yet, where so many more were.
fn left_of(amount: Amount, most: u64, count: u64) -> u64
    requires { count ≤ most }
    ensures { (given : ℕ) → CanGive amount given most → CanGive amount (given + count) result }
{
    match amount {
        Amount::All => most,
        Amount::Bytes(_) => most - count,
    }
}

/// Delivers so many bytes of a queue to an end, or as many as there are, and gives the records that
/// they complete. The one error is running out of memory.
pub fn deliver(
    alloc: Global,
    queue: &mut Queue,
    amount: Amount,
    end: &mut Records,
) -> Result<Items<Record>, AllocError>
    ensures records { IfOk result (λ records. records ≡ (fed end.old (take (count_of amount (length queue.old)) queue.old)).1.records) }
    ensures rest { OnOk result (queue.new ≡ drop (count_of amount (length queue.old)) queue.old) }
    ensures end { OnOk result (end.new ≡ (fed end.old (take (count_of amount (length queue.old)) queue.old)).0) }
{
    let mut records = end.feed(alloc, &[])?.records.into_vec();
    let mut most = most_of(amount);
    'pieces: while most > 0 {
        let Some(given) = queue.give(alloc, most, end)? else {
            return Ok(Items::from_vec(records));
        };
        most = left_of(amount, most, given.count);
        let mut more = given.records.into_vec();
        records.append(&mut more)?;
    }
    Ok(Items::from_vec(records))
}
