//! The slots of a file's chunks while it is fetched: which chunks have come, and their bytes. Chunks that
//! come in their order lie one behind another in one buffer. Once all are here that buffer is the file's content,
//! and none is copied then. What lies there is hashed as a whole while more comes, by whoever has time for it.
//!
//! Contracts see a slot for each chunk, with its bytes where they have come. `specs/Slots.antt` says how these
//! lie.
#![tactic(auto)]

ghost use Rattle.std.specs.Prelude.{◌≡◌, ◌<◌, ◌≤◌, ◌+◌, ◌++◌, ◌∷◌, [], length, drop, replicate, slice_set, Option, Some, None, List, ℕ, IfOk, IfSome, unwrap_or, true, false};
ghost use Rattle.chunk_slots.specs.Slots.{behind, first_len, has_piece, slots_bytes, slots_of, total};

use cut_bytes::ahead::Ahead;
use lb_base::items::{Bytes, Items};
use std::alloc::{AllocError, Global};
use std::marker::Model;

/// The least that is lent to be hashed, in bytes.
const LENT_LEAST: usize = 1_048_576;

/// The least that is to come yet where something is lent, so that it is back before the last byte comes.
const LEFT_LEAST: u64 = 2_097_152;

/// A slot for each chunk of a file. Contracts see their list, each with the bytes of its chunk where those have
/// come.
pub struct Slots {
    /// The bytes of the first chunks, one behind the other.
    front: Vec<u8>,
    /// How many bytes each of these chunks has there.
    lens: Vec<usize>,
    /// A slot for each chunk, with bytes that aren't in front, or came again.
    apart: Vec<Option<Bytes>>,
    /// What was hashed of the bytes in front, unless it is lent: a hint.
    ahead: Option<Ahead>,
    /// How many of them are lent to be hashed, until they are back.
    lent: Option<usize>,
}

/// By hand, so that the crates above prove nothing of how the parts are dropped.
impl Drop for Slots {
    fn drop(self) {
        let Slots {
            front,
            lens,
            apart,
            ahead,
            lent: _lent,
        } = self;
        drop(front);
        drop(lens);
        drop(apart);
        drop(ahead);
    }
}

impl Model for Slots {
    ghost use Rattle.std.specs.Prelude.{◌≡◌, ℕ, List, Option, length};
    ghost use Rattle.chunk_slots.specs.Slots.{slots_of, total};

    ghost Value = { List (Option (List ℕ)) };

    ghost view = { λ s. slots_of s.front.items s.lens.items s.apart.items };

    ghost invariant = { λ s. total s.lens.items ≡ length s.front.items };
}

/// So many slots with nothing in them.
fn empty_slots(alloc: Global, count: usize) -> Result<Vec<Option<Bytes>>, AllocError>
    ensures { IfOk result (λ slots. slots.items ≡ replicate count None) }
{
    let mut slots = Vec::with_capacity(alloc, count)?;
    for _i in 0..count {
        slots.push(None)?;
    }
    Ok(slots)
}

/// Whether the bytes of the chunk at this place are in front now, behind the others. They aren't where another
/// comes next there, or memory runs out, and then all is as before.
fn add_behind(front: &mut Vec<u8>, lens: &mut Vec<usize>, place: usize, bytes: &[u8]) -> bool
    ensures next { result ≡ true → place ≡ length lens.old.items }
    ensures front { result ≡ true → front.new.items ≡ front.old.items ++ bytes.now }
    ensures lens { result ≡ true → lens.new.items ≡ lens.old.items ++ length bytes.now ∷ [] }
    ensures no_front { result ≡ false → front.new.items ≡ front.old.items }
    ensures no_lens { result ≡ false → lens.new.items ≡ lens.old.items }
{
    if place != lens.len() {
        return false;
    }
    if lens.reserve(1).is_err() {
        return false;
    }
    match front.extend_from_slice(bytes) {
        Ok(()) => {
            lens.push_reserved(bytes.len());
            true
        }
        Err(_want) => false,
    }
}

/// The bytes of the chunk at this place are in its slot: in front, where it comes next there.
fn fill(
    front: &mut Vec<u8>,
    lens: &mut Vec<usize>,
    apart: &mut Vec<Option<Bytes>>,
    place: usize,
    bytes: Bytes,
)
    requires there { place < length apart.old.items }
    requires sum { total lens.old.items ≡ length front.old.items }
    ensures filled { slots_of front.new.items lens.new.items apart.new.items ≡ slice_set (slots_of front.old.items lens.old.items apart.old.items) place (Some bytes) }
    ensures sum { total lens.new.items ≡ length front.new.items }
{
    if add_behind(front, lens, place, bytes.as_slice()) {
        apart[place] = None;
        drop(bytes);
    } else {
        apart[place] = Some(bytes);
    }
}

/// How many bytes the first of these chunks has in front; none where there is none.
fn first_len(lens: &[usize]) -> usize
    ensures { result ≡ first_len lens.now }
{
    match lens.first() {
        Some(len) => *len,
        None => 0,
    }
}

/// The chunks behind the first.
fn behind(lens: &[usize]) -> &[usize]
    ensures { result.now ≡ behind lens.now }
{
    match lens.split_first() {
        Some((_first, rest)) => rest,
        None => lens,
    }
}

/// What is in a slot, or else these bytes.
fn piece_of<'a>(slot: &'a Option<Bytes>, else_bytes: &'a [u8]) -> &'a [u8]
    ensures { result.now ≡ unwrap_or slot.now else_bytes.now }
{
    match slot {
        Some(bytes) => bytes.as_slice(),
        None => else_bytes,
    }
}

/// A copy of the bytes in all slots, one behind the other.
fn joined(
    alloc: Global,
    front: &[u8],
    lens: &[usize],
    apart: &[Option<Bytes>],
) -> Result<Vec<u8>, AllocError>
    requires { total lens.now ≡ length front.now }
    ensures { IfOk result (λ v. v.items ≡ slots_bytes (slots_of front.now lens.now apart.now)) }
{
    let mut whole = Vec::with_capacity(alloc, front.len())?;
    let mut left = front;
    let mut lens_left = lens;
    for slot in apart {
        let (piece, rest) = left.split_at(first_len(lens_left));
        whole.extend_from_slice(piece_of(slot, piece))?;
        left = rest;
        lens_left = behind(lens_left);
    }
    Ok(whole)
}

/// Whether a slot has bytes that aren't in front.
fn has_piece(apart: &[Option<Bytes>]) -> bool
    ensures { result ≡ has_piece apart.now }
{
    apart.iter().any(|slot| slot.is_some())
}

/// Whether each slot has its bytes in front, and none of them apart.
fn are_in_front(lens: &Vec<usize>, apart: &Vec<Option<Bytes>>) -> bool
    ensures all { result ≡ true → length lens.now.items ≡ length apart.now.items }
    ensures none { result ≡ true → has_piece apart.now.items ≡ false }
{
    if lens.len() == apart.len() {
        !has_piece(apart)
    } else {
        false
    }
}

/// Whether so much came behind what is hashed that it should be hashed as well, and so much of a content of this
/// size is still to come.
fn is_much(came: usize, hashed: usize, size: u64) -> bool
    ensures least { result ≡ true → 1048576 ≤ came }
    ensures left { result ≡ true → came + 2097152 ≤ size }
{
    if came.saturating_sub(hashed) < LENT_LEAST {
        return false;
    }
    size.saturating_sub(came as u64) >= LEFT_LEAST
}

/// How many bytes were hashed.
fn hashed_len(ahead: &Option<Ahead>) -> usize {
    match ahead {
        Some(ahead) => ahead.len(),
        None => 0,
    }
}

/// What came back, where it has as many bytes as are lent: else it is of an earlier fetch.
fn own(back: Ahead, lent: usize) -> Option<Ahead> {
    if back.len() == lent { Some(back) } else { None }
}

/// What was hashed, with what came behind it. None where memory runs out, or more was hashed than came.
fn grown(ahead: Ahead, front: &[u8]) -> Option<Ahead>
    ensures { IfSome result (λ ahead. length ahead ≡ length front.now) }
{
    let mut ahead = ahead;
    let had = ahead.len();
    if had > front.len() {
        return None;
    }
    match ahead.add(&front[had..]) {
        Ok(()) => Some(ahead),
        Err(_want) => None,
    }
}

impl Slots {
    /// No slot. It takes no memory.
    pub fn none(alloc: Global) -> Slots
        ensures { result ≡ [] }
    {
        Slots {
            front: Vec::new(alloc),
            lens: Vec::new(alloc),
            apart: Vec::new(alloc),
            ahead: None,
            lent: None,
        }
    }

    /// So many slots with nothing in them, and room for so many bytes. The one error is running out of memory.
    pub fn empty(alloc: Global, count: usize, size: usize) -> Result<Slots, AllocError>
        ensures { IfOk result (λ slots. slots ≡ replicate count None) }
    {
        let apart = empty_slots(alloc, count)?;
        let lens = Vec::with_capacity(alloc, count)?;
        let front = Vec::with_capacity(alloc, size)?;
        Ok(Slots {
            front,
            lens,
            apart,
            ahead: None,
            lent: None,
        })
    }

    /// The bytes of the chunk at this place have come: its slot has them. Where they are copied their own memory
    /// is free again.
    pub fn fill(&mut self, place: usize, bytes: Bytes)
        requires { place < length self.old }
        ensures { self.new ≡ slice_set self.old place (Some bytes) }
    {
        fill(
            &mut self.front,
            &mut self.lens,
            &mut self.apart,
            place,
            bytes,
        )
    }

    /// Whether so much came behind what is hashed that more should be, of a content of so many bytes. Not while some
    /// is lent: whoever hashes it lends anew as it gives it back.
    pub fn may_lend(&self, size: u64) -> bool
        ensures { result ≡ true → 3145728 ≤ size }
    {
        self.lent.is_none() && is_much(self.front.len(), hashed_len(&self.ahead), size)
    }

    /// What was lent is back, and is lent anew with what came since, where that is much. It is a copy, to be
    /// hashed where nobody waits for these slots. What comes back with another length than was lent is dropped.
    pub fn lend(&mut self, alloc: Global, back: Option<Ahead>, size: u64) -> Option<Ahead>
        ensures same { self.new ≡ self.old }
        ensures bounds { IfSome result (λ lent. (1048576 ≤ length lent) × (length lent + 2097152 ≤ size)) }
    {
        if let (Some(back), Some(lent)) = (back, self.lent.take()) {
            self.ahead = own(back, lent);
        }
        let came = self.front.len();
        if !is_much(came, hashed_len(&self.ahead), size) {
            return None;
        }
        // Where memory runs out it counts as lent too, so that nobody is woken for it by each record.
        self.lent = Some(came);
        let ahead = match self.ahead.take() {
            Some(ahead) => ahead,
            None => Ahead::new(alloc, size as usize).ok()?,
        };
        grown(ahead, &self.front)
    }

    /// What was hashed while the bytes came, if it is back.
    pub fn take_ahead(&mut self) -> Option<Ahead>
        ensures { self.new ≡ self.old }
    {
        self.ahead.take()
    }

    /// The bytes of all chunks that have come, one behind the other. They are copied only where chunks came out of
    /// their order. The one error is running out of memory.
    pub fn into_bytes(self, alloc: Global) -> Result<Bytes, AllocError>
        ensures { IfOk result (λ bytes. bytes ≡ slots_bytes self) }
    {
        let Slots {
            front,
            lens,
            apart,
            ahead: _ahead,
            lent: _lent,
        } = self;
        if are_in_front(&lens, &apart) {
            return Ok(Items::from_vec(front));
        }
        let whole = joined(alloc, &front, &lens, &apart)?;
        Ok(Items::from_vec(whole))
    }
}
