//! The pieces of one temporary file. `specs/Pieces.antt` says which may be put, and what all of them
//! come to; `specs/Laid.antt` how they lie.

ghost use Rattle.std.specs.Prelude.{◌≡◌, ◌<◌, ◌++◌, [], None, IfOk, OnOk, OnErr, IsErrOf, length, is_some};
ghost use Rattle.std.specs.List.{list_any};
ghost use Rattle.temp_files.specs.declared.fault.TempError.TheVariants as refusal;
ghost use Rattle.temp_files.specs.Pieces.{StandApart, overlaps, range_fault, and_piece, joined, all_bytes};
ghost use Rattle.temp_files.specs.Temps.{Tells};

use crate::fault::TempError;
use crate::front::Front;
use crate::gathering::Placed;
use crate::room::cost_of;
use lb_base::items::Bytes;
use server_rules::temps::follows;
use shared_bytes::SharedBytes;
use std::alloc::{AllocError, Global};
use std::collections::BTreeMap;
use std::marker::Model;

/// No temporary file reaches further, in bytes.
pub const SIZE_MOST: u64 = limits::FILE_MOST;

/// Pieces of which no two meet. Contracts see a list of them, by the places of their first bytes.
///
/// Few pieces lie in a map. Of many, the first lie in one vector, the front, as far as each begins
/// where the one before it ends. Its room, for the largest content, is taken once, so it never
/// grows, and where all pieces have come it is the content: each byte is moved once, and none is held
/// twice. Room that was never written to isn't held. The content is given by owners of it, the front
/// among them, so that whatever fails each piece stays what it was.
#[derive(Drop)]
pub struct Pieces {
    /// The bytes of the first pieces, from 0 on.
    front: Front,
    /// How many bytes each of these pieces has.
    lengths: Vec<usize>,
    /// The other pieces.
    rest: Placed,
    /// How many bytes all pieces have. No clause speaks of it.
    bytes: u64,
}

impl Model for Pieces {
    ghost use Rattle.std.specs.Prelude.{List};
    ghost use Rattle.temp_files.specs.Laid.{AreLengthsOf, laid};
    ghost use Rattle.temp_files.specs.Pieces.{Piece, StandApart};

    ghost Value = { List Piece };

    ghost view = { λ p. laid p.front p.lengths.items p.rest.entries };

    ghost invariant = { λ p. AreLengthsOf p.front p.lengths.items × StandApart 0 (laid p.front p.lengths.items p.rest.entries) };
}

/// Whether one of the pieces meets the range from `start` up to `end`. Of pieces that stand apart
/// the last that begins before the end reaches furthest, so it alone is looked at.
fn is_met(pieces: &Placed, start: u64, end: u64) -> bool
    requires { StandApart 0 pieces.now.entries }
    ensures { result ≡ list_any (overlaps start end) pieces.now.entries }
{
    match pieces.range(..end).next_back() {
        Some((at, bytes)) => u128::from(start) < u128::from(*at) + bytes.len() as u128,
        None => false,
    }
}

/// Whether the pieces cover the places from `front` to the size once each and nothing beyond. It
/// takes no memory.
fn cover(front: u64, pieces: &Placed, size: u64) -> bool
    requires { StandApart front pieces.now.entries }
    ensures { result ≡ is_some (joined front size pieces.now.entries) }
{
    let mut end = front;
    for (at, bytes) in pieces.iter() {
        if !follows(end, *at) {
            return false;
        }
        end += bytes.len() as u64;
    }
    end == size
}

impl Pieces {
    /// No pieces. It takes no memory.
    pub fn new(alloc: Global) -> Pieces
        ensures { result ≡ [] }
    {
        Pieces {
            front: Front::new(alloc),
            lengths: Vec::new(alloc),
            rest: BTreeMap::new(alloc),
            bytes: 0,
        }
    }

    /// Whether a piece meets the range from `start` up to `end`.
    fn is_met(&self, start: u64, end: u64) -> bool
        requires { start < end }
        ensures { result ≡ list_any (overlaps start end) self.now }
    {
        if start < self.front.len() as u64 {
            return true;
        }
        is_met(&self.rest, start, end)
    }

    /// Why a piece of so many bytes can't be put at this place. It takes no memory.
    pub fn check(&self, offset: u64, count: u64) -> Result<(), TempError>
        ensures told { Tells result (range_fault self.now offset count) }
        ensures sure { ¬ IsErrOf result refusal.Memory }
    {
        if count == 0 {
            return Err(TempError::Inval);
        }
        let Some(end) = offset.checked_add(count) else {
            return Err(TempError::Inval);
        };
        if end > SIZE_MOST {
            return Err(TempError::FBig);
        }
        if self.is_met(offset, end) {
            return Err(TempError::Inval);
        }
        Ok(())
    }

    /// Puts a piece at a place where it may be. The one error is running out of memory, and all
    /// then stays as it was.
    pub fn put(&mut self, offset: u64, bytes: Bytes) -> Result<(), AllocError>
        requires { range_fault self.old offset (length bytes) ≡ None }
        ensures ok { OnOk result (self.new ≡ and_piece self.old offset bytes) }
        ensures err { OnErr result (self.new ≡ self.old) }
    {
        let count = bytes.len() as u64;
        self.rest.insert(offset, bytes)?;
        self.bytes = self.bytes.saturating_add(count);
        self.front.gather(&mut self.lengths, &mut self.rest);
        Ok(())
    }

    /// Whether the pieces cover 0 to the size once each and nothing beyond. It takes no memory.
    pub fn cover(&self, size: u64) -> bool
        ensures exact { result ≡ is_some (joined 0 size self.now) }
        ensures apart { StandApart 0 self.now }
    {
        cover(self.front.len() as u64, &self.rest, size)
    }

    /// What they cost in memory. It takes none.
    pub fn cost(&self) -> u64 {
        cost_of(
            self.lengths.len().saturating_add(self.rest.len()),
            self.bytes,
        )
    }

    /// Their bytes in parts, one behind the other: those of the front, and those of the other pieces.
    pub fn parts(&self) -> (&[u8], &Placed)
        ensures { all_bytes self.now ≡ result.0.now ++ all_bytes result.1.now.entries }
    {
        (self.front.as_slice(), &self.rest)
    }

    /// An owner of the bytes of all pieces, one behind the other, where each begins where the one
    /// before it ends; `count` is how many these are. Memory that they lack is taken first, and then
    /// each piece dropped as its bytes are moved. The one error is running out of memory; all stays as it was.
    pub fn share(&mut self, alloc: Global, count: usize) -> Result<SharedBytes, AllocError>
        ensures bytes { IfOk result (λ bytes. bytes ≡ all_bytes self.old) }
        ensures same { self.new ≡ self.old }
    {
        self.front
            .gather_all(alloc, &mut self.lengths, &mut self.rest, count)?;
        self.front.share(alloc)
    }
}
