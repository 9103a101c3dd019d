//! One temporary file. `specs/Temps.antt` says what it is, and `specs/Pieces.antt` which piece may be
//! put, and what all of them come to.

ghost use Rattle.std.specs.Prelude.{◌≡◌, ◌++◌, None, IfOk, OnOk, OnErr, IsErrOf, length, is_some};
ghost use Rattle.temp_files.specs.declared.fault.TempError.TheVariants as refusal;
ghost use Rattle.temp_files.specs.Pieces.{StandApart, range_fault, all_bytes};
ghost use Rattle.temp_files.specs.Temps.{assembled, empty_temp, with_piece, Tells};

use crate::fault::TempError;
use crate::gathering::Placed;
use crate::pieces::Pieces;
use lb_base::items::Bytes;
use shared_bytes::SharedBytes;
use std::alloc::{AllocError, Global};
use std::marker::Model;

/// A temporary file: pieces under a number that the client picked, within its session.
#[derive(Drop)]
pub struct Temp {
    /// Whose it is.
    session: u32,
    /// The client's number of it.
    fd: u32,
    /// The id of the file that it was made for. Nothing reads it: COMMITTMP names its file by itself.
    target: u64,
    /// Its pieces.
    pieces: Pieces,
}

impl Model for Temp {
    ghost use Rattle.temp_files.specs.Temps as temps;

    ghost Value = { temps.Temp };

    ghost view = { λ t. record { session = t.session; fd = t.fd; target = t.target; pieces = t.pieces } };
}

impl Temp {
    /// A temporary file with nothing in it. It takes no memory.
    pub fn new(alloc: Global, session: u32, fd: u32, target: u64) -> Temp
        ensures { result ≡ empty_temp session fd target }
    {
        Temp {
            session,
            fd,
            target,
            pieces: Pieces::new(alloc),
        }
    }

    /// The session that made it.
    pub fn session(&self) -> u32
        ensures { result ≡ self.now.session }
    {
        self.session
    }

    /// Why a piece of so many bytes can't be put at this place. It takes no memory.
    pub fn check(&self, offset: u64, count: u64) -> Result<(), TempError>
        ensures told { Tells result (range_fault self.now.pieces offset count) }
        ensures sure { ¬ IsErrOf result refusal.Memory }
    {
        self.pieces.check(offset, count)
    }

    /// Puts a piece at a place where it may be. The one error is running out of memory, and the
    /// temporary file then stays as it was.
    pub fn put(&mut self, offset: u64, bytes: Bytes) -> Result<(), AllocError>
        requires { range_fault self.old.pieces offset (length bytes) ≡ None }
        ensures ok { OnOk result (self.new ≡ with_piece self.old offset bytes) }
        ensures err { OnErr result (self.new ≡ self.old) }
        ensures same { (self.new.session ≡ self.old.session) × (self.new.fd ≡ self.old.fd) }
    {
        self.pieces.put(offset, bytes)
    }

    /// Whether the pieces cover 0 to the size once each and nothing beyond. It takes no memory.
    pub fn covers(&self, size: u64) -> bool
        ensures exact { result ≡ is_some (assembled self.now size) }
        ensures apart { StandApart 0 self.now.pieces }
    {
        self.pieces.cover(size)
    }

    /// What its pieces cost in memory. It takes none.
    pub fn cost(&self) -> u64 {
        self.pieces.cost()
    }

    /// The bytes of its pieces in parts, one behind the other: some in one slice, and those of the
    /// other pieces.
    pub fn parts(&self) -> (&[u8], &Placed)
        ensures { all_bytes self.now.pieces ≡ result.0.now ++ all_bytes result.1.now.entries }
    {
        self.pieces.parts()
    }

    /// An owner of the bytes of all pieces, one behind the other, where each begins where the one
    /// before it ends; `count` is how many these are. The one error is running out of memory; all
    /// stays as it was.
    pub fn share(&mut self, alloc: Global, count: usize) -> Result<SharedBytes, AllocError>
        ensures bytes { IfOk result (λ bytes. bytes ≡ all_bytes self.old.pieces) }
        ensures same { self.new ≡ self.old }
    {
        self.pieces.share(alloc, count)
    }
}
