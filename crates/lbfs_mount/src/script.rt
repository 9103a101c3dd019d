//! The lines of a script as they come. `specs/Script.antt` states which they are.

ghost use Rattle.std.specs.Prelude.{◌≡◌, ℕ, ◌+◌, ◌<◌, ◌≤◌, List, [], length, None, Ok, true, false, IfOk, OnOk, IfSome, IsErrOf};
ghost use Rattle.std.specs.Io.KnownBytes.{Consumes, IsAtEnd};
ghost use Rattle.lb_base.specs.Causes.{Rose};
ghost use Rattle.lb_base.specs.declared.source.ReadError.TheVariants as errors;
ghost use Rattle.limits.specs.declared.TheConstants.{INPUT_MOST};
ghost use Rattle.lbfs_mount.specs.Script.{Coming, nothing_yet, coming, Takes, Gives, has_feed};

use crate::splitting::{end_input, split};
use lb_base::items::Bytes;
use lb_base::source::{ReadError, Source, piece_room};
use limits::INPUT_MOST;
use std::alloc::{AllocError, Global};
use std::collections::VecDeque;
use std::marker::Model;

/// The lines that come from a source.
#[derive(Drop)]
pub struct Script {
    /// The lines that came and were not given yet, without their line feeds.
    lines: VecDeque<Bytes>,
    /// What came behind the last line feed.
    rest: Vec<u8>,
    /// How many bytes came.
    taken: usize,
    /// Whether the input has ended.
    ended: bool,
    /// Room for the next piece.
    room: Vec<u8>,
}

impl Model for Script {
    ghost use Rattle.std.specs.Prelude.{◌≡◌, ◌<◌, ◌≤◌, [], length, true, false};
    ghost use Rattle.limits.specs.declared.TheConstants.{INPUT_MOST};
    ghost use Rattle.lbfs_mount.specs.Script.{Coming, has_feed};

    ghost Value = { Coming };

    ghost view = { λ s. record { lines = s.lines.items; rest = s.rest.items; taken = s.taken; ended = s.ended } };

    ghost invariant = { λ s. (has_feed s.rest.items ≡ false) × (s.ended ≡ true → s.rest.items ≡ []) × (s.taken ≤ INPUT_MOST) × (0 < length s.room.items) };
}

impl Script {
    /// Nothing has come yet. The one error is running out of memory.
    pub fn new(alloc: Global) -> Result<Script, AllocError>
        ensures { IfOk result (λ s. s ≡ nothing_yet) }
    {
        let room = piece_room(alloc)?;
        Ok(Script {
            lines: VecDeque::new(alloc),
            rest: Vec::new(alloc),
            taken: 0,
            ended: false,
            room,
        })
    }

    /// Takes a piece of what comes, and keeps the lines that it completes.
    fn fill<S: Source>(&mut self, alloc: Global, source: &mut S) -> Result<(), ReadError>
        requires none { self.old.lines ≡ [] }
        requires goes_on { self.old.ended ≡ false }
        ensures ok { OnOk result ((bytes : List ℕ) × Consumes (S.left source.old) (S.left source.new) bytes × Takes self.old bytes self.new) }
        ensures ended { self.new.ended ≡ true → IsAtEnd (S.left source.new) }
        ensures fault { IsErrOf result errors.Fault → Rose (S.faults source.old) (S.faults source.new) }
        ensures too_long { IsErrOf result errors.TooLong → (bytes : List ℕ) × Consumes (S.left source.old) (S.left source.new) bytes × (INPUT_MOST < self.old.taken + length bytes) }
        ensures later { S.faults source.old ≤ S.faults source.new }
    {
        let taken = source.take(&mut self.room)?;
        if taken == 0 {
            end_input(alloc, &mut self.lines, &mut self.rest)?;
            self.ended = true;
            return Ok(());
        }
        if taken > INPUT_MOST - self.taken {
            return Err(ReadError::TooLong);
        }
        split(alloc, &mut self.lines, &mut self.rest, &self.room[..taken])?;
        self.taken += taken;
        Ok(())
    }

    /// The next line that comes from the source, without its line feed; none at the end of the input.
    /// It takes bytes only where no line is there yet, and may wait for them.
    ///
    /// Whatever bytes are taken at once, the lines are those of all bytes that come, in order. Once the
    /// input has ended no more is taken. `Fault` comes only where the source's count rose, `TooLong` where
    /// more than `INPUT_MOST` bytes came. After an error the bytes that were taken last may be gone.
    pub fn next<S: Source>(
        &mut self,
        alloc: Global,
        source: &mut S,
    ) -> Result<Option<Bytes>, ReadError>
        ensures line { IfOk result (λ r. IfSome r (λ line. (bytes : List ℕ) × Consumes (S.left source.old) (S.left source.new) bytes × Gives self.old bytes line self.new)) }
        ensures end { result ≡ Ok None → (bytes : List ℕ)
            × Consumes (S.left source.old) (S.left source.new) bytes
            × Takes self.old bytes self.new × (self.new.ended ≡ true)
            × (coming self.new [] ≡ []) }
        ensures ended { self.old.ended ≡ false → self.new.ended ≡ true → IsAtEnd (S.left source.new) }
        ensures still { OnOk result (self.old.ended ≡ true → (self.new.ended ≡ true) × (self.new.taken ≡ self.old.taken) × (source.new ≡ source.old)) }
        ensures fault { IsErrOf result errors.Fault → Rose (S.faults source.old) (S.faults source.new) }
        ensures too_long { IsErrOf result errors.TooLong → (bytes : List ℕ) × Consumes (S.left source.old) (S.left source.new) bytes × (INPUT_MOST < self.old.taken + length bytes) }
        ensures later { S.faults source.old ≤ S.faults source.new }
    {
        for _round in 0..u64::MAX {
            match self.lines.pop_front() {
                Some(line) => return Ok(Some(line)),
                None if self.ended => return Ok(None),
                None => self.fill(alloc, source)?,
            }
        }
        Err(ReadError::Memory)
    }
}
