//! What a turn of a mount asks of that which its threads share. It is `KeptDesk`; the turns, the script
//! and the connections are written for any such thing, and so none of them is checked with all that a
//! client consists of. What each call makes of its desk is a relation of the thing's own, which a turn owes by these.

ghost use Rattle.std.specs.Prelude.{◌≡◌, ℕ, List, Bool, Result};
ghost use Rattle.std.specs.declared.alloc.AllocError.{AllocError};
ghost use Rattle.record_ends.specs.declared.end.End.{End};
ghost use Rattle.lbfs_client.specs.declared.line.MountLine.{MountLine};
ghost use Rattle.mount_desk.specs.declared.answer_line.AnswerLine.{AnswerLine};
ghost use Rattle.mount_desk.specs.declared.desk.Left.{Left};

use crate::answer_line::AnswerLine;
use crate::desk::Left;
use cut_bytes::CutBytes;
use cut_bytes::ahead::Ahead;
use lbfs_client::line::MountLine;
use record_ends::end::End;
use shared_bytes::SharedBytes;
use std::alloc::{AllocError, Global};

/// What a turn asks; `Desk` says what each call does.
pub trait Turns {
    /// The links of its connections.
    type L;

    /// The desk in it, of which the relations speak.
    type Desk;

    /// Which desk it has.
    ghost desk_of: { Self → Self.Desk };

    /// What it makes to take the line of what ended, and which that is.
    ghost takes: { Self.Desk → Result AnswerLine AllocError → Self.Desk → Type 0 };

    /// What a line makes at a reading, and whether it asks for a connection.
    ghost runs: { Self.Desk → MountLine → ℕ → Bool → Self.Desk → Type 0 };

    /// What a put makes that goes on.
    ghost continues: { Self.Desk → ℕ → Self.Desk → Type 0 };

    /// What a connection makes that is joined on a link, and its number.
    ghost joins: { Self.Desk → Self.L → ℕ → ℕ → Self.Desk → Type 0 };

    /// What a record of a connection makes, behind which more are there or not, and whether more may come.
    ghost hears: { Self.Desk → ℕ → List ℕ → Bool → ℕ → Bool → Self.Desk → Type 0 };

    /// What the end of a connection makes.
    ghost stops: { Self.Desk → ℕ → End → ℕ → Self.Desk → Type 0 };

    /// What a farewell makes, and what came of it.
    ghost leaves: { Self.Desk → Left → Self.Desk → Type 0 };

    /// Whether there is something for whoever waits for a line.
    fn has_news(&self) -> bool;

    /// Whether whoever waits for a line has something to do: there is news, or so much came of a file that is being
    /// fetched that some should be lent.
    fn wakes(&self) -> bool;

    /// The line of what ended. The error says that memory ran out.
    fn take_line(&mut self) -> Result<AnswerLine, AllocError>
        ensures { takes (desk_of self.old) result (desk_of self.new) };

    /// A line of the script begins. It answers whether a connection is to be joined for it.
    fn run(&mut self, alloc: Global, line: MountLine, now: u64) -> bool
        ensures { runs (desk_of self.old) line now result (desk_of self.new) };

    /// An owner of the bytes with which a put waits to go on, if one does.
    fn read_bytes(&self) -> Option<SharedBytes>;

    /// What came of a file that is being fetched is lent to be hashed between two turns, where it is much. It is
    /// given back with the next call.
    fn lend(&mut self, alloc: Global, back: Option<Ahead>) -> Option<Ahead>
        ensures { desk_of self.new ≡ desk_of self.old };

    /// A put that waits goes on, with what was found of its bytes ahead, if anything was.
    fn go_on(&mut self, alloc: Global, found: Option<CutBytes>, now: u64)
        ensures { continues (desk_of self.old) now (desk_of self.new) };

    /// A connection is joined, on this link. It answers the connection's number.
    fn join(&mut self, alloc: Global, link: Self::L, now: u64) -> u64
        ensures { joins (desk_of self.old) link now result (desk_of self.new) };

    /// A record came on a connection, behind which more are there or not. It answers whether more may come
    /// there.
    fn hear(&mut self, alloc: Global, connection: u64, bytes: &[u8], more: bool, now: u64) -> bool
        ensures { hears (desk_of self.old) connection bytes.now more now result (desk_of self.new) };

    /// No more records come on a connection.
    fn stop(&mut self, alloc: Global, connection: u64, end: End, now: u64)
        ensures { stops (desk_of self.old) connection end now (desk_of self.new) };

    /// The mount ends: its farewell is given, and the link shut.
    fn leave(&mut self, alloc: Global) -> Left
        ensures { leaves (desk_of self.old) result (desk_of self.new) };
}
