//! Edits of records, and the lines of the log that say them. `specs/Lines.antt` states what they make.

ghost use Rattle.std.specs.Prelude.{◌≡◌, ◌++◌, false, OnOk};
ghost use Rattle.log_store.specs.Names.{is_among};
ghost use Rattle.log_store.specs.declared.which.Which.{Which};
ghost use Rattle.log_store.specs.Lines.{is_large, has_large, names, is_clear, larges};

use crate::which::{Which, is_among, is_same};
use lb_base::items::Bytes;
use std::alloc::AllocError;

/// Bytes of a record, in two parts.
#[derive(Clone, Copy)]
pub struct Parts<'a> {
    pub front: &'a [u8],
    pub body: &'a [u8],
}

/// What becomes of a record.
#[derive(Clone, Copy)]
pub enum What<'a> {
    /// It has these bytes, which the log says.
    Put(Parts<'a>),
    /// It has these bytes, which are written in a file of their own first.
    Large(Parts<'a>),
    /// It goes.
    Goes,
}

/// An edit of a record.
#[derive(Clone, Copy)]
pub struct Edit<'a> {
    pub which: Which,
    pub what: What<'a>,
}

/// What a line of the log says of a record.
#[derive(Drop)]
pub enum Task {
    /// It has these bytes.
    Put(Bytes),
    /// Its bytes, as many as these, stand in a file of their own, which takes its place.
    Moves(u64),
    /// It goes.
    Goes,
}

/// A line of the log.
#[derive(Drop)]
pub struct Line {
    pub which: Which,
    pub task: Task,
}

/// Whether an edit's bytes are written in a file of their own.
fn is_large(edit: &Edit<'_>) -> bool
    ensures { result ≡ is_large edit.now }
{
    match edit.what {
        What::Large(_) => true,
        What::Put(_) | What::Goes => false,
    }
}

/// Whether any edit's bytes are.
pub fn has_large(edits: &[Edit<'_>]) -> bool
    ensures { result ≡ has_large edits.now }
{
    match edits {
        [edit, rest @ ..] => is_large(edit) || has_large(rest),
        [] => false,
    }
}

/// Whether no such edit is of one of these records.
pub fn is_clear(edits: &[Edit<'_>], pending: &[Which]) -> bool
    ensures { result ≡ is_clear edits.now pending.now }
{
    match edits {
        [edit, rest @ ..] => {
            if is_large(edit) && is_among(edit.which, pending) {
                return false;
            }
            is_clear(rest, pending)
        }
        [] => true,
    }
}

/// Adds the records of such edits to a list. The one error is running out of memory.
#[tactic(auto, using(crate::proofs::lemmas::Logs::among_front))]
pub(crate) fn push_larges(pending: &mut Vec<Which>, edits: &[Edit<'_>]) -> Result<(), AllocError>
    ensures done { OnOk result (pending.new.items ≡ pending.old.items ++ larges edits.now) }
    ensures stays { (n : Which) → is_among n pending.new.items ≡ false → is_among n pending.old.items ≡ false }
{
    match edits {
        [edit, rest @ ..] => {
            if is_large(edit) {
                pending.push(edit.which)?;
            }
            push_larges(pending, rest)
        }
        [] => Ok(()),
    }
}

/// Whether a line is of a record.
pub fn names(lines: &[Line], which: Which) -> bool
    ensures { result ≡ names lines.now which }
{
    match lines {
        [line, rest @ ..] => is_same(which, line.which) || names(rest, which),
        [] => false,
    }
}
