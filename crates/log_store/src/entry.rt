//! The bytes of an entry of the log: its lines, one behind the other. `specs/Entries.antt` states them.

ghost use Rattle.std.specs.Prelude.{◌≡◌, ◌≤◌, ◌++◌, List, length, true, OnOk, IfOk};
ghost use Rattle.log_store.specs.Lines.{bytes_of, lines_of};
ghost use Rattle.log_store.specs.Entries.{letter_of, id_of, line_front, line_bytes, entry_bytes, which_in, task_in, word_in, line_in, size_by, AreWords};
ghost use Rattle.log_store.specs.declared.edit.Edit.{Edit};

use crate::edit::{Edit, Line, Parts, Task, What};
use crate::which::Which;
use lb_base::items::Items;
use std::alloc::{AllocError, Global};

/// What stands in front of each line: what it says, the record's letter, its id, and a count of bytes.
const LINE_FRONT: usize = 18;

/// A record's letter.
fn letter_of(which: Which) -> u8
    ensures { result ≡ letter_of which }
{
    match which {
        Which::Head => b'h',
        Which::Node(_) => b'n',
        Which::Content(_) => b'c',
    }
}

/// A record's id.
fn id_of(which: Which) -> u64
    ensures { result ≡ id_of which }
{
    match which {
        Which::Head => 0,
        Which::Node(id) | Which::Content(id) => id,
    }
}

/// The record of a letter and an id.
fn which_in(letter: u8, id: u64) -> Option<Which>
    ensures { result ≡ which_in letter id }
{
    match letter {
        b'h' => Some(Which::Head),
        b'n' => Some(Which::Node(id)),
        b'c' => Some(Which::Content(id)),
        _ => None,
    }
}

/// Writes a line's front.
fn put_front(out: &mut Vec<u8>, sign: u8, which: Which, count: u64) -> Result<(), AllocError>
    ensures { OnOk result (out.new.items ≡ out.old.items ++ line_front sign which count) }
{
    out.push(sign)?;
    out.push(letter_of(which))?;
    out.extend_from_slice(&id_of(which).to_be_bytes())?;
    out.extend_from_slice(&count.to_be_bytes())?;
    Ok(())
}

/// How many bytes a record has.
fn count_of(parts: Parts<'_>) -> u64
    ensures { result ≡ length (bytes_of parts.entry) }
{
    parts.front.len() as u64 + parts.body.len() as u64
}

/// Writes a record's bytes.
fn put_parts(out: &mut Vec<u8>, parts: Parts<'_>) -> Result<(), AllocError>
    ensures { OnOk result (out.new.items ≡ out.old.items ++ bytes_of parts.entry) }
{
    out.extend_from_slice(parts.front)?;
    out.extend_from_slice(parts.body)?;
    Ok(())
}

/// Writes an edit's line.
fn put_line(out: &mut Vec<u8>, edit: &Edit<'_>) -> Result<(), AllocError>
    ensures { OnOk result (out.new.items ≡ out.old.items ++ line_bytes edit.now.which edit.now.what) }
{
    match edit.what {
        What::Put(parts) => {
            put_front(out, b'+', edit.which, count_of(parts))?;
            put_parts(out, parts)
        }
        What::Large(parts) => put_front(out, b'>', edit.which, count_of(parts)),
        What::Goes => put_front(out, b'-', edit.which, 0),
    }
}

/// Writes the entry of edits behind what is there. The one error is running out of memory.
pub fn put_entry(out: &mut Vec<u8>, edits: &[Edit<'_>]) -> Result<(), AllocError>
    ensures { OnOk result (out.new.items ≡ out.old.items ++ entry_bytes edits.now) }
{
    match edits {
        [edit, rest @ ..] => {
            put_line(out, edit)?;
            put_entry(out, rest)
        }
        [] => Ok(()),
    }
}

/// The number in eight bytes.
fn word(bytes: &[u8]) -> u64
    requires { 8 ≤ length bytes.now }
    ensures { result ≡ word_in bytes.now }
{
    let front = bytes.split_at(8).0;
    u64::from_be_bytes([
        front[0], front[1], front[2], front[3], front[4], front[5], front[6], front[7],
    ])
}

/// What a sign, a count and the bytes behind them say. The one error is running out of memory.
fn task_in(alloc: Global, sign: u8, count: u64, behind: &[u8]) -> Result<Option<Task>, AllocError>
    ensures { IfOk result (λ task. task ≡ task_in sign count behind.now) }
{
    match sign {
        b'+' => {
            if (behind.len() as u64) < count {
                return Ok(None);
            }
            let bytes = behind.split_at(count as usize).0;
            let bytes = Items::copy_of(alloc, bytes)?;
            Ok(Some(Task::Put(bytes)))
        }
        b'>' => Ok(Some(Task::Moves(count))),
        b'-' => Ok(Some(Task::Goes)),
        _ => Ok(None),
    }
}

/// The line in front of these bytes. The one error is running out of memory.
fn line_in(alloc: Global, bytes: &[u8]) -> Result<Option<Line>, AllocError>
    ensures { IfOk result (λ line. line ≡ line_in bytes.now) }
{
    if bytes.len() < LINE_FRONT {
        return Ok(None);
    }
    let Some(which) = which_in(bytes[1], word(&bytes[2..])) else {
        return Ok(None);
    };
    let count = word(&bytes[10..]);
    match task_in(alloc, bytes[0], count, &bytes[LINE_FRONT..])? {
        Some(task) => Ok(Some(Line { which, task })),
        None => Ok(None),
    }
}

/// How many bytes a line has.
fn size_of(line: &Line) -> usize
    ensures { result ≡ size_by line.now.task }
{
    match &line.task {
        Task::Put(bytes) => LINE_FRONT + bytes.as_slice().len(),
        Task::Moves(_) | Task::Goes => LINE_FRONT,
    }
}

/// Adds the lines of an entry to others, and answers whether it has such lines alone. The one error is
/// running out of memory.
pub fn add_lines(alloc: Global, lines: &mut Vec<Line>, entry: &[u8]) -> Result<bool, AllocError>
    ensures { (edits : List Edit) → AreWords edits → entry.now ≡ entry_bytes edits → IfOk result (λ whole. (whole ≡ true) × (lines.new.items ≡ lines.old.items ++ lines_of edits)) }
{
    if entry.is_empty() {
        return Ok(true);
    }
    let Some(line) = line_in(alloc, entry)? else {
        return Ok(false);
    };
    let size = size_of(&line);
    lines.push(line)?;
    match entry.split_at_checked(size) {
        Some((_line, rest)) => add_lines(alloc, lines, rest),
        None => Ok(false),
    }
}
