//! Whether a history is legal (`IsLegal` of `specs/Register.antt`), by its index of changes. The test
//! goes by `specs/Test.antt`, an operation at a time.

ghost use Rattle.std.specs.Prelude.{◌≡◌, ◌↔◌, IsTrue, true, false, ◌&&◌};
ghost use Rattle.std.specs.Option.{option_copied};
ghost use Rattle.std.specs.List.Sorted.{IsNonDecreasingBy};
ghost use Rattle.register_model.specs.Register.{value_at, value_at_first, value_from, IsLegal};
ghost use Rattle.register_model.specs.Index.{is_alone, all_alone, marks_from};
ghost use Rattle.register_model.specs.Test.{is_right_untouched, is_within, is_right_read, is_right_change, is_right, are_points_apart, are_all_right};

use crate::index::{Mark, is_alone_at, last_below};
use crate::indexed::IndexedHistory;
use crate::op::{Op, Word};
use crate::openings::{content_in_order, content_of};

/// What a change makes of its file: a content, or nothing where it removes it.
fn left_by(op: &Op) -> Option<&[u8]>
    ensures { option_copied result ≡ value_from op.now.word op.now.value }
{
    match op.word {
        Word::Close => Some(op.value.as_slice()),
        Word::Make => Some(&[]),
        _ => None,
    }
}

/// What the file was before any change.
fn value_at_first(history: &IndexedHistory, file: u64) -> Option<&[u8]>
    ensures { option_copied result ≡ value_at_first history.now file }
{
    if history.is_by_file() {
        content_in_order(history.opening(), file)
    } else {
        content_of(history.opening(), file)
    }
}

/// What the file is at a moment: its content, or nothing where it is absent.
fn value_at(history: &IndexedHistory, file: u64, moment: u64) -> Option<&[u8]>
    requires { are_points_apart history.now.ops ≡ true }
    ensures { option_copied result ≡ value_at history.now file moment }
{
    match last_below(history.index().by_file.as_slice(), file, moment) {
        Some(place) => left_by(history.ops().get(place)?),
        None => value_at_first(history, file),
    }
}

/// An operation with no point is none that must have one.
fn is_right_untouched(op: &Op) -> bool
    ensures { result ≡ is_right_untouched op.now }
{
    let read = op.word.is_open() && (op.outcome.is_opened() || op.outcome.is_stale());
    !read && !op.succeeded()
}

/// The point lies within the operation.
fn is_within(op: &Op, point: u64) -> bool
    ensures { result ≡ is_within op.now point }
{
    let is_by_end = match op.end {
        Some(end) => point <= end,
        None => true,
    };
    op.begin <= point && (op.outcome.is_lost() || is_by_end)
}

/// An open got what the file was.
fn is_right_read(op: &Op, before: Option<&[u8]>) -> bool
    ensures { result ≡ is_right_read op.now (option_copied before.entry) }
{
    if !op.word.is_open() {
        return true;
    }
    match before {
        Some(content) => !op.outcome.is_stale()
            && (!op.outcome.is_opened() || content == op.value.as_slice()),
        None => !op.outcome.is_opened(),
    }
}

/// A change was made of a file that it fits, and didn't fail.
fn is_right_change(op: &Op, before: Option<&[u8]>) -> bool
    ensures { result ≡ is_right_change op.now (option_copied before.entry) }
{
    if !op.word.changes() {
        return true;
    }
    let is_fit = match op.word {
        Word::Make => before.is_none(),
        _ => before.is_some(),
    };
    is_fit && (op.succeeded() || op.outcome.is_untold())
}

/// An operation is right at its point, or without one.
fn is_right(history: &IndexedHistory, op: &Op) -> bool
    requires { are_points_apart history.now.ops ≡ true }
    ensures { result ≡ is_right (value_at history.now op.now.file) op.now op.now.point }
{
    match op.point {
        Some(point) => {
            let before = value_at(history, op.file, point);
            is_within(op, point) && is_right_read(op, before) && is_right_change(op, before)
        }
        None => is_right_untouched(op),
    }
}

/// No change but the operation itself, which stands at the place, has its point.
fn is_alone(by_point: &[Mark], place: usize, op: &Op) -> bool
    requires { IsNonDecreasingBy (λ m. m.point) by_point.now }
    ensures { result ≡ is_alone by_point.now place op.now.point }
{
    match op.point {
        Some(point) => is_alone_at(by_point, point, place),
        None => true,
    }
}

/// No operation has a point in common with a change.
fn are_all_alone(by_point: &[Mark], ops: &[Op]) -> bool
    requires { IsNonDecreasingBy (λ m. m.point) by_point.now }
    ensures { result ≡ all_alone by_point.now 0 ops.now }
{
    for (place, op) in ops.iter().enumerate() {
        if !is_alone(by_point, place, op) {
            return false;
        }
    }
    true
}

/// No operation has a point in common with a change.
fn are_points_apart(history: &IndexedHistory) -> bool
    ensures { result ≡ are_points_apart history.now.ops }
{
    are_all_alone(history.index().by_point.as_slice(), history.ops())
}

/// Each operation is right at its point, or without one.
fn are_all_right(history: &IndexedHistory) -> bool
    requires { are_points_apart history.now.ops ≡ true }
    ensures { result ≡ are_all_right history.now }
{
    for op in history.ops() {
        if !is_right(history, op) {
            return false;
        }
    }
    true
}

/// The test of a legal history.
fn passes(history: &IndexedHistory) -> bool
    ensures { result ≡ (are_points_apart history.now.ops && are_all_right history.now) }
{
    are_points_apart(history) && are_all_right(history)
}

/// Whether each open got the whole content of its file at one moment within it, each change that
/// succeeded was made at one, and none that failed: the six facts of a legal history. It takes no
/// memory, and looks each value up by halving.
pub fn is_legal(history: &IndexedHistory) -> bool
    ensures { IsTrue result ↔ IsLegal history.now }
{
    passes(history)
}
