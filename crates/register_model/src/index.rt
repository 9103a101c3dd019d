//! The changes of a history in two orders, so that those at a moment and the last before it are
//! found by halving: `specs/Index.antt`.

ghost use Rattle.std.specs.Prelude.{true, false, ◌≡◌, ◌+◌, ◌<◌, ◌≤◌, ◌++◌, List, length, not, IfOk, OnOk, IfSome, nat_lt, Bool, All};
ghost use Rattle.std.specs.List.{list_any, AllWithin};
ghost use Rattle.std.specs.List.Sorted.{IsNonDecreasingBy, IsSortedByKey};
ghost use Rattle.std.specs.Ordering.{nat_cmp};
ghost use Rattle.register_model.specs.Index.{mark_of, marks_from, HasMarks, RisesByFile, IsIndexOf, is_clash, is_lower, IsLastBelow};

use crate::op::Op;
use std::alloc::{AllocError, Global};

/// Where a change stands.
#[derive(Clone, Copy)]
pub struct Mark {
    /// The file that was changed.
    pub file: u64,
    /// The step that changed it.
    pub point: u64,
    /// The place of the operation in the history, from 0.
    pub place: usize,
}

/// The changes of a history by their points, and by file and point.
#[derive(Drop)]
pub struct Index {
    /// The marks of all changes, by point.
    pub by_point: Vec<Mark>,
    /// The same marks by file, those of one file by point.
    pub by_file: Vec<Mark>,
}

/// The mark of an operation, where it changed a file.
fn mark_of(place: usize, op: &Op) -> Option<Mark>
    ensures { result ≡ mark_of place op.now }
{
    if !op.word.changes() {
        return None;
    }
    match op.point {
        Some(point) => Some(Mark {
            file: op.file,
            point,
            place,
        }),
        None => None,
    }
}

/// The marks of all operations.
fn marks_of(alloc: Global, ops: &[Op]) -> Result<Vec<Mark>, AllocError>
    ensures { IfOk result (λ ms. ms.items ≡ marks_from 0 ops.now) }
{
    let mut marks = Vec::new(alloc);
    for (place, op) in ops.iter().enumerate() {
        if let Some(mark) = mark_of(place, op) {
            marks.push(mark)?;
        }
    }
    Ok(marks)
}

/// Puts marks in the order of their points.
fn sort_by_point(marks: &mut Vec<Mark>)
    ensures same { (test : Mark → Bool) → list_any test marks.new.items ≡ list_any test marks.old.items }
    ensures rise { IsNonDecreasingBy (λ m. m.point) marks.new.items }
    ensures sorted { IsSortedByKey (λ m. m.point) nat_cmp marks.new.items }
{
    marks.sort_unstable_by_key(|mark| mark.point);
}

/// Puts marks that stand in the order of their points in that of their files, those of one file as they
/// stood.
fn sort_by_file(marks: &mut Vec<Mark>) -> Result<(), AllocError>
    requires { IsSortedByKey (λ m. m.point) nat_cmp marks.old.items }
    ensures same { (test : Mark → Bool) → list_any test marks.new.items ≡ list_any test marks.old.items }
    ensures rise { OnOk result (RisesByFile marks.new.items) }
{
    marks.sort_by_key(|mark| mark.file)
}

impl Index {
    /// The marks of all operations in both orders.
    pub fn new(alloc: Global, ops: &[Op]) -> Result<Index, AllocError>
        ensures { IfOk result (λ x. IsIndexOf ops.now x.by_point.items x.by_file.items) }
    {
        let mut by_point = marks_of(alloc, ops)?;
        sort_by_point(&mut by_point);
        let mut by_file = marks_of(alloc, ops)?;
        sort_by_point(&mut by_file);
        sort_by_file(&mut by_file)?;
        Ok(Index { by_point, by_file })
    }
}

/// The first mark that is not below the point.
fn first_from(by_point: &[Mark], point: u64) -> usize
    requires { IsNonDecreasingBy (λ m. m.point) by_point.now }
    ensures bound { result ≤ length by_point.now }
    ensures below { AllWithin (λ m. nat_lt m.point point ≡ true) by_point.now 0 result }
    ensures from { AllWithin (λ m. nat_lt m.point point ≡ false) by_point.now result (length by_point.now) }
{
    by_point.partition_point(|mark| mark.point < point)
}

/// The marks at the front that have the point are of the change at the place.
fn is_run_alone(rest: &[Mark], point: u64, place: usize) -> bool
    requires rise { IsNonDecreasingBy (λ m. m.point) rest.now }
    requires from { All (λ m. nat_lt m.point point ≡ false) rest.now }
    ensures { result ≡ not (list_any (is_clash point place) rest.now) }
{
    for mark in rest {
        if mark.point != point {
            return true;
        }
        if mark.place != place {
            return false;
        }
    }
    true
}

/// No change but the one at the place has the point.
pub fn is_alone_at(by_point: &[Mark], point: u64, place: usize) -> bool
    requires { IsNonDecreasingBy (λ m. m.point) by_point.now }
    ensures { result ≡ not (list_any (is_clash point place) by_point.now) }
{
    let first = first_from(by_point, point);
    is_run_alone(&by_point[first..], point, place)
}

/// The first mark that is not of a lower file, nor of this file below the moment.
fn end_below(by_file: &[Mark], file: u64, moment: u64) -> usize
    requires { RisesByFile by_file.now }
    ensures bound { result ≤ length by_file.now }
    ensures below { AllWithin (λ m. is_lower file moment m ≡ true) by_file.now 0 result }
    ensures from { AllWithin (λ m. is_lower file moment m ≡ false) by_file.now result (length by_file.now) }
{
    by_file.partition_point(|mark| mark.file < file || mark.file == file && mark.point < moment)
}

/// The place of the last change of the file below the moment.
pub fn last_below(by_file: &[Mark], file: u64, moment: u64) -> Option<usize>
    requires { RisesByFile by_file.now }
    ensures { IsLastBelow by_file.now file moment result }
{
    let end = end_below(by_file, file, moment);
    if end == 0 {
        return None;
    }
    let last = by_file[end - 1];
    if last.file == file {
        Some(last.place)
    } else {
        None
    }
}
