//! The counts of a history: `counts_of` of `specs/Summary.antt`.

ghost use Rattle.std.specs.Prelude.{◌≡◌, ◌+◌, ◌*◌, ◌<◌, ◌^◌, length};
ghost use Rattle.register_model.specs.Summary.{ended_so, ended, number_of, total, endings_of, totals_of, counts_of};

use crate::history::History;
use crate::op::{Op, Outcome, Traffic};

/// How many operations ended in each way. Each operation counts once.
#[derive(Clone, Copy)]
pub struct Endings {
    /// Opens that got a content.
    pub opened: usize,
    /// Closes that replaced a file.
    pub closed: usize,
    /// Others that were done, whether or not they had something to tell.
    pub other: usize,
    /// Those that ended and were not done: refused, lost or failed.
    pub refused: usize,
    /// Those that have not ended.
    pub running: usize,
}

/// What all operations sent and received.
#[derive(Clone, Copy)]
pub struct Totals {
    /// CONDWRITE calls sent.
    pub cond: u128,
    /// TMPWRITE calls sent.
    pub tmp: u128,
    /// READ calls sent.
    pub read: u128,
    /// Bytes of file data: those sent by TMPWRITE and those received by READ.
    pub data: u128,
}

/// The counts of a history.
#[derive(Clone, Copy)]
pub struct Counts {
    /// All operations.
    pub ops: usize,
    /// How many of them ended in each way.
    pub endings: Endings,
    /// What all of them sent and received.
    pub totals: Totals,
}

/// A way in which an operation may have ended.
#[derive(Clone, Copy)]
enum Way {
    /// An open got a content.
    Opened,
    /// A close replaced a file.
    Closed,
    /// It was done, and was neither.
    Other,
    /// It ended, and was not done.
    Refused,
    /// It has not ended.
    Running,
}

/// One of the numbers of what an operation sent and received.
#[derive(Clone, Copy)]
enum Share {
    /// CONDWRITE calls.
    Cond,
    /// TMPWRITE calls.
    Tmp,
    /// READ calls.
    Read,
    /// Bytes of file data.
    Data,
}

/// Whether an operation ended in this way.
fn ended_so(way: Way, outcome: &Outcome) -> bool
    ensures { result ≡ ended_so way outcome.now }
{
    match way {
        Way::Opened => outcome.is_opened(),
        Way::Closed => outcome.is_closed(),
        Way::Other => outcome.is_other(),
        Way::Refused => outcome.is_refused(),
        Way::Running => matches!(outcome, Outcome::Running),
    }
}

/// How many operations ended in this way.
fn count(ops: &[Op], way: Way) -> usize
    ensures { result ≡ ended (ended_so way) ops.now }
{
    let mut found = 0;
    for op in ops {
        if ended_so(way, &op.outcome) {
            found += 1;
        }
    }
    found
}

/// How many operations ended in each way.
fn count_endings(ops: &[Op]) -> Endings
    ensures { result ≡ endings_of ops.now }
{
    Endings {
        opened: count(ops, Way::Opened),
        closed: count(ops, Way::Closed),
        other: count(ops, Way::Other),
        refused: count(ops, Way::Refused),
        running: count(ops, Way::Running),
    }
}

/// One number of what was sent and received.
fn number_of(traffic: &Traffic, which: Share) -> u64
    ensures { result ≡ number_of which traffic.now }
{
    match which {
        Share::Cond => traffic.cond,
        Share::Tmp => traffic.tmp,
        Share::Read => traffic.read,
        Share::Data => traffic.data,
    }
}

/// One number of what all operations sent and received.
fn total(ops: &[Op], which: Share) -> u128
    ensures { result ≡ total (number_of which) ops.now }
{
    ops.iter()
        .map(|op| number_of(&op.traffic, which) as u128)
        .sum()
}

/// What all operations sent and received.
fn add_totals(ops: &[Op]) -> Totals
    ensures { result ≡ totals_of ops.now }
{
    Totals {
        cond: total(ops, Share::Cond),
        tmp: total(ops, Share::Tmp),
        read: total(ops, Share::Read),
        data: total(ops, Share::Data),
    }
}

/// The counts of a history.
pub fn summary(history: &History) -> Counts
    ensures { result ≡ counts_of history.now }
{
    let ops = history.of_clients();
    Counts {
        ops: ops.len(),
        endings: count_endings(ops),
        totals: add_totals(ops),
    }
}
