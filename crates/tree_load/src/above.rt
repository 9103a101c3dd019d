//! Which nodes the root is above: `reaches` in `specs/Load.antt`, by places as in
//! `specs/Above.antt`. Where a number of steps comes to is told by doubling, so that no node's way
//! is gone by itself.

ghost use Rattle.std.specs.Prelude.{◌≡◌, ◌+◌, ◌%◌, ◌<◌, ◌^◌, ◌==◌, if◌then◌else◌, length, map, slice_index, IfOk};
ghost use Rattle.std.specs.BTreeMap.{get};
ghost use Rattle.std.specs.Ordering.{nat_cmp};
ghost use Rattle.tree_load.specs.Above.{spot_by, up_by, ups, AreWalks, StayWithin};
ghost use Rattle.tree_load.specs.Found.{found_place, AreFirstNodes};

use crate::firsts::Found;
use std::alloc::{AllocError, Global};
use std::collections::BTreeMap;
use store::record::Kept;

/// Where the node of an id stands.
fn spot(nodes: &BTreeMap<u64, Found>, count: usize, id: u64) -> usize
    requires { count + 1 < 2 ^ 64 }
    ensures { result ≡ spot_by count id (found_place (get nat_cmp nodes.now id)) }
{
    if id == 1 {
        return count;
    }
    match nodes.get(&id) {
        Some(found) => found.place,
        None => count + 1,
    }
}

/// Where the directory of a record stands.
fn up_from(nodes: &BTreeMap<u64, Found>, count: usize, one: &Kept) -> usize
    requires { count + 1 < 2 ^ 64 }
    ensures { result ≡ up_by count (λ id. found_place (get nat_cmp nodes.now id)) one.now }
{
    match one {
        Kept::Node(node) => spot(nodes, count, node.parent),
        Kept::Head(_) | Kept::Content(_) => count + 1,
    }
}

/// Where the directory of each record stands, and behind them where the root does, and nowhere.
#[tactic(auto, using(crate::proofs::Climbs::ups_are))]
pub fn steps_up(
    alloc: Global,
    nodes: &BTreeMap<u64, Found>,
    records: &[Kept],
) -> Result<Vec<usize>, AllocError>
    requires { AreFirstNodes 0 records.now nodes.now }
    ensures { IfOk result (λ v. v.items ≡ ups records.now) }
{
    let count = records.len();
    let mut steps = Vec::new(alloc);
    for one in records.iter() {
        steps.push(up_from(nodes, count, one))?;
    }
    steps.push(count)?;
    steps.push(count + 1)?;
    Ok(steps)
}

/// What the one list has at the places that the other tells.
fn through(alloc: Global, places: &[usize], list: &[usize]) -> Result<Vec<usize>, AllocError>
    requires { StayWithin places.now (length list.now) }
    ensures { IfOk result (λ v. v.items ≡ map (λ place. slice_index list.now place) places.now) }
{
    let mut found = Vec::new(alloc);
    for at in 0..places.len() {
        found.push(list[places[at]])?;
    }
    Ok(found)
}

/// One step more of the odd number of steps that is left.
fn odd_step(
    alloc: Global,
    at: Vec<usize>,
    jump: &[usize],
    left: usize,
) -> Result<Vec<usize>, AllocError>
    requires { StayWithin at.items (length jump.now) }
    ensures { IfOk result (λ v. v.items ≡ (if left % 2 == 1 then map (λ place. slice_index jump.now place) at.items else at.items)) }
{
    if left % 2 == 1 {
        return through(alloc, at.as_slice(), jump);
    }
    Ok(at)
}

/// Where so many steps come to from each place. The one error is running out of memory.
#[tactic(auto, using(crate::proofs::Climbs::by_walks))]
pub fn walks(alloc: Global, step: Vec<usize>, count: usize) -> Result<Vec<usize>, AllocError>
    requires within { StayWithin step.items (length step.items) }
    requires some { 0 < count }
    ensures { IfOk result (λ v. AreWalks count step.items v.items) }
{
    let mut at = Vec::from_slice(alloc, step.as_slice())?;
    let mut jump = step;
    let mut left = count - 1;
    'halves: while left > 0 {
        at = odd_step(alloc, at, jump.as_slice(), left)?;
        jump = through(alloc, jump.as_slice(), jump.as_slice())?;
        left /= 2;
    }
    Ok(at)
}
