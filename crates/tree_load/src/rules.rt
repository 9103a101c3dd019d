//! Which record is the first that breaks a rule: `first_fault` in `specs/Load.antt`, by what stands
//! with each record, as in `specs/Found.antt`.

ghost use Rattle.std.specs.Prelude.{◌≡◌, ◌<◌, ◌≤◌, length, drop, IfOk};
ghost use Rattle.tree_reading.specs.Tree.{tree_most};
ghost use Rattle.tree_load.specs.Found.{found_place, is_directory_at, place_before, fits, is_file_by, around_of};
ghost use Rattle.tree_load.specs.Known.{IsKnown};
ghost use Rattle.tree_load.specs.Load.{is_head_well, is_name_well, is_directory_kind, is_at, is_well, size_of, first_fault};

use crate::above;
use crate::breaches::rule_of;
use crate::firsts::{self, Firsts, Found};
use limits::CHANGES_MOST;
use std::alloc::{AllocError, Global};
use std::collections::BTreeMap;
use store::record::{Head, Kept, NodeKind, NodeRecord};
use tree_reading::names;

/// What stands with a node among the records.
#[derive(Clone, Copy)]
pub struct Around {
    /// The first node of its id.
    pub own: Option<Found>,
    /// The first node of its directory's id.
    pub above: Option<Found>,
    /// The place of the first node of its name in its directory.
    pub named: Option<usize>,
    /// The place of the first content of its id.
    pub content: Option<usize>,
    /// Whether the root is above it.
    pub reaches: bool,
}

/// What is known of records before they are looked at one by one.
#[derive(Drop)]
pub struct Known<'a> {
    pub nodes: BTreeMap<u64, Found>,
    pub names: BTreeMap<(u64, &'a [u8]), usize>,
    pub contents: BTreeMap<u64, usize>,
    /// Where as many steps up as there are records come to.
    pub tops: Vec<usize>,
}

/// What is known of these records, of which there is one. The one error is running out of memory.
#[tactic(auto, using(crate::proofs::Climbs::steps_within))]
pub fn learn<'a>(alloc: Global, records: &'a [Kept]) -> Result<Known<'a>, AllocError>
    requires { 0 < length records.now }
    ensures { IfOk result (IsKnown records.now) }
{
    let firsts = firsts::first_places(alloc, records)?;
    let steps = above::steps_up(alloc, &firsts.nodes, records)?;
    let tops = above::walks(alloc, steps, records.len())?;
    let Firsts {
        nodes,
        names,
        contents,
    } = firsts;
    Ok(Known {
        nodes,
        names,
        contents,
        tops,
    })
}

/// What stands with a node.
pub fn stands_with<'a>(
    records: &[Kept],
    known: &Known<'a>,
    place: usize,
    node: &'a NodeRecord,
) -> Around
    requires known { IsKnown records.now known.now }
    requires within { place < length records.now }
    ensures { result ≡ around_of records.now place node.now }
{
    let own = known.nodes.get(&node.id).copied();
    let above = known.nodes.get(&node.parent).copied();
    let named = known
        .names
        .get(&(node.parent, node.name.as_slice()))
        .copied();
    let content = known.contents.get(&node.id).copied();
    let reaches = known.tops[place] == records.len();
    Around {
        own,
        above,
        named,
        content,
        reaches,
    }
}

/// Whether a head is within its limits.
pub fn is_head_well(head: Head) -> bool
    ensures { result ≡ is_head_well head }
{
    head.changes <= CHANGES_MOST
        && 2 <= head.next
        && head.next as u128 <= (1 << 63) + head.changes as u128
}

/// Whether a name may stand in a directory.
pub fn is_name_well(name: &[u8]) -> bool
    ensures { result ≡ is_name_well name.now }
{
    names::spelt(name).is_ok() && !names::is_dot(name) && !names::is_dot_dot(name)
}

/// Whether this is the place.
pub fn is_at(place: usize, found: Option<usize>) -> bool
    ensures { result ≡ is_at place found }
{
    match found {
        Some(other) => other == place,
        None => false,
    }
}

/// The place of what was found.
pub fn found_place(found: Option<Found>) -> Option<usize>
    ensures { result ≡ found_place found }
{
    match found {
        Some(found) => Some(found.place),
        None => None,
    }
}

/// Whether a node is a directory.
fn is_directory_kind(kind: NodeKind) -> bool
    ensures { result ≡ is_directory_kind kind }
{
    match kind {
        NodeKind::Directory => true,
        NodeKind::File => false,
    }
}

/// Whether what was found is a directory.
pub fn is_directory_at(found: Option<Found>) -> bool
    ensures { result ≡ is_directory_at found }
{
    match found {
        Some(found) => is_directory_kind(found.kind),
        None => false,
    }
}

/// Whether a place is before this one.
fn is_before(place: usize, found: Option<usize>) -> bool
    ensures { result ≡ place_before place found }
{
    match found {
        Some(other) => other < place,
        None => false,
    }
}

/// Whether a file has its content, and a directory none before it.
pub fn fits(kind: NodeKind, place: usize, content: Option<usize>) -> bool
    ensures { result ≡ fits kind place content }
{
    match kind {
        NodeKind::File => content.is_some(),
        NodeKind::Directory => !is_before(place, content),
    }
}

/// Whether a content's node isn't a directory before it.
pub fn is_file_at(place: usize, found: Option<Found>) -> bool
    ensures { result ≡ is_file_by place found }
{
    match found {
        Some(found) => !(is_directory_kind(found.kind) && found.place < place),
        None => false,
    }
}

/// How many bytes a content has.
pub fn size_of(one: &Kept) -> u64
    ensures { result ≡ size_of one.now }
{
    match one {
        Kept::Content(content) => content.bytes.len() as u64,
        Kept::Head(_) | Kept::Node(_) => 0,
    }
}

/// Whether a record breaks no rule, where the contents before it have so many bytes.
fn is_well<'a>(
    head: Head,
    records: &[Kept],
    known: &Known<'a>,
    place: usize,
    sum: u64,
    one: &'a Kept,
) -> bool
    requires known { IsKnown records.now known.now }
    requires within { place < length records.now }
    requires sum { sum ≤ tree_most }
    ensures { result ≡ is_well head records.now place sum one.now }
{
    match rule_of(head, records, known, place, sum, one) {
        None => true,
        Some(_) => false,
    }
}

/// The first record behind the head that breaks a rule, if one does.
pub fn first_fault<'a>(head: Head, records: &'a [Kept], known: &Known<'a>) -> Option<usize>
    requires known { IsKnown records.now known.now }
    ensures { result ≡ first_fault head records.now 1 0 (drop 1 records.now) }
{
    let mut sum = 0;
    for place in 1..records.len() {
        let one = &records[place];
        if !is_well(head, records, known, place, sum, one) {
            return Some(place);
        }
        sum += size_of(one);
    }
    None
}
