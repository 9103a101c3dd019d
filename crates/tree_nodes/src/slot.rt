//! Places for nodes, by rising ids: `specs/Table.antt`.

ghost use Rattle.std.specs.Prelude.{◌≡◌, ◌<◌, ◌^◌, ◌≤◌, IfSome, length, Some, List, [], ◌∷◌, ◌++◌};
ghost use Rattle.std.specs.List.{slice_get, slice_set};
ghost use Rattle.std.specs.Vec.{vec_capacity};
ghost use Rattle.tree_nodes.specs.declared.slot.Slot.TheVariants.{Gone, Taken};
ghost use Rattle.std.specs.Option.{option_copied};
ghost use Rattle.tree_nodes.specs.Nodes.{before, place_cmp};
ghost use Rattle.tree_nodes.specs.Table.{slot_id, id_or, node_in, node_at, first_from, AreRising, IsTaken};

use crate::node::Node;
use std::cmp::Ordering;
use std::mem;

/// A place for a node. A node that went leaves its place behind, with its id.
#[derive(Drop)]
pub enum Slot {
    Gone(u64),
    Taken(Node),
}

fn slot_id(slot: &Slot) -> u64
    ensures { result ≡ slot_id slot.now }
{
    match slot {
        Slot::Gone(id) => *id,
        Slot::Taken(node) => node.id,
    }
}

/// The id at a place, and 0 past the last.
fn id_at(slots: &Vec<Slot>, place: usize) -> u64
    ensures { result ≡ id_or (slice_get slots.now.items place) }
{
    match slots.get(place) {
        Some(slot) => slot_id(slot),
        None => 0,
    }
}

/// The place of the first whose id isn't below this one. It is found at once where no id was skipped.
#[tactic(auto, using(crate::proofs::Rising::stands_at))]
pub fn first_from(slots: &Vec<Slot>, id: u64) -> usize
    requires { AreRising slots.now.items }
    ensures { result ≡ first_from slots.now.items id }
{
    let place = id.saturating_sub(id_at(slots, 0)) as usize;
    if place < slots.len() && id_at(slots, place) == id {
        return place;
    }
    searched(slots, id)
}

/// The same by halves.
#[tactic(auto, using(crate::proofs::Rising::by_searched))]
fn searched(slots: &Vec<Slot>, id: u64) -> usize
    requires { AreRising slots.now.items }
    ensures { result ≡ first_from slots.now.items id }
{
    let mut low = 0;
    let mut high = slots.len();
    'halves: while low < high {
        let mid = low + (high - low) / 2;
        if id_at(slots, mid) < id {
            low = mid + 1;
        } else {
            high = mid;
        }
    }
    low
}

/// The node in a place.
pub fn node_in(slots: &Vec<Slot>, place: usize) -> Option<&Node>
    ensures { option_copied result ≡ node_in (slice_get slots.now.items place) }
{
    match slots.get(place) {
        Some(Slot::Taken(node)) => Some(node),
        Some(Slot::Gone(_)) | None => None,
    }
}

/// Whether the node in a place comes before a name in a directory.
pub fn comes_before(slots: &Vec<Slot>, place: usize, dir: u64, name: &[u8]) -> bool
    ensures { result ≡ before (node_at slots.now.items place) dir name.now }
{
    match node_in(slots, place) {
        Some(node) => place_order(node.parent, node.name.as_slice(), dir, name) == Ordering::Less,
        None => place_order(0, &[], dir, name) == Ordering::Less,
    }
}

fn place_order(dir: u64, name: &[u8], other_dir: u64, other_name: &[u8]) -> Ordering
    ensures { result ≡ place_cmp dir name.now other_dir other_name.now }
{
    dir.cmp(&other_dir).then(name.cmp(other_name))
}

/// Adds a place, for the node of an id that is yet to come, and tells which. It takes no memory.
pub fn add(slots: &mut Vec<Slot>, id: u64) -> usize
    requires { length slots.old.items < vec_capacity slots.old }
    ensures place { result ≡ length slots.old.items }
    ensures added { slots.new.items ≡ slots.old.items ++ Gone id ∷ [] }
    ensures capacity { vec_capacity slots.old ≤ vec_capacity slots.new }
{
    let place = slots.len();
    match slots.push(Slot::Gone(id)) {
        Ok(()) => place,
        Err(_) => unreachable!(),
    }
}

/// Takes the node out of a place, which keeps its id.
pub fn take(slots: &mut Vec<Slot>, place: usize) -> Node
    requires { IsTaken slots.old.items place }
    ensures node { slice_get slots.old.items place ≡ Some (Taken result) }
    ensures gone { slots.new.items ≡ slice_set slots.old.items place (Gone result.id) }
    ensures capacity { vec_capacity slots.new ≡ vec_capacity slots.old }
{
    let id = id_at(slots, place);
    match mem::replace(&mut slots[place], Slot::Gone(id)) {
        Slot::Taken(node) => node,
        Slot::Gone(_) => unreachable!(),
    }
}

/// Puts a node into a place.
pub fn put(slots: &mut Vec<Slot>, place: usize, node: Node)
    requires { place < length slots.old.items }
    ensures put { slots.new.items ≡ slice_set slots.old.items place (Taken node) }
    ensures capacity { vec_capacity slots.new ≡ vec_capacity slots.old }
{
    slots[place] = Slot::Taken(node);
}
