//! Nodes by their ids and by their names: `specs/Nodes.antt`, and how they lie `specs/Table.antt`.

ghost use Rattle.std.specs.Prelude.{◌≡◌, [], ℕ, ◌+◌, ◌-◌, ◌<◌, ◌^◌, ◌≤◌, Option, Some, None, IfSome, IfOk, OnOk, OnErr, IsSome, is_some, length, map, take, drop, min, IsTrue, false, ◌==◌, ◌&&◌};
ghost use Rattle.std.specs.List.{slice_get, slice_set, insert, remove, AllByRecursion};
ghost use Rattle.std.specs.Option.{option_copied};
ghost use Rattle.tree_nodes.specs.declared.slot.Slot.TheVariants.{Gone, Taken};
ghost use Rattle.std.specs.Str.{bytes_eq};
ghost use Rattle.tree_nodes.specs.declared.node.Node.{Node};
ghost use Rattle.tree_nodes.specs.declared.node.Body.TheVariants.{File};
ghost use Rattle.tree_nodes.specs.Nodes.{named, names, with_node, without, with_id, versioned, changed, AreInOrder};
ghost use Rattle.tree_nodes.specs.Places.{start_of};
ghost use Rattle.tree_nodes.specs.Table.{shown, place_for, IsTable, IsNodeAt, before_at, IsTaken, AreRising, taken_at, kept_by};

use crate::content::Content;
use crate::key::start_of;
use crate::node::Node;
use crate::slots::Slots;
use block_list::list::BlockList;
use lb_base::items::Name;
use server_rules::tree::next_once_gone;
use std::alloc::{AllocError, Global};

/// The place of a name in the order of the nodes, or where it would be.
#[tactic(auto, using(crate::proofs::Finds::by_place_for))]
pub fn place_for(slots: &Slots, order: &BlockList, dir: u64, name: &[u8]) -> usize
    requires { AreInOrder (shown slots.now.items order.now.items) }
    ensures exact { result ≡ place_for (shown slots.now.items order.now.items) dir name.now }
    ensures within { result ≤ length order.now.items }
{
    let start = start_of(name);
    let mut low = 0;
    let mut high = order.len();
    'halves: while low < high {
        let mid = low + (high - low) / 2;
        if comes_before(slots, order, mid, dir, start, name) {
            low = mid + 1;
        } else {
            high = mid;
        }
    }
    low
}

/// The place of a name that is there, in the order of the nodes.
pub fn place_named(slots: &Slots, order: &BlockList, dir: u64, name: &[u8]) -> usize
    requires sorted { AreInOrder (shown slots.now.items order.now.items) }
    requires there { IsSome (named (shown slots.now.items order.now.items) dir name.now) }
    ensures node { named (shown slots.now.items order.now.items) dir name.now ≡ slice_get (shown slots.now.items order.now.items) result }
    ensures within { result < length order.now.items }
{
    place_for(slots, order, dir, name)
}

/// From which place on, and up to which one, the nodes of a directory stand in the order.
#[tactic(auto, using(crate::proofs::Ranges::by_places))]
pub fn places(slots: &Slots, order: &BlockList, dir: u64) -> (usize, usize)
    requires sorted { AreInOrder (shown slots.now.items order.now.items) }
    requires dir { dir < 2 ^ 64 - 1 }
    ensures names { names (shown slots.now.items order.now.items) dir ≡ take (result.1 - result.0) (drop result.0 (shown slots.now.items order.now.items)) }
    ensures rises { result.0 ≤ result.1 }
    ensures within { result.1 ≤ length (shown slots.now.items order.now.items) }
    ensures count { length (names (shown slots.now.items order.now.items) dir) ≡ result.1 - result.0 }
{
    let start = place_for(slots, order, dir, &[]);
    let end = place_for(slots, order, dir + 1, &[]);
    (start, end)
}

/// Whether the node at a place in the order comes before a name, which begins so; none does past the
/// last.
fn comes_before(
    slots: &Slots,
    order: &BlockList,
    place: usize,
    dir: u64,
    start: u64,
    name: &[u8],
) -> bool
    requires { start ≡ start_of name.now }
    ensures { result ≡ before_at slots.now.items (slice_get order.now.items place) dir name.now }
{
    match order.at(place) {
        Some(slot) => slots.comes_before(slot as usize, dir, start, name),
        None => false,
    }
}

/// How many nodes there are.
#[tactic(auto, using(crate::proofs::Ranges::length_shown))]
pub fn len(slots: &Slots, order: &BlockList) -> usize
    ensures { result ≡ length (shown slots.now.items order.now.items) }
{
    // The contract alone names it.
    let _places = slots;
    order.len()
}

/// The node at a place in the order.
pub fn node_at<'a>(slots: &'a Slots, order: &BlockList, place: usize) -> Option<&'a Node>
    requires { AllByRecursion (IsTaken slots.now.items) order.now.items }
    ensures { option_copied result ≡ slice_get (shown slots.now.items order.now.items) place }
{
    match order.at(place) {
        Some(slot) => slots.node_in(slot as usize),
        None => None,
    }
}

/// The node with the id.
pub fn with_id(slots: &Slots, id: u64) -> Option<&Node>
    requires { AreRising slots.now.items }
    ensures { option_copied result ≡ taken_at slots.now.items id }
{
    let place = slots.first_from(id);
    if_id(slots.node_in(place), id)
}

/// Whether there is a node with the id.
fn has_id(slots: &Slots, id: u64) -> bool
    requires { AreRising slots.now.items }
    ensures { result ≡ is_some (taken_at slots.now.items id) }
{
    match with_id(slots, id) {
        Some(_) => true,
        None => false,
    }
}

/// The node, if it has the id.
fn if_id(node: Option<&Node>, id: u64) -> Option<&Node>
    ensures { option_copied result ≡ kept_by (λ n. n.id == id) (option_copied node.entry) }
{
    match node {
        Some(node) if node.id == id => Some(node),
        _ => None,
    }
}

/// The node, if it has the name in the directory.
fn if_named<'a>(node: Option<&'a Node>, dir: u64, name: &[u8]) -> Option<&'a Node>
    ensures { option_copied result ≡ kept_by (λ n. (n.parent == dir) && bytes_eq n.name name.now) (option_copied node.entry) }
{
    match node {
        Some(node) if node.parent == dir && node.name.as_slice() == name => Some(node),
        _ => None,
    }
}

/// The node with the name in the directory.
pub fn named<'a>(slots: &'a Slots, order: &BlockList, dir: u64, name: &[u8]) -> Option<&'a Node>
    requires sorted { AreInOrder (shown slots.now.items order.now.items) }
    requires taken { AllByRecursion (IsTaken slots.now.items) order.now.items }
    ensures { option_copied result ≡ named (shown slots.now.items order.now.items) dir name.now }
{
    let place = place_for(slots, order, dir, name);
    if_named(node_at(slots, order, place), dir, name)
}

/// Nodes in places by rising ids, and the numbers of the places in the order of the nodes.
#[derive(Drop)]
pub struct Table {
    pub slots: Slots,
    pub order: BlockList,
    /// No node ever had this id, or a greater one.
    pub next: u64,
}

/// Puts a node into a place whose node is gone, and that place into the order. It takes no memory.
fn put_in(slots: &mut Slots, order: &mut BlockList, slot: u32, node: Node)
    requires sorted { AreInOrder (shown slots.old.items order.old.items) }
    requires there { slot < length slots.old.items }
    requires room { 0 < order.old.room }
    ensures slots { slots.new.items ≡ slice_set slots.old.items slot (Taken node) }
    ensures order { order.new.items ≡ insert order.old.items (place_for (shown slots.old.items order.old.items) node.parent node.name) slot }
    ensures slot_room { slots.new.capacity ≡ slots.old.capacity }
    ensures order_room { order.old.room ≡ order.new.room + 1 }
{
    let place = place_for(slots, order, node.parent, node.name.as_slice());
    slots.put(slot as usize, node);
    order.insert(place, slot);
}

/// Takes the node at a place in the order out of its place there and in the slots, which keeps its
/// id; gives the number of the slot, and the node.
fn take_out(slots: &mut Slots, order: &mut BlockList, place: usize) -> (u32, Node)
    requires taken { AllByRecursion (IsTaken slots.old.items) order.old.items }
    requires within { place < length order.old.items }
    ensures slot { slice_get order.old.items place ≡ Some result.0 }
    ensures node { slice_get slots.old.items result.0 ≡ Some (Taken result.1) }
    ensures slots { slots.new.items ≡ slice_set slots.old.items result.0 (Gone result.1.id) }
    ensures order { order.new.items ≡ remove order.old.items place }
    ensures slot_room { slots.new.capacity ≡ slots.old.capacity }
    ensures order_room { order.new.room ≡ order.old.room + 1 }
{
    let slot = order.remove(place);
    let node = slots.take(slot as usize);
    (slot, node)
}

impl Table {
    ghost use Rattle.tree_nodes.specs.View.{nodes_of, room_of, IsSound};

    /// A table of no nodes, with room for none.
    pub fn new(alloc: Global, next: u64) -> Table
        ensures nodes { nodes_of result ≡ [] }
        ensures sound { IsSound result }
        ensures next { result.next ≡ next }
    {
        Table {
            slots: Slots::new(alloc),
            order: BlockList::new(alloc),
            next,
        }
    }

    /// Adds a node, whose id is to be new and its name not taken. It takes no memory.
    pub fn insert(&mut self, node: Node)
        requires sound { IsSound self.old }
        requires id { (self.old.next ≤ node.id) × (node.id < 2 ^ 64 - 1) }
        requires fresh { named (nodes_of self.old) node.parent node.name ≡ None }
        requires room { 0 < room_of self.old }
        ensures nodes { nodes_of self.new ≡ with_node (nodes_of self.old) node }
        ensures sound { IsSound self.new }
        ensures next { self.new.next ≡ node.id + 1 }
        ensures room { room_of self.old ≤ room_of self.new + 1 }
    {
        self.next = node.id + 1;
        let slot = self.slots.add(node.id);
        put_in(&mut self.slots, &mut self.order, slot as u32, node);
    }

    /// Takes out the node at a place in the order. It takes no memory.
    pub fn remove(&mut self, place: usize) -> Node
        requires sound { IsSound self.old }
        requires within { place < length self.old.order.items }
        ensures node { slice_get (nodes_of self.old) place ≡ Some result }
        ensures nodes { nodes_of self.new ≡ without (nodes_of self.old) result.id }
        ensures sound { IsSound self.new }
        ensures next { self.new.next ≡ self.old.next }
        ensures room { room_of self.old ≤ room_of self.new }
    {
        let out = take_out(&mut self.slots, &mut self.order, place);
        self.next = next_once_gone(self.next, out.1.id);
        out.1
    }

    /// Gives the node at a place in the order another directory and name, which is not to be taken.
    /// It takes no memory.
    pub fn rename(&mut self, place: usize, dir: u64, name: Name)
        requires sound { IsSound self.old }
        requires within { place < length self.old.order.items }
        requires fresh { named (nodes_of self.old) dir name ≡ None }
        ensures nodes { (n : Node) → slice_get (nodes_of self.old) place ≡ Some n → nodes_of self.new ≡ with_node (without (nodes_of self.old) n.id) (record n { parent = dir; name = name }) }
        ensures sound { IsSound self.new }
        ensures next { self.new.next ≡ self.old.next }
        ensures room { room_of self.old ≤ room_of self.new }
    {
        let (slot, node) = take_out(&mut self.slots, &mut self.order, place);
        let node = node.renamed(dir, name);
        put_in(&mut self.slots, &mut self.order, slot, node);
    }

    /// Gives the node of an id another version, if there is one. It takes no memory.
    #[tactic(auto, using(crate::proofs::Renewing::changed_none))]
    pub fn set_version(&mut self, id: u64, version: u64)
        requires sound { IsSound self.old }
        ensures nodes { nodes_of self.new ≡ versioned (nodes_of self.old) id version }
        ensures sound { IsSound self.new }
        ensures next { self.new.next ≡ self.old.next }
        ensures room { room_of self.old ≤ room_of self.new }
    {
        if has_id(&self.slots, id) {
            self.renew(id, version);
        }
    }

    fn renew(&mut self, id: u64, version: u64)
        requires sound { IsSound self.old }
        requires there { IsSome (taken_at self.old.slots.items id) }
        ensures nodes { nodes_of self.new ≡ versioned (nodes_of self.old) id version }
        ensures sound { IsSound self.new }
        ensures next { self.new.next ≡ self.old.next }
        ensures room { room_of self.old ≤ room_of self.new }
    {
        let place = place_of(&self.slots, id);
        let node = self.slots.take(place);
        let node = node.renewed(version);
        self.slots.put(place, node);
    }

    /// Gives the node of an id another version and content, as a file. It takes no memory.
    pub fn set_content(&mut self, id: u64, version: u64, content: Content)
        requires sound { IsSound self.old }
        requires there { IsSome (with_id (nodes_of self.old) id) }
        ensures nodes { nodes_of self.new ≡ changed (nodes_of self.old) id (λ n. record n { version = version; body = File content }) }
        ensures sound { IsSound self.new }
        ensures next { self.new.next ≡ self.old.next }
        ensures room { room_of self.old ≤ room_of self.new }
    {
        let place = place_of(&self.slots, id);
        let node = self.slots.take(place);
        let node = node.refilled(version, content);
        self.slots.put(place, node);
    }

    /// Makes room for so many nodes more. The one error is running out of memory, as which 2^32 nodes or more
    /// count too.
    pub fn reserve(&mut self, count: u32) -> Result<(), AllocError>
        requires sound { IsSound self.old }
        ensures room { OnOk result (count ≤ room_of self.new) }
        ensures more { room_of self.old ≤ room_of self.new }
        ensures nodes { nodes_of self.new ≡ nodes_of self.old }
        ensures sound { IsSound self.new }
        ensures next { self.new.next ≡ self.old.next }
    {
        if self.slots.len() + count as usize > u32::MAX as usize {
            return Err(AllocError);
        }
        self.slots.reserve(count as usize)?;
        self.order.reserve(count)
    }
}

/// The place of the node with an id.
#[tactic(auto, using(crate::proofs::Renewing::place_is))]
fn place_of(slots: &Slots, id: u64) -> usize
    requires rising { AreRising slots.now.items }
    requires there { IsSome (taken_at slots.now.items id) }
    ensures { IsNodeAt slots.now.items result id }
{
    slots.first_from(id)
}
