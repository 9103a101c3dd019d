//! Places for nodes, with what a search reads of each beside it, so that most of its steps read no
//! node: `specs/Places.antt`.

ghost use Rattle.std.specs.Prelude.{◌≡◌, ◌+◌, ◌<◌, ◌^◌, ◌≤◌, OnOk, Some, List, [], ◌∷◌, ◌++◌, length};
ghost use Rattle.std.specs.List.{slice_get, slice_set};
ghost use Rattle.std.specs.Option.{option_copied};
ghost use Rattle.tree_nodes.specs.declared.slot.Slot.TheVariants.{Gone, Taken};
ghost use Rattle.tree_nodes.specs.Nodes.{before};
ghost use Rattle.tree_nodes.specs.Places.{start_of, key_of, AreBytes};
ghost use Rattle.tree_nodes.specs.Table.{node_in, node_at, first_from, AreRising, IsTaken};

use crate::key::{self, BLANK, Key};
use crate::node::Node;
use crate::slot::{self, Slot};
use std::alloc::{AllocError, Global};
use std::marker::Model;

/// Places for nodes, by rising ids.
#[derive(Drop)]
pub struct Slots {
    held: Vec<Slot>,
    keys: Vec<Key>,
}

impl Model for Slots {
    ghost use Rattle.std.specs.Prelude.{min};
    ghost use Rattle.std.specs.Vec.{vec_capacity};
    ghost use Rattle.tree_nodes.specs.Places.{Places, AreKeyed};

    ghost Value = { Places };

    ghost view = { λ s. record { items = s.held.items; capacity = min (vec_capacity s.held) (vec_capacity s.keys) } };

    ghost invariant = { λ s. AreKeyed s.held.items s.keys.items };
}

impl Slots {
    /// No places. It takes no memory.
    pub fn new(alloc: Global) -> Slots
        ensures { result.items ≡ [] }
    {
        Slots {
            held: Vec::new(alloc),
            keys: Vec::new(alloc),
        }
    }

    /// How many places there are.
    pub fn len(&self) -> usize
        ensures len { result ≡ length self.now.items }
        ensures few { result < 2 ^ 63 }
    {
        self.held.len()
    }

    /// The place of the first whose id isn't below this one.
    pub fn first_from(&self, id: u64) -> usize
        requires { AreRising self.now.items }
        ensures { result ≡ first_from self.now.items id }
    {
        slot::first_from(&self.held, id)
    }

    /// The node in a place.
    pub fn node_in(&self, place: usize) -> Option<&Node>
        ensures { option_copied result ≡ node_in (slice_get self.now.items place) }
    {
        slot::node_in(&self.held, place)
    }

    /// The key of the node in a place.
    fn key_at(&self, place: usize) -> Key
        ensures key { result ≡ key_of (node_at self.now.items place) }
        ensures bytes { AreBytes (node_at self.now.items place).name }
    {
        key::key_at(&self.keys, place)
    }

    /// Whether the node in a place comes before a name, which begins so.
    pub fn comes_before(&self, place: usize, dir: u64, start: u64, name: &[u8]) -> bool
        requires { start ≡ start_of name.now }
        ensures { result ≡ before (node_at self.now.items place) dir name.now }
    {
        let key = self.key_at(place);
        if key.dir != dir {
            return key.dir < dir;
        }
        if key.start != start {
            return key.start < start;
        }
        slot::comes_before(&self.held, place, dir, name)
    }

    /// Adds a place, for the node of an id that is yet to come, and tells which. It takes no memory.
    pub fn add(&mut self, id: u64) -> usize
        requires { length self.old.items < self.old.capacity }
        ensures place { result ≡ length self.old.items }
        ensures added { self.new.items ≡ self.old.items ++ Gone id ∷ [] }
        ensures capacity { self.old.capacity ≤ self.new.capacity }
    {
        self.keys.push_reserved(BLANK);
        slot::add(&mut self.held, id)
    }

    /// Takes the node out of a place, which keeps its id.
    pub fn take(&mut self, place: usize) -> Node
        requires { IsTaken self.old.items place }
        ensures node { slice_get self.old.items place ≡ Some (Taken result) }
        ensures gone { self.new.items ≡ slice_set self.old.items place (Gone result.id) }
        ensures capacity { self.new.capacity ≡ self.old.capacity }
    {
        self.keys[place] = BLANK;
        slot::take(&mut self.held, place)
    }

    /// Puts a node into a place.
    pub fn put(&mut self, place: usize, node: Node)
        requires { place < length self.old.items }
        ensures put { self.new.items ≡ slice_set self.old.items place (Taken node) }
        ensures capacity { self.new.capacity ≡ self.old.capacity }
    {
        self.keys[place] = key::key_of(&node);
        slot::put(&mut self.held, place, node)
    }

    /// Makes room for so many places more. The one error is running out of memory.
    pub fn reserve(&mut self, count: usize) -> Result<(), AllocError>
        ensures room { OnOk result (length self.old.items + count ≤ self.new.capacity) }
        ensures more { self.old.capacity ≤ self.new.capacity }
        ensures items { self.new.items ≡ self.old.items }
    {
        self.held.reserve(count)?;
        self.keys.reserve(count)
    }
}
