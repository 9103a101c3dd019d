//! A block: a ring of numbers with room for 2,048.

ghost use Rattle.std.specs.Prelude.{◌≡◌, ℕ, ◌<◌, ◌≤◌, List, [], ◌∷◌, ◌++◌, length, IfOk, Some};
ghost use Rattle.std.specs.List.{slice_get, insert, remove};

use std::alloc::{AllocError, Global};
use std::collections::VecDeque;
use std::marker::Model;

/// How many numbers a block has room for.
pub const BLOCK_MOST: usize = 2048;

/// Numbers in a ring, so that one comes or goes at either end without a move of the others.
#[derive(Drop)]
pub struct Block {
    numbers: VecDeque<u32>,
}

impl Model for Block {
    ghost use Rattle.std.specs.Prelude.{ℕ, ◌≤◌, List};
    ghost use Rattle.std.specs.VecDeque.{deque_capacity};

    ghost Value = { List ℕ };

    ghost view = { λ b. b.numbers.items };

    ghost invariant = { λ b. 2048 ≤ deque_capacity b.numbers };
}

impl Block {
    /// A block of no number. The one error is running out of memory.
    pub fn new(alloc: Global) -> Result<Block, AllocError>
        ensures { IfOk result (λ b. b ≡ []) }
    {
        let numbers = VecDeque::with_capacity(alloc, BLOCK_MOST)?;
        Ok(Block { numbers })
    }

    /// The number at a place.
    pub fn at(&self, place: usize) -> Option<u32>
        ensures { result ≡ slice_get self.now place }
    {
        self.numbers.get(place).copied()
    }

    /// Puts a number in at a place, where there is room.
    pub fn insert(&mut self, place: usize, number: u32)
        requires within { place ≤ length self.old }
        requires room { length self.old < 2048 }
        ensures { self.new ≡ insert self.old place number }
    {
        match self.numbers.insert(place, number) {
            Ok(()) => {}
            Err(_) => unreachable!(),
        }
    }

    /// Takes out the number at a place.
    pub fn remove(&mut self, place: usize) -> u32
        requires { place < length self.old }
        ensures value { slice_get self.old place ≡ Some result }
        ensures rest { self.new ≡ remove self.old place }
    {
        match self.numbers.remove(place) {
            Some(number) => number,
            None => unreachable!(),
        }
    }

    /// Puts a number before the others, where there is room.
    pub fn push_front(&mut self, number: u32)
        requires { length self.old < 2048 }
        ensures { self.new ≡ number ∷ self.old }
    {
        self.numbers.push_front_reserved(number);
    }

    /// Puts a number behind the others, where there is room.
    pub fn push_back(&mut self, number: u32)
        requires { length self.old < 2048 }
        ensures { self.new ≡ self.old ++ number ∷ [] }
    {
        self.numbers.push_back_reserved(number);
    }

    /// Takes out the first number.
    pub fn pop_front(&mut self) -> u32
        requires { 0 < length self.old }
        ensures { self.old ≡ result ∷ self.new }
    {
        match self.numbers.pop_front() {
            Some(number) => number,
            None => unreachable!(),
        }
    }

    /// Takes out the last number.
    pub fn pop_back(&mut self) -> u32
        requires { 0 < length self.old }
        ensures { self.old ≡ self.new ++ result ∷ [] }
    {
        match self.numbers.pop_back() {
            Some(number) => number,
            None => unreachable!(),
        }
    }
}
