//! The list: its one public face.

ghost use Rattle.std.specs.Prelude.{◌≡◌, ◌+◌, ◌<◌, ◌≤◌, [], length, OnOk, OnErr, Some};
ghost use Rattle.std.specs.List.{slice_get, insert, remove};

use crate::block::{BLOCK_MOST, Block};
use crate::blocks;
use std::alloc::{AllocError, Global};
use std::marker::Model;

/// How many numbers a list has room for at the most.
const LIST_MOST: usize = 1 << 62;

/// Numbers in blocks, all full but the last. One that comes or goes moves some of its block, and one
/// number of each block behind that; its place is found by division. Blocks come by `reserve` alone.
pub struct BlockList {
    blocks: Vec<Block>,
    len: usize,
    room: usize,
}

impl Drop for BlockList {
    fn drop(self) {
        let BlockList {
            blocks,
            len: _len,
            room: _room,
        } = self;
        drop(blocks);
    }
}

impl Model for BlockList {
    ghost use Rattle.std.specs.List.{concat};
    ghost use Rattle.block_list.specs.View.{Listed, IsSound};

    ghost Value = { Listed };

    ghost view = { λ l. record { items = concat l.blocks.items; room = l.room } };

    ghost invariant = { λ l. IsSound l.blocks.items l.len l.room };
}

impl BlockList {
    /// No numbers, and room for none. It takes no memory.
    pub fn new(alloc: Global) -> BlockList
        ensures { result.items ≡ [] }
    {
        BlockList {
            blocks: Vec::new(alloc),
            len: 0,
            room: 0,
        }
    }

    /// How many numbers there are.
    pub fn len(&self) -> usize
        ensures { result ≡ length self.now.items }
    {
        self.len
    }

    /// The number at a place.
    pub fn at(&self, place: usize) -> Option<u32>
        ensures { result ≡ slice_get self.now.items place }
    {
        if self.len <= place {
            return None;
        }
        blocks::at(&self.blocks, self.len, place)
    }

    /// Puts a number in at a place, where there is room. It takes no memory.
    pub fn insert(&mut self, place: usize, number: u32)
        requires room { 0 < self.old.room }
        requires within { place ≤ length self.old.items }
        ensures items { self.new.items ≡ insert self.old.items place number }
        ensures room { self.old.room ≡ self.new.room + 1 }
    {
        blocks::insert(&mut self.blocks, self.len, place, number);
        self.len += 1;
        self.room -= 1;
    }

    /// Takes out the number at a place.
    pub fn remove(&mut self, place: usize) -> u32
        requires { place < length self.old.items }
        ensures value { slice_get self.old.items place ≡ Some result }
        ensures items { self.new.items ≡ remove self.old.items place }
        ensures room { self.new.room ≡ self.old.room + 1 }
    {
        let number = blocks::remove(&mut self.blocks, self.len, place);
        self.len -= 1;
        self.room += 1;
        number
    }

    /// Makes room for so many more. The one error is running out of memory.
    pub fn reserve(&mut self, count: u32) -> Result<(), AllocError>
        ensures ok { OnOk result (count ≤ self.new.room) }
        ensures more { self.old.room ≤ self.new.room }
        ensures items { self.new.items ≡ self.old.items }
    {
        'wider: while self.room < count as usize {
            self.widen()?;
        }
        Ok(())
    }

    /// One more block. The one error is running out of memory, and then nothing changes.
    fn widen(&mut self) -> Result<(), AllocError>
        ensures ok { OnOk result (self.new.room ≡ self.old.room + 2048) }
        ensures err { OnErr result (self.new.room ≡ self.old.room) }
        ensures items { self.new.items ≡ self.old.items }
    {
        if LIST_MOST < self.len + self.room {
            return Err(AllocError);
        }
        let alloc = *self.blocks.allocator();
        self.blocks.push(Block::new(alloc)?)?;
        self.room += BLOCK_MOST;
        Ok(())
    }
}
