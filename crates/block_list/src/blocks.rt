//! Numbers in blocks: `specs/Blocks.antt`.

ghost use Rattle.std.specs.Prelude.{◌≡◌, ℕ, ◌+◌, ◌-◌, ◌*◌, ◌/◌, ◌%◌, ◌<◌, ◌≤◌, length, Some};
ghost use Rattle.std.specs.List.{concat, slice_get, slice_set, insert, remove};
ghost use Rattle.block_list.specs.Blocks.{block_at, AreFilled, HaveHole};

use crate::block::{BLOCK_MOST, Block};

/// The number at a place.
pub fn at(blocks: &Vec<Block>, len: usize, place: usize) -> Option<u32>
    requires filled { AreFilled blocks.now.items len }
    requires within { place < len }
    ensures { result ≡ slice_get (concat blocks.now.items) place }
{
    blocks[place / BLOCK_MOST].at(place % BLOCK_MOST)
}

/// Moves the last number of a block to the front of the next.
fn move_on(blocks: &mut Vec<Block>, block: usize)
    requires next { block + 1 < length blocks.old.items }
    requires some { 0 < length (block_at blocks.old.items block) }
    requires room { length (block_at blocks.old.items (block + 1)) < 2048 }
    ensures same { concat blocks.new.items ≡ concat blocks.old.items }
    ensures count { length blocks.new.items ≡ length blocks.old.items }
    ensures hole { (n : ℕ) → HaveHole blocks.old.items n (block + 1) → HaveHole blocks.new.items n block }
{
    let number = blocks[block].pop_back();
    blocks[block + 1].push_front(number);
}

/// Moves the first number of a block's next to its back.
fn move_back(blocks: &mut Vec<Block>, block: usize)
    requires next { block + 1 < length blocks.old.items }
    requires some { 0 < length (block_at blocks.old.items (block + 1)) }
    requires room { length (block_at blocks.old.items block) < 2048 }
    ensures same { concat blocks.new.items ≡ concat blocks.old.items }
    ensures count { length blocks.new.items ≡ length blocks.old.items }
    ensures hole { (n : ℕ) → HaveHole blocks.old.items n block → HaveHole blocks.new.items n (block + 1) }
{
    let number = blocks[block + 1].pop_front();
    blocks[block].push_back(number);
}

/// Makes room for a number in a block, which is not behind the last number.
fn open(blocks: &mut Vec<Block>, len: usize, block: usize)
    requires filled { AreFilled blocks.old.items len }
    requires room { len < 2048 * length blocks.old.items }
    requires within { block ≤ len / 2048 }
    ensures same { concat blocks.new.items ≡ concat blocks.old.items }
    ensures count { length blocks.new.items ≡ length blocks.old.items }
    ensures hole { HaveHole blocks.new.items len block }
{
    let mut hole = len / BLOCK_MOST;
    'holes: while block < hole {
        hole -= 1;
        move_on(blocks, hole);
    }
}

/// Fills a block that is short of a number from those behind it; so many numbers there are.
fn close(blocks: &mut Vec<Block>, len: usize, block: usize)
    requires hole { HaveHole blocks.old.items len block }
    ensures same { concat blocks.new.items ≡ concat blocks.old.items }
    ensures count { length blocks.new.items ≡ length blocks.old.items }
    ensures filled { AreFilled blocks.new.items len }
{
    let mut hole = block;
    'holes: while hole < len / BLOCK_MOST {
        move_back(blocks, hole);
        hole += 1;
    }
}

/// Puts a number into a block.
fn put(blocks: &mut Vec<Block>, block: usize, place: usize, number: u32)
    requires there { block < length blocks.old.items }
    requires within { place ≤ length (block_at blocks.old.items block) }
    requires room { length (block_at blocks.old.items block) < 2048 }
    ensures { blocks.new.items ≡ slice_set blocks.old.items block (insert (block_at blocks.old.items block) place number) }
{
    blocks[block].insert(place, number);
}

/// Takes a number out of a block.
fn take(blocks: &mut Vec<Block>, block: usize, place: usize) -> u32
    requires there { block < length blocks.old.items }
    requires within { place < length (block_at blocks.old.items block) }
    ensures value { slice_get (block_at blocks.old.items block) place ≡ Some result }
    ensures rest { blocks.new.items ≡ slice_set blocks.old.items block (remove (block_at blocks.old.items block) place) }
{
    blocks[block].remove(place)
}

/// Puts a number in at a place, where there is room.
pub fn insert(blocks: &mut Vec<Block>, len: usize, place: usize, number: u32)
    requires filled { AreFilled blocks.old.items len }
    requires room { len < 2048 * length blocks.old.items }
    requires within { place ≤ len }
    ensures items { concat blocks.new.items ≡ insert (concat blocks.old.items) place number }
    ensures count { length blocks.new.items ≡ length blocks.old.items }
    ensures filled { AreFilled blocks.new.items (len + 1) }
{
    open(blocks, len, place / BLOCK_MOST);
    put(blocks, place / BLOCK_MOST, place % BLOCK_MOST, number);
}

/// Takes out the number at a place.
pub fn remove(blocks: &mut Vec<Block>, len: usize, place: usize) -> u32
    requires filled { AreFilled blocks.old.items len }
    requires within { place < len }
    ensures value { slice_get (concat blocks.old.items) place ≡ Some result }
    ensures items { concat blocks.new.items ≡ remove (concat blocks.old.items) place }
    ensures count { length blocks.new.items ≡ length blocks.old.items }
    ensures filled { AreFilled blocks.new.items (len - 1) }
{
    let number = take(blocks, place / BLOCK_MOST, place % BLOCK_MOST);
    close(blocks, len - 1, place / BLOCK_MOST);
    number
}
