//! Reading items from the front of a record (RFC 4506).
//!
//! The place of a refusal is where the item that failed begins, counted from the record's first
//! byte. An opaque is one item, which begins at its length: `Short` and `BadFill` of its bytes name
//! the length's place too. After a refusal, and where memory runs out, the reader stays where it
//! was. `specs/Xdr.antt` states what each item is.

ghost use Rattle.std.specs.Prelude.{◌≡◌, ℕ, ◌+◌, ◌<◌, ◌≤◌, ◌^◌, length, IfOk, OnErr, IsErrOf};
ghost use Rattle.xdr_codec.specs.Format.{Input, Gives, GivesAll, ended};
ghost use Rattle.xdr_codec.specs.Xdr.{u32_form, u64_form, bool_form, bytes_form, fixed_form, opaque_form, count_form};

use crate::fault::{Fault, ReadError};
use crate::filling::{is_at_end, is_fill};
use lb_base::items::Bytes;
use std::alloc::Global;
use std::marker::Model;

/// The maximum of byte strings and lists that are declared without one (RFC 4506, sections 4.10 and
/// 4.13), in bytes or in items.
pub const NO_MAXIMUM: u32 = 4_294_967_295;

/// What is left of a record, and its place counted from the record's first byte.
#[derive(Drop)]
pub struct Reader<'a> {
    rest: &'a [u8],
    at: usize,
}

impl<'a> Model for Reader<'a> {
    ghost use Rattle.std.specs.Prelude.{◌+◌, ◌<◌, ◌^◌, length};
    ghost use Rattle.xdr_codec.specs.Format.{Input};

    ghost Value = { Input };

    ghost view = { λ r. record { at = r.at; rest = r.rest.now } };

    ghost invariant = { λ r. r.at + length r.rest.now < 2 ^ 64 };
}

impl<'a> Reader<'a> {
    /// A whole record. Takes no memory.
    pub fn new(bytes: &'a [u8]) -> Reader<'a>
        ensures { result ≡ record { at = 0; rest = bytes.now } }
    {
        Reader { rest: bytes, at: 0 }
    }

    /// What is left of a record behind a header of so many bytes.
    pub fn behind(start: usize, rest: &'a [u8]) -> Reader<'a>
        requires { start + length rest.now < 2 ^ 64 }
        ensures { result ≡ record { at = start; rest = rest.now } }
    {
        Reader { rest, at: start }
    }

    /// The place, counted from the record's first byte.
    pub fn at(&self) -> usize
        ensures { result ≡ self.now.at }
    {
        self.at
    }

    /// How many bytes are left.
    pub fn left(&self) -> usize
        ensures { result ≡ length self.now.rest }
    {
        self.rest.len()
    }

    /// A reader at the same place, to go back to.
    pub fn here(&self) -> Reader<'a>
        ensures { result ≡ self.now }
    {
        Reader {
            rest: self.rest,
            at: self.at,
        }
    }

    /// Nothing is left; else `Trailing`. Takes no memory.
    pub fn end(&self) -> Result<(), ReadError>
        ensures gives { GivesAll result (ended self.now) }
        ensures no_memory { ¬ IsErrOf result ReadError.Memory }
    {
        if !is_at_end(self.rest) {
            return Err(ReadError::Fault(Fault::Trailing { at: self.at }));
        }
        Ok(())
    }

    /// A number below 2 ^ 32: four bytes, the highest first (RFC 4506, section 4.2); `Short` where
    /// fewer are left. Takes no memory.
    #[tactic(auto, unfolding(crate::specs::Xdr::u32_form))]
    pub fn u32(&mut self) -> Result<u32, ReadError>
        ensures gives { Gives result self.new (u32_form.read self.old) }
        ensures stays { OnErr result (self.new ≡ self.old) }
        ensures no_memory { ¬ IsErrOf result ReadError.Memory }
    {
        if self.rest.len() < 4 {
            return Err(ReadError::Fault(Fault::Short { at: self.at }));
        }
        let (front, rest) = self.rest.split_at(4);
        let number = u32::from_be_bytes([front[0], front[1], front[2], front[3]]);
        self.rest = rest;
        self.at += 4;
        Ok(number)
    }

    /// A number below 2 ^ 64: eight bytes, the highest first (RFC 4506, section 4.5); `Short` where
    /// fewer are left. Takes no memory.
    #[tactic(auto, unfolding(crate::specs::Xdr::u64_form))]
    pub fn u64(&mut self) -> Result<u64, ReadError>
        ensures gives { Gives result self.new (u64_form.read self.old) }
        ensures stays { OnErr result (self.new ≡ self.old) }
        ensures no_memory { ¬ IsErrOf result ReadError.Memory }
    {
        if self.rest.len() < 8 {
            return Err(ReadError::Fault(Fault::Short { at: self.at }));
        }
        let (front, rest) = self.rest.split_at(8);
        let number = u64::from_be_bytes([
            front[0], front[1], front[2], front[3], front[4], front[5], front[6], front[7],
        ]);
        self.rest = rest;
        self.at += 8;
        Ok(number)
    }

    /// A truth value: the number 0 or 1, else `BadBool` (RFC 4506, section 4.4). Takes no memory.
    #[tactic(auto, unfolding(crate::specs::Xdr::bool_form))]
    pub fn bool(&mut self) -> Result<bool, ReadError>
        ensures gives { Gives result self.new (bool_form.read self.old) }
        ensures stays { OnErr result (self.new ≡ self.old) }
        ensures no_memory { ¬ IsErrOf result ReadError.Memory }
    {
        let (rest, at) = (self.rest, self.at);
        match self.u32()? {
            0 => Ok(false),
            1 => Ok(true),
            value => {
                self.rest = rest;
                self.at = at;
                Err(ReadError::Fault(Fault::BadBool { at, value }))
            }
        }
    }

    /// Whether an item is there; where it is, it follows (RFC 4506, section 4.19). Takes no memory.
    pub fn opt(&mut self) -> Result<bool, ReadError>
        ensures gives { Gives result self.new (bool_form.read self.old) }
        ensures stays { OnErr result (self.new ≡ self.old) }
        ensures no_memory { ¬ IsErrOf result ReadError.Memory }
    {
        self.bool()
    }

    /// A length of at most `max`, in bytes or in items, else `TooLong` (RFC 4506, sections 4.10 and
    /// 4.13). Takes no memory.
    #[tactic(auto, unfolding(crate::specs::Xdr::count_form))]
    pub fn count(&mut self, max: u32) -> Result<u32, ReadError>
        ensures gives { Gives result self.new ((count_form max).read self.old) }
        ensures short { IfOk result (λ len. len ≤ max) }
        ensures stays { OnErr result (self.new ≡ self.old) }
        ensures no_memory { ¬ IsErrOf result ReadError.Memory }
    {
        let (rest, at) = (self.rest, self.at);
        let len = self.u32()?;
        if max < len {
            self.rest = rest;
            self.at = at;
            return Err(ReadError::Fault(Fault::TooLong { at, len, max }));
        }
        Ok(len)
    }

    /// So many bytes, and zeros up to a multiple of four, else `BadFill` (RFC 4506, section 4.9);
    /// `Short` where fewer are left. The bytes are copied: `Memory` where there is none for them.
    /// After an `Err`, `Memory` too, the reader is where it was.
    #[tactic(auto, unfolding(crate::specs::Xdr::fixed_form, crate::specs::Xdr::bytes_form))]
    pub fn fixed(&mut self, alloc: Global, len: usize) -> Result<Bytes, ReadError>
        ensures gives { Gives result self.new ((fixed_form len).read self.old) }
        ensures stays { OnErr result (self.new ≡ self.old) }
        ensures long { IfOk result (λ bytes. length bytes ≡ len) }
    {
        let at = self.at;
        self.bytes(alloc, at, len)
    }

    /// Twenty bytes, as `fixed` reads them. Takes no memory.
    #[tactic(auto, unfolding(crate::specs::Xdr::fixed_form))]
    pub fn digest(&mut self) -> Result<[u8; 20], ReadError>
        ensures gives { Gives result self.new ((fixed_form 20).read self.old) }
        ensures stays { OnErr result (self.new ≡ self.old) }
        ensures no_memory { ¬ IsErrOf result ReadError.Memory }
    {
        if self.rest.len() < 20 {
            return Err(ReadError::Fault(Fault::Short { at: self.at }));
        }
        let (front, rest) = self.rest.split_at(20);
        let mut digest = [0; 20];
        digest.copy_from_slice(front);
        self.rest = rest;
        self.at += 20;
        Ok(digest)
    }

    /// Thirty-two bytes, as `fixed` reads them. Takes no memory.
    #[tactic(auto, unfolding(crate::specs::Xdr::fixed_form))]
    pub fn long_digest(&mut self) -> Result<[u8; 32], ReadError>
        ensures gives { Gives result self.new ((fixed_form 32).read self.old) }
        ensures stays { OnErr result (self.new ≡ self.old) }
        ensures no_memory { ¬ IsErrOf result ReadError.Memory }
    {
        if self.rest.len() < 32 {
            return Err(ReadError::Fault(Fault::Short { at: self.at }));
        }
        let (front, rest) = self.rest.split_at(32);
        let mut digest = [0; 32];
        digest.copy_from_slice(front);
        self.rest = rest;
        self.at += 32;
        Ok(digest)
    }

    /// At most `max` bytes behind their number, else `TooLong`, and zeros up to a multiple of four,
    /// else `BadFill` (RFC 4506, section 4.10); `Short` where fewer are left. The bytes are copied:
    /// `Memory` where there is none for them. After an `Err`, `Memory` too, the reader is where it
    /// was, before the number.
    #[tactic(auto, unfolding(crate::specs::Xdr::opaque_read))]
    pub fn opaque(&mut self, alloc: Global, max: u32) -> Result<Bytes, ReadError>
        ensures gives { Gives result self.new ((opaque_form max).read self.old) }
        ensures stays { OnErr result (self.new ≡ self.old) }
        ensures short { IfOk result (λ bytes. length bytes ≤ max) }
    {
        let (rest, at) = (self.rest, self.at);
        let len = self.count(max)?;
        let read = self.bytes(alloc, at, len as usize);
        if read.is_err() {
            self.rest = rest;
            self.at = at;
        }
        read
    }

    /// Bytes and their fill, as a part of the item that begins at `at`.
    #[tactic(auto, unfolding(crate::specs::Xdr::bytes_form))]
    fn bytes(&mut self, alloc: Global, at: usize, len: usize) -> Result<Bytes, ReadError>
        ensures gives { Gives result self.new ((bytes_form at len).read self.old) }
        ensures stays { OnErr result (self.new ≡ self.old) }
        ensures long { IfOk result (λ bytes. length bytes ≡ len) }
    {
        let fill_len = (4 - len % 4) % 4;
        if self.rest.len() < len || self.rest.len() - len < fill_len {
            return Err(ReadError::Fault(Fault::Short { at }));
        }
        let (front, rest) = self.rest.split_at(len);
        let (fill, rest) = rest.split_at(fill_len);
        if !is_fill(fill) {
            return Err(ReadError::Fault(Fault::BadFill { at }));
        }
        let bytes = Bytes::from_vec(Vec::from_slice(alloc, front)?);
        self.rest = rest;
        self.at += len + fill_len;
        Ok(bytes)
    }
}
