//! Writing items to the end of a record (RFC 4506).
//!
//! Each call writes its item's spelling, which is a multiple of four bytes, or answers
//! `AllocError`, the one error that there is; then nothing was written. `specs/Xdr.antt` states
//! each spelling.

ghost use Rattle.std.specs.Prelude.{◌≡◌, ℕ, ◌++◌, [], ◌<◌, ◌≤◌, ◌^◌, length, OnOk, OnErr, replicate};
ghost use Rattle.xdr_codec.specs.Xdr.{u32_form, u64_form, bool_form, fixed_form, opaque_form, padded, opaque_spell, fill_len};

use lb_base::items::Bytes;
use std::alloc::{AllocError, Global};
use std::marker::Model;

/// The bytes so far.
pub struct Writer {
    out: Vec<u8>,
}

// Written by hand, it is proved here alone.
impl Drop for Writer {
    fn drop(self) {
        let Writer { out } = self;
        drop(out)
    }
}

impl Model for Writer {
    ghost use Rattle.std.specs.Prelude.{List, ℕ};

    ghost Value = { List ℕ };

    ghost view = { λ w. w.out.items };
}

/// The zeros behind so many bytes, up to a multiple of four.
fn fill(len: usize) -> &'static [u8]
    ensures { result.now ≡ replicate (fill_len len) 0 }
{
    match (4 - len % 4) % 4 {
        0 => &[],
        1 => &[0],
        2 => &[0, 0],
        _ => &[0, 0, 0],
    }
}

impl Writer {
    /// A record with nothing in it. Takes no memory.
    pub fn new(alloc: Global) -> Writer
        ensures { result ≡ [] }
    {
        Writer {
            out: Vec::new(alloc),
        }
    }

    /// Nothing yet, for what is to be appended whole or not at all. Takes no memory.
    pub fn part(&self) -> Writer
        ensures { result ≡ [] }
    {
        Writer::new(*self.out.allocator())
    }

    /// All that a part holds, behind what was written. It is copied only where something was
    /// written before.
    pub fn append(&mut self, part: Writer) -> Result<(), AllocError>
        ensures spelled { OnOk result (self.new ≡ self.old ++ part) }
        ensures stays { OnErr result (self.new ≡ self.old) }
    {
        let Writer { out } = part;
        if self.out.is_empty() {
            self.out = out;
            return Ok(());
        }
        self.out.extend_from_slice(&out)
    }

    /// The bytes that were written. Takes no memory.
    pub fn done(self) -> Bytes
        ensures { result ≡ self }
    {
        let Writer { out } = self;
        Bytes::from_vec(out)
    }

    /// A number below 2 ^ 32: four bytes, the highest first (RFC 4506, section 4.2).
    #[tactic(auto, unfolding(crate::specs::Xdr::u32_form))]
    pub fn u32(&mut self, value: u32) -> Result<(), AllocError>
        ensures spelled { OnOk result (self.new ≡ self.old ++ u32_form.spell value) }
        ensures fits { u32_form.Fits value }
        ensures stays { OnErr result (self.new ≡ self.old) }
    {
        self.out.extend_from_slice(&value.to_be_bytes())
    }

    /// A number below 2 ^ 64: eight bytes, the highest first (RFC 4506, section 4.5).
    #[tactic(auto, unfolding(crate::specs::Xdr::u64_form))]
    pub fn u64(&mut self, value: u64) -> Result<(), AllocError>
        ensures spelled { OnOk result (self.new ≡ self.old ++ u64_form.spell value) }
        ensures fits { u64_form.Fits value }
        ensures stays { OnErr result (self.new ≡ self.old) }
    {
        self.out.extend_from_slice(&value.to_be_bytes())
    }

    /// A truth value: the number 0 or 1 (RFC 4506, section 4.4).
    #[tactic(auto, unfolding(crate::specs::Xdr::bool_form))]
    pub fn bool(&mut self, value: bool) -> Result<(), AllocError>
        ensures spelled { OnOk result (self.new ≡ self.old ++ bool_form.spell value) }
        ensures fits { bool_form.Fits value }
        ensures stays { OnErr result (self.new ≡ self.old) }
    {
        self.u32(if value { 1 } else { 0 })
    }

    /// Whether an item is there; where it is, it is to follow (RFC 4506, section 4.19).
    pub fn opt(&mut self, value: bool) -> Result<(), AllocError>
        ensures spelled { OnOk result (self.new ≡ self.old ++ bool_form.spell value) }
        ensures fits { bool_form.Fits value }
        ensures stays { OnErr result (self.new ≡ self.old) }
    {
        self.bool(value)
    }

    /// Bytes whose number the format says, and zeros up to a multiple of four (RFC 4506, section
    /// 4.9).
    #[tactic(auto, unfolding(crate::specs::Xdr::fixed_form))]
    pub fn fixed(&mut self, bytes: &[u8]) -> Result<(), AllocError>
        ensures spelled { OnOk result (self.new ≡ self.old ++ padded bytes.now) }
        ensures fits { (fixed_form (length bytes.now)).Fits bytes.now }
        ensures stays { OnErr result (self.new ≡ self.old) }
    {
        self.put(&[], bytes)
    }

    /// Bytes behind their number, and zeros up to a multiple of four (RFC 4506, section 4.10). They
    /// are to be fewer than 2 ^ 32, as those of any message that fits are.
    #[tactic(auto, unfolding(crate::specs::Xdr::opaque_spell))]
    pub fn opaque(&mut self, bytes: &[u8]) -> Result<(), AllocError>
        ensures spelled { OnOk result (self.new ≡ self.old ++ opaque_spell bytes.now) }
        ensures fits { (max : ℕ) → length bytes.now ≤ max → max < 2 ^ 32 → (opaque_form max).Fits bytes.now }
        ensures stays { OnErr result (self.new ≡ self.old) }
    {
        let len = (bytes.len() % 0x1_0000_0000) as u32;
        self.put(&len.to_be_bytes(), bytes)
    }

    /// All of them, or nothing.
    fn put(&mut self, front: &[u8], bytes: &[u8]) -> Result<(), AllocError>
        requires { length front.now ≤ 4 }
        ensures spelled { OnOk result (self.new ≡ self.old ++ front.now ++ padded bytes.now) }
        ensures stays { OnErr result (self.new ≡ self.old) }
    {
        let fill = fill(bytes.len());
        self.out.reserve(front.len() + bytes.len() + fill.len())?;
        self.out.extend_from_slice(front)?;
        self.out.extend_from_slice(bytes)?;
        self.out.extend_from_slice(fill)
    }
}
