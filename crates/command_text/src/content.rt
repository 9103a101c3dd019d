//! The content of a file as a trace tells it: in parts, of which a few words may stand for more
//! bytes than any memory has: `specs/Content.antt`.

ghost use Rattle.std.specs.Prelude.{◌≡◌, ◌+◌, ◌^◌, ◌≤◌, ◌++◌, IfOk, OnOk, Some, None, MatchOption, nat_le, replicate, if◌then◌else◌};
ghost use Rattle.command_text.specs.Content.{mark, marks, next_state, random_bytes, part_bytes, part_length, content_bytes, content_length};

use lb_base::items::{Bytes, Items};
use std::alloc::{AllocError, Global};

/// A part of a content. It takes no memory but for bytes that stand in the trace. Where the parts
/// of a line were read, their counts are 1 to 2^64 - 1, and none has no bytes.
pub enum Part {
    /// `t:TEXT` or `x:HEX`: these bytes.
    Bytes(Bytes),
    /// `z:N`: so many zero bytes.
    Zeros(u64),
    /// `m:K`: so many times 2,047 zero bytes and 0x78.
    Marks(u64),
    /// `r:S:N`: so many bytes of a generator that starts at the seed, 0 to 2^64 - 1. For each byte
    /// its state s becomes s * 6364136223846793005 + 1442695040888963407 modulo 2^64, and the byte
    /// is s div 2^56.
    Random { seed: u64, count: u64 },
}

// Written by hand, it is proved here alone; derived, each crate above would prove how bytes are dropped.
impl Drop for Part {
    fn drop(self) {
        match self {
            Part::Bytes(bytes) => drop(bytes),
            Part::Zeros(_) | Part::Marks(_) | Part::Random { seed: _, count: _ } => (),
        }
    }
}

/// A content, part by part; `-` is the empty list.
pub type Content = Items<Part>;

/// The bytes of a mark: zero bytes, and 0x78.
const MARK: u64 = 2048;

/// The last byte of a mark.
const MARK_END: u8 = 0x78;

/// The number of bytes of a part.
fn part_length(part: &Part) -> u128
    ensures { result ≡ part_length part.now }
{
    match part {
        Part::Bytes(bytes) => bytes.len() as u128,
        Part::Zeros(count) => u128::from(*count),
        Part::Marks(count) => u128::from(*count) * u128::from(MARK),
        Part::Random { seed: _seed, count } => u128::from(*count),
    }
}

/// The number of bytes of a content, or `None` where it has more than 128 bits. It takes no memory,
/// and time linear in the number of parts.
pub fn length(content: &Content) -> Option<u128>
    ensures { MatchOption result (2 ^ 128 ≤ content_length content.now) (λ n. n ≡ content_length content.now) }
{
    let mut length = 0u128;
    for part in content.as_slice() {
        length = length.checked_add(part_length(part))?;
    }
    Some(length)
}

/// The number of bytes of a content, where it is at most `most`, else `None`. It takes no memory,
/// and time linear in the number of parts.
pub fn length_within(content: &Content, most: u64) -> Option<u64>
    ensures { result ≡ (if nat_le (content_length content.now) most then Some (content_length content.now) else None) }
{
    let length = length(content)?;
    if length <= u128::from(most) {
        Some(length as u64)
    } else {
        None
    }
}

/// Adds so many zero bytes.
fn push_zeros(bytes: &mut Vec<u8>, count: u64) -> Result<(), AllocError>
    ensures { OnOk result (bytes.new.items ≡ bytes.old.items ++ replicate count 0) }
{
    let length = bytes.len().checked_add(count as usize).ok_or(AllocError)?;
    bytes.resize(length, 0)
}

/// Adds a mark.
#[tactic(auto, using(crate::proofs::lemmas::Contents::mark_is))]
fn push_mark(bytes: &mut Vec<u8>) -> Result<(), AllocError>
    ensures { OnOk result (bytes.new.items ≡ bytes.old.items ++ mark) }
{
    push_zeros(bytes, MARK - 1)?;
    bytes.push(MARK_END)?;
    Ok(())
}

/// Adds so many marks.
fn push_marks(bytes: &mut Vec<u8>, count: u64) -> Result<(), AllocError>
    ensures { OnOk result (bytes.new.items ≡ bytes.old.items ++ marks count) }
{
    for _ in 0..count {
        push_mark(bytes)?;
    }
    Ok(())
}

/// What the generator steps to.
fn next_state(state: u64) -> u64
    ensures { result ≡ next_state state }
{
    state
        .wrapping_mul(6_364_136_223_846_793_005)
        .wrapping_add(1_442_695_040_888_963_407)
}

/// Adds so many bytes of the generator that stands at the seed.
fn push_random(bytes: &mut Vec<u8>, seed: u64, count: u64) -> Result<(), AllocError>
    ensures { OnOk result (bytes.new.items ≡ bytes.old.items ++ random_bytes seed count) }
{
    let mut state = seed;
    for _ in 0..count {
        state = next_state(state);
        bytes.push((state >> 56) as u8)?;
    }
    Ok(())
}

/// Adds the bytes of a part.
fn push_part(bytes: &mut Vec<u8>, part: &Part) -> Result<(), AllocError>
    ensures { OnOk result (bytes.new.items ≡ bytes.old.items ++ part_bytes part.now) }
{
    match part {
        Part::Bytes(more) => bytes.extend_from_slice(more.as_slice()),
        Part::Zeros(count) => push_zeros(bytes, *count),
        Part::Marks(count) => push_marks(bytes, *count),
        Part::Random { seed, count } => push_random(bytes, *seed, *count),
    }
}

/// The bytes of a content, in time linear in their number. The one error is running out of memory,
/// which comes at once where their number has more than 64 bits. The room for all is taken first,
/// so test the number before (`length_within`): a few words may ask for more than a machine has.
pub fn build(alloc: Global, content: &Content) -> Result<Bytes, AllocError>
    ensures { IfOk result (λ b. b ≡ content_bytes content.now) }
{
    let length = length_within(content, u64::MAX).ok_or(AllocError)?;
    let mut bytes = Vec::with_capacity(alloc, length as usize)?;
    for part in content.as_slice() {
        push_part(&mut bytes, part)?;
    }
    Ok(Items::from_vec(bytes))
}
