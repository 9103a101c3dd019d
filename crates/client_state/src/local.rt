//! What write, trunc and read make of an open file's bytes: `specs/Local.antt`.

ghost use Rattle.std.specs.Prelude.{◌≡◌, [], ◌+◌, ◌-◌, ◌^◌, ◌++◌, ◌<◌, ◌≤◌, length, take, drop, replicate, IfOk, OnOk, MatchResult};
ghost use Rattle.client_state.specs.Local.{written_size, written, truncated, part_of};

use lb_base::items::Items;
use limits::FILE_MOST;
use shared_bytes::SharedBytes;
use std::alloc::{AllocError, Global};

/// No local content is longer, in bytes.
pub const LOCAL_MOST: u128 = FILE_MOST as u128;

/// The first so many bytes, or as many as there are.
#[tactic(auto, using(std::proofs::lemmas::List::take_all))]
fn first_of(bytes: &[u8], count: u64) -> &[u8]
    ensures { result.now ≡ take count bytes.now }
{
    if count < bytes.len() as u64 {
        &bytes[..count as usize]
    } else {
        bytes
    }
}

/// The bytes from a place on.
#[tactic(auto, using(crate::proofs::lemmas::Edits::drop_past))]
fn rest_of(bytes: &[u8], offset: u64) -> &[u8]
    ensures { result.now ≡ drop offset bytes.now }
{
    if offset < bytes.len() as u64 {
        &bytes[offset as usize..]
    } else {
        &bytes[bytes.len()..]
    }
}

/// What there is of a range.
pub fn part_of(bytes: &[u8], offset: u64, count: u64) -> &[u8]
    ensures { result.now ≡ part_of bytes.now offset count }
{
    first_of(rest_of(bytes, offset), count)
}

/// How long a content is after a write of so many bytes. A number past 128 bits is running out of
/// memory.
pub fn written_size(size: u64, offset: u64, count: u128) -> Result<u128, AllocError>
    ensures { MatchResult result (λ n. n ≡ written_size size offset count) (λ e. 2 ^ 128 ≤ written_size size offset count) }
{
    let end = u128::from(offset).checked_add(count).ok_or(AllocError)?;
    Ok(u128::from(size).max(end))
}

/// The bytes before a place: a gap is filled with zeros. There is room for a whole of this size.
#[tactic(auto, using(crate::proofs::lemmas::Edits::filled_first))]
fn filled(alloc: Global, bytes: &[u8], offset: u64, size: u64) -> Result<Vec<u8>, AllocError>
    ensures { IfOk result (λ v. v.items ≡ take offset bytes.now ++ replicate (offset - length bytes.now) 0) }
{
    let mut filled = Vec::with_capacity(alloc, size as usize)?;
    filled.extend_from_slice(first_of(bytes, offset))?;
    filled.resize(offset as usize, 0)?;
    Ok(filled)
}

/// The content with some bytes written at a place.
#[tactic(auto, using(crate::proofs::lemmas::Edits::by_written))]
pub fn written(
    alloc: Global,
    bytes: &[u8],
    offset: u64,
    more: &[u8],
) -> Result<SharedBytes, AllocError>
    requires some { 0 < length more.now }
    requires small { offset + length more.now < 18446744073709551616 }
    ensures written { IfOk result (λ b. b ≡ written bytes.now offset more.now) }
    ensures size { IfOk result (λ b. length b ≡ written_size (length bytes.now) offset (length more.now)) }
{
    let end = offset + more.len() as u64;
    let mut whole = filled(alloc, bytes, offset, end.max(bytes.len() as u64))?;
    whole.extend_from_slice(more)?;
    whole.extend_from_slice(rest_of(bytes, end))?;
    Ok(SharedBytes::new(alloc, Items::from_vec(whole))?)
}

/// The content cut to a size, or filled with zeros up to it.
#[tactic(auto, using(crate::proofs::lemmas::Edits::truncated_length))]
pub fn truncated(alloc: Global, bytes: &[u8], size: u64) -> Result<SharedBytes, AllocError>
    ensures truncated { IfOk result (λ b. b ≡ truncated bytes.now size) }
    ensures size { IfOk result (λ b. length b ≡ size) }
{
    let whole = filled(alloc, bytes, size, size)?;
    Ok(SharedBytes::new(alloc, Items::from_vec(whole))?)
}
