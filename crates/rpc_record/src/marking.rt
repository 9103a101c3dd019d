//! Records into a stream of bytes (RFC 5531, section 11). `specs/Records.antt` states how they are
//! marked.

ghost use Rattle.std.specs.Prelude.{◌≡◌, ◌+◌, ◌-◌, ◌^◌, ◌<◌, ◌≤◌, List, ℕ, length, drop, Ok, Err, MatchResult, OnOk};
ghost use Rattle.std.specs.Int.{w32, to_be_bytes};
ghost use Rattle.limits.specs.declared.TheConstants.{RECORD_MOST};
ghost use Rattle.rpc_record.specs.Records.{marked};
ghost use Rattle.rpc_record.specs.declared.refusal.MarkError.TheVariants as errors;

use crate::fragments::LAST;
use crate::refusal::MarkError;
use lb_base::items::{Bytes, Items};
use limits::RECORD_MOST;
use std::alloc::Global;

/// The header of a record of so many bytes, which is its only fragment.
fn header_of(len: usize) -> Result<[u8; 4], MarkError>
    ensures too_big { RECORD_MOST < len → result ≡ Err (errors.TooBig len) }
    ensures fits { len ≤ RECORD_MOST → result ≡ Ok (to_be_bytes w32 (2 ^ 31 + len)) }
{
    if RECORD_MOST < len {
        return Err(MarkError::TooBig { len });
    }
    let header = LAST + len as u32;
    Ok(header.to_be_bytes())
}

/// A record as its only fragment: its header, and its bytes.
///
/// More than `RECORD_MOST` bytes are refused as `TooBig`; else only memory can run out, and then nothing
/// is left.
pub fn mark(alloc: Global, contents: &[u8]) -> Result<Bytes, MarkError>
    ensures too_big { RECORD_MOST < length contents.now → result ≡ Err (errors.TooBig (length contents.now)) }
    ensures fits { length contents.now ≤ RECORD_MOST → MatchResult result (λ bytes. bytes ≡ marked contents.now) (λ e. e ≡ errors.Memory) }
{
    let header = header_of(contents.len())?;
    let mut bytes = Vec::with_capacity(alloc, 4 + contents.len())?;
    bytes.extend_from_slice(&header)?;
    bytes.extend_from_slice(contents)?;
    Ok(Items::from_vec(bytes))
}

/// Writes a record's header over the first four bytes, which stand before its own: so a record that
/// was spelled behind four bytes is marked where it stands. It takes no memory.
///
/// More than `RECORD_MOST` bytes behind those four are refused as `TooBig`, and all stays as it was.
pub fn mark_in_place(bytes: &mut [u8]) -> Result<(), MarkError>
    requires { 4 ≤ length bytes.old }
    ensures too_big { RECORD_MOST < length bytes.old - 4 → (result ≡ Err (errors.TooBig (length bytes.old - 4))) × (bytes.new ≡ bytes.old) }
    ensures fits { length bytes.old - 4 ≤ RECORD_MOST → (result ≡ Ok tt) × (bytes.new ≡ marked (drop 4 bytes.old)) }
{
    let header = header_of(bytes.len() - 4)?;
    bytes[0] = header[0];
    bytes[1] = header[1];
    bytes[2] = header[2];
    bytes[3] = header[3];
    Ok(())
}
