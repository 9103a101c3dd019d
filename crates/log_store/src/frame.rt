//! The frames of the log's file: a number, the payload's length, a sum of both and of the payload, and
//! the payload. `specs/Frames.antt` states them. What was torn is no frame: it hasn't its own sum.

ghost use Rattle.std.specs.Prelude.{◌≡◌, ◌++◌, List, ℕ, true, OnOk, IfSome};
ghost use Rattle.std.specs.Int.{w64, to_be_bytes};
ghost use Rattle.log_store.specs.Frames.{front as front_in};
ghost use Rattle.log_store.specs.Frames.{frame};
ghost use Rattle.sha1.specs.Sha1.{sha1};

use sha1::Sha1;
use std::alloc::AllocError;

/// How many bytes stand in front of a frame's payload.
pub const FRONT: usize = 36;

/// The sum of a frame with this front.
fn sum_of(front: &[u8], payload: &[u8]) -> [u8; 20]
    ensures { result ≡ sha1 (front.now ++ payload.now) }
{
    let mut hasher = Sha1::new();
    hasher.update(front);
    hasher.update(payload);
    hasher.finalize()
}

/// What stands in front of a frame's sum.
fn front_of(number: u64, count: u64) -> [u8; 16]
    ensures { result ≡ to_be_bytes w64 number ++ to_be_bytes w64 count }
{
    let number = number.to_be_bytes();
    let count = count.to_be_bytes();
    [
        number[0], number[1], number[2], number[3], number[4], number[5], number[6], number[7],
        count[0], count[1], count[2], count[3], count[4], count[5], count[6], count[7],
    ]
}

/// Writes the frame of a payload behind what is there. The one error is running out of memory.
pub fn put_frame(out: &mut Vec<u8>, number: u64, payload: &[u8]) -> Result<(), AllocError>
    ensures { OnOk result (out.new.items ≡ out.old.items ++ frame number payload.now) }
{
    let front = front_of(number, payload.len() as u64);
    let sum = sum_of(&front, payload);
    out.extend_from_slice(&front)?;
    out.extend_from_slice(&sum)?;
    out.extend_from_slice(payload)?;
    Ok(())
}

/// The payload of the frame of this number that stands in front, if one stands there whole.
pub fn frame_at(number: u64, bytes: &[u8]) -> Option<&[u8]>
    ensures { IfSome result (λ payload. (rest : List ℕ) × (bytes.now ≡ frame number payload.now ++ rest)) }
{
    let (front, behind) = bytes.split_at_checked(16)?;
    let count = number_at(&front[8..])?;
    let (sum, behind) = behind.split_at_checked(20)?;
    let (payload, rest) = behind.split_at_checked(count as usize)?;
    if !is_whole(number, front, sum, payload) {
        return None;
    }
    // The proof alone names it.
    let _rest = rest;
    Some(payload)
}

/// Whether these are the front and the sum of a payload's frame.
fn is_whole(number: u64, front: &[u8], sum: &[u8], payload: &[u8]) -> bool
    ensures { result ≡ true → (front.now ≡ front_in number payload.now) × (sum.now ≡ sha1 (front.now ++ payload.now)) }
{
    front == front_of(number, payload.len() as u64).as_slice()
        && sum == sum_of(front, payload).as_slice()
}

/// The number in the first eight bytes, as a frame's own, or its payload's length.
pub fn number_at(bytes: &[u8]) -> Option<u64> {
    let (first, _rest) = bytes.split_at_checked(8)?;
    let mut number = [0u8; 8];
    number.copy_from_slice(first);
    Some(u64::from_be_bytes(number))
}
