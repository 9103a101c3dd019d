//! Whether a chunk ends behind a window, by the window's fingerprint and by how many bytes the chunk
//! has: `MayEnd` of `chunk_cut/specs/Ends.antt`. `chunk_cut` goes by it; it stands here because this
//! crate's check is short, and a wrong body of it is tried each time.

ghost use Rattle.std.specs.Prelude.{◌≡◌, ◌%◌, ◌^◌, ◌≤◌, ◌⊎◌, IsTrue, ◌↔◌};

/// The least number of bytes of a chunk that is not the last.
pub const LEAST: u64 = limits::CHUNK_LEAST as u64;

// The most bytes of a chunk.
const MOST: u64 = limits::CHUNK_MOST as u64;

// A window is marked by these low bits of its fingerprint.
const MARK_BITS: u64 = 0x1FFF;

const MARK: u64 = 0x78;

/// Whether a chunk of `len` bytes ends with the window of this fingerprint.
pub fn is_end(print: u64, len: u64) -> bool
    ensures { IsTrue result ↔ (2048 ≤ len) × ((print % 2 ^ 13 ≡ 0x78) ⊎ (len ≡ 65536)) }
{
    len >= LEAST && ends_here(print, len)
}

/// Whether it does where it has the least number of bytes.
pub fn ends_here(print: u64, len: u64) -> bool
    ensures { IsTrue result ↔ ((print % 2 ^ 13 ≡ 0x78) ⊎ (len ≡ 65536)) }
{
    print & MARK_BITS == MARK || len == MOST
}
