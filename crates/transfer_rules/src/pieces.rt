//! Whether what came, or was found by an index, fits: its version, the end of its chunks, the range
//! that it lies in, and the digest of its bytes. `specs/Pieces.antt` says what is wrong with an end, and
//! where a range ends.

ghost use Rattle.std.specs.Prelude.{◌≡◌, ◌==◌};
ghost use Rattle.std.specs.Str.{bytes_eq};
ghost use Rattle.sha1.specs.Sha1.{sha1};
ghost use Rattle.transfer_rules.specs.Pieces.{broken_sum, range_end};

use digests::Dig;
use sha1::Sha1;

/// Whether what was told, or is kept, is of the version that is wanted.
pub fn is_of_version(version: u64, told: u64) -> bool
    ensures { result ≡ (told == version) }
{
    told == version
}

/// Where a range of `count` bytes ends, if it lies within `len`.
pub fn range_end(offset: u64, count: u64, len: u64) -> Option<u64>
    ensures { result ≡ range_end offset count len }
{
    let end = offset.checked_add(count)?;
    if end > len { None } else { Some(end) }
}

/// Whether bytes have this digest of SHA-1, in all its bytes: they are hashed each time.
pub fn has_digest(bytes: &[u8], digest: &Dig) -> bool
    ensures { result ≡ bytes_eq (sha1 bytes.now) digest.now }
{
    let got = Sha1::digest(bytes);
    got.as_slice() == digest.as_slice()
}

/// What is wrong with the end of the chunks of a piece, which is the file's last or not, of so many.
pub fn broken_sum(is_last: bool, sum: u64, size: u64, count: u64) -> Option<(u64, u64)>
    ensures { result ≡ broken_sum is_last sum size count }
{
    if is_last {
        return if sum == size { None } else { Some((sum, size)) };
    }
    if sum > size {
        return Some((sum, size));
    }
    if count == 0 {
        return Some((0, 1));
    }
    None
}
