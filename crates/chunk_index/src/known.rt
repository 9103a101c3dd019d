//! The bytes that lie at a place, and those that a digest names. No place is trusted, so both are
//! looked at each time: `specs/Placed.antt` of `chunk_index`, and `specs/Known.antt`.

ghost use Rattle.std.specs.Prelude.{◌≡◌};
ghost use Rattle.std.specs.Option.{option_copied};
ghost use Rattle.chunk_index.specs.Placed.{bytes_placed};
ghost use Rattle.chunk_index.specs.Known.{with_digest};

use crate::place::Place;
use digests::Dig;
use transfer_rules::pieces::{has_digest, range_end};

/// The bytes of a place, where they lie in a content. It takes no memory.
pub fn bytes_placed<'a>(content: &'a [u8], place: &Place) -> Option<&'a [u8]>
    ensures { option_copied result ≡ bytes_placed content.now place.now }
{
    let end = range_end(place.offset, place.count, content.len() as u64)?;
    Some(&content[place.offset as usize..end as usize])
}

/// Bytes that were found, where they have the digest: they are hashed each time. It takes no memory.
pub fn with_digest<'a>(found: Option<&'a [u8]>, digest: &Dig) -> Option<&'a [u8]>
    ensures { option_copied result ≡ with_digest digest.now (option_copied found.entry) }
{
    match found {
        Some(bytes) => {
            if has_digest(bytes, digest) {
                Some(bytes)
            } else {
                None
            }
        }
        None => None,
    }
}
