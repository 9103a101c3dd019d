//! Reading a cache file: `item_at` and `items_from` of `specs/Items.antt`.

ghost use Rattle.std.specs.Prelude.{◌≡◌, IfOk, option_map};
ghost use Rattle.cache_file.specs.Items.{item_at, items_from};

use lb_base::items::Bytes;
use limits::CHUNK_MOST;
use std::alloc::{AllocError, Global};
use xdr_codec::fault::ReadError;
use xdr_codec::reader::Reader;

/// The next item, where a whole one stands there. The one error is running out of memory.
fn item(alloc: Global, reader: &mut Reader) -> Result<Option<Bytes>, AllocError>
    ensures { IfOk result (λ o. option_map (λ b. (b, reader.new)) o ≡ item_at reader.old) }
{
    match reader.opaque(alloc, CHUNK_MOST) {
        Ok(bytes) => {
            if bytes.is_empty() {
                Ok(None)
            } else {
                Ok(Some(bytes))
            }
        }
        Err(ReadError::Fault(_)) => Ok(None),
        Err(ReadError::Memory) => Err(AllocError),
    }
}

/// The items that stand there one behind the other, at most so many.
pub fn items(alloc: Global, reader: &mut Reader, most: usize) -> Result<Vec<Bytes>, AllocError>
    ensures { IfOk result (λ v. v.items ≡ items_from most reader.old) }
{
    let mut items = Vec::new(alloc);
    for _i in 0..most {
        match item(alloc, reader)? {
            Some(bytes) => items.push(bytes)?,
            None => return Ok(items),
        }
    }
    Ok(items)
}
