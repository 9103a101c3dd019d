//! The file in which a mount keeps bytes for the next one: the chunks of what its client keeps. Nobody
//! trusts them. `specs/Items.antt` says what stands in such a file, and `specs/Saved.antt` what is written
//! to it.
#![tactic(auto)]

ghost use Rattle.std.specs.Prelude.{◌≡◌, ◌↔◌, List, ℕ, IfOk, true};
ghost use Rattle.client_cache.specs.Cache.{Entries};
ghost use Rattle.xdr_codec.specs.Format.{IsBytes};
ghost use Rattle.cache_file.specs.Items.{AreItems, IsCache, is_cache, items, spelled};
ghost use Rattle.cache_file.specs.Saved.{saved};

mod loading;
mod looking;
mod saving;

use client_cache::cache::Cache;
use lb_base::items::Bytes;
use saving::Saving;
use std::alloc::{AllocError, Global};
use xdr_codec::reader::Reader;

/// The items that stand in a cache file, up to the first place where none does. The one error is
/// running out of memory.
pub fn load(alloc: Global, bytes: &[u8]) -> Result<Vec<Bytes>, AllocError>
    ensures { IfOk result (λ v. v.items ≡ items bytes.now) }
{
    let mut reader = Reader::new(bytes);
    loading::items(alloc, &mut reader, bytes.len())
}

/// Whether bytes are taken for a cache file's. The format has no mark of its own: the whole of them is items,
/// or there are none. So whoever replaces a cache file can leave alone what is none. It takes no memory.
pub fn is_cache(bytes: &[u8]) -> bool
    ensures { result ≡ is_cache bytes.now }
{
    looking::are_items(bytes)
}

/// What is kept in a cache file of a client's cache, over the bytes that stood in it: the chunks of the contents
/// that are kept, the most recent first, and behind them the items that stood there, each once, as many from the
/// first on as take at most 67,108,864 bytes. `load` gives them again. The one error is running out of memory.
pub fn save(alloc: Global, cache: &Cache, old: &[u8]) -> Result<Bytes, AllocError>
    ensures spelled { IfOk result (λ bytes. bytes ≡ spelled (saved cache.now (items old.now))) }
    ensures again { IfOk result (λ bytes. items bytes ≡ saved cache.now (items old.now)) }
{
    chunk_cut::ends_law();
    let stood = load(alloc, old)?;
    let mut saving = Saving::new(alloc);
    saving.all(alloc, cache, stood.as_slice())?;
    Ok(saving.done())
}

/// What `items` finds is the longest list of whole items that begins the bytes, and no other list is. What is
/// items to its end is taken for a cache file, and nothing else.
pub fn items_law()
    ensures found { (bytes : List ℕ) → IsBytes bytes → AreItems bytes (items bytes) }
    ensures only { (bytes : List ℕ) (xs : List (List ℕ)) → IsBytes bytes → AreItems bytes xs → xs ≡ items bytes }
    ensures looks { (bytes : List ℕ) → IsBytes bytes → (is_cache bytes ≡ true) ↔ IsCache bytes }
{}
