//! Whether bytes are taken for a cache file's: `is_cache` of `specs/Items.antt`. It takes no memory.

ghost use Rattle.std.specs.Prelude.{◌≡◌, ◌==◌, ◌+◌, ℕ, is_ok, option_map};
ghost use Rattle.std.specs.List.{list_all};
ghost use Rattle.xdr_codec.specs.Xdr.{bytes_form, fill_len};
ghost use Rattle.cache_file.specs.Items.{is_cache, item_at};
ghost use Rattle.cache_file.specs.Saved.{taken};

use limits::CHUNK_MOST;
use xdr_codec::reader::Reader;

/// Whether all of these bytes are zeros.
fn are_zeros(bytes: &[u8]) -> bool
    ensures { result ≡ list_all (λ b. b == 0) bytes.now }
{
    for byte in bytes {
        if *byte != 0 {
            return false;
        }
    }
    true
}

/// Whether so many bytes stand here, and zeros behind them up to a multiple of four.
#[tactic(auto, using(crate::proofs::Looks::none_there, crate::proofs::Looks::some_there))]
fn are_there(bytes: &[u8], len: u32) -> bool
    ensures { (place at : ℕ) → result ≡ is_ok ((bytes_form place len).read (record { at = at; rest = bytes.now })) }
{
    let len = len as usize;
    let whole = len + (4 - len % 4) % 4;
    if bytes.len() < whole {
        return false;
    }
    are_zeros(&bytes[len..whole])
}

/// How many bytes an item of so many takes.
fn whole_len(len: u32) -> usize
    ensures { result ≡ 4 + len + fill_len len }
{
    let len = len as usize;
    4 + len + (4 - len % 4) % 4
}

/// How many bytes the item at the front takes, where a whole one stands there.
fn item_len(bytes: &[u8]) -> Option<usize>
    ensures { result ≡ option_map (λ r. taken r.0) (item_at (record { at = 0; rest = bytes.now })) }
{
    let mut reader = Reader::new(bytes);
    match reader.count(CHUNK_MOST) {
        Ok(len) => {
            if len > 0 && are_there(&bytes[4..], len) {
                Some(whole_len(len))
            } else {
                None
            }
        }
        Err(_) => None,
    }
}

/// Whether the whole of these bytes is items, one behind the other.
pub fn are_items(bytes: &[u8]) -> bool
    ensures { result ≡ is_cache bytes.now }
{
    let mut at = 0;
    while at < bytes.len() {
        match item_len(&bytes[at..]) {
            Some(len) => at += len,
            None => return false,
        }
    }
    true
}
