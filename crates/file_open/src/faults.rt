//! What is wrong with the bytes of a chunk that came, and which version their answer shows: `fault_in`
//! and `other_version` of `specs/Opening.antt`.

ghost use Rattle.std.specs.Prelude.{◌≡◌, ◌==◌, length, None};
ghost use Rattle.file_open.specs.Opening.{fault_in, other_version, fault_in_digest, shown_version};
ghost use Rattle.sha1.specs.Sha1.{sha1};
ghost use Rattle.std.specs.Str.{bytes_eq};

use chunk_cut::chunk::Chunk;
use client_state::step::BadPeer;
use digests::Dig;
use sha1::Sha1;
use transfer_rules::pieces;
use xdr_codec::attr::Attr;

/// What is wrong with bytes that are as long as a chunk: their digest.
fn digest_fault(chunk: &Chunk, bytes: &[u8]) -> Option<BadPeer>
    ensures { result ≡ fault_in_digest chunk.now bytes.now (bytes_eq (sha1 bytes.now) chunk.now.digest) }
{
    if pieces::has_digest(bytes, &chunk.digest) {
        return None;
    }
    let got = Dig::sha1(Sha1::digest(bytes));
    let wanted = chunk.digest;
    Some(BadPeer::Digest { got, wanted })
}

/// What is wrong with the bytes of a chunk.
pub fn fault_in(chunk: &Chunk, bytes: &[u8]) -> Option<BadPeer>
    ensures fault { result ≡ fault_in chunk.now bytes.now (length bytes.now == chunk.now.len) }
    ensures fits { result ≡ None → length bytes.now ≡ chunk.now.len }
{
    let got = bytes.len() as u64;
    let wanted = chunk.len;
    if got == wanted {
        digest_fault(chunk, bytes)
    } else {
        Some(BadPeer::Shape { got, wanted })
    }
}

/// The version that attributes show.
fn shown_version(attr: &Attr) -> u64
    ensures { result ≡ shown_version attr.now }
{
    let seconds = attr.mtime.seconds;
    let nanoseconds = attr.mtime.nanoseconds;
    u64::from(seconds) * 1_000_000_000 + u64::from(nanoseconds)
}

/// The version that attributes show in place of this one.
pub fn other_version(version: u64, attr: &Option<Attr>) -> Option<u64>
    ensures { result ≡ other_version version attr.now }
{
    let shown = shown_version(attr.as_ref()?);
    if shown == version { None } else { Some(shown) }
}
