//! Cuts of contents, whole and in pieces.

ghost use Rattle.std.specs.Prelude.{◌+◌, ◌^◌, ◌<◌, ◌≤◌, length};
ghost use Rattle.chunk_cut.specs.Cutting.{fed};

use chunk_cut::chunk::Chunk;
use chunk_cut::cutter::Cutter;
use chunk_cut::{cut, digest};
use row_text::bytes::read_bytes;
use row_text::out::Out;
use std::alloc::Global;

/// The chunks, each with its digest.
fn put_chunks(chunks: &[Chunk], out: &mut Out) {
    for chunk in chunks {
        out.numbers(&[chunk.start as u64, chunk.len as u64]);
        out.text(" ");
        out.bytes(chunk.digest.as_slice());
        out.text(";");
    }
}

/// Feeds a piece, and puts the chunks that end in it.
fn feed(alloc: Global, cutter: &mut Cutter, piece: &[u8], out: &mut Out)
    requires { fed cutter.old + length piece.now < 2 ^ 64 }
    ensures { fed cutter.new ≤ fed cutter.old + length piece.now }
{
    match cutter.feed(alloc, piece) {
        Ok(more) => put_chunks(more.as_slice(), out),
        Err(_) => out.lack(),
    }
}

/// The chunks of the content where it comes in three pieces, of which the second has `middle` bytes
/// from the place on.
fn put_pieces(alloc: Global, content: &[u8], place: usize, middle: usize, out: &mut Out) {
    let (front, rest) = content.split_at(place.min(content.len()));
    let (second, third) = rest.split_at(middle.min(rest.len()));
    let mut cutter = Cutter::new();
    feed(alloc, &mut cutter, front, out);
    feed(alloc, &mut cutter, second, out);
    feed(alloc, &mut cutter, third, out);
    if cutter.fed() != content.len() as u64 {
        out.text(" fed otherwise");
    }
    if let Some(last) = cutter.finish() {
        put_chunks(&[last], out);
    }
}

/// How many ways to cut the content into pieces about these places give its chunks.
fn put_ways(alloc: Global, content: &[u8], wanted: &str, first: usize, out: &mut Out) {
    let mut alike = 0u64;
    for place in first..content.len() + 1 {
        for middle in 0..2usize {
            let mut chunks = Out::new(alloc);
            put_pieces(alloc, content, place, middle, &mut chunks);
            if chunks.as_str() == wanted {
                alike = alike.saturating_add(1);
            }
        }
    }
    out.number(alike);
    out.text(" ways to come in pieces are alike")
}

/// `BYTES`, or `BYTES pieces PLACE`: the chunks of the content, and how many ways to come in pieces, cut
/// at the place or behind it, are cut so too.
pub fn put(alloc: Global, row: &str, out: &mut Out) {
    let (bytes, place) = row.split_once(" pieces ").unwrap_or((row, ""));
    let content = read_bytes(alloc, bytes, out);
    let mut wanted = Out::new(alloc);
    match cut(alloc, content.as_slice()) {
        Ok(chunks) => put_chunks(chunks.as_slice(), &mut wanted),
        Err(_) => out.lack(),
    }
    out.text(" whole ");
    out.bytes(digest(content.as_slice()).as_slice());
    out.text(";");
    out.join(&wanted);
    if let Ok(first) = place.parse::<usize>() {
        put_ways(alloc, content.as_slice(), wanted.as_str(), first, out);
    }
}
