//! Streams of records, and records that are marked.

use crate::values::put_name;
use lb_base::items::Bytes;
use row_text::bytes::{put_bytes, read_bytes};
use row_text::out::Out;
use row_text::text::{first, letter};
use rpc_record::marking::{mark, mark_in_place};
use rpc_record::records::{Fed, Records};
use rpc_record::refusal::MarkError;
use std::alloc::{AllocError, Global};

/// What a piece gave: each record, and the refusal.
fn put_fed(fed: &Result<Fed, AllocError>, out: &mut Out) {
    let Ok(fed) = fed else {
        return out.lack();
    };
    for record in fed.records.as_slice() {
        put_bytes(out, record.as_slice());
    }
    if let Some(refusal) = fed.spoilt {
        put_name(out, &refusal);
    }
}

/// The pieces of a stream, one behind the other, by reference or by value, and how many bytes are kept.
fn put_pieces(alloc: Global, is_taken: bool, pieces: &str, out: &mut Out) {
    let mut records = Records::new(alloc);
    for piece in pieces.split('|') {
        let piece = read_bytes(alloc, piece, out);
        let fed = if is_taken {
            records.take(alloc, piece)
        } else {
            records.feed(alloc, piece.as_slice())
        };
        put_fed(&fed, out);
        out.text(" |");
    }
    out.say(" rest", &[records.rest_len() as u64])
}

/// A record behind four bytes, marked where it stands.
fn marked_in_place(alloc: Global, contents: &[u8]) -> Result<Bytes, MarkError> {
    let mut bytes = Vec::new(alloc);
    bytes.extend_from_slice(&[0; 4])?;
    bytes.extend_from_slice(contents)?;
    match mark_in_place(&mut bytes) {
        Ok(()) => Ok(Bytes::from_vec(bytes)),
        Err(refused) => Err(refused),
    }
}

/// The record, or why it is none.
fn put_record(marked: &Result<Bytes, MarkError>, out: &mut Out) {
    match marked {
        Ok(marked) => put_bytes(out, marked.as_slice()),
        Err(MarkError::Memory) => out.lack(),
        Err(error) => put_name(out, error),
    }
}

/// `feed BYTES | BYTES ..`: the records that each piece gives, and the refusal. `take ..`: the same of
/// pieces by value. `mark BYTES`: the record in its one fragment, and where it is marked in its place.
pub fn put(alloc: Global, row: &str, out: &mut Out) {
    let (word, bytes) = first(row);
    if letter(word) != b'm' {
        return put_pieces(alloc, letter(word) == b't', bytes, out);
    }
    let bytes = read_bytes(alloc, bytes, out);
    put_record(&mark(alloc, bytes.as_slice()), out);
    out.text(";");
    put_record(&marked_in_place(alloc, bytes.as_slice()), out)
}
