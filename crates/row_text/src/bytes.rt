//! Bytes as rows write them, and as they are printed.

use crate::out::Out;
use crate::text;
use crate::text::{number, split};
use hex::FromHexError;
use lb_base::items::{Bytes, Items};
use std::alloc::Global;

/// The words of a text, one behind the other, without the blanks between them. Of a run, `[2047*00]`,
/// what stands behind its number comes so often.
pub fn put_joined(text: &str, out: &mut Out) {
    for word in text.split_whitespace() {
        match word.strip_prefix('[') {
            Some(run) => {
                let (count, part) = split(run, '*');
                let (part, _) = split(part, ']');
                for _ in 0..number(count) {
                    out.text(part);
                }
            }
            None => out.text(word),
        }
    }
}

/// The bytes that the words of a text are in hexadecimal; none where they are none of any.
pub fn read_bytes(alloc: Global, text: &str, out: &mut Out) -> Bytes {
    let mut digits = Out::new(alloc);
    put_joined(text, &mut digits);
    let decoded = match digits.done() {
        Ok(digits) => hex::decode(alloc, digits.as_str()),
        Err(_) => Err(FromHexError::OutOfMemory),
    };
    match decoded {
        Ok(bytes) => return Items::from_vec(bytes),
        Err(FromHexError::OutOfMemory) => out.lack(),
        Err(_) => (),
    }
    Bytes::new(alloc)
}

/// Bytes in hexadecimal behind a blank and an `x`; eight and more equal ones as a run, `[2047*00]`.
pub fn put_bytes(out: &mut Out, bytes: &[u8]) {
    out.text(" x");
    text::put_bytes(out, bytes)
}

/// That the bytes are those of the row, or which they are.
pub fn put_same(out: &mut Out, written: &[u8], row: &[u8]) {
    if written == row {
        return out.text("; same");
    }
    out.text(";");
    put_bytes(out, written)
}
