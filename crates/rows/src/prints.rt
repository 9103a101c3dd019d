//! Fingerprints of bytes.

use rabin_window::{Window, fp};
use row_text::bytes::read_bytes;
use row_text::out::Out;
use std::alloc::Global;

/// `BYTES`: their fingerprint, and that of the window behind them, which is of the last 48 bytes of a stream that
/// begins with zeros; of each, whose first byte is 0, the other digits.
pub fn put(alloc: Global, row: &str, out: &mut Out) {
    let bytes = read_bytes(alloc, row, out);
    let mut window = Window::new();
    for byte in bytes.as_slice() {
        window.push(*byte);
    }
    out.text(" ");
    out.bytes(&fp(bytes.as_slice()).to_be_bytes()[1..]);
    out.text(" window ");
    out.bytes(&window.value().to_be_bytes()[1..])
}
