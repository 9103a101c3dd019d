//! An input that is read to its end, and calls of it that fail.

use crate::screen::Typist;
use crate::trial::Trial;
use lb_base::source::{Source, read_all};
use row_text::out::Out;
use std::alloc::Global;
use std::sync::atomic::AtomicU64;

/// What comes of reading at most so many bytes of `hello`, that is given as these settings say: the settings, the
/// limit, how many bytes are left, the faults, and what was read or why it was not.
pub fn put_read(alloc: Global, settings: &str, limit: usize, out: &mut Out) {
    let answers = AtomicU64::new(0);
    let mut source = Typist::new(alloc, &Trial::set(settings), b"hello", &answers);
    let read = read_all(alloc, limit, &mut source);
    out.text("read ");
    out.text(settings);
    out.numbers(&[limit as u64, source.text.len() as u64, source.faults]);
    out.text(" ");
    match read {
        Ok(bytes) => out.letters(bytes.as_slice()),
        Err(error) => out.value(&error),
    }
    out.line("")
}

/// What comes of two calls of a source of which the first fails.
pub fn put_takes(alloc: Global, out: &mut Out) {
    let answers = AtomicU64::new(0);
    let mut source = Typist::new(alloc, &Trial::set("source=0"), b"hello", &answers);
    let mut room = [0u8; 4];
    out.value(&source.take(&mut room));
    out.text(" ");
    out.value(&source.take(&mut room));
    out.text(" ");
    out.value(&room);
    out.say(" left", &[source.text.len() as u64]);
    out.line("")
}
