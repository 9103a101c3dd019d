//! Items of XDR, read one after the other; and handles.

use crate::values::{Put, put_error};
use row_text::bytes::{put_bytes, put_same, read_bytes};
use row_text::out::Out;
use row_text::text::{first, letter, number, small, split};
use std::alloc::Global;
use xdr_codec::handle::Handle;
use xdr_codec::item::{
    Item, read_chain, read_counted, read_item, write_chain, write_counted, write_item,
};
use xdr_codec::reader::Reader;
use xdr_codec::writer::Writer;

/// Where a row's reading stands, and what was written of what was read.
#[derive(Drop)]
struct Copying<'a> {
    alloc: Global,
    reader: Reader<'a>,
    writer: Writer,
}

impl Copying<'_> {
    /// One item, read and written again.
    fn item<T: Item + Put>(&mut self, out: &mut Out) {
        match read_item::<T>(self.alloc, &mut self.reader) {
            Ok(item) => {
                item.put(out);
                out.note(write_item(&mut self.writer, &item))
            }
            Err(error) => put_error(out, &error),
        }
    }

    /// So many bytes, or at most so many behind their number.
    fn bytes(&mut self, is_fixed: bool, size: u32, out: &mut Out) {
        let read = if is_fixed {
            self.reader.fixed(self.alloc, size as usize)
        } else {
            self.reader.opaque(self.alloc, size)
        };
        match &read {
            Ok(bytes) => {
                put_bytes(out, bytes.as_slice());
                out.note(if is_fixed {
                    self.writer.fixed(bytes.as_slice())
                } else {
                    self.writer.opaque(bytes.as_slice())
                })
            }
            Err(error) => put_error(out, error),
        }
    }

    /// At most so many numbers behind their number, or with no `most` each behind a truth value.
    fn list<T: Item + Put>(&mut self, most: Option<u32>, out: &mut Out) {
        let read = match most {
            Some(most) => read_counted::<T>(self.alloc, most, &mut self.reader),
            None => read_chain::<T>(self.alloc, &mut self.reader),
        };
        match &read {
            Ok(items) => {
                out.number(items.len() as u64);
                for item in items.as_slice() {
                    item.put(out);
                }
                out.note(match most {
                    Some(_) => write_counted(&mut self.writer, items.as_slice()),
                    None => write_chain(&mut self.writer, items.as_slice()),
                })
            }
            Err(error) => put_error(out, error),
        }
    }

    /// Whether an item follows.
    fn there(&mut self, out: &mut Out) {
        match self.reader.opt() {
            Ok(is_there) => {
                is_there.put(out);
                out.note(self.writer.opt(is_there))
            }
            Err(error) => put_error(out, &error),
        }
    }

    /// That nothing is left.
    fn end(&mut self, out: &mut Out) {
        match self.reader.end() {
            Ok(()) => {
                out.say(" end", &[self.reader.at() as u64]);
                out.say(" left", &[self.reader.left() as u64])
            }
            Err(error) => put_error(out, &error),
        }
    }

    /// An item, as the first letter of a word says, with its length or its maximum behind a dot.
    fn word(&mut self, word: &str, out: &mut Out) {
        let (word, size) = split(word, '.');
        let size = small(size);
        match letter(word) {
            b'u' => self.item::<u32>(out),
            b'w' => self.item::<u64>(out),
            b'b' => self.item::<bool>(out),
            b'm' => self.item::<Option<u32>>(out),
            b'f' => self.bytes(true, size, out),
            b'o' => self.bytes(false, size, out),
            b'l' => self.list::<u64>(Some(size), out),
            b'c' => self.list::<u32>(Some(size), out),
            b'j' => self.list::<u64>(None, out),
            b't' => self.there(out),
            _ => self.end(out),
        }
    }
}

/// `AT ITEM .. : BYTES`: what is read of the bytes behind `AT` others, item by item, and whether what
/// was read is written so. An item that is refused is passed over, and moves nothing.
pub fn put(alloc: Global, row: &str, out: &mut Out) {
    let (front, bytes) = split(row, ':');
    let bytes = read_bytes(alloc, bytes, out);
    let (at, plan) = first(front);
    let mut copying = Copying {
        alloc,
        reader: Reader::behind(small(at) as usize, bytes.as_slice()),
        writer: Writer::new(alloc),
    };
    for word in plan.split_whitespace() {
        copying.word(word, out);
    }
    let Copying { writer, .. } = copying;
    put_same(out, writer.done().as_slice(), bytes.as_slice())
}

/// `of NUMBER`: the bytes of the file's handle. `BYTES`: the handle that they are, or `none`.
pub fn put_handle(alloc: Global, row: &str, out: &mut Out) {
    let (word, file) = first(row);
    if letter(word) == b'o' {
        return match Handle::of_file(alloc, number(file)) {
            Ok(handle) => put_bytes(out, handle.as_slice()),
            Err(_) => out.lack(),
        };
    }
    match Handle::new(read_bytes(alloc, row, out)) {
        Some(handle) => handle.put(out),
        None => out.text(" none"),
    }
}
