//! A list that grows, and its copy.

use lb_base::items::{Bytes, Items};
use row_text::out::Out;
use row_text::text::copied;
use std::alloc::Global;

/// The list `abcde` and its copy: whether they are the same, which letter the list loses as its second one, whether
/// they are the same then, and whether the others are left.
fn put_beside(list: Bytes, copy: Bytes, out: &mut Out) {
    let mut list = list;
    let was_same = copy == list;
    let gone = if list.len() > 1 { list.remove(1) } else { 0 };
    let is_same = copy == list;
    let is_left = list.into_vec().as_slice() == b"acde".as_slice();
    out.say(
        "copied",
        &[was_same as u64, gone as u64, is_same as u64, is_left as u64],
    );
    out.text(" ")
}

/// What comes of a list of `ab` that grows to `abcde`; and whether a new list is empty, and one of a number.
pub fn put(alloc: Global, out: &mut Out) {
    let mut list = copied(alloc, b"ab", out);
    if list.push(b'c').is_err() {
        out.lack();
    }
    out.note(list.extend_from_slice(b"de"));
    let is_grown = list.as_slice() == b"abcde".as_slice();
    match list.try_clone(alloc) {
        Ok(copy) => put_beside(list, copy, out),
        Err(_) => out.lack(),
    }
    let none: Items<u64> = Items::new(alloc);
    let one = copied(alloc, &[7u64], out);
    out.say(
        "list",
        &[
            is_grown as u64,
            none.is_empty() as u64,
            one.is_empty() as u64,
        ],
    );
    out.line("")
}
