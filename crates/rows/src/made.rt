//! Histories that are made from a number: long ones, and many small ones.

use crate::histories::Rows;
use row_text::out::Out;
use std::alloc::Global;

/// What can stand in each place of an operation on file 2 or 3, whose begin, end and point are any: moments below 8, or none.
static PLACES: [&[&str]; 7] = [
    &["close", "make", "remove", "rename", "open"],
    &[" 2", " 3"],
    &[" 0", " 1", " 2", " 3"],
    &[
        " -", " -", " -", " 0", " 1", " 2", " 3", " 4", " 5", " 6", " 7",
    ],
    &[
        " -", " -", " -", " 0", " 1", " 2", " 3", " 4", " 5", " 6", " 7",
    ],
    &[" Opened", " Closed", " 70", " Lost", " Running", " Done"],
    &[" a\n", " b\n"],
];

/// File 2 is closed and opened again, so many times; the last open got the content.
pub fn rounds(alloc: Global, count: u64, last: &str) -> Out {
    let mut ops = Out::new(alloc);
    let most = count.saturating_mul(2);
    for step in 1..most.saturating_add(1) {
        let is_open = step % 2 == 0;
        ops.text(if is_open { "open" } else { "close" });
        ops.numbers(&[2, step, step, step]);
        ops.text(if is_open { " Opened " } else { " Closed " });
        ops.line(if step == most { last } else { "b" })
    }
    ops
}

/// The next number of a fixed sequence, below the bound.
fn next(state: &mut u64, bound: u64) -> u64 {
    *state = state
        .wrapping_mul(6_364_136_223_846_793_005)
        .wrapping_add(1_442_695_040_888_963_407);
    if bound == 0 {
        return 0;
    }
    (*state >> 33) % bound
}

/// One of the operations.
fn put_op(state: &mut u64, ops: &mut Out) {
    for words in PLACES.iter() {
        if let Some(word) = words.get(next(state, words.len() as u64) as usize) {
            ops.text(word)
        }
    }
}

/// Of so many histories of one to four operations, counted from 1, those that are legal.
pub fn put_many(alloc: Global, rows: &mut Rows, count: u64, out: &mut Out) {
    let mut state = 1u64;
    out.text(" legal:");
    for place in 1..count.saturating_add(1) {
        rows.ops = Out::new(alloc);
        for _ in 0..next(&mut state, 4).wrapping_add(1) {
            put_op(&mut state, &mut rows.ops);
        }
        if rows.is_legal(alloc, 0, "", out) {
            out.number(place)
        }
    }
}
