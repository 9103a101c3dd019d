//! Rows, words and bytes as texts have them.

use crate::out::Out;
use lb_base::items::Items;
use std::alloc::Global;

/// How many equal bytes are printed as one run.
const LEAST_RUN: u64 = 8;

/// Whether a line of data is a remark, which begins with two `#` and a blank, or empty.
pub fn is_remark(row: &str) -> bool {
    row.is_empty() || row.starts_with("## ")
}

/// A text up to the first such mark, and what stands behind that.
pub fn split(text: &str, mark: char) -> (&str, &str) {
    text.split_once(mark).unwrap_or((text, ""))
}

/// A text up to its first blank, and what stands behind that.
pub fn first(text: &str) -> (&str, &str) {
    split(text, ' ')
}

/// The first six words of a text, each up to the next blank, and what stands behind them.
pub fn words(text: &str) -> [&str; 7] {
    let (one, rest) = first(text);
    let (two, rest) = first(rest);
    let (three, rest) = first(rest);
    let (four, rest) = first(rest);
    let (five, rest) = first(rest);
    let (six, rest) = first(rest);
    [one, two, three, four, five, six, rest]
}

/// The letter that a word begins with; 0 where it has none. A `match` on letters is proved in a fraction
/// of the time of one on words.
pub fn letter(word: &str) -> u8 {
    match word.as_bytes().first() {
        Some(letter) => *letter,
        None => 0,
    }
}

/// What a word names in a table, or else this.
pub fn named<T: Copy>(table: &[(&str, T)], word: &str, other: T) -> T {
    for (name, value) in table {
        if *name == word {
            return *value;
        }
    }
    other
}

/// The number that a word is; 0 where it is none.
pub fn number(word: &str) -> u64 {
    word.parse::<u64>().unwrap_or(0)
}

/// The number of 32 bits that a word is; 0 where it is none.
pub fn small(word: &str) -> u32 {
    word.parse::<u32>().unwrap_or(0)
}

/// A copy of the items; none where memory runs out.
pub fn copied<T: Copy>(alloc: Global, items: &[T], out: &mut Out) -> Items<T> {
    match Items::copy_of(alloc, items) {
        Ok(copy) => copy,
        Err(_) => {
            out.lack();
            Items::new(alloc)
        }
    }
}

/// So many times the same byte: eight and more as `[2047*00]`.
fn put_run(out: &mut Out, byte: u8, count: u64) {
    if count < LEAST_RUN {
        for _at in 0..count {
            out.bytes(&[byte]);
        }
        return;
    }
    out.text("[");
    out.bare(count);
    out.text("*");
    out.bytes(&[byte]);
    out.text("]")
}

/// Bytes in hexadecimal; eight and more equal ones as a run, `[2047*00]`.
pub fn put_bytes(out: &mut Out, bytes: &[u8]) {
    let mut last = 0u8;
    let mut count = 0u64;
    for byte in bytes {
        if *byte == last {
            count = count.saturating_add(1);
        } else {
            put_run(out, last, count);
            last = *byte;
            count = 1;
        }
    }
    put_run(out, last, count)
}
