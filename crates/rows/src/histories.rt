//! A history and its variants: whether each is legal; and its texts.

use crate::made;
use chunk_cut::digest;
use lb_base::items::{Bytes, Items};
use register_model::history::History;
use register_model::legal::is_legal;
use register_model::op::{Op, Opening, Outcome, Traffic, Word};
use register_model::text::{summary_text, text};
use row_text::out::Out;
use row_text::text::{copied, first, letter, named, number, small, words};
use shared_bytes::SharedBytes;
use std::alloc::{AllocError, Global};

/// The number of steps of each history.
const STEPS: u64 = 23;

/// The rows of a history so far: its files and its operations, a line for each.
#[derive(Drop)]
pub struct Rows {
    files: Out,
    pub ops: Out,
}

/// The words of operations.
const WORDS: [(&str, Word); 6] = [
    ("open", Word::Open),
    ("rewrite", Word::Rewrite),
    ("close", Word::Close),
    ("make", Word::Make),
    ("remove", Word::Remove),
    ("rename", Word::Rename),
];

/// How it ended: a word, or the status of a refusal.
fn outcome_of(alloc: Global, name: &str, value: &[u8], out: &mut Out) -> Outcome {
    let len = value.len() as u64;
    match letter(name) {
        b'O' => Outcome::Opened {
            len,
            sha1: copied(alloc, digest(value).as_slice(), out),
        },
        b'C' => Outcome::Closed {
            version: 2,
            len,
            sha1: copied(alloc, digest(value).as_slice(), out),
        },
        b'D' => Outcome::Done,
        b'L' => Outcome::Lost,
        b'R' => Outcome::Running,
        _ => Outcome::Refused(small(name)),
    }
}

/// A value as a row has it; `-` is no bytes.
fn value_of(alloc: Global, name: &str, out: &mut Out) -> Bytes {
    let value: &[u8] = if name == "-" { &[] } else { name.as_bytes() };
    copied(alloc, value, out)
}

/// The value that these bytes are; none where memory runs out.
fn shared(alloc: Global, value: Bytes, out: &mut Out) -> SharedBytes {
    match SharedBytes::new(alloc, value) {
        Ok(value) => value,
        Err(_) => {
            out.lack();
            SharedBytes::empty()
        }
    }
}

/// `WORD FILE BEGIN END POINT OUTCOME VALUE`, with `-` where there is none: an operation of client 1,
/// which sent one READ and got three bytes.
fn read_op(alloc: Global, line: &str, out: &mut Out) -> Op {
    let [word, file, begin, end, point, outcome, name] = words(line);
    let value = value_of(alloc, name, out);
    let outcome = outcome_of(alloc, outcome, value.as_slice(), out);
    Op {
        client: 1,
        word: named(&WORDS, word, Word::Look),
        file: number(file),
        begin: number(begin),
        end: end.parse::<u64>().ok(),
        point: point.parse::<u64>().ok(),
        outcome,
        value: shared(alloc, value, out),
        traffic: Traffic {
            cond: 0,
            tmp: 0,
            read: 1,
            data: 3,
        },
    }
}

/// The bytes of a text.
fn put_text(out: &mut Out, text: &Result<Bytes, AllocError>) {
    match text {
        Ok(bytes) => out.letters(bytes.as_slice()),
        Err(_) => out.lack(),
    }
}

impl Rows {
    /// No file and no operation.
    pub fn new(alloc: Global) -> Rows {
        Rows {
            files: Out::new(alloc),
            ops: Out::new(alloc),
        }
    }

    /// The files, of which each row has the number and the content.
    fn files_of(&self, alloc: Global, out: &mut Out) -> Items<Opening> {
        let mut files = Vec::new(alloc);
        for line in self.files.as_str().lines() {
            let (file, content) = first(line);
            let file = Opening {
                file: number(file),
                content: value_of(alloc, content, out),
            };
            out.push(&mut files, file);
        }
        Items::from_vec(files)
    }

    /// The history, with this line in place of that of the operation with this number, which counts
    /// from 1.
    fn history(&self, alloc: Global, place: u64, instead: &str, out: &mut Out) -> History {
        let files = self.files_of(alloc, out);
        let mut ops = Vec::new(alloc);
        let mut at = 0u64;
        for line in self.ops.as_str().lines() {
            at = at.wrapping_add(1);
            let op = read_op(alloc, if at == place { instead } else { line }, out);
            out.push(&mut ops, op);
        }
        History::new(1, files, Items::from_vec(ops), None, STEPS)
    }

    /// Whether that history is legal.
    pub fn is_legal(&self, alloc: Global, place: u64, instead: &str, out: &mut Out) -> bool {
        match self.history(alloc, place, instead, out).indexed(alloc) {
            Ok(indexed) => is_legal(&indexed),
            Err(_) => {
                out.lack();
                false
            }
        }
    }

    /// Says whether that history is legal.
    fn put_verdict(&self, alloc: Global, place: u64, instead: &str, out: &mut Out) {
        let is_legal = self.is_legal(alloc, place, instead, out);
        out.text(if is_legal { " legal" } else { " not legal" })
    }

    /// The text of the history, and that of its counts with so many entries of a journal.
    fn put_texts(&self, alloc: Global, journal: u64, out: &mut Out) {
        let history = self.history(alloc, 0, "", out);
        out.text("\n");
        put_text(out, &text(alloc, &history));
        put_text(out, &summary_text(alloc, &history, journal))
    }

    /// What comes of a row: `file` and `op` give the history, `anew` drops its operations; `with` looks
    /// at a variant of it, and `texts` prints its text, and that of its counts with so many entries of
    /// a journal; `rounds` and `many` make operations, and look at them.
    pub fn put(&mut self, alloc: Global, line: &str, out: &mut Out) {
        let (kind, row) = first(line);
        let (count, rest) = first(row);
        match letter(kind) {
            b'f' => self.files.line(row),
            b'o' => self.ops.line(row),
            b'a' => self.ops = Out::new(alloc),
            b'w' => self.put_verdict(alloc, number(count), rest, out),
            b't' => self.put_texts(alloc, number(count), out),
            b'r' => {
                self.ops = made::rounds(alloc, number(count), rest);
                self.put_verdict(alloc, 0, "", out)
            }
            _ => made::put_many(alloc, self, number(count), out),
        }
    }
}
