//! A row of `data/runs`, and the bytes that it names.

use row_text::out::Out;
use row_text::text;
use std::alloc::Global;

/// A run of the program, and what it is tried on. `data/runs` says how each part is written.
#[derive(Clone, Copy)]
pub struct Trial<'x> {
    /// The program's words.
    pub words: &'x str,
    /// What is different from an outside on which nothing fails.
    pub settings: &'x str,
    /// The lines of the port.
    pub links: &'x str,
    /// The input.
    pub input: &'x str,
    /// The records that a row can name, each in a line.
    pub records: &'x str,
}

/// A text up to the first such mark, and what stands behind that, without the blanks about it.
pub fn split(text: &str, mark: char) -> (&str, &str) {
    let (front, behind) = text.split_once(mark).unwrap_or((text, ""));
    (front.trim(), behind.trim())
}

/// What stands behind a key and such a mark in the parts of a text; nothing where the key isn't there.
fn found<'a>(text: &'a str, apart: char, mark: char, key: &str) -> &'a str {
    for part in text.split(apart) {
        let (name, value) = split(part, mark);
        if name == key {
            return value;
        }
    }
    ""
}

impl<'x> Trial<'x> {
    /// One that has nothing but these settings.
    pub fn set(settings: &'x str) -> Trial<'x> {
        Trial {
            words: "",
            settings,
            links: "",
            input: "",
            records: "",
        }
    }

    /// The word of the setting `KEY=WORD`; an empty one where it isn't there.
    pub fn word(&self, key: &str) -> &'x str {
        found(self.settings, ' ', '=', key)
    }

    /// The number of the setting `KEY=NUMBER`, if it is there.
    pub fn setting(&self, key: &str) -> Option<u64> {
        let word = self.word(key);
        if word.is_empty() {
            None
        } else {
            Some(text::number(word))
        }
    }

    /// The input: the records that are named behind a `+`, or a text in which `;` ends a line.
    pub fn input(&self, alloc: Global, out: &mut Out) -> Vec<u8> {
        if let Some(names) = self.input.strip_prefix('+') {
            return bytes_of(alloc, self.records, names, out);
        }
        let mut bytes = Vec::new(alloc);
        out.note(bytes.extend_from_slice(self.input.as_bytes()));
        for byte in bytes.iter_mut() {
            if *byte == b';' {
                *byte = b'\n';
            }
        }
        bytes
    }
}

/// The bytes of the records that are named, one behind the other, `NAME+NAME`.
pub fn bytes_of(alloc: Global, records: &str, names: &str, out: &mut Out) -> Vec<u8> {
    let mut bytes = Vec::new(alloc);
    for name in names.split('+') {
        match hex::decode(alloc, found(records, '\n', ' ', name)) {
            Ok(more) => out.note(bytes.extend_from_slice(more.as_slice())),
            Err(_) => out.lack(),
        }
    }
    bytes
}
