//! What is waited for until something else may come: `LINE@RECORDS`, that the listener of a line, counted
//! from 0, gave so many records.

use row_text::text::number;

/// So many records that were given on a line.
#[derive(Clone, Copy)]
pub struct Wanted {
    pub line: usize,
    pub records: u64,
}

impl Wanted {
    /// What a word says, if it says so.
    pub fn of(word: &str) -> Option<Wanted> {
        let (line, records) = word.split_once('@')?;
        Some(Wanted {
            line: number(line) as usize,
            records: number(records),
        })
    }
}
