//! The rows of each file, and what comes of them. Those of histories are of one history; each row of
//! the others stands for itself.

use crate::histories::Rows;
use crate::{bodies, cuts, headers, items, prints, records, refusals, streams};
use row_text::out::Out;
use row_text::text::is_remark;
use std::alloc::Global;

/// What the rows of a file are of.
#[derive(Clone, Copy)]
pub enum Part {
    /// Items of XDR.
    Items,
    /// Handles.
    Handles,
    /// Streams of records.
    Streams,
    /// Headers of RPC.
    Headers,
    /// Arguments and results.
    Bodies,
    /// Records as messages.
    Records,
    /// Texts of refusals.
    Refusals,
    /// Fingerprints.
    Prints,
    /// Cuts into chunks.
    Cuts,
    /// Histories.
    Histories,
}

/// What comes of a row.
fn put_row(alloc: Global, part: Part, rows: &mut Rows, row: &str, out: &mut Out) {
    match part {
        Part::Items => items::put(alloc, row, out),
        Part::Handles => items::put_handle(alloc, row, out),
        Part::Streams => streams::put(alloc, row, out),
        Part::Headers => headers::put(alloc, row, out),
        Part::Bodies => bodies::put(alloc, row, out),
        Part::Records => records::put(alloc, row, out),
        Part::Refusals => refusals::put(alloc, row, out),
        Part::Prints => prints::put(alloc, row, out),
        Part::Cuts => cuts::put(alloc, row, out),
        Part::Histories => rows.put(alloc, row, out),
    }
}

/// Each row of a text, and what comes of it.
pub fn put_rows(alloc: Global, part: Part, text: &str, out: &mut Out) {
    let mut rows = Rows::new(alloc);
    for row in text.lines() {
        if !is_remark(row) {
            out.text(row);
            out.text(" =>");
            put_row(alloc, part, &mut rows, row, out);
            out.text("\n");
        }
    }
}
