//! The text of a refusal that no trace of a moderate size has.

use row_text::out::Out;
use row_text::text::number;
use std::alloc::Global;
use trace_text::refusal::{Limit, LineFault, Refusal};

/// `NUMBER`: the text of a run's refusal by that line, which is above the limit of a tree, without its line feed.
pub fn put(alloc: Global, row: &str, out: &mut Out) {
    let refusal = Refusal::Line {
        number: number(row),
        fault: LineFault::Limit(Limit::Tree),
    };
    match refusal.text(alloc) {
        Ok(text) => {
            out.text(" ");
            out.text(text.as_str().trim_end())
        }
        Err(_) => out.lack(),
    }
}
