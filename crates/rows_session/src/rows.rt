//! The rows of sessions, and what comes of them.

use crate::{leases, sessions};
use row_text::out::Out;
use row_text::text::is_remark;
use std::alloc::Global;
use std::rt::Clock;
use std::sync::Wait;
use std::thread::Threads;
use trial_outside::port::Port;
use trial_outside::trial::{Trial, split};

/// `TITLE | KIND | LINES | SETTINGS`: what comes of a session, or of several.
fn put_row<R: Threads + Wait + Clock + Sync + Send + Copy + Drop>(
    rt: &R,
    alloc: Global,
    records: &str,
    row: &str,
    out: &mut Out,
) {
    let (title, rest) = split(row, '|');
    let (kind, rest) = split(rest, '|');
    let (links, settings) = split(rest, '|');
    let trial = Trial {
        words: "",
        settings,
        links,
        input: "",
        records,
    };
    out.text(title);
    out.text(":");
    match Port::new(alloc, &trial, true, out) {
        Ok(port) => match sessions::kind_of(kind) {
            Some(kind) => sessions::put(rt, alloc, &port, kind, out),
            None => leases::put(rt, alloc, &port, &trial, out),
        },
        Err(_) => out.lack(),
    }
}

/// What comes of each row, which may name these records.
pub fn put_rows<R: Threads + Wait + Clock + Sync + Send + Copy + Drop>(
    rt: &R,
    alloc: Global,
    records: &str,
    rows: &str,
    out: &mut Out,
) {
    for row in rows.lines() {
        if !is_remark(row) {
            put_row(rt, alloc, records, row, out);
        }
    }
}
