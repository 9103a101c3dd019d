//! Rows of runs, and what comes of them.

use crate::end::run_end;
use row_text::out::Out;
use row_text::text::is_remark;
use std::alloc::Global;
use std::sync::{Arc, Wait};
use std::thread;
use std::thread::Threads;
use trial_outside::port::Port;
use trial_outside::trial::{Trial, split};

/// Runs one end, and tells how it ended and, where it is asked for, what its lines were given.
fn put_alone<R: Threads + Wait + Sync + Send + Copy + Drop>(
    rt: &R,
    alloc: Global,
    port: &Arc<Port>,
    trial: &Trial<'_>,
    out: &mut Out,
) {
    let ended = run_end(rt, alloc, port, trial);
    out.join(&ended);
    if trial.setting("given").is_some() {
        port.put_lines(rt, out);
    }
}

/// Runs a mount and its server beside each other, and tells, where it is asked for, which farewells the mount
/// gave.
fn put_both<R: Threads + Wait + Sync + Send + Copy + Drop>(
    rt: &R,
    alloc: Global,
    port: &Arc<Port>,
    mount: &Trial<'_>,
    server: &Trial<'_>,
    out: &mut Out,
) {
    let (served, mounted) = thread::join(
        rt,
        || run_end(rt, alloc, port, server),
        || run_end(rt, alloc, port, mount),
    );
    out.join(&mounted);
    out.text("its server");
    out.join(&served);
    if mount.setting("said").is_some() {
        port.put_farewells(rt, out);
    }
}

/// `TITLE | WORDS | SETTINGS | LINES | INPUT`, with the words and the settings of a server behind a
/// `&`: what comes of a run, or of both ends.
fn put_run<R: Threads + Wait + Sync + Send + Copy + Drop>(
    rt: &R,
    alloc: Global,
    records: &str,
    row: &str,
    out: &mut Out,
) {
    let (title, rest) = split(row, '|');
    let (words, rest) = split(rest, '|');
    let (settings, rest) = split(rest, '|');
    let (links, input) = split(rest, '|');
    let (words, other) = split(words, '&');
    let (settings, its) = split(settings, '&');
    let one = Trial {
        words,
        settings,
        links,
        input,
        records,
    };
    let two = Trial {
        words: other,
        settings: its,
        input: "",
        ..one
    };
    out.text(title);
    let Ok(port) = Port::new(alloc, &one, other.is_empty(), out) else {
        return out.lack();
    };
    if other.is_empty() {
        put_alone(rt, alloc, &port, &one, out)
    } else {
        put_both(rt, alloc, &port, &one, &two, out)
    }
}

/// What comes of each row, which may name these records.
pub fn put_rows<R: Threads + Wait + Sync + Send + Copy + Drop>(
    rt: &R,
    alloc: Global,
    records: &str,
    rows: &str,
    out: &mut Out,
) {
    for row in rows.lines() {
        if !is_remark(row) {
            put_run(rt, alloc, records, row, out);
        }
    }
}
