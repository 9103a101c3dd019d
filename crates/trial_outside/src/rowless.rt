//! What no row of data can show: lists, sources and sinks of which calls fail, streams that are interrupted, and
//! turns at a post.

mod lists;
mod sinks;
mod sources;
mod streams;
mod turns;

use row_text::out::Out;
use std::alloc::Global;
use std::rt::Clock;
use std::sync::Wait;
use std::thread::Threads;

/// What comes of each trial without a row.
pub fn put<R: Threads + Wait + Clock + Sync>(rt: &R, alloc: Global, out: &mut Out) {
    lists::put(alloc, out);
    for limit in [6usize, 5, 4, 0] {
        sources::put_read(alloc, "gives=2", limit, out);
    }
    sources::put_read(alloc, "source=0", 9, out);
    sources::put_takes(alloc, out);
    sinks::put(alloc, out);
    for interrupts in [3u32, 300] {
        streams::put_idle(interrupts, out);
    }
    streams::put_memory(alloc, out);
    turns::put(rt, alloc, out)
}
