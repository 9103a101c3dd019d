//! The outside of a run, in memory: what it is given, and which of its calls fail. Where memory
//! runs out for a part, the output is short of it; so few parts have an early exit.

use crate::port::{Port, PortEnd, end_of};
use crate::trial::Trial;
use crate::tried_store::TriedStore;
use lb_base::items::Items;
use links::files::Files;
use links::mem_files::MemFiles;
use row_text::out::Out;
use row_text::text::copied;
use shared_bytes::SharedBytes;
use std::alloc::{AllocError, Global};
use std::sync::{Arc, Wait};
use store::mem_store::MemStore;
use store::record::{ContentRecord, Head, Kept, NodeKind, NodeRecord};

/// The size of the largest file.
const FILE_MOST: usize = 67_108_864;

/// The calls that fail: the one of the number that a setting has, if it is there.
fn failing(alloc: Global, trial: &Trial<'_>, key: &str, out: &mut Out) -> Items<u64> {
    match trial.setting(key) {
        Some(call) => copied(alloc, &[call], out),
        None => Items::new(alloc),
    }
}

/// The record of a file: `a`, or one of the letters behind it.
fn put_node(alloc: Global, records: &mut Vec<Kept>, at: u8, parent: u64, out: &mut Out) {
    let node = NodeRecord {
        id: u64::from(at) + 2,
        parent,
        kind: NodeKind::File,
        name: copied(alloc, &[b'a'.saturating_add(at)], out),
    };
    out.push(records, Kept::Node(node))
}

/// The records of so many files of the root in their first version, each of which has so many such bytes.
fn put_files(
    alloc: Global,
    records: &mut Vec<Kept>,
    files: u8,
    byte: u8,
    len: usize,
    out: &mut Out,
) {
    let Ok(bytes) = vec![in alloc; byte; len] else {
        return out.lack();
    };
    let Ok(bytes) = SharedBytes::new(alloc, Items::from_vec(bytes)) else {
        return out.lack();
    };
    for at in 0..files {
        put_node(alloc, records, at, 1, out);
        match bytes.share() {
            Ok(bytes) => {
                let content = ContentRecord {
                    id: u64::from(at) + 2,
                    version: 1,
                    bytes,
                };
                out.push(records, Kept::Content(content))
            }
            Err(_) => out.lack(),
        }
    }
}

/// The records of the store: a head, if it has one; the file `a` of the directory that is told, whose
/// content is missing; the file `a` with one byte; or as many files as a tree may have bytes.
fn records(alloc: Global, trial: &Trial<'_>, out: &mut Out) -> Vec<Kept> {
    let mut records = Vec::new(alloc);
    if let Some(next) = trial.setting("head") {
        out.push(&mut records, Kept::Head(Head { next, changes: 1 }));
    }
    if let Some(parent) = trial.setting("parent") {
        put_node(alloc, &mut records, 0, parent, out);
    }
    if trial.setting("kept").is_some() {
        put_files(alloc, &mut records, 1, b'a', 1, out);
    }
    if trial.setting("full").is_some() {
        put_files(alloc, &mut records, 16, 0, FILE_MOST, out);
    }
    records
}

/// The store.
fn store(alloc: Global, trial: &Trial<'_>, out: &mut Out) -> Result<TriedStore, AllocError> {
    let records = Items::from_vec(records(alloc, trial, out));
    let store = MemStore::new(records, failing(alloc, trial, "store", out));
    TriedStore::new(alloc, store, trial.setting("settle"))
}

/// An end's store, and what it has of a port.
pub fn around<R: Wait + Copy>(
    rt: R,
    alloc: Global,
    port: &Arc<Port>,
    trial: &Trial<'_>,
    out: &mut Out,
) -> Result<(TriedStore, PortEnd<R>), AllocError> {
    let store = store(alloc, trial, out)?;
    let end = end_of(rt, port, trial)?;
    Ok((store, end))
}

/// The file `h` with the bytes `abc`, and no other.
pub fn files(alloc: Global, trial: &Trial<'_>, out: &mut Out) -> MemFiles {
    let failing = failing(alloc, trial, "files", out);
    let mut files = MemFiles::new(Items::new(alloc), failing);
    if files.put(alloc, "h", b"abc").is_err() {
        out.lack();
    }
    files
}
