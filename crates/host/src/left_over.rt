//! The files that fetches which were stopped left in a folder: which of them go.

use crate::notes::{FileNote, tell};
use shell_words::local::text_of;
use shell_words::quoting::quoted;
use shell_words::temporary::writer_of;
use std::alloc::Global;
use std::fs;
use std::fs::Metadata;
use std::io::ErrorKind;
use std::rt::{Clock as HostTime, Files as HostDisk};

/// For how many seconds nothing was written to a file that goes. Its process may be one of another host, or of
/// another container, which shares the folder; a fetch writes a file at one go.
const STILL: u64 = 60;

/// Whether a process may be running: unless the host says that it isn't.
fn may_run<R: HostDisk>(rt: &R, alloc: Global, process: u64) -> bool {
    let Ok(path) = format!(in alloc; "/proc/{process}") else {
        return true;
    };
    match rt.metadata(path.as_str()) {
        Ok(_) => true,
        Err(error) => error.kind() != ErrorKind::NotFound || rt.metadata("/proc/self").is_err(),
    }
}

/// Whether nothing was written to a file lately.
fn is_still<R: HostTime>(rt: &R, facts: &Metadata) -> bool {
    let Ok(last) = facts.modified() else {
        return false;
    };
    match last.elapsed(rt) {
        Ok(since) => since.as_secs() >= STILL,
        Err(_) => false,
    }
}

/// Whether a process other than this one, which is `own`, may be running. In a container each run may have the same
/// number, and its own files are none that it left: nothing of them is still for so long.
fn may_write<R: HostDisk>(rt: &R, alloc: Global, own: u32, process: u64) -> bool {
    process != u64::from(own) && may_run(rt, alloc, process)
}

/// Whether a file of a process was left by it.
fn is_left<R: HostDisk + HostTime>(
    rt: &R,
    alloc: Global,
    own: u32,
    path: &str,
    process: u64,
) -> bool {
    match rt.symlink_metadata(path) {
        Ok(facts) => facts.is_file() && is_still(rt, &facts) && !may_write(rt, alloc, own, process),
        Err(_) => false,
    }
}

/// Tells that a file went: somebody may have given it such a name himself.
fn tell_gone<R: Eprint>(rt: &R, alloc: Global, path: &str) {
    if let Ok(shown) = quoted(alloc, path.as_bytes()) {
        if let Some(path) = text_of(shown.as_slice()) {
            tell(rt, &FileNote::LeftOver { path });
        }
    }
}

/// What has a name in a folder goes, where a fetch that was stopped left it; this process has the number `own`.
pub(crate) fn clear_name<R: HostDisk + HostTime + Eprint>(
    rt: &R,
    alloc: Global,
    own: u32,
    folder: &str,
    name: &[u8],
) {
    let Some(process) = writer_of(name) else {
        return;
    };
    let Some(name) = text_of(name) else {
        return;
    };
    if let Ok(path) = format!(in alloc; "{folder}/{name}") {
        let goes = is_left(rt, alloc, own, path.as_str(), process);
        if goes && fs::remove_file(rt, path.as_str()).is_ok() {
            tell_gone(rt, alloc, path.as_str());
        }
    }
}
