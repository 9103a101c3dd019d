//! The changes of files by sessions that are no client's. `raws_with` in `specs/Core.antt` says which
//! there are.

ghost use Rattle.std.specs.Prelude.{◌≡◌, ◌++◌, IfOk, OnOk};
ghost use Rattle.chunk_calls.specs.Files.{file_at};
ghost use Rattle.trace_ends.specs.Core.{content_in, newest_entries, changed_entry, raw_kind, raw_of, raws_with};

use crate::entering::entry_by;
use lb_base::items::Items;
use register_model::raw::{Raw, RawKind};
use server_core::journal::Entry;
use server_core::server::Server;
use shared_bytes::SharedBytes;
use std::alloc::{AllocError, Global};
use tree_reading::entry::EntryKind;
use tree_reading::error::TreeError;

/// The content of a file of the server's tree, no bytes where it is gone. The one error is running out of
/// memory.
#[tactic(auto, using(crate::proofs::Contents::content_is, crate::proofs::Contents::no_content))]
fn content_in(alloc: Global, server: &Server, file: u64) -> Result<SharedBytes, AllocError>
    ensures { IfOk result (λ bytes. bytes ≡ content_in (file_at server.now.tree file)) }
{
    match server.content(file) {
        Ok(bytes) => Ok(SharedBytes::new(alloc, bytes)?),
        Err(TreeError::Memory) => Err(AllocError),
        Err(TreeError::Refused(_)) => Ok(SharedBytes::empty()),
    }
}

/// A change that an entry tells, and what it left. The one error is running out of memory.
fn raw_of(
    alloc: Global,
    server: &Server,
    entry: &Entry,
    kind: RawKind,
    begin: u64,
    step: u64,
) -> Result<Raw, AllocError>
    ensures { IfOk result (λ r. r ≡ raw_of begin step server.now.tree entry.now kind) }
{
    let value = content_in(alloc, server, entry.file)?;
    let sha1 = Items::copy_of(alloc, entry.sha1.as_slice())?;
    Ok(Raw {
        session: entry.session,
        kind,
        file: entry.file,
        begin,
        point: step,
        version: entry.version,
        len: entry.len,
        sha1,
        value,
    })
}

/// What was done to the file that an entry is about, if it is about one.
fn kind_of(kind: EntryKind) -> Option<RawKind>
    ensures { result ≡ raw_kind kind }
{
    match kind {
        EntryKind::Make => Some(RawKind::Make),
        EntryKind::Commit => Some(RawKind::Commit),
        EntryKind::Remove => Some(RawKind::Remove),
        EntryKind::Name => None,
    }
}

/// The change that the last `made` entries of the journal tell, if they tell one, is added, where the session
/// by which it was made is no client's: it began in one step and was made in another. The one error is
/// running out of memory.
pub fn put_raw(
    alloc: Global,
    raws: &mut Vec<Raw>,
    server: &Server,
    is_raw: bool,
    made: u32,
    begin: u64,
    step: u64,
) -> Result<(), AllocError>
    ensures { OnOk result (raws.new.items ≡ raws_with raws.old.items is_raw begin step server.now.tree (changed_entry (newest_entries server.now.journal made))) }
{
    if !is_raw {
        return Ok(());
    }
    let Some(entry) = entry_by(server.journal(), made) else {
        return Ok(());
    };
    let Some(kind) = kind_of(entry.kind) else {
        return Ok(());
    };
    let raw = raw_of(alloc, server, entry, kind, begin, step)?;
    raws.push(raw)?;
    Ok(())
}
