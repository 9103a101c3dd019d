//! What is found of a record by what was read of its file: the record, or a line that says why there is none.
//! `specs/Found.antt` states it.

ghost use Rattle.std.specs.Prelude.{◌≡◌, ◌++◌, ◌∷◌, [], codes, IfOk, OnOk};
ghost use Rattle.folder_store.specs.Found.{Adds, lines_in, record_in};

use crate::format::{content_in, head_in, node_in};
use log_store::which::Which;
use std::alloc::{AllocError, Global};
use store::record::Kept;
use synced_store::checks::CheckedStore;

/// What was read of a record's file.
#[derive(Drop)]
pub enum Reading {
    /// There is none.
    Missing,
    /// Its bytes.
    Bytes(Vec<u8>),
    /// It couldn't be read, for this reason.
    Fault(String),
}

/// The record that these bytes of its file say. The one error is running out of memory.
pub(crate) fn record_in(
    alloc: Global,
    which: Which,
    bytes: Vec<u8>,
) -> Result<Option<Kept>, AllocError>
    ensures { IfOk result (λ r. r ≡ record_in which bytes.items) }
{
    match which {
        Which::Head => match head_in(&bytes) {
            Some(head) => Ok(Some(Kept::Head(head))),
            None => Ok(None),
        },
        Which::Node(id) => match node_in(alloc, id, &bytes)? {
            Some(node) => Ok(Some(Kept::Node(node))),
            None => Ok(None),
        },
        Which::Content(id) => match content_in(alloc, id, bytes)? {
            Some(content) => Ok(Some(Kept::Content(content))),
            None => Ok(None),
        },
    }
}

/// Adds what was read of the file of this name. The one error is running out of memory.
#[tactic(auto, using(crate::proofs::Looks::none_more, crate::proofs::Looks::no_record))]
pub(crate) fn add_reading(
    alloc: Global,
    which: Which,
    name: &str,
    reading: Reading,
    found: &mut CheckedStore,
) -> Result<(), AllocError>
    ensures { OnOk result (Adds which name.now reading found.old found.new) }
{
    match reading {
        Reading::Missing => Ok(()),
        Reading::Bytes(bytes) => match record_in(alloc, which, bytes)? {
            Some(record) => {
                found.records.push(record)?;
                Ok(())
            }
            None => add_line(alloc, name, "holds no record (was it cut?)", found),
        },
        Reading::Fault(why) => add_line(alloc, name, why.as_str(), found),
    }
}

/// Adds a line on the file of this name.
#[tactic(auto, using(crate::proofs::Looks::texts_more))]
fn add_line(
    alloc: Global,
    name: &str,
    text: &str,
    found: &mut CheckedStore,
) -> Result<(), AllocError>
    ensures records { OnOk result (found.new.records ≡ found.old.records) }
    ensures line { OnOk result (lines_in found.new ≡ lines_in found.old ++ (name.now ++ codes ": " ++ text.now) ∷ []) }
{
    let line = format!(in alloc; "{name}: {text}")?;
    found.findings.push(line)?;
    Ok(())
}
