//! A content as a file is made with it, of the first version and without bytes. Its file has a second name (`mID`), which
//! says so, whatever a cut of power leaves of its bytes: once both names are on the disk there is nothing else to flush.

ghost use Rattle.std.specs.Prelude.{◌≡◌, ◌++◌, Bool, true, OnOk, IfOk, string_bytes};
ghost use Rattle.system_files.specs.Names.{are_lost, as_read, made_bytes, made_name};

use crate::disk_files::is_missing;
use log_store::which::{FileName, Which};
use std::alloc::AllocError;
use std::fmt::Write;
use std::fs::File;
use std::rt::Files;

/// The bytes of such a content.
pub const MADE: [u8; 8] = [0, 0, 0, 0, 0, 0, 0, 1];

/// Whether these bytes, and those behind them, are such a content's.
#[tactic(auto, using(crate::proofs::Names::made_front, crate::proofs::Names::made_body))]
pub fn are_made(front: &[u8], body: &[u8]) -> bool
    ensures { result ≡ true → front.now ++ body.now ≡ made_bytes }
{
    match body {
        [] => front == MADE.as_slice(),
        [_first, ..] => front.is_empty() && body == MADE.as_slice(),
    }
}

/// The id of a content's own file.
pub fn content_id(name: FileName) -> Option<u64> {
    match name {
        FileName::Record(Which::Content(id)) => Some(id),
        _ => None,
    }
}

/// Writes the second name of such a content's file behind a path. The one error is running out of
/// memory.
pub fn put_made_name(path: &mut String, id: u64) -> Result<(), AllocError>
    ensures { OnOk result (string_bytes path.new ≡ string_bytes path.old ++ made_name id) }
{
    write!(path, "m{id}")
}

/// Whether these are the bytes of a file of which a cut of power left none: fewer than a content has, or zeros.
fn are_lost(bytes: &[u8]) -> bool
    ensures { result ≡ are_lost bytes.now }
{
    bytes.len() < MADE.len() || bytes == [0; 8].as_slice()
}

/// The bytes of a content whose file has these, by whether its second name is there. The one error is running out of memory.
fn as_read(bytes: Vec<u8>, is_made: bool) -> Result<Vec<u8>, AllocError>
    ensures { IfOk result (λ r. r.items ≡ as_read is_made bytes.items) }
{
    if !is_made || !are_lost(&bytes) {
        return Ok(bytes);
    }
    let mut bytes = bytes;
    bytes.clear();
    bytes.extend_from_slice(&MADE)?;
    Ok(bytes)
}

/// The bytes of a content by what its own file has, and whether its second name is there
/// (`as_read`). The one error is running out of memory.
pub fn unless_made<R: Files<File = File>>(
    rt: &R,
    bytes: Vec<u8>,
    made: &str,
) -> Result<Vec<u8>, AllocError>
    ensures { IfOk result (λ r. (is_made : Bool) × (r.items ≡ as_read is_made bytes.items)) }
{
    let is_made = !is_missing(rt, made);
    as_read(bytes, is_made)
}
