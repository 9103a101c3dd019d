//! A whole stream. `specs/Show.antt` states its text.

ghost use Rattle.std.specs.Prelude.{◌≡◌, ◌++◌, IfOk, OnOk, string_bytes, flat_map};
ghost use Rattle.record_show.specs.Show.{record_text, end_text, shown};

use crate::line::put_line;
use crate::reading::line_of;
use lb_base::items::{Bytes, Items};
use rpc_record::record::Record;
use rpc_record::records::Records;
use rpc_record::refusal::Refusal;
use std::alloc::{AllocError, Global};
use std::fmt::Write;

/// How many bytes are taken at once, so that few records are held at a time.
const AT_ONCE: usize = 65_536;

/// The lines of records.
fn put_records(alloc: Global, out: &mut String, records: &[Record]) -> Result<(), AllocError>
    ensures { OnOk result (string_bytes out.new ≡ string_bytes out.old ++ flat_map record_text records.now) }
{
    for contents in records {
        let line = line_of(alloc, contents.as_slice())?;
        put_line(out, &line)?;
    }
    Ok(())
}

/// What is said behind the last record.
fn put_end(out: &mut String, spoilt: Option<Refusal>, rest: usize) -> Result<(), AllocError>
    ensures { OnOk result (string_bytes out.new ≡ string_bytes out.old ++ end_text spoilt rest) }
{
    if spoilt.is_some() {
        return out.push_str("limit\n");
    }
    if rest == 0 {
        return Ok(());
    }
    write!(out, "rest {rest}\n")
}

/// A line for each record of a stream of bytes, and what then is left of it: `limit` where a
/// fragment's header breaks a limit of records, else `rest` with the number of bytes that are no
/// whole record, if there are any. The one error is running out of memory.
pub fn shown(alloc: Global, input: &[u8]) -> Result<Bytes, AllocError>
    ensures { IfOk result (λ text. text ≡ shown input.now) }
{
    let mut out = String::new(alloc);
    let mut records = Records::new(alloc);
    let mut spoilt = None;
    for piece in input.chunks(AT_ONCE) {
        let fed = records.feed(alloc, piece)?;
        put_records(alloc, &mut out, fed.records.as_slice())?;
        spoilt = fed.spoilt;
    }
    put_end(&mut out, spoilt, records.rest_len())?;
    Ok(Items::from_vec(out.into_bytes()))
}
