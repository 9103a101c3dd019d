//! Fragments of records (RFC 5531, section 11): what their headers say, and how far a record is
//! known. `specs/Records.antt` states the first, `specs/Progress.antt` the second.

ghost use Rattle.std.specs.Prelude.{◌≡◌, ℕ, List, IfOk, IsTrue};
ghost use Rattle.rpc_record.specs.Records.{header_of, HasRecord};
ghost use Rattle.rpc_record.specs.Progress.{Reaches, IsStep, IsFound, IsAlone};

use crate::refusal::Refusal;
use lb_base::items::{Bytes, Items};
use limits::{FRAGMENTS_MOST, RECORD_MOST};
use std::alloc::{AllocError, Global};

/// The top bit of a header: its fragment is the last of the record.
pub const LAST: u32 = 0x8000_0000;

/// What stands before a fragment.
#[derive(Clone, Copy)]
pub struct Header {
    /// This fragment is the last of its record.
    pub last: bool,
    /// How many bytes it has.
    pub len: usize,
}

/// How far the record at the front of some bytes is known.
#[derive(Clone, Copy)]
pub struct Progress {
    /// So many bytes are whole fragments, none of them the last.
    pub at: usize,
    /// How many more fragments the record may have.
    pub more: u32,
    /// How many bytes those fragments hold.
    pub promised: usize,
}

/// What stands at the front of some bytes.
pub enum Found {
    /// A record, which ends at this place.
    Whole { end: usize },
    /// Not all of a record.
    Begun(Progress),
    /// A header that no record may have.
    Bad(Refusal),
}

/// What one more header tells.
pub enum Step {
    /// A whole fragment, which is not the last.
    On(Progress),
    /// Where the record ends, or that it does not.
    Done(Found),
}

/// The header at the front, if all of it is there.
pub fn header_of(bytes: &[u8]) -> Option<Header>
    ensures { result ≡ header_of bytes.now }
{
    if bytes.len() < 4 {
        return None;
    }
    let front = bytes.split_at(4).0;
    let word = u32::from_be_bytes([front[0], front[1], front[2], front[3]]);
    Some(Header {
        last: LAST <= word,
        len: (word % LAST) as usize,
    })
}

/// Nothing is known of the record at the front.
pub const START: Progress = Progress {
    at: 0,
    more: FRAGMENTS_MOST,
    promised: 0,
};

/// Looks at one more header.
fn look(bytes: &[u8], known: Progress) -> Step
    requires { Reaches bytes.now known }
    ensures { IsStep bytes.now known result }
{
    let left = bytes.split_at(known.at).1;
    let Some(header) = header_of(left) else {
        return Step::Done(Found::Begun(known));
    };
    let promised = known.promised + header.len;
    if RECORD_MOST < promised {
        return Step::Done(Found::Bad(Refusal::TooBig { len: promised }));
    }
    if known.more == 0 {
        return Step::Done(Found::Bad(Refusal::TooManyFragments));
    }
    if left.len() < 4 + header.len {
        return Step::Done(Found::Begun(known));
    }
    let end = known.at + 4 + header.len;
    if header.last {
        return Step::Done(Found::Whole { end });
    }
    Step::On(Progress {
        at: end,
        more: known.more - 1,
        promised,
    })
}

/// Looks for the end of the record at the front, of which so much is known.
pub fn find(bytes: &[u8], known: Progress) -> Found
    requires { Reaches bytes.now known }
    ensures { IsFound bytes.now result }
{
    let mut known = known;
    loop {
        match look(bytes, known) {
            Step::On(next) => known = next,
            Step::Done(found) => return found,
        }
    }
}

/// Whether the bytes are a record of one fragment, and nothing else.
pub fn is_alone(bytes: &[u8]) -> bool
    ensures { IsTrue result → IsAlone bytes.now }
{
    let Some(header) = header_of(bytes) else {
        return false;
    };
    if !header.last {
        return false;
    }
    if RECORD_MOST < header.len {
        return false;
    }
    bytes.len() == 4 + header.len
}

/// The contents of the record at the front.
pub fn join(alloc: Global, bytes: &[u8]) -> Result<Bytes, AllocError>
    requires { (contents : List ℕ) × HasRecord bytes.now contents }
    ensures { IfOk result (λ contents. HasRecord bytes.now contents) }
{
    let mut contents = Vec::new(alloc);
    let mut left = bytes;
    while let Some(header) = header_of(left) {
        let behind = left.split_at(4).1;
        let (body, after) = behind.split_at(header.len.min(behind.len()));
        contents.extend_from_slice(body)?;
        if header.last {
            return Ok(Items::from_vec(contents));
        }
        left = after;
    }
    Ok(Items::from_vec(contents))
}
