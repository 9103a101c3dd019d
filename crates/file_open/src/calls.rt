//! The READs that go out in a step, and the one that an answer is of: `specs/Opening.antt`.

ghost use Rattle.std.specs.Prelude.{◌≡◌, ◌+◌, ◌<◌, length, None, slice_get, IfOk, OnOk};
ghost use Rattle.file_open.specs.Opening.{is_here, read_at, reads_chunk, reads_next, reads_all, without_read};
ghost use Rattle.client_state.specs.View.{IsReading, HasXids};
ghost use Rattle.file_open.specs.Sending.{IsSendingReads};
ghost use Rattle.std.specs.Option.{option_copied};
ghost use Rattle.client_state.specs.Counting.{sends_reads};
ghost use Rattle.client_state.specs.declared.task.Stage.TheVariants as stage;

use crate::{caching, fetch, messages};
use chunk_cut::chunk::Chunk;
use client_state::parts;
use client_state::state::ClientState;
use client_state::step::ClientStep;
use client_state::task::{Fetch, ReadCall};
use lb_base::items::{Bytes, Items};
use send_list::SendList;
use std::alloc::{AllocError, Global};
use transfer_rules::bounds::has_room;
use transfer_rules::chunks::{all_came, next_chunk};
use transfer_rules::counts::{Counts, no_counts};
use wire::message::Message;

/// A fetch, the next xid, and the READs that were sent for it by now.
pub struct Reads {
    pub fetch: Fetch,
    pub next_xid: u32,
    pub send: SendList<Message>,
}

/// The chunk is asked for, at the place where it stands.
fn ask_chunk(
    alloc: Global,
    file: u64,
    reads: &mut Reads,
    index: usize,
    chunk: &Chunk,
) -> Result<(), AllocError>
    requires xid { reads.old.next_xid + 1 < 4294967296 }
    requires len { chunk.now.len < 4294967296 }
    requires index { index ≡ reads.old.fetch.asked }
    requires more { index + 1 < 18446744073709551616 }
    ensures { OnOk result (reads.new ≡ reads_chunk file reads.old chunk.now None) }
{
    let xid = reads.next_xid;
    let call = messages::read_call(alloc, xid, file, chunk)?;
    reads.send.push(call)?;
    reads.fetch.under.push(ReadCall { xid, index })?;
    reads.fetch.asked = index + 1;
    reads.next_xid = xid + 1;
    Ok(())
}

/// The chunk's bytes are taken, where they are kept, or it is asked for, at the place where it stands.
fn take_chunk(
    alloc: Global,
    file: u64,
    reads: &mut Reads,
    place: usize,
    chunk: &Chunk,
    kept: Option<Bytes>,
) -> Result<(), AllocError>
    requires xid { reads.old.next_xid + 1 < 4294967296 }
    requires len { chunk.now.len < 4294967296 }
    requires place { place ≡ reads.old.fetch.asked }
    requires slot { place < length reads.old.fetch.slots }
    requires more { place + 1 < 18446744073709551616 }
    ensures { OnOk result (reads.new ≡ reads_chunk file reads.old chunk.now kept) }
{
    match kept {
        Some(bytes) => {
            fetch::fill_slot(&mut reads.fetch, place, bytes);
            reads.fetch.asked = place + 1;
            Ok(())
        }
        None => ask_chunk(alloc, file, reads, place, chunk),
    }
}

/// The next chunk is looked up, if there is one, and where it isn't kept it is asked for.
#[tactic(auto, using(crate::proofs::Slots::by_read_next))]
fn read_next(
    alloc: Global,
    state: &ClientState,
    file: u64,
    reads: &mut Reads,
) -> Result<(), AllocError>
    requires xid { reads.old.next_xid + 1 < 4294967296 }
    requires within { IsReading reads.old.fetch }
    ensures { OnOk result (reads.new ≡ reads_next state.now.cache state.now.index file reads.old (slice_get reads.old.fetch.chunks reads.old.fetch.asked)) }
{
    let place = reads.fetch.asked;
    let Some(chunk) = next_chunk(reads.fetch.chunks.as_slice(), place) else {
        return Ok(());
    };
    let kept = caching::from_index(alloc, state, &chunk)?;
    take_chunk(alloc, file, reads, place, &chunk, kept)
}

/// A fetch is dropped, with the READs that were sent for it.
pub fn drop_reads(reads: Reads) {
    let Reads {
        fetch,
        next_xid: _,
        send,
    } = reads;
    drop(fetch);
    drop(send);
}

/// The chunks that are left are taken from what is kept, or asked for, while calls may be under way.
pub fn read_all(
    alloc: Global,
    state: &ClientState,
    file: u64,
    fetch: Fetch,
) -> Result<Reads, AllocError>
    requires within { IsReading fetch }
    requires xids { HasXids state.now.next_xid (stage.Reading fetch) }
    ensures all { IfOk result (λ r. r ≡ reads_all state.now.cache state.now.index file fetch state.now.next_xid) }
    ensures sending { IfOk result (λ r. IsSendingReads fetch state.now.next_xid r) }
{
    let left = fetch.chunks.len() - fetch.asked;
    let mut reads = Reads {
        fetch,
        next_xid: state.next_xid(),
        send: SendList::none(alloc),
    };
    for _i in 0..left {
        let under = reads.fetch.under.len();
        if !has_room(under) {
            return Ok(reads);
        }
        match read_next(alloc, state, file, &mut reads) {
            Ok(()) => {}
            Err(error) => {
                drop_reads(reads);
                return Err(error);
            }
        }
    }
    Ok(reads)
}

/// So many READs are sent, after so many bytes of one came. It takes no memory.
pub fn sends_reads(send: SendList<Message>, reads: u64, bytes: u64) -> ClientStep
    requires { reads ≡ length send }
    ensures { result ≡ sends_reads send bytes }
{
    let counts = Counts {
        reads,
        bytes,
        ..no_counts()
    };
    parts::sends(send, counts)
}

/// Whether all chunks of a fetch are here.
pub fn is_here(fetch: &Fetch) -> bool
    ensures { result ≡ is_here fetch.now }
{
    all_came(fetch.under.as_slice(), fetch.asked, fetch.chunks.len())
}

/// The READ under way with this xid.
fn find_read(under: &[ReadCall], xid: u32) -> Option<&ReadCall>
    ensures { option_copied result ≡ read_at under.now xid }
{
    under.iter().find(|c| c.xid == xid)
}

/// A copy of the READ under way with this xid.
pub fn read_at(under: &[ReadCall], xid: u32) -> Option<ReadCall>
    ensures { result ≡ read_at under.now xid }
{
    match find_read(under, xid) {
        Some(call) => Some(*call),
        None => None,
    }
}

/// The READs under way with other xids. It takes no memory.
pub fn without_read(under: Items<ReadCall>, xid: u32) -> Items<ReadCall>
    ensures { result ≡ without_read under xid }
{
    let mut left = under.into_vec();
    left.retain(|c| c.xid != xid);
    Items::from_vec(left)
}
