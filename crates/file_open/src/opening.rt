//! The operation that opens a file: its chunks are asked for, piece by piece, and then their bytes.
//! `specs/Opening.antt` and `specs/Fetching.antt` say how.

ghost use Rattle.std.specs.Prelude.{◌≡◌, ◌+◌, ◌-◌, ◌<◌, ◌≤◌, ◌==◌, length, take, drop, None, Some, slice_get, IfOk, OnOk, OnErr, false, true};
ghost use Rattle.file_open.specs.Caching.{found_all, fresh_content};
ghost use Rattle.file_open.specs.Opening.{read_at, fault_in, with_hashes};
ghost use Rattle.transfer_rules.specs.Limits.{tries_most};
ghost use Rattle.file_open.specs.Looking.{with_file, listed_if, listed_by, taken_if, taken_by, entering_by};
ghost use Rattle.file_open.specs.Shape.{broken_of};
ghost use Rattle.file_open.specs.Fetching.{opens, opens_kept, finds_kept, asks_file, MayMissOpen, MayMissKept, Comes, tries_anew, opened_with, changes, reads_if, reads_on, lists_on, told_version};
ghost use Rattle.file_open.specs.Fetching.{told_bytes, told_piece};
ghost use Rattle.client_state.specs.Ending.{forgets, may_ask};
ghost use Rattle.client_state.specs.View.{state_of, whole_of, later_left, IsListing, IsReading, IsHeld, IsSound, IsThere, HasXids};
ghost use Rattle.client_state.specs.declared.task.Stage.TheVariants as stage;

use crate::calls::Reads;
use crate::{caching, calls, faults, fetch, kept, messages, shape};
use chunk_cut::chunk::Chunk;
use chunk_slots::Slots;
use client_state::parts;
use client_state::state::ClientState;
use client_state::step::{BadPeer, ClientStep, Outcome};
use client_state::task::{Fetch, ReadCall, Stage};
use hash_calls::call::Hashes;
use nfs3_calls::call::Piece;
use std::alloc::{AllocError, Global};
use std::mem;
use transfer_rules::chunks::chunk_at;
use transfer_rules::{bounds, pieces};
use xdr_codec::handle::Handle;

/// A command to open a file. Where its content is fresh nobody is asked. An `Err` changes nothing, and comes
/// only where a fresh content is opened or the file is asked for.
pub fn open(alloc: Global, state: &mut ClientState, file: u64) -> Result<ClientStep, AllocError>
    requires { IsSound state.old }
    ensures ok { IfOk result (λ a. opens (state_of state.old) file state.old.task ≡ (state_of state.new, a)) }
    ensures done { IfOk result (λ a. a.missed ≡ false) }
    ensures err { OnErr result (state_of state.new ≡ state_of state.old) }
    ensures sure { OnErr result (MayMissOpen (state_of state.old) file state.old.task) }
    ensures sound { IsSound state.new }
{
    if state.is_busy() {
        return Ok(parts::ends(alloc, Outcome::Busy, 0, 0));
    }
    if state.is_open(file) {
        return Ok(parts::ends(alloc, Outcome::AlreadyOpen, 0, 0));
    }
    open_kept(alloc, state, file)
}

/// A file that isn't open is opened at once, where its content is fresh, or asked for. An `Err` changes
/// nothing.
fn open_kept(alloc: Global, state: &mut ClientState, file: u64) -> Result<ClientStep, AllocError>
    requires sound { IsSound state.old }
    requires idle { state.old.task ≡ None }
    ensures ok { IfOk result (λ a. opens_kept (state_of state.old) file (fresh_content state.old.cache file state.old.clock) ≡ (state_of state.new, a)) }
    ensures done { IfOk result (λ a. a.missed ≡ false) }
    ensures err { OnErr result (state_of state.new ≡ state_of state.old) }
    ensures sure { OnErr result (MayMissKept (state_of state.old) (fresh_content state.old.cache file state.old.clock)) }
    ensures sound { IsSound state.new }
{
    match caching::fresh(&*state, file) {
        Some((version, bytes)) => {
            let bytes = bytes.share()?;
            kept::open_fresh(alloc, state, file, version, bytes)
        }
        None => ask_linked(alloc, state, file),
    }
}

/// A file is asked for, where a connection is joined. An `Err` changes nothing.
#[tactic(auto, using(crate::proofs::Keeping::by_ask_linked))]
fn ask_linked(alloc: Global, state: &mut ClientState, file: u64) -> Result<ClientStep, AllocError>
    requires sound { IsSound state.old }
    requires idle { state.old.task ≡ None }
    ensures ok { IfOk result (λ a. asks_file (state_of state.old) file (may_ask (state_of state.old)) ≡ (state_of state.new, a)) }
    ensures done { IfOk result (λ a. a.missed ≡ false) }
    ensures err { OnErr result (state_of state.new ≡ state_of state.old) }
    ensures sure { OnErr result (may_ask (state_of state.old) ≡ true) }
    ensures sound { IsSound state.new }
{
    if !state.may_ask() {
        return Ok(parts::ends(alloc, Outcome::NoLink, 0, 0));
    }
    ask_file(alloc, state, file)
}

/// A file that a path was found to stand for, by the answer with this xid, and which isn't open: it is opened
/// at once, where its content is fresh, or asked for. An `Err` changes nothing.
pub fn open_found(
    alloc: Global,
    state: &mut ClientState,
    xid: u32,
    file: u64,
) -> Result<ClientStep, AllocError>
    requires held { IsHeld state.old }
    requires xids { HasXids (state.old.next_xid + 1) (stage.Asking 0) }
    ensures ok { IfOk result (λ a. finds_kept (state_of state.old) state.old.waiting.calls xid file (fresh_content state.old.cache file state.old.clock) ≡ (state_of state.new, a)) }
    ensures done { IfOk result (λ a. a.missed ≡ false) }
    ensures err { OnErr result (whole_of state.new ≡ whole_of state.old) }
    ensures sound { OnOk result (IsSound state.new) }
    ensures held { OnErr result (IsHeld state.new) }
{
    match caching::fresh(&*state, file) {
        Some((version, bytes)) => {
            let bytes = bytes.share()?;
            kept::use_kept(alloc, state, file, xid, version, bytes, 0)
        }
        None => ask_file(alloc, state, file),
    }
}

/// The file is asked for: by its version where a content is kept, else by its chunks. An `Err`
/// changes nothing.
fn ask_file(alloc: Global, state: &mut ClientState, file: u64) -> Result<ClientStep, AllocError>
    requires held { IsHeld state.old }
    requires xids { HasXids (state.old.next_xid + 1) (stage.Asking 0) }
    ensures ok { IfOk result (λ a. asks_file (state_of state.old) file true ≡ (state_of state.new, a)) }
    ensures done { IfOk result (λ a. a.missed ≡ false) }
    ensures err { OnErr result (whole_of state.new ≡ whole_of state.old) }
    ensures sound { OnOk result (IsSound state.new) }
    ensures held { OnErr result (IsHeld state.new) }
{
    let lbfs = state.lbfs();
    let xid = state.next_xid();
    let handle = Handle::of_file(alloc, file)?;
    if caching::is_kept(&*state, file) {
        state.wait_there(alloc, file, Stage::Asking(xid), xid + 1)?;
        let call = messages::lease_call(lbfs, xid, handle);
        return Ok(parts::sends_one(alloc, call, 0));
    }
    state.wait_there(alloc, file, Stage::Hashing { tries: 1, xid }, xid + 1)?;
    let call = messages::hash_call(lbfs, xid, handle, 0);
    Ok(parts::sends_one(alloc, call, 0))
}

/// The file is whole and open, its content is kept, and its chunks' places enter the index, but
/// those for which memory runs out; chunks from a place on were looked up. The fetch's bytes are taken out of it.
/// An `Err` changes nothing.
fn opened_with(
    alloc: Global,
    state: &mut ClientState,
    file: u64,
    fetch: &mut Fetch,
    from: usize,
    xid: u32,
    bytes: u64,
) -> Result<ClientStep, AllocError>
    requires held { IsHeld state.old }
    requires there { IsThere state.old.cache file }
    requires within { IsReading fetch.old }
    requires from { from ≤ fetch.old.asked }
    ensures ok { IfOk result (λ a. Comes state.old.index
        (Some (record {
          looked = take (fetch.old.asked - from) (drop from fetch.old.chunks);
          file = file;
          chunks = fetch.old.chunks;
        }))
        (opened_with (record (state_of state.old) {
          index = found_all state.old.index
              (take (fetch.old.asked - from)
              (drop from fetch.old.chunks));
        }) state.old.waiting.calls file xid fetch.old bytes)
        (state_of state.new) a) }
    ensures err { OnErr result (whole_of state.new ≡ whole_of state.old) }
    ensures sound { OnOk result (IsSound state.new) }
    ensures held { OnErr result (IsHeld state.new) }
{
    let slots = mem::replace(&mut fetch.slots, Slots::none(alloc));
    let content = fetch::slots_bytes(alloc, slots)?;
    let version = fetch.version;
    let mut step = kept::keep_open(alloc, state, file, version, content, fetch.first, bytes)?;
    let missed = caching::enter_fetched(state, file, &*fetch, from);
    state.forget(alloc, xid);
    step.missed = missed;
    Ok(step)
}

/// The next attempt begins. An `Err` changes nothing.
pub fn retry(
    alloc: Global,
    state: &mut ClientState,
    file: u64,
    tries: u32,
    xid: u32,
    bytes: u64,
) -> Result<ClientStep, AllocError>
    requires held { IsHeld state.old }
    requires there { IsThere state.old.cache file }
    requires tries { tries < tries_most }
    requires xids { state.old.next_xid + 1 + later_left tries < 4294967296 }
    ensures ok { IfOk result (λ a. tries_anew (forgets (state_of state.old) state.old.waiting.calls xid) file (tries + 1) bytes ≡ (state_of state.new, a)) }
    ensures done { IfOk result (λ a. a.missed ≡ false) }
    ensures err { OnErr result (whole_of state.new ≡ whole_of state.old) }
    ensures sound { OnOk result (IsSound state.new) }
    ensures held { OnErr result (IsHeld state.new) }
{
    let lbfs = state.lbfs();
    let asked = state.next_xid();
    let handle = Handle::of_file(alloc, file)?;
    state.wait_anew(alloc, file, tries + 1, xid)?;
    let call = messages::hash_call(lbfs, asked, handle, 0);
    Ok(parts::sends_one(alloc, call, bytes))
}

/// The attempt ends by another version than its own, and the next begins, or there is none. An
/// `Err` changes nothing.
fn change(
    alloc: Global,
    state: &mut ClientState,
    file: u64,
    fetch: &Fetch,
    xid: u32,
    version: u64,
    bytes: u64,
) -> Result<ClientStep, AllocError>
    requires held { IsHeld state.old }
    requires there { IsThere state.old.cache file }
    requires tries { fetch.now.tries ≤ tries_most }
    requires xids { state.old.next_xid + 1 + later_left fetch.now.tries < 4294967296 }
    ensures ok { IfOk result (λ a. changes (state_of state.old) state.old.waiting.calls file xid fetch.now version bytes ≡ (state_of state.new, a)) }
    ensures done { IfOk result (λ a. a.missed ≡ false) }
    ensures err { OnErr result (whole_of state.new ≡ whole_of state.old) }
    ensures sound { OnOk result (IsSound state.new) }
    ensures held { OnErr result (IsHeld state.new) }
{
    if bounds::may_try_again(fetch.tries) {
        return retry(alloc, state, file, fetch.tries, xid, bytes);
    }
    state.forget(alloc, xid);
    let outcome = Outcome::Changed {
        first: fetch.version,
        last: version,
    };
    Ok(parts::ends(alloc, outcome, 0, bytes))
}

/// Sends `count` READs and waits for their answers; chunks from the place `from` on were looked up.
/// An `Err` changes nothing.
fn wait_reads(
    alloc: Global,
    state: &mut ClientState,
    file: u64,
    reads: Reads,
    from: usize,
    count: u64,
    bytes: u64,
) -> Result<ClientStep, AllocError>
    requires held { IsHeld state.old }
    requires there { IsThere state.old.cache file }
    requires within { IsReading reads.fetch }
    requires xids { HasXids reads.next_xid (stage.Reading reads.fetch) }
    requires rises { state.old.next_xid ≤ reads.next_xid }
    requires from { from ≤ reads.fetch.asked }
    requires count { count ≡ length reads.send }
    ensures ok { IfOk result (λ a. reads_if
        (record (state_of state.old) {
          index = found_all state.old.index
              (take (reads.fetch.asked - from)
              (drop from reads.fetch.chunks));
        }) state.old.waiting.calls file 0 reads bytes false
        ≡ (state_of state.new, a)) }
    ensures done { IfOk result (λ a. a.missed ≡ false) }
    ensures err { OnErr result (whole_of state.new ≡ whole_of state.old) }
    ensures sound { OnOk result (IsSound state.new) }
    ensures held { OnErr result (IsHeld state.new) }
{
    let Reads {
        fetch,
        next_xid,
        send,
    } = reads;
    let (calls, own) = state.list_reads(alloc, fetch.under.as_slice())?;
    caching::find_asked(state, &fetch, from);
    state.set_waiting(calls, own, file, Stage::Reading(fetch), next_xid);
    Ok(calls::sends_reads(send, count, bytes))
}

/// The chunks that are left are taken from what is kept, or READs go out for them, or all are here.
/// An `Err` changes nothing.
fn read_on(
    alloc: Global,
    state: &mut ClientState,
    file: u64,
    fetch: Fetch,
    xid: u32,
    bytes: u64,
) -> Result<ClientStep, AllocError>
    requires held { IsHeld state.old }
    requires there { IsThere state.old.cache file }
    requires within { IsReading fetch }
    requires xids { HasXids state.old.next_xid (stage.Reading fetch) }
    ensures ok { IfOk result (λ a. Comes state.old.index
        (entering_by (state_of state.old) (Some (file, fetch)))
        (reads_on (state_of state.old) state.old.waiting.calls file xid fetch bytes)
        (state_of state.new) a) }
    ensures err { OnErr result (whole_of state.new ≡ whole_of state.old) }
    ensures sound { OnOk result (IsSound state.new) }
    ensures held { OnErr result (IsHeld state.new) }
{
    let from = fetch.asked;
    let under = fetch.under.len();
    let mut reads = calls::read_all(alloc, &*state, file, fetch)?;
    if calls::is_here(&reads.fetch) {
        let done = opened_with(alloc, state, file, &mut reads.fetch, from, xid, bytes);
        calls::drop_reads(reads);
        done
    } else {
        let count = (reads.fetch.under.len() - under) as u64;
        wait_reads(alloc, state, file, reads, from, count, bytes)
    }
}

/// The further chunks are asked for. An `Err` changes nothing.
fn list_on(
    alloc: Global,
    state: &mut ClientState,
    file: u64,
    fetch: Fetch,
) -> Result<ClientStep, AllocError>
    requires held { IsHeld state.old }
    requires there { IsThere state.old.cache file }
    requires within { IsListing fetch }
    requires xids { HasXids (state.old.next_xid + 1) (stage.Listing 0 fetch) }
    ensures ok { IfOk result (λ a. lists_on (state_of state.old) state.old.waiting.calls file 0 fetch false ≡ (state_of state.new, a)) }
    ensures done { IfOk result (λ a. a.missed ≡ false) }
    ensures err { OnErr result (whole_of state.new ≡ whole_of state.old) }
    ensures sound { OnOk result (IsSound state.new) }
    ensures held { OnErr result (IsHeld state.new) }
{
    let lbfs = state.lbfs();
    let xid = state.next_xid();
    let offset = shape::end_of(fetch.chunks.as_slice());
    let handle = Handle::of_file(alloc, file)?;
    state.wait(alloc, file, Stage::Listing { xid, fetch }, xid + 1)?;
    state.mark_sent();
    let call = messages::hash_call(lbfs, xid, handle, offset);
    Ok(parts::sends_one(alloc, call, 0))
}

/// A piece can be, and its chunks are listed. An `Err` changes nothing.
#[tactic(auto, using(crate::proofs::lemmas::Pieces::few_pairs))]
fn add_piece(
    alloc: Global,
    state: &mut ClientState,
    file: u64,
    fetch: Fetch,
    hashes: &Hashes,
    xid: u32,
) -> Result<ClientStep, AllocError>
    requires held { IsHeld state.old }
    requires there { IsThere state.old.cache file }
    requires within { IsListing fetch }
    requires can { broken_of fetch hashes.now ≡ None }
    requires xids { HasXids state.old.next_xid (stage.Listing 0 fetch) }
    ensures ok { IfOk result (λ a. Comes state.old.index
        (entering_by (state_of state.old)
        (with_file file (listed_if fetch hashes.now true None hashes.now.eof)))
        (lists_on (state_of state.old) state.old.waiting.calls file xid
        (with_hashes fetch hashes.now) hashes.now.eof) (state_of state.new) a) }
    ensures err { OnErr result (whole_of state.new ≡ whole_of state.old) }
    ensures sound { OnOk result (IsSound state.new) }
    ensures held { OnErr result (IsHeld state.new) }
{
    let fetch = fetch::with_hashes(fetch, hashes)?;
    if hashes.eof {
        let whole = fetch::listed(alloc, fetch)?;
        read_on(alloc, state, file, whole, xid, 0)
    } else {
        list_on(alloc, state, file, fetch)
    }
}

/// A piece of a file's chunks has come. An `Err` changes nothing.
#[tactic(auto, using(crate::proofs::lemmas::Pieces::may_retry))]
pub fn told_hashes(
    alloc: Global,
    state: &mut ClientState,
    file: u64,
    fetch: Fetch,
    hashes: &Hashes,
    xid: u32,
) -> Result<ClientStep, AllocError>
    requires held { IsHeld state.old }
    requires there { IsThere state.old.cache file }
    requires within { IsListing fetch }
    requires xids { HasXids state.old.next_xid (stage.Listing 0 fetch) }
    ensures ok { IfOk result (λ a. Comes state.old.index
        (entering_by (state_of state.old) (with_file file (listed_by fetch hashes.now)))
        (told_version (state_of state.old) state.old.waiting.calls file xid fetch hashes.now
        (hashes.now.version == fetch.version)) (state_of state.new) a) }
    ensures err { OnErr result (whole_of state.new ≡ whole_of state.old) }
    ensures sound { OnOk result (IsSound state.new) }
    ensures held { OnErr result (IsHeld state.new) }
{
    if pieces::is_of_version(fetch.version, hashes.version) {
        match shape::broken_of(&fetch, hashes) {
            Some((got, wanted)) => Ok(state.bad_peer(alloc, BadPeer::Shape { got, wanted }, 0)),
            None => add_piece(alloc, state, file, fetch, hashes, xid),
        }
    } else {
        change(alloc, state, file, &fetch, xid, hashes.version, 0)
    }
}

/// The bytes of a chunk have come. Where they don't fit another version ends the attempt, else they are
/// the peer's fault. An `Err` changes nothing.
#[tactic(auto, using(crate::proofs::Slots::bytes_kept, crate::proofs::Slots::slot_there))]
fn told_bytes(
    alloc: Global,
    state: &mut ClientState,
    file: u64,
    fetch: Fetch,
    xid: u32,
    call: ReadCall,
    chunk: &Chunk,
    piece: Piece,
) -> Result<ClientStep, AllocError>
    requires held { IsHeld state.old }
    requires there { IsThere state.old.cache file }
    requires within { IsReading fetch }
    requires xids { HasXids state.old.next_xid (stage.Reading fetch) }
    requires chunk { slice_get fetch.chunks call.index ≡ Some chunk.now }
    ensures ok { IfOk result (λ a. Comes state.old.index
        (entering_by (state_of state.old)
        (with_file file (taken_if fetch call piece
        (fault_in chunk.now piece.bytes (length piece.bytes == chunk.now.len)))))
        (told_bytes (state_of state.old) state.old.waiting.calls file xid fetch call piece
        (fault_in chunk.now piece.bytes (length piece.bytes == chunk.now.len)))
        (state_of state.new) a) }
    ensures err { OnErr result (whole_of state.new ≡ whole_of state.old) }
    ensures sound { OnOk result (IsSound state.new) }
    ensures held { OnErr result (IsHeld state.new) }
{
    let Piece {
        attr,
        count: _,
        eof: _,
        bytes,
    } = piece;
    match faults::fault_in(chunk, bytes.as_slice()) {
        Some(fault) => {
            let count = bytes.len() as u64;
            match faults::other_version(fetch.version, &attr) {
                Some(version) => change(alloc, state, file, &fetch, xid, version, count),
                None => Ok(state.bad_peer(alloc, fault, count)),
            }
        }
        None => {
            let taken = bytes.len() as u64;
            let fetch = fetch::with_bytes(fetch, call, bytes);
            read_on(alloc, state, file, fetch, xid, taken)
        }
    }
}

/// The answer to a READ. An `Err` changes nothing.
pub fn told_piece(
    alloc: Global,
    state: &mut ClientState,
    file: u64,
    fetch: Fetch,
    xid: u32,
    piece: Piece,
) -> Result<ClientStep, AllocError>
    requires held { IsHeld state.old }
    requires there { IsThere state.old.cache file }
    requires within { IsReading fetch }
    requires xids { HasXids state.old.next_xid (stage.Reading fetch) }
    ensures ok { IfOk result (λ a. Comes state.old.index
        (entering_by (state_of state.old)
        (with_file file (taken_by fetch piece (read_at fetch.under xid))))
        (told_piece (state_of state.old) state.old.waiting.calls file xid fetch piece
        (read_at fetch.under xid)) (state_of state.new) a) }
    ensures err { OnErr result (whole_of state.new ≡ whole_of state.old) }
    ensures sound { OnOk result (IsSound state.new) }
    ensures held { OnErr result (IsHeld state.new) }
{
    match calls::read_at(fetch.under.as_slice(), xid) {
        Some(call) => match chunk_at(fetch.chunks.as_slice(), call.index) {
            Some(chunk) => told_bytes(alloc, state, file, fetch, xid, call, &chunk, piece),
            None => Ok(state.unknown(alloc, xid)),
        },
        None => Ok(state.unknown(alloc, xid)),
    }
}
