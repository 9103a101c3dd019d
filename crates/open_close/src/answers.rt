//! The answer to a call of the operation under way, by how far that has come: `takes` of
//! `specs/Step.antt`.

ghost use Rattle.std.specs.Prelude.{◌≡◌, ◌≤◌, IfOk, OnOk, OnErr, false};
ghost use Rattle.transfer_rules.specs.Limits.{tries_most};
ghost use Rattle.file_open.specs.Looking.{with_file, reading_by, entering_by};
ghost use Rattle.file_open.specs.Fetching.{Comes};
ghost use Rattle.open_close.specs.Step.{takes};
ghost use Rattle.client_state.specs.View.{state_of, whole_of, IsListing, IsReading, IsHeld, IsSound, IsThere, HasXids, IsStore};
ghost use Rattle.client_state.specs.declared.task.Stage.TheVariants as stage;

use client_state::state::ClientState;
use client_state::step::ClientStep;
use client_state::task::{Fetch, Upload};
use file_close::{calls, closing, stores};
use file_open::{fetch, kept, opening, rewriting};
use hash_calls::message::Lb;
use nfs3_calls::message::Nfs;
use std::alloc::{AllocError, Global};
use wire::message::Body;
use xdr_codec::answer::Answer;

/// An answer while the file's version is asked for. An `Err` changes nothing.
pub fn took_lease(
    alloc: Global,
    state: &mut ClientState,
    file: u64,
    xid: u32,
    body: &Body,
) -> Result<ClientStep, AllocError>
    requires held { IsHeld state.old }
    requires there { IsThere state.old.cache file }
    requires xids { HasXids state.old.next_xid (stage.Asking 0) }
    ensures ok { IfOk result (λ a. takes (state_of state.old) state.old.waiting.calls file (stage.Asking 0) xid body.now ≡ (state_of state.new, a)) }
    ensures done { IfOk result (λ a. a.missed ≡ false) }
    ensures err { OnErr result (whole_of state.new ≡ whole_of state.old) }
    ensures sound { OnOk result (IsSound state.new) }
    ensures held { OnErr result (IsHeld state.new) }
{
    match body {
        Body::Lb(Lb::GetLeaseAnswer(answer)) => match answer {
            Answer::Failed(status, _) => Ok(state.refused(alloc, xid, *status)),
            Answer::Done(leased) => kept::told_leased(alloc, state, file, xid, leased.version),
        },
        _ => Ok(state.unknown(alloc, xid)),
    }
}

/// An answer while the version of a file is asked for that is written anew. An `Err` changes nothing.
pub fn took_version(
    alloc: Global,
    state: &mut ClientState,
    file: u64,
    xid: u32,
    body: &Body,
) -> Result<ClientStep, AllocError>
    requires held { IsHeld state.old }
    ensures ok { IfOk result (λ a. takes (state_of state.old) state.old.waiting.calls file (stage.Rewriting 0) xid body.now ≡ (state_of state.new, a)) }
    ensures done { IfOk result (λ a. a.missed ≡ false) }
    ensures err { OnErr result (whole_of state.new ≡ whole_of state.old) }
    ensures sound { OnOk result (IsSound state.new) }
    ensures held { OnErr result (IsHeld state.new) }
{
    match body {
        Body::Lb(Lb::GetLeaseAnswer(answer)) => match answer {
            Answer::Failed(status, _) => Ok(state.refused(alloc, xid, *status)),
            Answer::Done(leased) => {
                rewriting::open_empty(alloc, state, file, xid, leased.version, xid)
            }
        },
        _ => Ok(state.unknown(alloc, xid)),
    }
}

/// An answer while the first piece of an attempt is asked for. An `Err` changes nothing.
#[tactic(auto, using(file_open::proofs::lemmas::Pieces::first_listing))]
pub fn took_first(
    alloc: Global,
    state: &mut ClientState,
    file: u64,
    tries: u32,
    xid: u32,
    body: &Body,
) -> Result<ClientStep, AllocError>
    requires held { IsHeld state.old }
    requires there { IsThere state.old.cache file }
    requires tries { tries ≤ tries_most }
    requires xids { HasXids state.old.next_xid (stage.Hashing tries 0) }
    ensures ok { IfOk result (λ a. Comes state.old.index
        (entering_by (state_of state.old)
        (with_file file (reading_by (stage.Hashing tries 0) xid body.now)))
        (takes (state_of state.old) state.old.waiting.calls file
        (stage.Hashing tries 0) xid body.now) (state_of state.new) a) }
    ensures err { OnErr result (whole_of state.new ≡ whole_of state.old) }
    ensures sound { OnOk result (IsSound state.new) }
    ensures held { OnErr result (IsHeld state.new) }
{
    match body {
        Body::Lb(Lb::GetHashAnswer(answer)) => match answer {
            Answer::Failed(status, _) => Ok(state.refused(alloc, xid, *status)),
            Answer::Done(hashes) => {
                let fetch = fetch::fetch_of(alloc, tries, xid, hashes);
                opening::told_hashes(alloc, state, file, fetch, hashes, xid)
            }
        },
        _ => Ok(state.unknown(alloc, xid)),
    }
}

/// An answer while a further piece is asked for. An `Err` changes nothing.
pub fn took_piece(
    alloc: Global,
    state: &mut ClientState,
    file: u64,
    fetch: Fetch,
    xid: u32,
    body: &Body,
) -> Result<ClientStep, AllocError>
    requires held { IsHeld state.old }
    requires there { IsThere state.old.cache file }
    requires within { IsListing fetch }
    requires xids { HasXids state.old.next_xid (stage.Listing 0 fetch) }
    ensures ok { IfOk result (λ a. Comes state.old.index
        (entering_by (state_of state.old)
        (with_file file (reading_by (stage.Listing 0 fetch) xid body.now)))
        (takes (state_of state.old) state.old.waiting.calls file
        (stage.Listing 0 fetch) xid body.now) (state_of state.new) a) }
    ensures err { OnErr result (whole_of state.new ≡ whole_of state.old) }
    ensures sound { OnOk result (IsSound state.new) }
    ensures held { OnErr result (IsHeld state.new) }
{
    match body {
        Body::Lb(Lb::GetHashAnswer(answer)) => match answer {
            Answer::Failed(status, _) => Ok(state.refused(alloc, xid, *status)),
            Answer::Done(hashes) => opening::told_hashes(alloc, state, file, fetch, hashes, xid),
        },
        _ => Ok(state.unknown(alloc, xid)),
    }
}

/// An answer while chunks are being read. An `Err` changes nothing.
pub fn took_bytes(
    alloc: Global,
    state: &mut ClientState,
    file: u64,
    fetch: Fetch,
    xid: u32,
    body: &mut Body,
) -> Result<ClientStep, AllocError>
    requires held { IsHeld state.old }
    requires there { IsThere state.old.cache file }
    requires within { IsReading fetch }
    requires xids { HasXids state.old.next_xid (stage.Reading fetch) }
    ensures ok { IfOk result (λ a. Comes state.old.index
        (entering_by (state_of state.old)
        (with_file file (reading_by (stage.Reading fetch) xid body.old)))
        (takes (state_of state.old) state.old.waiting.calls file
        (stage.Reading fetch) xid body.old) (state_of state.new) a) }
    ensures err { OnErr result (whole_of state.new ≡ whole_of state.old) }
    ensures sound { OnOk result (IsSound state.new) }
    ensures held { OnErr result (IsHeld state.new) }
{
    match body {
        Body::Nfs(Nfs::ReadAnswer(answer)) => match answer {
            Answer::Failed(status, _) => Ok(state.refused(alloc, xid, *status)),
            Answer::Done(piece) => {
                let piece = fetch::take_piece(alloc, piece);
                opening::told_piece(alloc, state, file, fetch, xid, piece)
            }
        },
        _ => Ok(state.unknown(alloc, xid)),
    }
}

/// An answer while a temporary file is asked for. An `Err` changes nothing.
pub fn took_temp(
    alloc: Global,
    state: &mut ClientState,
    file: u64,
    temp: u32,
    xid: u32,
    body: &Body,
) -> Result<ClientStep, AllocError>
    requires held { IsHeld state.old }
    requires xids { HasXids state.old.next_xid (stage.Making 0 temp) }
    ensures ok { IfOk result (λ a. takes (state_of state.old) state.old.waiting.calls file (stage.Making 0 temp) xid body.now ≡ (state_of state.new, a)) }
    ensures done { IfOk result (λ a. a.missed ≡ false) }
    ensures err { OnErr result (whole_of state.new ≡ whole_of state.old) }
    ensures sound { OnOk result (IsSound state.new) }
    ensures held { OnErr result (IsHeld state.new) }
{
    match body {
        Body::Lb(Lb::MkTmpFileAnswer(answer)) => match answer {
            Answer::Failed(status, _) => Ok(state.refused(alloc, xid, *status)),
            Answer::Done(_) => closing::store(alloc, state, file, temp),
        },
        _ => Ok(state.unknown(alloc, xid)),
    }
}

/// An answer while chunks are stored. An `Err` changes nothing.
#[tactic(auto, using(file_close::proofs::lemmas::Sending::calls_after_answer))]
pub fn took_stored(
    alloc: Global,
    state: &mut ClientState,
    file: u64,
    store: Upload,
    xid: u32,
    body: &Body,
) -> Result<ClientStep, AllocError>
    requires held { IsHeld state.old }
    requires within { IsStore store }
    requires xids { HasXids state.old.next_xid (stage.Storing store) }
    ensures ok { IfOk result (λ a. takes (state_of state.old) state.old.waiting.calls file (stage.Storing store) xid body.now ≡ (state_of state.new, a)) }
    ensures done { IfOk result (λ a. a.missed ≡ false) }
    ensures err { OnErr result (whole_of state.new ≡ whole_of state.old) }
    ensures sound { OnOk result (IsSound state.new) }
    ensures held { OnErr result (IsHeld state.new) }
{
    match calls::store_at(store.under.as_slice(), xid) {
        Some(call) => {
            let store = stores::answered(store, xid);
            closing::told_chunk(alloc, state, file, store, call, xid, body)
        }
        None => Ok(state.unknown(alloc, xid)),
    }
}

/// An answer while COMMITTMP is under way. It takes no memory.
pub fn took_commit(
    alloc: Global,
    state: &mut ClientState,
    file: u64,
    xid: u32,
    body: &Body,
) -> ClientStep
    requires held { IsHeld state.old }
    requires there { IsThere state.old.cache file }
    ensures ok { takes (state_of state.old) state.old.waiting.calls file (stage.Committing 0) xid body.now ≡ (state_of state.new, result) }
    ensures done { result.missed ≡ false }
    ensures sound { IsSound state.new }
{
    match body {
        Body::Lb(Lb::CommitTmpAnswer(answer)) => match answer {
            Answer::Failed(status, _) => state.refused(alloc, xid, *status),
            Answer::Done(committed) => closing::closed(alloc, state, file, xid, committed.version),
        },
        _ => state.unknown(alloc, xid),
    }
}
