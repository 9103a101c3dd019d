//! The opens of files whose content is kept: where the file has its version still the content is open
//! again. `specs/Caching.antt` and `specs/Fetching.antt` say how.

ghost use Rattle.std.specs.Prelude.{◌≡◌, ◌≤◌, length, None, Some, IfOk, OnOk, OnErr, false};
ghost use Rattle.client_cache.specs.Cache.{content_of, with_content};
ghost use Rattle.file_open.specs.Fetching.{opens_fresh, reopens, uses_kept};
ghost use Rattle.client_state.specs.Ending.{forgets};
ghost use Rattle.client_state.specs.View.{state_of, whole_of, IsHeld, IsSound, IsThere, HasXids};
ghost use Rattle.limits.specs.declared.TheConstants.{FILE_MOST};
ghost use Rattle.sha1.specs.Sha1.{sha1};
ghost use Rattle.file_open.specs.Caching.{content_in};
ghost use Rattle.client_state.specs.Counting.{ends};
ghost use Rattle.client_state.specs.State.{with_local};
ghost use Rattle.client_state.specs.declared.task.Stage.TheVariants as stage;
ghost use Rattle.client_state.specs.declared.step.Outcome.TheVariants as outcome;

use crate::{caching, opening};
use client_state::parts;
use client_state::state::ClientState;
use client_state::step::{ClientStep, Outcome};
use cut_bytes::CutBytes;
use std::alloc::{AllocError, Global};

/// A file is open with this content, which its open tells, resting on the call with this xid, after
/// so many bytes of a READ came. The content is hashed only where its digest isn't known. An `Err` changes
/// nothing.
fn put_open(
    alloc: Global,
    state: &mut ClientState,
    file: u64,
    version: u64,
    content: CutBytes,
    rests_on: u32,
    bytes: u64,
) -> Result<ClientStep, AllocError>
    requires held { IsHeld state.old }
    requires small { length content ≤ FILE_MOST }
    ensures ok { IfOk result (λ a. a ≡ ends (outcome.Opened file (length content) (sha1 content)) rests_on bytes) }
    ensures rest { OnOk result (state_of state.new ≡ record (state_of state.old) { opened = with_local state.old.opened.entries file (record { version = version; bytes = content }) }) }
    ensures err { OnErr result (state_of state.new ≡ state_of state.old) }
    ensures waiting { state.new.waiting ≡ state.old.waiting }
    ensures own { state.new.own ≡ state.old.own }
    ensures cache { state.new.cache ≡ state.old.cache }
    ensures index { state.new.index ≡ state.old.index }
    ensures held { IsHeld state.new }
{
    let len = content.len() as u64;
    let sha1 = content.digest();
    state.put_cut(file, version, content)?;
    let outcome = Outcome::Opened { file, len, sha1 };
    Ok(parts::ends(alloc, outcome, rests_on, bytes))
}

/// As `put_open`, and the content is kept, with its digest where that is known. An `Err` changes nothing.
pub fn keep_open(
    alloc: Global,
    state: &mut ClientState,
    file: u64,
    version: u64,
    content: CutBytes,
    rests_on: u32,
    bytes: u64,
) -> Result<ClientStep, AllocError>
    requires held { IsHeld state.old }
    requires there { IsThere state.old.cache file }
    requires small { length content ≤ FILE_MOST }
    ensures ok { IfOk result (λ a. a ≡ ends (outcome.Opened file (length content) (sha1 content)) rests_on bytes) }
    ensures rest { OnOk result (state_of state.new
        ≡ record (state_of state.old) {
          opened = with_local state.old.opened.entries file
              (record { version = version; bytes = content });
          cache = with_content state.old.cache file version content;
        }) }
    ensures err { OnErr result (state_of state.new ≡ state_of state.old) }
    ensures waiting { state.new.waiting ≡ state.old.waiting }
    ensures index { state.new.index ≡ state.old.index }
    ensures held { IsHeld state.new }
{
    let kept = content.share()?;
    let step = put_open(alloc, state, file, version, content, rests_on, bytes)?;
    state.keep(file, version, kept);
    Ok(step)
}

/// A content that is kept is open again by the answer with this xid, and this is what that rests on. An
/// `Err` changes nothing.
pub fn use_kept(
    alloc: Global,
    state: &mut ClientState,
    file: u64,
    xid: u32,
    version: u64,
    bytes: CutBytes,
    rests_on: u32,
) -> Result<ClientStep, AllocError>
    requires held { IsHeld state.old }
    requires small { length bytes ≤ FILE_MOST }
    ensures ok { IfOk result (λ a. reopens (forgets (state_of state.old) state.old.waiting.calls xid) file version bytes rests_on ≡ (state_of state.new, a)) }
    ensures done { IfOk result (λ a. a.missed ≡ false) }
    ensures err { OnErr result (whole_of state.new ≡ whole_of state.old) }
    ensures sound { OnOk result (IsSound state.new) }
    ensures held { OnErr result (IsHeld state.new) }
{
    let step = put_open(alloc, state, file, version, bytes, rests_on, 0)?;
    state.forget(alloc, xid);
    Ok(step)
}

/// A content that is fresh is opened by a command. An `Err` changes nothing.
#[tactic(auto, using(crate::proofs::Keeping::by_open_fresh))]
pub fn open_fresh(
    alloc: Global,
    state: &mut ClientState,
    file: u64,
    version: u64,
    bytes: CutBytes,
) -> Result<ClientStep, AllocError>
    requires sound { IsSound state.old }
    requires idle { state.old.task ≡ None }
    requires small { length bytes ≤ FILE_MOST }
    ensures ok { IfOk result (λ a. opens_fresh (state_of state.old) file (record { version = version; bytes = bytes }) ≡ (state_of state.new, a)) }
    ensures done { IfOk result (λ a. a.missed ≡ false) }
    ensures err { OnErr result (state_of state.new ≡ state_of state.old) }
    ensures sound { IsSound state.new }
{
    let step = put_open(alloc, state, file, version, bytes, 0, 0)?;
    Ok(step)
}

/// The server told the file's version: a content that is kept in it is used again, and else the
/// file is fetched. An `Err` changes nothing.
#[tactic(auto, using(crate::proofs::Keeping::content_small))]
pub fn told_leased(
    alloc: Global,
    state: &mut ClientState,
    file: u64,
    xid: u32,
    version: u64,
) -> Result<ClientStep, AllocError>
    requires held { IsHeld state.old }
    requires there { IsThere state.old.cache file }
    requires xids { HasXids state.old.next_xid (stage.Asking 0) }
    ensures ok { IfOk result (λ a. uses_kept (state_of state.old) state.old.waiting.calls file xid version (content_in version (content_of state.old.cache file)) ≡ (state_of state.new, a)) }
    ensures done { IfOk result (λ a. a.missed ≡ false) }
    ensures err { OnErr result (whole_of state.new ≡ whole_of state.old) }
    ensures sound { OnOk result (IsSound state.new) }
    ensures held { OnErr result (IsHeld state.new) }
{
    match caching::content_in(&*state, file, version)? {
        Some(bytes) => use_kept(alloc, state, file, xid, version, bytes, xid),
        None => opening::retry(alloc, state, file, 0, xid, 0),
    }
}
