//! The commands on an open file that need no message. `specs/Step.antt` says what each is told.

ghost use Rattle.std.specs.Prelude.{◌≡◌, ◌<◌, ◌≤◌, length, IfOk, OnErr, false};
ghost use Rattle.client_state.specs.View.{state_of, IsSound};
ghost use Rattle.limits.specs.declared.TheConstants.{FILE_MOST};
ghost use Rattle.client_state.specs.State.{local_at};
ghost use Rattle.client_state.specs.Ending.{on_local, MayMissOn};
ghost use Rattle.open_close.specs.Putting.{puts, PutTakes};
ghost use Rattle.open_close.specs.Step.{writes, truncates, reads, abandons, done_with, WriteTakes};
ghost use Rattle.command_text.specs.Content.{content_length, content_bytes};
ghost use Rattle.client_state.specs.Local.{local_most, written, written_size};

use client_state::local::{self, LOCAL_MOST};
use client_state::parts;
use client_state::state::ClientState;
use client_state::step::{ClientStep, Outcome};
use client_state::task::Local;
use command_text::content::{self, Content, Part};
use cut_bytes::CutBytes;
use lb_base::items::Bytes;
use sha1::Sha1;
use shared_bytes::SharedBytes;
use std::alloc::{AllocError, Global};
use std::mem;

/// The bytes of a content. Those of one that is one part of bytes, as that of a put is, aren't copied.
fn bytes_of(alloc: Global, content: Content) -> Result<Bytes, AllocError>
    ensures { IfOk result (λ b. b ≡ content_bytes content) }
{
    let mut content = content;
    if content.len() != 1 {
        return content::build(alloc, &content);
    }
    let mut part = content.remove(0);
    if let Part::Bytes(bytes) = &mut part {
        return Ok(mem::replace(bytes, Bytes::new(alloc)));
    }
    content.push(part)?;
    content::build(alloc, &content)
}

/// An open file's content with some bytes written at a place, within the limit of a file. Bytes that replace
/// all of it aren't copied either.
#[tactic(auto, using(crate::proofs::Writes::by_written))]
fn written(
    alloc: Global,
    local: &Local,
    offset: u64,
    content: Content,
) -> Result<SharedBytes, AllocError>
    requires some { 0 < content_length content }
    requires small { written_size (length local.now.bytes) offset (content_length content) ≤ FILE_MOST }
    ensures written { IfOk result (λ b. b ≡ written local.now.bytes offset (content_bytes content)) }
    ensures small { IfOk result (λ b. length b ≤ FILE_MOST) }
{
    let more = bytes_of(alloc, content)?;
    if offset == 0 && local.bytes.len() <= more.len() {
        return Ok(SharedBytes::new(alloc, more)?);
    }
    local::written(alloc, local.bytes.as_slice(), offset, more.as_slice())
}

/// The content of a put, which is some bytes, in the place of an open file's first ones, within the limit of a
/// file. It stays as it is, with what was found of it ahead, where the file's isn't the longer.
#[tactic(auto, using(crate::proofs::Writes::written_whole))]
fn replaced(alloc: Global, local: &Local, content: CutBytes) -> Result<CutBytes, AllocError>
    requires some { 0 < length content }
    requires small { written_size (length local.now.bytes) 0 (length content) ≤ FILE_MOST }
    ensures written { IfOk result (λ b. b ≡ written local.now.bytes 0 content) }
    ensures small { IfOk result (λ b. length b ≤ FILE_MOST) }
{
    if local.bytes.len() <= content.len() {
        return Ok(content);
    }
    let whole = local::written(alloc, local.bytes.as_slice(), 0, content.as_slice())?;
    Ok(CutBytes::whole(whole))
}

/// The file is open with this content, and the command is done. An `Err` changes nothing.
fn done_with(
    alloc: Global,
    state: &mut ClientState,
    file: u64,
    version: u64,
    bytes: CutBytes,
) -> Result<ClientStep, AllocError>
    requires sound { IsSound state.old }
    requires small { length bytes ≤ FILE_MOST }
    ensures ok { IfOk result (λ a. done_with (state_of state.old) file (record { version = version; bytes = bytes }) bytes ≡ (state_of state.new, a)) }
    ensures done { IfOk result (λ a. a.missed ≡ false) }
    ensures err { OnErr result (state_of state.new ≡ state_of state.old) }
    ensures sound { IsSound state.new }
{
    state.put_cut(file, version, bytes)?;
    Ok(parts::ends(alloc, Outcome::Done, 0, 0))
}

/// A command to write a content into an open file. An `Err` changes nothing, and comes only where
/// there is a content to make.
pub fn write(
    alloc: Global,
    state: &mut ClientState,
    file: u64,
    offset: u64,
    content: Content,
) -> Result<ClientStep, AllocError>
    requires { IsSound state.old }
    ensures ok { IfOk result (λ a. on_local (state_of state.old) state.old.task (local_at state.old.opened.entries file) (writes (state_of state.old) file offset content) ≡ (state_of state.new, a)) }
    ensures done { IfOk result (λ a. a.missed ≡ false) }
    ensures err { OnErr result (state_of state.new ≡ state_of state.old) }
    ensures sure { OnErr result (MayMissOn state.old.task (local_at state.old.opened.entries file) (WriteTakes offset content)) }
    ensures sound { IsSound state.new }
{
    if state.is_busy() {
        return Ok(parts::ends(alloc, Outcome::Busy, 0, 0));
    }
    let Some(local) = state.local(file) else {
        return Ok(parts::ends(alloc, Outcome::NotOpen, 0, 0));
    };
    let count = content::length(&content).ok_or(AllocError)?;
    if count == 0 {
        return Ok(parts::ends(alloc, Outcome::Done, 0, 0));
    }
    let size = local::written_size(local.bytes.len() as u64, offset, count)?;
    if size > LOCAL_MOST {
        return Ok(parts::ends(alloc, Outcome::TooBig(size), 0, 0));
    }
    let bytes = written(alloc, local, offset, content)?;
    let version = local.version;
    done_with(alloc, state, file, version, CutBytes::whole(bytes))
}

/// A command to write bytes into an open file, from its first on. An `Err` changes nothing, and comes only
/// where there is a content to make.
pub fn put(
    alloc: Global,
    state: &mut ClientState,
    file: u64,
    content: CutBytes,
) -> Result<ClientStep, AllocError>
    requires { IsSound state.old }
    ensures ok { IfOk result (λ a. on_local (state_of state.old) state.old.task (local_at state.old.opened.entries file) (puts (state_of state.old) file content) ≡ (state_of state.new, a)) }
    ensures done { IfOk result (λ a. a.missed ≡ false) }
    ensures err { OnErr result (state_of state.new ≡ state_of state.old) }
    ensures sure { OnErr result (MayMissOn state.old.task (local_at state.old.opened.entries file) (PutTakes content)) }
    ensures sound { IsSound state.new }
{
    if state.is_busy() {
        return Ok(parts::ends(alloc, Outcome::Busy, 0, 0));
    }
    let Some(local) = state.local(file) else {
        return Ok(parts::ends(alloc, Outcome::NotOpen, 0, 0));
    };
    let count = u128::from(content.len() as u64);
    if count == 0 {
        return Ok(parts::ends(alloc, Outcome::Done, 0, 0));
    }
    let size = local::written_size(local.bytes.len() as u64, 0, count)?;
    if size > LOCAL_MOST {
        return Ok(parts::ends(alloc, Outcome::TooBig(size), 0, 0));
    }
    let bytes = replaced(alloc, local, content)?;
    let version = local.version;
    done_with(alloc, state, file, version, bytes)
}

/// A command to give an open file a size. An `Err` changes nothing, and comes only where there is a
/// content to make.
pub fn trunc(
    alloc: Global,
    state: &mut ClientState,
    file: u64,
    size: u64,
) -> Result<ClientStep, AllocError>
    requires { IsSound state.old }
    ensures ok { IfOk result (λ a. on_local (state_of state.old) state.old.task (local_at state.old.opened.entries file) (truncates (state_of state.old) file size) ≡ (state_of state.new, a)) }
    ensures done { IfOk result (λ a. a.missed ≡ false) }
    ensures err { OnErr result (state_of state.new ≡ state_of state.old) }
    ensures sure { OnErr result (MayMissOn state.old.task (local_at state.old.opened.entries file) (λ l. size ≤ local_most)) }
    ensures sound { IsSound state.new }
{
    if state.is_busy() {
        return Ok(parts::ends(alloc, Outcome::Busy, 0, 0));
    }
    let Some(local) = state.local(file) else {
        return Ok(parts::ends(alloc, Outcome::NotOpen, 0, 0));
    };
    if u128::from(size) > LOCAL_MOST {
        return Ok(parts::ends(alloc, Outcome::TooBig(u128::from(size)), 0, 0));
    }
    let bytes = local::truncated(alloc, local.bytes.as_slice(), size)?;
    let version = local.version;
    done_with(alloc, state, file, version, CutBytes::whole(bytes))
}

/// A command to read a part of an open file. It takes no memory.
pub fn read_part(
    alloc: Global,
    state: &mut ClientState,
    file: u64,
    offset: u64,
    count: u64,
) -> ClientStep
    requires { IsSound state.old }
    ensures ok { on_local (state_of state.old) state.old.task (local_at state.old.opened.entries file) (reads (state_of state.old) offset count) ≡ (state_of state.new, result) }
    ensures done { result.missed ≡ false }
    ensures sound { IsSound state.new }
{
    if state.is_busy() {
        return parts::ends(alloc, Outcome::Busy, 0, 0);
    }
    let Some(local) = state.local(file) else {
        return parts::ends(alloc, Outcome::NotOpen, 0, 0);
    };
    let piece = local::part_of(local.bytes.as_slice(), offset, count);
    let outcome = Outcome::Piece {
        len: piece.len() as u64,
        sha1: Sha1::digest(piece),
    };
    parts::ends(alloc, outcome, 0, 0)
}

/// A command to forget what was written to an open file, and close it. It takes no memory.
pub fn abandon(alloc: Global, state: &mut ClientState, file: u64) -> ClientStep
    requires { IsSound state.old }
    ensures ok { on_local (state_of state.old) state.old.task (local_at state.old.opened.entries file) (abandons (state_of state.old) file) ≡ (state_of state.new, result) }
    ensures done { result.missed ≡ false }
    ensures sound { IsSound state.new }
{
    if state.is_busy() {
        return parts::ends(alloc, Outcome::Busy, 0, 0);
    }
    if !state.is_open(file) {
        return parts::ends(alloc, Outcome::NotOpen, 0, 0);
    }
    let content = state.take_local(file);
    drop(content);
    parts::ends(alloc, Outcome::Done, 0, 0)
}
