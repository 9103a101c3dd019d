//! The calls of a close, each in a version of LBFS, as `specs/Closing.antt` writes them.

ghost use Rattle.std.specs.Prelude.{◌≡◌, ◌<◌, IfOk};
ghost use Rattle.file_close.specs.Closing.{commit_call, cond_call, temp_call};
ghost use Rattle.wire.specs.declared.message.Message.TheVariants as message;
ghost use Rattle.hash_calls.specs.declared.message.Lb.TheVariants as lb;
ghost use Rattle.wire.specs.declared.message.Body.TheVariants as body;

use chunk_cut::chunk::Chunk;
use client_state::local;
use hash_calls::call::{Commit, CondPiece, NewTemp, TempPiece};
use hash_calls::message::Lb;
use lb_base::items::Bytes;
use std::alloc::{AllocError, Global};
use wire::message::{Body, Message};
use xdr_codec::handle::Handle;

/// The call for a temporary file of this number. It takes no memory.
pub fn make_call(lbfs: u32, xid: u32, temp: u32, handle: Handle) -> Message
    ensures { result ≡ message.Call xid (body.Lb (lb.MkTmpFile (record { lbfs = lbfs; fd = temp; handle = handle }))) }
{
    let temp = NewTemp {
        lbfs,
        fd: temp,
        handle,
    };
    Message::Call(xid, Body::Lb(Lb::MkTmpFile(temp)))
}

/// The call that names a chunk. It takes no memory.
pub fn cond_call(lbfs: u32, xid: u32, temp: u32, chunk: &Chunk) -> Message
    requires { chunk.now.len < 4294967296 }
    ensures { result ≡ cond_call lbfs xid temp chunk.now }
{
    let piece = CondPiece {
        lbfs,
        fd: temp,
        offset: chunk.start,
        count: chunk.len as u32,
        digest: chunk.digest,
    };
    Message::Call(xid, Body::Lb(Lb::CondWrite(piece)))
}

/// The call with the bytes of a chunk of a content.
pub fn temp_call(
    alloc: Global,
    lbfs: u32,
    xid: u32,
    temp: u32,
    content: &[u8],
    chunk: &Chunk,
) -> Result<Message, AllocError>
    ensures { IfOk result (λ m. m ≡ temp_call lbfs xid temp content.now chunk.now) }
{
    let bytes = local::part_of(content, chunk.start, chunk.len);
    let piece = TempPiece {
        lbfs,
        fd: temp,
        offset: chunk.start,
        bytes: Bytes::copy_of(alloc, bytes)?,
    };
    Ok(Message::Call(xid, Body::Lb(Lb::TmpWrite(piece))))
}

/// The call that commits a temporary file of this size.
pub fn commit_call(
    alloc: Global,
    lbfs: u32,
    xid: u32,
    temp: u32,
    file: u64,
    size: u64,
) -> Result<Message, AllocError>
    ensures { IfOk result (λ m. m ≡ commit_call lbfs xid temp file size) }
{
    let handle = Handle::of_file(alloc, file)?;
    let commit = Commit {
        lbfs,
        fd: temp,
        handle,
        size,
        base: None,
    };
    Ok(Message::Call(xid, Body::Lb(Lb::CommitTmp(commit))))
}
