//! The calls of an open, as `specs/Opening.antt` writes them.

ghost use Rattle.std.specs.Prelude.{◌≡◌, ◌<◌, IfOk};
ghost use Rattle.file_open.specs.Opening.{read_call};
ghost use Rattle.wire.specs.declared.message.Message.TheVariants as message;
ghost use Rattle.hash_calls.specs.declared.message.Lb.TheVariants as lb;
ghost use Rattle.wire.specs.declared.message.Body.TheVariants as body;

use chunk_cut::chunk::Chunk;
use hash_calls::call::{HashRange, LeaseOn};
use hash_calls::message::Lb;
use nfs3_calls::call::Range;
use nfs3_calls::message::Nfs;
use std::alloc::{AllocError, Global};
use wire::message::{Body, Message};
use xdr_codec::handle::Handle;

/// The call, in a version of LBFS, for the version of a file, whose handle this is. It takes no memory.
pub fn lease_call(lbfs: u32, xid: u32, handle: Handle) -> Message
    ensures { result ≡ message.Call xid (body.Lb (lb.GetLease (record { lbfs = lbfs; handle = handle }))) }
{
    let lease = LeaseOn { lbfs, handle };
    Message::Call(xid, Body::Lb(Lb::GetLease(lease)))
}

/// The call, in a version of LBFS, for the chunks of a file from a place on. It takes no memory.
pub fn hash_call(lbfs: u32, xid: u32, handle: Handle, offset: u64) -> Message
    ensures { result ≡ message.Call xid (body.Lb (lb.GetHash (record { lbfs = lbfs; handle = handle; offset = offset; count = 4294967295 }))) }
{
    let range = HashRange {
        lbfs,
        handle,
        offset,
        count: u32::MAX,
    };
    Message::Call(xid, Body::Lb(Lb::GetHash(range)))
}

/// The call for the bytes of a chunk.
pub fn read_call(alloc: Global, xid: u32, file: u64, chunk: &Chunk) -> Result<Message, AllocError>
    requires { chunk.now.len < 4294967296 }
    ensures { IfOk result (λ m. m ≡ read_call xid file chunk.now) }
{
    let range = Range {
        handle: Handle::of_file(alloc, file)?,
        offset: chunk.start,
        count: chunk.len as u32,
    };
    Ok(Message::Call(xid, Body::Nfs(Nfs::Read(range))))
}
