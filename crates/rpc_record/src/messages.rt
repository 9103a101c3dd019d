//! Whole headers of calls and replies (RFC 5531, section 9).
//!
//! A reader is left behind the header, where the arguments or the result begin; after a refusal it
//! is where it was. A writer holds the header behind what it held, or only what it held.
//! `specs/Messages.antt` states their spellings.

ghost use Rattle.std.specs.Prelude.{◌≡◌, ◌++◌, ◌≤◌, length, OnOk, OnErr};
ghost use Rattle.limits.specs.declared.TheConstants.{AUTH_MOST};
ghost use Rattle.rpc_record.specs.Header.{short_reply};
ghost use Rattle.rpc_record.specs.Messages.{HeaderGives, call_read, call_spell, CallFits, reply_read, reply_spell, ReplyFits};

use crate::header::{CallHead, ReplyHead};
use crate::refusal::HeaderError;
use std::alloc::{AllocError, Global};
use xdr_codec::fault::Fault;
use xdr_codec::item::Item;
use xdr_codec::reader::Reader;
use xdr_codec::writer::Writer;

/// The number of a call (msg_type).
const CALL: u32 = 0;

/// The number of a reply (msg_type).
const REPLY: u32 = 1;

/// The header of a call (RFC 5531, section 9: rpc_msg with a call_body).
pub struct Call {
    /// The number by which its reply is known.
    pub xid: u32,
    /// The version of RPC; a call of another version than 2 is answered by `RpcMismatch`.
    pub rpcvers: u32,
    /// The rest of it.
    pub head: CallHead,
}

/// The header of a reply (RFC 5531, section 9: rpc_msg with a reply_body).
pub struct Reply {
    /// The number of the call that it answers.
    pub xid: u32,
    /// What became of that call.
    pub head: ReplyHead,
}

// By hand, as those of their heads.
impl Drop for Call {
    fn drop(self) {
        let Call {
            xid: _,
            rpcvers: _,
            head,
        } = self;
        drop(head)
    }
}

impl Drop for Reply {
    fn drop(self) {
        let Reply { xid: _, head } = self;
        drop(head)
    }
}

/// The header of a call; a refusal leaves the reader inside it.
fn read_call(alloc: Global, reader: &mut Reader) -> Result<Call, HeaderError>
    ensures { HeaderGives result reader.new (call_read reader.old) }
{
    let xid = reader.u32()?;
    let at = reader.at();
    let value = reader.u32()?;
    if REPLY < value {
        return Err(HeaderError::BadType { value });
    }
    if value != CALL {
        return Err(HeaderError::Xdr(Fault::BadValue { at, value }));
    }
    let rpcvers = reader.u32()?;
    let head = CallHead::read(alloc, reader)?;
    Ok(Call { xid, rpcvers, head })
}

/// The header of a reply; a refusal leaves the reader inside it.
fn read_reply(alloc: Global, reader: &mut Reader) -> Result<Reply, HeaderError>
    ensures { HeaderGives result reader.new (reply_read reader.old) }
{
    let xid = reader.u32()?;
    let at = reader.at();
    let value = reader.u32()?;
    if REPLY < value {
        return Err(HeaderError::BadType { value });
    }
    if value != REPLY {
        return Err(HeaderError::Xdr(Fault::BadValue { at, value }));
    }
    let head = ReplyHead::read(alloc, reader)?;
    Ok(Reply { xid, head })
}

/// The header of a call; running out of memory leaves a part of it.
fn write_call(call: &Call, writer: &mut Writer) -> Result<(), AllocError>
    ensures spelled { OnOk result (writer.new ≡ writer.old ++ call_spell call.now) }
    ensures fits { OnOk result (length call.now.head.cred.body ≤ AUTH_MOST → length call.now.head.verf.body ≤ AUTH_MOST → CallFits call.now) }
{
    (call.xid, (CALL, call.rpcvers)).write(writer)?;
    call.head.write(writer)
}

/// The header of a reply; running out of memory leaves a part of it.
fn write_reply(reply: &Reply, writer: &mut Writer) -> Result<(), AllocError>
    ensures spelled { OnOk result (writer.new ≡ writer.old ++ reply_spell reply.now) }
    ensures fits { OnOk result (short_reply reply.now.head → ReplyFits reply.now) }
{
    (reply.xid, REPLY).write(writer)?;
    reply.head.write(writer)
}

impl Call {
    /// Reads the header of a call: `BadType` where the message's type is neither a call's nor a
    /// reply's, `Xdr` with the first fault where an item could not be read (a reply's type is
    /// `BadValue` at its place), and `Memory`. After an `Err`, running out of memory too, the
    /// reader is where it was.
    pub fn read(alloc: Global, reader: &mut Reader) -> Result<Call, HeaderError>
        ensures gives { HeaderGives result reader.new (call_read reader.old) }
        ensures stays { OnErr result (reader.new ≡ reader.old) }
    {
        let start = reader.here();
        let read = read_call(alloc, reader);
        if read.is_err() {
            *reader = start;
        }
        read
    }

    /// Writes the header; only memory can run out, and then the writer holds what it held. The
    /// bodies of both authentication items are to have at most `AUTH_MOST` bytes, else no end reads it.
    pub fn write(&self, writer: &mut Writer) -> Result<(), AllocError>
        ensures spelled { OnOk result (writer.new ≡ writer.old ++ call_spell self.now) }
        ensures fits { OnOk result (length self.now.head.cred.body ≤ AUTH_MOST → length self.now.head.verf.body ≤ AUTH_MOST → CallFits self.now) }
        ensures stays { OnErr result (writer.new ≡ writer.old) }
    {
        let mut header = writer.part();
        write_call(self, &mut header)?;
        writer.append(header)
    }
}

impl Reply {
    /// Reads the header of a reply: `BadType` where the message's type is neither a call's nor a
    /// reply's, `Xdr` with the first fault where an item could not be read (a call's type is
    /// `BadValue` at its place), and `Memory`. After an `Err`, running out of memory too, the
    /// reader is where it was.
    pub fn read(alloc: Global, reader: &mut Reader) -> Result<Reply, HeaderError>
        ensures gives { HeaderGives result reader.new (reply_read reader.old) }
        ensures stays { OnErr result (reader.new ≡ reader.old) }
    {
        let start = reader.here();
        let read = read_reply(alloc, reader);
        if read.is_err() {
            *reader = start;
        }
        read
    }

    /// Writes the header; only memory can run out, and then the writer holds what it held. The
    /// body of a verifier is to have at most `AUTH_MOST` bytes, else no end reads it.
    pub fn write(&self, writer: &mut Writer) -> Result<(), AllocError>
        ensures spelled { OnOk result (writer.new ≡ writer.old ++ reply_spell self.now) }
        ensures fits { OnOk result (short_reply self.now.head → ReplyFits self.now) }
        ensures stays { OnErr result (writer.new ≡ writer.old) }
    {
        let mut header = writer.part();
        write_reply(self, &mut header)?;
        writer.append(header)
    }
}
