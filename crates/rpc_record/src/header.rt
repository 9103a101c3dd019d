//! The headers of RPC messages (RFC 5531, sections 8 and 9), part by part. Each number has four
//! bytes, the highest first. `specs/Header.antt` states their forms.

ghost use Rattle.std.specs.Prelude.{◌≡◌, ◌++◌, ◌≤◌, length, OnOk};
ghost use Rattle.limits.specs.declared.TheConstants.{AUTH_MOST};
ghost use Rattle.rpc_record.specs.Header.{auth_form, accept_form};

use lb_base::items::Bytes;
use limits::AUTH_MOST;
use std::alloc::{AllocError, Global};
use xdr_codec::fault::{Fault, ReadError};
use xdr_codec::item::Item;
use xdr_codec::read_as;
use xdr_codec::reader::Reader;
use xdr_codec::writer::Writer;

/// Whether a message is a call or a reply (RFC 5531, section 9: msg_type). Other numbers are refused
/// as `BadValue`.
#[derive(Clone, Copy, Drop)]
pub enum Direction {
    /// The number 0.
    Call,
    /// The number 1.
    Reply,
}

/// What every message begins with (RFC 5531, section 9: rpc_msg).
#[derive(Clone, Copy, Drop)]
pub struct Front {
    /// The number by which a reply is known as that of its call.
    pub xid: u32,
    /// Which of the two it is.
    pub direction: Direction,
}

/// Who is asking, or proof of it (RFC 5531, section 8.2: opaque_auth). More than `AUTH_MOST` bytes are
/// refused as `TooLong`.
pub struct Auth {
    /// Which form the body has (auth_flavor); any number is read.
    pub flavor: u32,
    /// At most `AUTH_MOST` bytes, whose form the flavor says. They aren't looked at.
    pub body: Bytes,
}

/// What a call's header says behind the version of RPC (RFC 5531, section 9: call_body).
pub struct CallHead {
    /// The program's number (prog).
    pub program: u32,
    /// The program's version (vers).
    pub version: u32,
    /// The procedure of that version (proc).
    pub procedure: u32,
    /// Who is asking.
    pub cred: Auth,
    /// What shows that it is so.
    pub verf: Auth,
}

/// The versions that are supported (RFC 5531, section 9: mismatch_info).
#[derive(Clone, Copy, Drop)]
pub struct Versions {
    /// The lowest.
    pub low: u32,
    /// The highest.
    pub high: u32,
}

/// What became of a call that was accepted (RFC 5531, section 9: accept_stat, and what follows it).
/// Other numbers than 0 to 5 are refused as `BadValue`.
#[derive(Clone, Copy, Drop)]
pub enum Accept {
    /// 0: the result follows the header.
    Success,
    /// 1: the program is not served here.
    ProgUnavail,
    /// 2: the program is served, in these other versions.
    ProgMismatch(Versions),
    /// 3: the program has no such procedure.
    ProcUnavail,
    /// 4: the arguments could not be read.
    GarbageArgs,
    /// 5: the server could not do it, as for running out of memory.
    SystemErr,
}

/// Why a call was denied (RFC 5531, section 9: reject_stat, and what follows it). Other numbers than
/// 0 and 1 are refused as `BadValue`.
#[derive(Clone, Copy, Drop)]
pub enum Denial {
    /// 0: RPC is spoken in these other versions.
    RpcMismatch(Versions),
    /// 1: the caller is not let in, for the reason of this number (auth_stat); any number is read.
    AuthError(u32),
}

/// The header of a reply behind its type (RFC 5531, section 9: reply_body, by its reply_stat). Other
/// numbers than 0 and 1 are refused as `BadValue`.
pub enum ReplyHead {
    /// 0: the server's verifier, and what became of the call (accepted_reply).
    Accepted(Auth, Accept),
    /// 1: why the call was not taken (rejected_reply).
    Denied(Denial),
}

// Written by hand, these are proved here alone; derived, each crate above would prove how the bytes of
// a header are dropped.
impl Drop for Auth {
    fn drop(self) {
        let Auth { flavor: _, body } = self;
        drop(body)
    }
}

impl Drop for CallHead {
    fn drop(self) {
        let CallHead {
            program: _,
            version: _,
            procedure: _,
            cred,
            verf,
        } = self;
        drop(cred);
        drop(verf)
    }
}

impl Drop for ReplyHead {
    fn drop(self) {
        match self {
            ReplyHead::Accepted(verf, _) => drop(verf),
            ReplyHead::Denied(_) => (),
        }
    }
}

#[tactic(auto, unfolding(crate::specs::Header::direction_form))]
impl Item for Direction {
    ghost use Rattle.rpc_record.specs.Header.{direction_form};

    ghost form = { direction_form };

    ghost short = { λ _. Unit {0} };

    fn read(_alloc: Global, reader: &mut Reader) -> Result<Direction, ReadError> {
        let at = reader.at();
        match reader.u32()? {
            0 => Ok(Direction::Call),
            1 => Ok(Direction::Reply),
            value => Err(ReadError::Fault(Fault::BadValue { at, value })),
        }
    }

    fn write(&self, writer: &mut Writer) -> Result<(), AllocError> {
        match self {
            Direction::Call => writer.u32(0),
            Direction::Reply => writer.u32(1),
        }
    }
}

#[tactic(auto, unfolding(crate::specs::Header::front_form))]
impl Item for Front {
    ghost use Rattle.rpc_record.specs.Header.{front_form};

    ghost form = { front_form };

    ghost short = { λ _. Unit {0} };

    fn read(alloc: Global, reader: &mut Reader) -> Result<Front, ReadError> {
        let (xid, direction) = Item::read(alloc, reader)?;
        Ok(Front { xid, direction })
    }

    fn write(&self, writer: &mut Writer) -> Result<(), AllocError> {
        (self.xid, self.direction).write(writer)
    }
}

#[tactic(auto, unfolding(crate::specs::Header::auth_form))]
impl Item for Auth {
    ghost use Rattle.std.specs.Prelude.{length, ◌≤◌};
    ghost use Rattle.limits.specs.declared.TheConstants.{AUTH_MOST};
    ghost use Rattle.rpc_record.specs.Header.{auth_form};

    ghost form = { auth_form };

    ghost short = { λ a. length a.body ≤ AUTH_MOST };

    fn read(alloc: Global, reader: &mut Reader) -> Result<Auth, ReadError> {
        let flavor = reader.u32()?;
        let body = reader.opaque(alloc, AUTH_MOST)?;
        Ok(Auth { flavor, body })
    }

    fn write(&self, writer: &mut Writer) -> Result<(), AllocError> {
        writer.u32(self.flavor)?;
        writer.opaque(self.body.as_slice())
    }
}

#[tactic(auto, unfolding(crate::specs::Header::call_form))]
impl Item for CallHead {
    ghost use Rattle.std.specs.Prelude.{length, ◌≤◌};
    ghost use Rattle.limits.specs.declared.TheConstants.{AUTH_MOST};
    ghost use Rattle.rpc_record.specs.Header.{call_form};

    ghost form = { call_form };

    ghost short = { λ h. (length h.cred.body ≤ AUTH_MOST) × (length h.verf.body ≤ AUTH_MOST) };

    fn read(alloc: Global, reader: &mut Reader) -> Result<CallHead, ReadError> {
        let program = reader.u32()?;
        let version = reader.u32()?;
        let procedure = reader.u32()?;
        let cred = Auth::read(alloc, reader)?;
        let verf = Auth::read(alloc, reader)?;
        Ok(CallHead {
            program,
            version,
            procedure,
            cred,
            verf,
        })
    }

    fn write(&self, writer: &mut Writer) -> Result<(), AllocError> {
        (self.program, (self.version, self.procedure)).write(writer)?;
        self.cred.write(writer)?;
        self.verf.write(writer)
    }
}

#[tactic(auto, unfolding(crate::specs::Header::versions_form))]
impl Item for Versions {
    ghost use Rattle.rpc_record.specs.Header.{versions_form};

    ghost form = { versions_form };

    ghost short = { λ _. Unit {0} };

    fn read(alloc: Global, reader: &mut Reader) -> Result<Versions, ReadError> {
        let (low, high) = Item::read(alloc, reader)?;
        Ok(Versions { low, high })
    }

    fn write(&self, writer: &mut Writer) -> Result<(), AllocError> {
        (self.low, self.high).write(writer)
    }
}

#[tactic(auto, unfolding(crate::specs::Header::accept_form))]
impl Item for Accept {
    ghost use Rattle.rpc_record.specs.Header.{accept_form};

    ghost form = { accept_form };

    ghost short = { λ _. Unit {0} };

    fn read(alloc: Global, reader: &mut Reader) -> Result<Accept, ReadError> {
        let at = reader.at();
        match reader.u32()? {
            0 => Ok(Accept::Success),
            1 => Ok(Accept::ProgUnavail),
            2 => read_as!(Accept::ProgMismatch, Versions::read(alloc, reader)),
            3 => Ok(Accept::ProcUnavail),
            4 => Ok(Accept::GarbageArgs),
            5 => Ok(Accept::SystemErr),
            value => Err(ReadError::Fault(Fault::BadValue { at, value })),
        }
    }

    fn write(&self, writer: &mut Writer) -> Result<(), AllocError> {
        match self {
            Accept::Success => writer.u32(0),
            Accept::ProgUnavail => writer.u32(1),
            Accept::ProgMismatch(versions) => (2u32, *versions).write(writer),
            Accept::ProcUnavail => writer.u32(3),
            Accept::GarbageArgs => writer.u32(4),
            Accept::SystemErr => writer.u32(5),
        }
    }
}

#[tactic(auto, unfolding(crate::specs::Header::denial_form))]
impl Item for Denial {
    ghost use Rattle.rpc_record.specs.Header.{denial_form};

    ghost form = { denial_form };

    ghost short = { λ _. Unit {0} };

    fn read(alloc: Global, reader: &mut Reader) -> Result<Denial, ReadError> {
        let at = reader.at();
        match reader.u32()? {
            0 => read_as!(Denial::RpcMismatch, Versions::read(alloc, reader)),
            1 => read_as!(Denial::AuthError, reader.u32()),
            value => Err(ReadError::Fault(Fault::BadValue { at, value })),
        }
    }

    fn write(&self, writer: &mut Writer) -> Result<(), AllocError> {
        match self {
            Denial::RpcMismatch(versions) => (0u32, *versions).write(writer),
            Denial::AuthError(why) => (1u32, *why).write(writer),
        }
    }
}

/// The verifier of a call that was accepted, and what became of it.
fn write_accepted(writer: &mut Writer, verf: &Auth, accept: &Accept) -> Result<(), AllocError>
    ensures spelled { OnOk result (writer.new ≡ writer.old ++ (auth_form.spell verf.now ++ accept_form.spell accept.now)) }
    ensures fits { OnOk result (length verf.now.body ≤ AUTH_MOST → auth_form.Fits verf.now × accept_form.Fits accept.now) }
{
    verf.write(writer)?;
    accept.write(writer)
}

#[tactic(auto, unfolding(crate::specs::Header::reply_form))]
impl Item for ReplyHead {
    ghost use Rattle.rpc_record.specs.Header.{reply_form, short_reply};

    ghost form = { reply_form };

    ghost short = { short_reply };

    fn read(alloc: Global, reader: &mut Reader) -> Result<ReplyHead, ReadError> {
        let at = reader.at();
        match reader.u32()? {
            0 => {
                let verf = Auth::read(alloc, reader)?;
                let accept = Accept::read(alloc, reader)?;
                Ok(ReplyHead::Accepted(verf, accept))
            }
            1 => read_as!(ReplyHead::Denied, Denial::read(alloc, reader)),
            value => Err(ReadError::Fault(Fault::BadValue { at, value })),
        }
    }

    fn write(&self, writer: &mut Writer) -> Result<(), AllocError> {
        match self {
            ReplyHead::Accepted(verf, accept) => {
                writer.u32(0)?;
                write_accepted(writer, verf, accept)
            }
            ReplyHead::Denied(denial) => (1u32, *denial).write(writer),
        }
    }
}
