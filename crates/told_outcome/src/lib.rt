//! How an operation of a client ended, as histories and mounts tell it: `told_of` of
//! `specs/Told.antt`.
#![tactic(auto)]

ghost use Rattle.std.specs.Prelude.{◌≡◌, IfOk};
ghost use Rattle.xdr_codec.specs.Attr.{kind_number};
ghost use Rattle.told_outcome.specs.Told.{fault_number, told_of};
ghost use Rattle.register_model.specs.declared.op.Outcome.TheVariants as told;

use client_state::step;
use client_state::step::BadPeer;
use lb_base::items::{Bytes, Items, Name};
use register_model::op::Outcome;
use std::alloc::{AllocError, Global};
use xdr_codec::attr::Kind;
use xdr_codec::status;

/// The number of a peer's fault.
fn fault_number(fault: &BadPeer) -> u32
    ensures { result ≡ fault_number fault.now }
{
    match fault {
        BadPeer::Garbage { .. } => 1,
        BadPeer::UnknownXid { .. } => 2,
        BadPeer::Digest { .. } => 3,
        BadPeer::Denied { .. } => 4,
        BadPeer::Shape { .. } => 5,
    }
}

/// Copies of these names.
fn copied_names(alloc: Global, names: &[Name]) -> Result<Items<Name>, AllocError>
    ensures { IfOk result (λ all. all ≡ names.now) }
{
    let mut all = Vec::with_capacity(alloc, names.len())?;
    for name in names {
        all.push(name.try_clone(alloc)?)?;
    }
    Ok(Items::from_vec(all))
}

/// What a name stands for, with the number of its kind (ftype3 of RFC 1813, section 2.6).
fn seen(file: u64, kind: Kind, version: u64, len: u64) -> Outcome
    ensures { result ≡ told.Seen file (kind_number kind) version len }
{
    let kind = match kind {
        Kind::File => 1,
        Kind::Directory => 2,
    };
    Outcome::Seen {
        file,
        kind,
        version,
        len,
    }
}

/// A close that stored what it had.
fn closed(alloc: Global, version: u64, len: u64, sha1: &[u8]) -> Result<Outcome, AllocError>
    ensures { IfOk result (λ o. o ≡ told.Closed version len sha1.now) }
{
    Ok(Outcome::Closed {
        version,
        len,
        sha1: Bytes::copy_of(alloc, sha1)?,
    })
}

/// An outcome as it is told. The one error is running out of memory.
pub fn told_of(alloc: Global, outcome: &step::Outcome) -> Result<Outcome, AllocError>
    ensures { IfOk result (λ o. o ≡ told_of outcome.now) }
{
    Ok(match outcome {
        step::Outcome::Opened { len, sha1, .. } => Outcome::Opened {
            len: *len,
            sha1: Bytes::copy_of(alloc, sha1)?,
        },
        step::Outcome::Piece { len, sha1 } => Outcome::Piece {
            len: *len,
            sha1: Bytes::copy_of(alloc, sha1)?,
        },
        step::Outcome::Closed {
            version,
            len,
            sha1,
            ..
        } => closed(alloc, *version, *len, sha1)?,
        step::Outcome::Done => Outcome::Done,
        step::Outcome::Names(names) => Outcome::Names(copied_names(alloc, names.as_slice())?),
        step::Outcome::Seen {
            id,
            kind,
            version,
            len,
        } => seen(*id, *kind, *version, *len),
        step::Outcome::Busy => Outcome::Busy,
        step::Outcome::NotOpen => Outcome::NotOpen,
        step::Outcome::AlreadyOpen => Outcome::AlreadyOpen,
        step::Outcome::TooBig(size) => Outcome::TooBig(*size),
        step::Outcome::Lost => Outcome::Lost,
        step::Outcome::Changed { first, last } => Outcome::Changed {
            first: *first,
            last: *last,
        },
        step::Outcome::NoLink => Outcome::NoLink,
        step::Outcome::Refused(status) => Outcome::Refused(status::number(*status)),
        step::Outcome::PeerMemory => Outcome::PeerMemory,
        step::Outcome::BadPeer(fault) => Outcome::BadPeer(fault_number(fault)),
        step::Outcome::Memory => Outcome::Memory,
    })
}
