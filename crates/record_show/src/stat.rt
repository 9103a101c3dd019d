//! An answer as far as it says what became of its call (RFC 5531, section 9: reply_body). What
//! follows accept_stat or reject_stat is left in the reader. `specs/Stat.antt` states its form.

ghost use Rattle.std.specs.Prelude.{◌≡◌};
ghost use Rattle.xdr_codec.specs.Format.{Gives};
ghost use Rattle.record_show.specs.Stat.{accept_of, accept_stat_form, reject_stat_form, stat_form, answer_form};

use rpc_record::header::{Auth, Front};
use std::alloc::Global;
use xdr_codec::fault::{Fault, ReadError};
use xdr_codec::item::Item;
use xdr_codec::reader::Reader;

/// What became of a call that was accepted (accept_stat).
#[derive(Clone, Copy, Drop)]
pub enum AcceptStat {
    /// It was done, and its results follow.
    Success,
    /// The program isn't served there.
    ProgUnavail,
    /// The program is served, but not this version.
    ProgMismatch,
    /// The program has no such procedure.
    ProcUnavail,
    /// Its arguments weren't understood.
    GarbageArgs,
    /// The server could not do it, for running out of memory perhaps.
    SystemErr,
}

/// Why a call was denied (reject_stat).
#[derive(Clone, Copy, Drop)]
pub enum RejectStat {
    /// It is of another version of RPC.
    RpcMismatch,
    /// Its credentials weren't taken.
    AuthError,
}

/// Whether a call was accepted, and what became of it (reply_stat).
#[derive(Drop)]
pub enum Stat {
    /// It was, with this verifier.
    Accepted(Auth, AcceptStat),
    /// It was not.
    Denied(RejectStat),
}

/// The accept_stat that has the number.
fn accept_of(number: u32) -> Option<AcceptStat>
    ensures { result ≡ accept_of number }
{
    match number {
        0 => Some(AcceptStat::Success),
        1 => Some(AcceptStat::ProgUnavail),
        2 => Some(AcceptStat::ProgMismatch),
        3 => Some(AcceptStat::ProcUnavail),
        4 => Some(AcceptStat::GarbageArgs),
        5 => Some(AcceptStat::SystemErr),
        _ => None,
    }
}

#[tactic(auto, unfolding(crate::specs::Stat::accept_stat_form))]
fn read_accept(reader: &mut Reader) -> Result<AcceptStat, ReadError>
    ensures { Gives result reader.new (accept_stat_form.read reader.old) }
{
    let at = reader.at();
    let value = reader.u32()?;
    match accept_of(value) {
        Some(stat) => Ok(stat),
        None => Err(ReadError::Fault(Fault::BadValue { at, value })),
    }
}

#[tactic(auto, unfolding(crate::specs::Stat::reject_stat_form))]
fn read_reject(reader: &mut Reader) -> Result<RejectStat, ReadError>
    ensures { Gives result reader.new (reject_stat_form.read reader.old) }
{
    let at = reader.at();
    match reader.u32()? {
        0 => Ok(RejectStat::RpcMismatch),
        1 => Ok(RejectStat::AuthError),
        value => Err(ReadError::Fault(Fault::BadValue { at, value })),
    }
}

#[tactic(auto, unfolding(crate::specs::Stat::stat_form))]
fn read_stat(alloc: Global, reader: &mut Reader) -> Result<Stat, ReadError>
    ensures { Gives result reader.new (stat_form.read reader.old) }
{
    let at = reader.at();
    match reader.u32()? {
        0 => {
            let verf = Auth::read(alloc, reader)?;
            let stat = read_accept(reader)?;
            Ok(Stat::Accepted(verf, stat))
        }
        1 => Ok(Stat::Denied(read_reject(reader)?)),
        value => Err(ReadError::Fault(Fault::BadValue { at, value })),
    }
}

/// Reads the xid and the type of a message, and then what an answer says of its call.
pub fn read_answer(alloc: Global, reader: &mut Reader) -> Result<(Front, Stat), ReadError>
    ensures { Gives result reader.new (answer_form.read reader.old) }
{
    let front = Front::read(alloc, reader)?;
    let stat = read_stat(alloc, reader)?;
    Ok((front, stat))
}
