//! The calls that make temporary files and fill them: MKTMPFILE, TMPWRITE and CONDWRITE.
//! `specs/Writing.antt` says what each makes of them, and is answered.

ghost use Rattle.std.specs.Prelude.{◌≡◌, IsSome, None, Some, length, IfOk, OnOk, OnErr};
ghost use Rattle.chunk_index.specs.Index.{key_of, place_of, found};
ghost use Rattle.temp_files.specs.Temps.{temp_at, with_more, room_fault, piece_fault, status_of};
ghost use Rattle.chunk_calls.specs.Answers.{node_of, target_in, IsFile};
ghost use Rattle.chunk_calls.specs.Writing.{made, wrote, named, cond_fault, bytes_known};

use crate::{answers, indexing};
use chunk_index::index::Index;
use file_tree::tree::Tree;
use hash_calls::call::{CondPiece, NewTemp, TempPiece};
use lb_base::items::Bytes;
use limits::PIECE_MOST;
use std::alloc::{AllocError, Global};
use std::mem;
use temp_files::fault::TempError;
use temp_files::temps::Temps;
use xdr_codec::answer::Answer;
use xdr_codec::status::Status;

/// The status of a call that the temporary files refuse. The one error is running out of memory.
fn status_of(refusal: TempError) -> Result<Status, AllocError>
    ensures ok { IfOk result (λ status. status_of refusal ≡ Some status) }
    ensures err { OnErr result (status_of refusal ≡ None) }
{
    match refusal.status() {
        Some(status) => Ok(status),
        None => Err(AllocError),
    }
}

/// Why a CONDWRITE can't be done, before any bytes are looked for. It takes no memory.
fn cond_fault(temps: &Temps, session: u32, piece: &CondPiece) -> Option<Status>
    ensures { result ≡ cond_fault piece.now (temp_at temps.now session piece.now.fd) }
{
    if piece.count == 0 || piece.count > PIECE_MOST {
        return Some(Status::Inval);
    }
    let count = u64::from(piece.count);
    match temps.check(session, piece.fd, piece.offset, count) {
        Ok(()) => None,
        Err(refusal) => refusal.status(),
    }
}

/// Puts a copy of bytes that are known by their digest into a temporary file where they may be. The
/// one error is running out of memory, and all then stays as it was.
fn put_known(
    alloc: Global,
    temps: &mut Temps,
    session: u32,
    piece: &CondPiece,
    bytes: &[u8],
) -> Result<(), AllocError>
    requires { piece_fault (temp_at temps.old session piece.now.fd) piece.now.offset (length bytes.now) ≡ None }
    ensures ok { OnOk result (temps.new ≡ with_more temps.old (temp_at temps.old session piece.now.fd) piece.now.offset bytes.now) }
    ensures err { OnErr result (temps.new ≡ temps.old) }
{
    let copied = Bytes::copy_of(alloc, bytes)?;
    match temps.put(session, piece.fd, piece.offset, copied) {
        Ok(()) => Ok(()),
        Err(_) => Err(AllocError),
    }
}

/// A MKTMPFILE. The one error is running out of memory, and all then stays as it was.
pub fn make_temp(
    tree: &Tree,
    temps: &mut Temps,
    session: u32,
    new: &NewTemp,
) -> Result<Answer<(), ()>, AllocError>
    ensures ok { IfOk result (λ told. made temps.old session new.now.fd (target_in (node_of tree.now.tree new.now.handle)) ≡ (temps.new, told)) }
    ensures err { OnErr result (temps.new ≡ temps.old) }
    ensures takes { OnErr result (IsFile (node_of tree.now.tree new.now.handle) × (room_fault temps.old session new.now.fd ≡ None)) }
{
    let target = match answers::target_in(tree, &new.handle) {
        Ok(id) => id,
        Err(status) => return Ok(Answer::Failed(status, ())),
    };
    match temps.make(session, new.fd, target) {
        Ok(()) => Ok(Answer::Done(())),
        Err(refusal) => {
            let status = status_of(refusal)?;
            Ok(Answer::Failed(status, ()))
        }
    }
}

/// A TMPWRITE. Its bytes are taken out of it. The one error is running out of memory, and all then stays as it
/// was.
pub fn write_temp(
    alloc: Global,
    temps: &mut Temps,
    session: u32,
    piece: &mut TempPiece,
) -> Result<Answer<(), ()>, AllocError>
    ensures ok { IfOk result (λ told. wrote temps.old piece.old (temp_at temps.old session piece.old.fd) ≡ (temps.new, told)) }
    ensures err { OnErr result (temps.new ≡ temps.old) }
    ensures takes { OnErr result (piece_fault (temp_at temps.old session piece.old.fd) piece.old.offset (length piece.old.bytes) ≡ None) }
{
    let bytes = mem::replace(&mut piece.bytes, Bytes::new(alloc));
    match temps.put(session, piece.fd, piece.offset, bytes) {
        Ok(()) => Ok(Answer::Done(())),
        Err(refusal) => {
            let status = status_of(refusal)?;
            Ok(Answer::Failed(status, ()))
        }
    }
}

/// A CONDWRITE. The one error is running out of memory, and nothing has changed then but that the digest was
/// looked up.
pub fn cond_write(
    alloc: Global,
    tree: &Tree,
    temps: &mut Temps,
    index: &mut Index,
    session: u32,
    piece: &CondPiece,
) -> Result<Answer<(), ()>, AllocError>
    ensures ok { IfOk result (λ told. named tree.now.tree temps.old index.old piece.now (temp_at temps.old session piece.now.fd) ≡ record { temps = temps.new; index = index.new; answer = told }) }
    ensures err { OnErr result (temps.new ≡ temps.old) }
    ensures order { OnErr result (index.new ≡ found index.old (key_of piece.now.digest)) }
    ensures takes { OnErr result ((cond_fault piece.now (temp_at temps.old session piece.now.fd)
        ≡ None) × IsSome (bytes_known tree.now.tree piece.now
        (place_of index.old.pairs (key_of piece.now.digest)))) }
{
    match cond_fault(temps, session, piece) {
        Some(status) => Ok(Answer::Failed(status, ())),
        None => write_known(alloc, tree, temps, index, session, piece),
    }
}

/// A CONDWRITE that has no fault. The one error is running out of memory, and nothing has changed then but that
/// the digest was looked up.
fn write_known(
    alloc: Global,
    tree: &Tree,
    temps: &mut Temps,
    index: &mut Index,
    session: u32,
    piece: &CondPiece,
) -> Result<Answer<(), ()>, AllocError>
    requires { cond_fault piece.now (temp_at temps.old session piece.now.fd) ≡ None }
    ensures ok { IfOk result (λ told. named tree.now.tree temps.old index.old piece.now (temp_at temps.old session piece.now.fd) ≡ record { temps = temps.new; index = index.new; answer = told }) }
    ensures err { OnErr result (temps.new ≡ temps.old) }
    ensures order { OnErr result (index.new ≡ found index.old (key_of piece.now.digest)) }
    ensures takes { OnErr result ((cond_fault piece.now (temp_at temps.old session piece.now.fd)
        ≡ None) × IsSome (bytes_known tree.now.tree piece.now
        (place_of index.old.pairs (key_of piece.now.digest)))) }
{
    match indexing::look_up(index, tree, piece) {
        Some(bytes) => {
            put_known(alloc, temps, session, piece, bytes)?;
            Ok(Answer::Done(()))
        }
        None => Ok(Answer::Failed(Status::HashNotFound, ())),
    }
}
