//! The calls that change nothing (`specs/Telling.antt`).

ghost use Rattle.std.specs.Prelude.{◌≡◌, Some, None, IfOk, OnErr, IsOk};
ghost use Rattle.nfs3_calls.specs.declared.message.Nfs.TheVariants as nfs;
ghost use Rattle.tree_reading.specs.Reading.{Answers};
ghost use Rattle.tree_calls.specs.Telling.{getattr, found, granted, piece, listing, info_of, info, answer_of, told, TakesTold};

use crate::naming::id_of;
use file_tree::tree::Tree;
use limits::{FILE_MOST, LISTING_MOST, PIECE_MOST};
use nfs3_calls::call::{Access, Granted, Piece, Range};
use nfs3_calls::fs_info::{FsInfo, Sizes};
use nfs3_calls::listing::{ListRange, Listing};
use nfs3_calls::message::Nfs;
use nfs3_calls::place::{Found, Place};
use std::alloc::{AllocError, Global};
use tree_reading::error::TreeError;
use xdr_codec::answer::Answer;
use xdr_codec::attr::{Attr, Time};
use xdr_codec::handle::Handle;
use xdr_codec::status::Status;

/// The rights that there are.
const RIGHTS: u32 = 0x3F;

/// Whatever the file, FSINFO gives the same (RFC 1813, section 3.3.19: FSF3_HOMOGENEOUS).
const HOMOGENEOUS: u32 = 8;

fn getattr(tree: &Tree, handle: &Handle) -> Result<Attr, Status>
    ensures { result ≡ getattr tree.now.tree.nodes handle.now }
{
    let id = id_of(handle)?;
    tree.attr(id)
}

fn found(alloc: Global, tree: &Tree, place: &Place) -> Result<Found, TreeError>
    ensures { Answers (found tree.now.tree.nodes place.now) result }
{
    let dir = id_of(&place.dir)?;
    let looked = tree.lookup(dir, place.name.as_slice())?;
    let handle = Handle::of_file(alloc, looked.id)?;
    Ok(Found {
        handle,
        attr: Some(looked.attr),
        dir: Some(looked.dir),
    })
}

fn granted(tree: &Tree, access: &Access) -> Result<Granted, Status>
    ensures { result ≡ granted tree.now.tree.nodes access.now }
{
    let attr = getattr(tree, &access.handle)?;
    Ok(Granted {
        attr: Some(attr),
        bits: access.bits & RIGHTS,
    })
}

fn piece(tree: &Tree, range: &Range) -> Result<Piece, TreeError>
    ensures { Answers (piece tree.now.tree.nodes range.now) result }
{
    let id = id_of(&range.handle)?;
    tree.read(id, range.offset, range.count)
}

fn listing(tree: &Tree, range: &ListRange) -> Result<Listing, TreeError>
    ensures { Answers (listing tree.now.tree.nodes range.now) result }
{
    let dir = id_of(&range.dir)?;
    tree.list(dir, range.cookie, range.verifier, range.count)
}

fn info_of(attr: Attr) -> FsInfo
    ensures { result ≡ info_of attr }
{
    FsInfo {
        attr: Some(attr),
        reading: Sizes {
            most: PIECE_MOST,
            best: PIECE_MOST,
            multiple: 1,
        },
        writing: Sizes {
            most: 0,
            best: 0,
            multiple: 0,
        },
        dtpref: LISTING_MOST,
        maxfilesize: FILE_MOST,
        time_delta: Time {
            seconds: 0,
            nanoseconds: 1,
        },
        properties: HOMOGENEOUS,
    }
}

/// The answer to a GETATTR.
fn tell_attr(tree: &Tree, handle: &Handle) -> Nfs
    ensures { result ≡ nfs.GetAttrAnswer (answer_of tt (getattr tree.now.tree.nodes handle.now)) }
{
    match getattr(tree, handle) {
        Ok(attr) => Nfs::GetAttrAnswer(Answer::Done(attr)),
        Err(status) => Nfs::GetAttrAnswer(Answer::Failed(status, ())),
    }
}

/// The answer to a LOOKUP. The one error is running out of memory for a handle.
fn tell_found(alloc: Global, tree: &Tree, place: &Place) -> Result<Nfs, AllocError>
    ensures ok { IfOk result (λ m. m ≡ nfs.LookupAnswer (answer_of None (found tree.now.tree.nodes place.now))) }
    ensures takes { OnErr result (IsOk (found tree.now.tree.nodes place.now)) }
{
    match found(alloc, tree, place) {
        Ok(found) => Ok(Nfs::LookupAnswer(Answer::Done(found))),
        Err(TreeError::Refused(status)) => Ok(Nfs::LookupAnswer(Answer::Failed(status, None))),
        Err(TreeError::Memory) => Err(AllocError),
    }
}

/// The answer to an ACCESS.
fn tell_granted(tree: &Tree, access: &Access) -> Nfs
    ensures { result ≡ nfs.AccessAnswer (answer_of None (granted tree.now.tree.nodes access.now)) }
{
    match granted(tree, access) {
        Ok(granted) => Nfs::AccessAnswer(Answer::Done(granted)),
        Err(status) => Nfs::AccessAnswer(Answer::Failed(status, None)),
    }
}

/// The answer to a READ. The one error is running out of memory for its bytes.
fn tell_piece(tree: &Tree, range: &Range) -> Result<Nfs, AllocError>
    ensures ok { IfOk result (λ m. m ≡ nfs.ReadAnswer (answer_of None (piece tree.now.tree.nodes range.now))) }
    ensures takes { OnErr result (IsOk (piece tree.now.tree.nodes range.now)) }
{
    match piece(tree, range) {
        Ok(piece) => Ok(Nfs::ReadAnswer(Answer::Done(piece))),
        Err(TreeError::Refused(status)) => Ok(Nfs::ReadAnswer(Answer::Failed(status, None))),
        Err(TreeError::Memory) => Err(AllocError),
    }
}

/// The answer to a READDIR. The one error is running out of memory for its entries.
fn tell_listing(tree: &Tree, range: &ListRange) -> Result<Nfs, AllocError>
    ensures ok { IfOk result (λ m. m ≡ nfs.ReadDirAnswer (answer_of None (listing tree.now.tree.nodes range.now))) }
    ensures takes { OnErr result (IsOk (listing tree.now.tree.nodes range.now)) }
{
    match listing(tree, range) {
        Ok(listing) => Ok(Nfs::ReadDirAnswer(Answer::Done(listing))),
        Err(TreeError::Refused(status)) => Ok(Nfs::ReadDirAnswer(Answer::Failed(status, None))),
        Err(TreeError::Memory) => Err(AllocError),
    }
}

/// The answer to an FSINFO.
fn tell_info(tree: &Tree, handle: &Handle) -> Nfs
    ensures { result ≡ nfs.FsInfoAnswer (answer_of None (info tree.now.tree.nodes handle.now)) }
{
    match getattr(tree, handle) {
        Ok(attr) => Nfs::FsInfoAnswer(Answer::Done(info_of(attr))),
        Err(status) => Nfs::FsInfoAnswer(Answer::Failed(status, None)),
    }
}

/// What a call is answered that changes nothing; nothing where the message is none of these calls.
/// The one error is running out of memory for what is given.
pub fn tell(alloc: Global, tree: &Tree, call: &Nfs) -> Result<Option<Nfs>, AllocError>
    ensures ok { IfOk result (λ o. o ≡ told tree.now.tree.nodes call.now) }
    ensures takes { OnErr result (TakesTold tree.now.tree.nodes call.now) }
{
    match call {
        Nfs::Null => Ok(Some(Nfs::NullAnswer)),
        Nfs::GetAttr(handle) => Ok(Some(tell_attr(tree, handle))),
        Nfs::Lookup(place) => {
            let answer = tell_found(alloc, tree, place)?;
            Ok(Some(answer))
        }
        Nfs::Access(access) => Ok(Some(tell_granted(tree, access))),
        Nfs::Read(range) => {
            let answer = tell_piece(tree, range)?;
            Ok(Some(answer))
        }
        Nfs::ReadDir(range) => {
            let answer = tell_listing(tree, range)?;
            Ok(Some(answer))
        }
        Nfs::FsInfo(handle) => Ok(Some(tell_info(tree, handle))),
        _ => Ok(None),
    }
}
