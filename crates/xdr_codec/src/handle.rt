//! Handles (RFC 1813, section 2.6: nfs_fh3). `specs/Handle.antt` states their form, and which
//! handles this file system gives.

ghost use Rattle.std.specs.Prelude.{◌≡◌, ◌++◌, ◌≤◌, ◌<◌, ◌^◌, ℕ, length, OnOk, IfOk, IfSome, IfNone};
ghost use Rattle.xdr_codec.specs.Handle.{handle_bytes, handle_mark, file_of};
ghost use Rattle.limits.specs.declared.TheConstants.{HANDLE_MOST};

use crate::fault::ReadError;
use crate::item::Item;
use crate::reader::Reader;
use crate::writer::Writer;
use lb_base::items::Bytes;
use limits::HANDLE_MOST;
use std::alloc::{AllocError, Global};
use std::marker::Model;

/// What names a file or a directory: at most `HANDLE_MOST` bytes, which contracts see as a list. It
/// holds them itself, with zeros behind them, so that it is `Copy` and owns nothing.
#[derive(Clone, Copy)]
pub struct Handle {
    held: [u8; HANDLE_MOST as usize],
    len: usize,
}

impl Model for Handle {
    ghost use Rattle.std.specs.Prelude.{ℕ, List, ◌++◌, length, take};
    ghost use Rattle.xdr_codec.specs.Handle.{IsHeld, zeros_behind, len_back, held_back};

    ghost Value = { List ℕ };

    ghost view = { λ h. take h.len h.held };

    ghost invariant = { λ h. IsHeld h.len h.held };

    ghost inverse = { λ bytes. record { held = bytes ++ zeros_behind (length bytes); len = length bytes } };

    ghost inverse_ok = { λ h is i. record { held = held_back h.len h.held is i; len = len_back h.len h.held is i } };
}

/// The number of the root directory, which a client knows without asking.
pub const ROOT: u64 = 1;

/// How the handles of this file system begin: "LB01", and four zeros.
const MARK: [u8; 8] = [0x4c, 0x42, 0x30, 0x31, 0, 0, 0, 0];

impl Handle {
    /// A handle of any bytes; none where there are more than `HANDLE_MOST`. Takes no memory.
    pub fn new(bytes: Bytes) -> Option<Handle>
        ensures some { IfSome result (λ h. h ≡ bytes) }
        ensures none { IfNone result (HANDLE_MOST < length bytes) }
    {
        if bytes.len() > HANDLE_MOST as usize {
            return None;
        }
        Some(copied(bytes.as_slice()))
    }

    /// The handle that this file system gives for a file's number: 16 bytes, its mark and the
    /// number, the highest byte first. The one error is running out of memory.
    pub fn of_file(alloc: Global, id: u64) -> Result<Handle, AllocError>
        ensures { IfOk result (λ h. h ≡ handle_bytes id) }
    {
        let mut bytes = Vec::from_slice(alloc, &MARK)?;
        bytes.extend_from_slice(&id.to_be_bytes())?;
        Ok(copied(&bytes))
    }

    /// Its bytes.
    pub fn as_slice(&self) -> &[u8]
        ensures value { result.now ≡ self.now }
        ensures short { length result.now ≤ HANDLE_MOST }
    {
        &self.held[..self.len]
    }

    /// The number of the file, where the handle is one that this file system gives. Takes no memory.
    pub fn file_of(&self) -> Option<u64>
        ensures exact { result ≡ file_of self.now }
        ensures some { IfSome result (λ id. self.now ≡ handle_bytes id) }
        ensures none { IfNone result ((id : ℕ) → id < 2 ^ 64 → ¬ (self.now ≡ handle_bytes id)) }
    {
        own_file(self.as_slice())
    }
}

/// These bytes, and zeros behind them.
fn copied(bytes: &[u8]) -> Handle
    requires { length bytes.now ≤ HANDLE_MOST }
    ensures { result ≡ bytes.now }
{
    let len = bytes.len();
    let mut held = [0; HANDLE_MOST as usize];
    held[..len].copy_from_slice(bytes);
    Handle { held, len }
}

fn own_file(bytes: &[u8]) -> Option<u64>
    ensures exact { result ≡ file_of bytes.now }
    ensures some { IfSome result (λ id. bytes.now ≡ handle_bytes id) }
    ensures none { IfNone result ((id : ℕ) → id < 2 ^ 64 → ¬ (bytes.now ≡ handle_bytes id)) }
{
    if bytes.len() != 16 || !bytes.starts_with(&MARK) {
        return None;
    }
    Some(u64::from_be_bytes([
        bytes[8], bytes[9], bytes[10], bytes[11], bytes[12], bytes[13], bytes[14], bytes[15],
    ]))
}

impl Item for Handle {
    ghost use Rattle.xdr_codec.specs.Handle.{handle_form};

    ghost form = { handle_form };

    ghost short = { λ _. Unit {0} };

    fn read(alloc: Global, reader: &mut Reader) -> Result<Handle, ReadError> {
        let bytes = reader.opaque(alloc, HANDLE_MOST)?;
        Ok(copied(bytes.as_slice()))
    }

    fn write(&self, writer: &mut Writer) -> Result<(), AllocError> {
        writer.opaque(self.as_slice())
    }
}
