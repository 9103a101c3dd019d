//! Digests of SHA-1 and of SHA-256 (FIPS 180-4): twenty bytes, and thirty-two, with no length before
//! them (RFC 4506, section 4.9).
//! `specs/Digest.antt` states their form.

ghost use Rattle.std.specs.Prelude.{◌≡◌, ◌++◌, OnOk};

use crate::fault::{Fault, ReadError};
use crate::item::Item;
use crate::reader::Reader;
use crate::writer::Writer;
use std::alloc::{AllocError, Global};

/// A digest of SHA-1, which contracts see as a list of twenty bytes.
pub type Digest = [u8; 20];

#[tactic(auto, unfolding(crate::specs::Xdr::fixed_form))]
impl Item for [u8; 20] {
    ghost use Rattle.xdr_codec.specs.Digest.{digest_form};

    ghost form = { digest_form };

    ghost short = { λ _. Unit {0} };

    fn read(_alloc: Global, reader: &mut Reader) -> Result<[u8; 20], ReadError> {
        reader.digest()
    }

    fn write(&self, writer: &mut Writer) -> Result<(), AllocError> {
        writer.fixed(self)
    }
}

#[tactic(auto, unfolding(crate::specs::Xdr::fixed_form))]
impl Item for [u8; 32] {
    ghost use Rattle.xdr_codec.specs.Digest.{long_digest_form};

    ghost form = { long_digest_form };

    ghost short = { λ _. Unit {0} };

    fn read(_alloc: Global, reader: &mut Reader) -> Result<[u8; 32], ReadError> {
        reader.long_digest()
    }

    fn write(&self, writer: &mut Writer) -> Result<(), AllocError> {
        writer.fixed(self)
    }
}
