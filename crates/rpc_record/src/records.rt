//! Records out of a stream of bytes that comes in pieces (RFC 5531, section 11).
//! `specs/Records.antt` states which they are.

ghost use Rattle.std.specs.Prelude.{◌≡◌, ◌≤◌, IfOk, OnErr, drop, length};
ghost use Rattle.rpc_record.specs.Records.{nothing_read, fed};
ghost use Rattle.rpc_record.specs.Progress.{Reaches, IsCut, IsAlone, IsOff};

use crate::fragments::{Found, Progress, START, find, is_alone, join};
use crate::record::Record;
use crate::refusal::Refusal;
use lb_base::items::{Bytes, Items};
use std::alloc::{AllocError, Global};
use std::marker::Model;
use std::mem;

/// What a piece of a stream completed.
#[derive(Drop)]
pub struct Fed {
    /// The records that end in the piece, in order.
    pub records: Items<Record>,
    /// Why no record can follow, if none can.
    pub spoilt: Option<Refusal>,
}

/// What was found in some bytes.
#[derive(Drop)]
struct Cut {
    /// The whole records.
    pub records: Vec<Record>,
    /// How many bytes are done with.
    pub used: usize,
    /// What is known of the record that begins behind them.
    pub progress: Progress,
    /// Why no record can follow.
    pub spoilt: Option<Refusal>,
}

/// The whole records at the front of some bytes, of the first of which so much is known.
fn cut_off(alloc: Global, bytes: &Vec<u8>, known: Progress) -> Result<Cut, AllocError>
    requires { Reaches bytes.now.items known }
    ensures { IfOk result (λ cut. IsCut bytes.now.items cut) }
{
    let mut records = Vec::new(alloc);
    let mut known = known;
    let mut used = 0;
    let mut left = bytes.as_slice();
    loop {
        match find(left, known) {
            Found::Whole { end } => {
                records.push(Record::of(join(alloc, left)?))?;
                left = left.split_at(end).1;
                used += end;
                known = START;
            }
            Found::Begun(progress) => {
                return Ok(Cut {
                    records,
                    used,
                    progress,
                    spoilt: None,
                });
            }
            Found::Bad(why) => {
                return Ok(Cut {
                    records,
                    used: bytes.len(),
                    progress: START,
                    spoilt: Some(why),
                });
            }
        }
    }
}

/// Forgets the first bytes; those behind them move to the front.
fn forget(bytes: &mut Vec<u8>, used: usize)
    requires { used ≤ length bytes.old.items }
    ensures { bytes.new.items ≡ drop used bytes.old.items }
{
    if used == 0 {
        return;
    }
    let left = bytes.len() - used;
    bytes.copy_within(used.., 0);
    bytes.truncate(left);
}

/// Takes off bytes that are a record of one fragment, and nothing else. They stay where they are.
fn alone(alloc: Global, bytes: &mut Vec<u8>) -> Result<Cut, AllocError>
    requires { IsAlone bytes.old.items }
    ensures ok { IfOk result (λ cut. IsOff bytes.old.items bytes.new.items cut) }
    ensures err { OnErr result (bytes.new.items ≡ bytes.old.items) }
{
    let mut records = Vec::with_capacity(alloc, 1)?;
    let held = Items::from_vec(mem::replace(bytes, Vec::new(alloc)));
    records.push_reserved(Record::behind(held, 4));
    Ok(Cut {
        records,
        used: 0,
        progress: START,
        spoilt: None,
    })
}

/// Takes off the whole records at the front, of the first of which so much is known.
fn take_off(alloc: Global, bytes: &mut Vec<u8>, known: Progress) -> Result<Cut, AllocError>
    requires { Reaches bytes.old.items known }
    ensures ok { IfOk result (λ cut. IsOff bytes.old.items bytes.new.items cut) }
    ensures err { OnErr result (bytes.new.items ≡ bytes.old.items) }
{
    if is_alone(bytes) {
        return alone(alloc, bytes);
    }
    let cut = cut_off(alloc, bytes, known)?;
    forget(bytes, cut.used);
    Ok(cut)
}

/// One end of a stream of records. A record has at most `RECORD_MOST` bytes, in at most `FRAGMENTS_MOST`
/// fragments; fragments of no bytes are taken, and count.
pub struct Records {
    rest: Vec<u8>,
    known: Progress,
    spoilt: Option<Refusal>,
}

// Written by hand, it is proved here alone.
impl Drop for Records {
    fn drop(self) {
        let Records {
            rest,
            known: _,
            spoilt: _,
        } = self;
        drop(rest)
    }
}

impl Model for Records {
    ghost use Rattle.rpc_record.specs.Records.{Unread};
    ghost use Rattle.rpc_record.specs.Progress.{Reaches};

    ghost Value = { Unread };

    ghost view = { λ r. record { rest = r.rest.items; spoilt = r.spoilt } };

    ghost invariant = { λ r. Reaches r.rest.items r.known };
}

impl Records {
    /// Nothing has come yet. Takes no memory.
    pub fn new(alloc: Global) -> Records
        ensures { result ≡ nothing_read }
    {
        Records {
            rest: Vec::new(alloc),
            known: START,
            spoilt: None,
        }
    }

    /// How many bytes came behind the last whole record; none once the stream is spoilt.
    pub fn rest_len(&self) -> usize
        ensures { result ≡ length self.now.rest }
    {
        self.rest.len()
    }

    /// Why no record can follow, if none can.
    pub fn spoilt(&self) -> Option<Refusal>
        ensures { result ≡ self.now.spoilt }
    {
        self.spoilt
    }

    /// Takes a piece of the stream, and gives the records that end in it.
    ///
    /// As soon as all four bytes of a header are there that no record may have, it says why, beside
    /// the records before it; from then on it gives no record, and the same refusal ever after.
    /// The one error is running out of memory: the piece was then not taken.
    pub fn feed(&mut self, alloc: Global, piece: &[u8]) -> Result<Fed, AllocError>
        ensures ok { IfOk result (λ given. fed self.old piece.now ≡ (self.new, given)) }
        ensures err { OnErr result (self.new ≡ self.old) }
    {
        if let Some(why) = self.spoilt {
            return Ok(Fed {
                records: Items::new(alloc),
                spoilt: Some(why),
            });
        }
        let kept = self.rest.len();
        self.rest.extend_from_slice(piece)?;
        match take_off(alloc, &mut self.rest, self.known) {
            Err(failed) => {
                self.rest.truncate(kept);
                Err(failed)
            }
            Ok(
                Cut {
                    records,
                    progress,
                    spoilt,
                    ..
                },
            ) => {
                self.known = progress;
                self.spoilt = spoilt;
                Ok(Fed {
                    records: Items::from_vec(records),
                    spoilt,
                })
            }
        }
    }

    /// Takes a piece as `feed` does, by value: where nothing is kept the bytes stay where they are, and
    /// where they are a record of one fragment, and nothing else, its contents stay there, too.
    pub fn take(&mut self, alloc: Global, piece: Bytes) -> Result<Fed, AllocError>
        ensures ok { IfOk result (λ given. fed self.old piece ≡ (self.new, given)) }
        ensures err { OnErr result (self.new ≡ self.old) }
    {
        if self.spoilt.is_some() || !self.rest.is_empty() {
            return self.feed(alloc, piece.as_slice());
        }
        let mut bytes = piece.into_vec();
        let Cut {
            records,
            progress: known,
            spoilt: why,
            ..
        } = take_off(alloc, &mut bytes, START)?;
        self.rest = bytes;
        self.known = known;
        self.spoilt = why;
        Ok(Fed {
            records: Items::from_vec(records),
            spoilt: why,
        })
    }
}
