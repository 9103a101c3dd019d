//! What a GETHASH gave, read and written in a version of LBFS. `specs/Calls.antt` states its form.
//! It is spelled alike in each version, since a digest knows its length: that of the first is named.

ghost use Rattle.std.specs.Prelude.{◌≡◌, ◌++◌, ◌≤◌, ℕ, length, All, OnOk, Ok};
ghost use Rattle.std.specs.List.{flat_map};
ghost use Rattle.limits.specs.declared.TheConstants.{PAIRS_MOST};
ghost use Rattle.xdr_codec.specs.Format.{Gives};
ghost use Rattle.xdr_codec.specs.Repeat.{repeated, counted};
ghost use Rattle.xdr_codec.specs.Compose.{nothing};
ghost use Rattle.xdr_codec.specs.Answers.{answer_form, short_answer};
ghost use Rattle.hash_calls.specs.Calls.{pair_form, hashes_form, IsNamedIn};

use crate::asking::read_digest;
use crate::call::{Hashes, Pair};
use lb_base::items::Items;
use limits::PAIRS_MOST;
use std::alloc::{AllocError, Global};
use xdr_codec::answer::{Answer, read_outcome, write_outcome};
use xdr_codec::fault::ReadError;
use xdr_codec::item::Item;
use xdr_codec::read_as;
use xdr_codec::reader::Reader;
use xdr_codec::writer::Writer;

#[tactic(auto, unfolding(crate::specs::Calls::pair_form))]
fn read_pair(lbfs: u32, reader: &mut Reader) -> Result<Pair, ReadError>
    ensures { Gives result reader.new ((pair_form lbfs).read reader.old) }
{
    let digest = read_digest(lbfs, reader)?;
    let size = reader.u32()?;
    Ok(Pair { digest, size })
}

/// So many chunks.
fn read_many(
    alloc: Global,
    lbfs: u32,
    count: u32,
    reader: &mut Reader,
) -> Result<Items<Pair>, ReadError>
    ensures { Gives result reader.new ((repeated (pair_form lbfs) count).read reader.old) }
{
    let mut pairs = Vec::new(alloc);
    for _ in 0..count {
        let pair = read_pair(lbfs, reader)?;
        pairs.push(pair)?;
    }
    Ok(Items::from_vec(pairs))
}

fn read_pairs(alloc: Global, lbfs: u32, reader: &mut Reader) -> Result<Items<Pair>, ReadError>
    ensures { Gives result reader.new ((counted PAIRS_MOST (pair_form lbfs)).read reader.old) }
{
    let count = reader.count(PAIRS_MOST)?;
    read_many(alloc, lbfs, count, reader)
}

#[tactic(auto, unfolding(crate::specs::Calls::pair_form, xdr_codec::specs::Xdr::fixed_form))]
fn write_pair(writer: &mut Writer, pair: &Pair) -> Result<(), AllocError>
    ensures spelled { OnOk result (writer.new ≡ writer.old ++ (pair_form 1).spell pair.now) }
    ensures fits { OnOk result ((v : ℕ) → IsNamedIn v pair.now → (pair_form v).Fits pair.now) }
{
    writer.fixed(pair.digest.as_slice())?;
    writer.u32(pair.size)
}

fn write_many(writer: &mut Writer, pairs: &[Pair]) -> Result<(), AllocError>
    ensures spelled { OnOk result (writer.new ≡ writer.old ++ flat_map (pair_form 1).spell pairs.now) }
    ensures fits { OnOk result ((v : ℕ) → All (IsNamedIn v) pairs.now → All (pair_form v).Fits pairs.now) }
{
    for pair in pairs {
        write_pair(writer, pair)?;
    }
    Ok(())
}

#[tactic(auto, unfolding(xdr_codec::specs::Xdr::count_form, xdr_codec::specs::Xdr::u32_form))]
fn write_pairs(writer: &mut Writer, pairs: &[Pair]) -> Result<(), AllocError>
    ensures spelled { OnOk result (writer.new ≡ writer.old ++ (counted PAIRS_MOST (pair_form 1)).spell pairs.now) }
    ensures fits { OnOk result ((v : ℕ) → length pairs.now ≤ PAIRS_MOST → All (IsNamedIn v) pairs.now → (counted PAIRS_MOST (pair_form v)).Fits pairs.now) }
{
    writer.u32((pairs.len() % 0x1_0000_0000) as u32)?;
    write_many(writer, pairs)
}

impl Hashes {
    /// Reads it from the front of a record. After an `Err` the reader is left inside it.
    #[tactic(auto, unfolding(crate::specs::Calls::hashes_form))]
    pub fn read_in(alloc: Global, lbfs: u32, reader: &mut Reader) -> Result<Hashes, ReadError>
        ensures { Gives result reader.new ((hashes_form lbfs).read reader.old) }
    {
        let version = reader.u64()?;
        let term = reader.u32()?;
        let size = reader.u64()?;
        let pairs = read_pairs(alloc, lbfs, reader)?;
        let eof = reader.bool()?;
        Ok(Hashes {
            version,
            term,
            size,
            pairs,
            eof,
        })
    }

    /// Writes its spelling; only memory can run out. After an `Err` the writer may hold a part of
    /// it.
    #[tactic(auto, unfolding(crate::specs::Calls::hashes_form))]
    pub fn write_in(&self, writer: &mut Writer) -> Result<(), AllocError>
        ensures spelled { OnOk result (writer.new ≡ writer.old ++ (hashes_form 1).spell self.now) }
        ensures fits { OnOk result ((v : ℕ) → length self.now.pairs ≤ PAIRS_MOST → All (IsNamedIn v) self.now.pairs → (hashes_form v).Fits self.now) }
    {
        (self.version, (self.term, self.size)).write(writer)?;
        write_pairs(writer, self.pairs.as_slice())?;
        writer.bool(self.eof)
    }
}

/// The answer to a GETHASH, in a version of LBFS. After an `Err` the reader is left inside it.
pub fn read_hashes(
    alloc: Global,
    lbfs: u32,
    reader: &mut Reader,
) -> Result<Answer<Hashes, ()>, ReadError>
    ensures { Gives result reader.new ((answer_form (hashes_form lbfs) (nothing tt)).read reader.old) }
{
    match read_outcome(reader)? {
        None => read_as!(Answer::Done, Hashes::read_in(alloc, lbfs, reader)),
        Some(status) => Ok(Answer::Failed(status, ())),
    }
}

/// Writes the answer to a GETHASH; only memory can run out. After an `Err` the writer may hold a
/// part of it.
pub fn write_hashes(writer: &mut Writer, answer: &Answer<Hashes, ()>) -> Result<(), AllocError>
    ensures spelled { OnOk result (writer.new ≡ writer.old ++ (answer_form (hashes_form 1) (nothing tt)).spell answer.now) }
    ensures fits { OnOk result ((v : ℕ)
        → short_answer (λ h. (length h.pairs ≤ PAIRS_MOST) × All (IsNamedIn v) h.pairs)
        (λ _. Unit {0}) answer.now → (answer_form (hashes_form v) (nothing tt)).Fits answer.now) }
{
    match answer {
        Answer::Done(hashes) => {
            write_outcome(writer, None)?;
            hashes.write_in(writer)
        }
        Answer::Failed(status, _) => write_outcome(writer, Some(*status)),
    }
}
