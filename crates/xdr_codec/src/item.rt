//! Items of any type. `specs/Format.antt` states what a form is; `specs/Choice.antt`, `specs/Repeat.antt`
//! and `specs/Chain.antt` have those of items that may be there, are counted, or chained.

ghost use Rattle.std.specs.Prelude.{◌≡◌, ℕ, OnOk, OnErr, ◌++◌, All, length, ◌<◌, ◌≤◌, ◌^◌, IfSome};
ghost use Rattle.std.specs.List.{flat_map};
ghost use Rattle.xdr_codec.specs.Format.{Format, Gives, Input};
ghost use Rattle.xdr_codec.specs.Xdr.{u32_form, u64_form, bool_form};
ghost use Rattle.xdr_codec.specs.Choice.{optional};
ghost use Rattle.xdr_codec.specs.Repeat.{repeated, counted};
ghost use Rattle.xdr_codec.specs.Chain.{chained, link_spell};

use crate::fault::{Fault, ReadError};
use crate::read_as;
use crate::reader::Reader;
use crate::writer::Writer;
use lb_base::items::Items;
use std::alloc::{AllocError, Global};

/// What has a format.
pub trait Item: Sized + Drop {
    // how it is spelled and read
    ghost form: { Format Self };

    // its byte strings and lists are no longer than their maxima
    ghost short: { Self → Type 0 };

    /// Reads one from the front of a record. After an `Err` the reader is left inside the item, at
    /// any place of it; `read_item` keeps its place.
    fn read(alloc: Global, reader: &mut Reader) -> Result<Self, ReadError>
        ensures { Gives result reader.new (form.read reader.old) };

    /// Writes its spelling; only memory can run out. After an `Err` the writer may hold a part of
    /// it; `write_item` leaves what it held.
    fn write(&self, writer: &mut Writer) -> Result<(), AllocError>
        ensures spelled { OnOk result (writer.new ≡ writer.old ++ form.spell self.now) }
        ensures fits { OnOk result (short self.now → form.Fits self.now) };
}

/// What was read as this variant of a larger type, or why nothing was. (Written with `?`, it would
/// be two calls more in each arm of a `match`, and as many ways out.)
#[macro_export]
macro_rules! read_as {
    ($variant:path, $read:expr) => {
        match $read {
            Ok(item) => Ok($variant(item)),
            Err(why) => Err(why),
        }
    };
}

/// Reads one item from the front of a record, as `Item::read` does; after an `Err`, running out of
/// memory too, the reader is where it was.
pub fn read_item<T: Item>(alloc: Global, reader: &mut Reader) -> Result<T, ReadError>
    ensures gives { Gives result reader.new (T.form.read reader.old) }
    ensures stays { OnErr result (reader.new ≡ reader.old) }
{
    let start = reader.here();
    let read = T::read(alloc, reader);
    if read.is_err() {
        *reader = start;
    }
    read
}

/// Writes one item, as `Item::write` does; after an `Err`, which says that memory ran out, the
/// writer holds what it held.
pub fn write_item<T: Item>(writer: &mut Writer, item: &T) -> Result<(), AllocError>
    ensures spelled { OnOk result (writer.new ≡ writer.old ++ T.form.spell item.now) }
    ensures fits { OnOk result (T.short item.now → T.form.Fits item.now) }
    ensures stays { OnErr result (writer.new ≡ writer.old) }
{
    let mut part = writer.part();
    item.write(&mut part)?;
    writer.append(part)
}

impl Item for u32 {
    ghost form = { u32_form };

    ghost short = { λ _. Unit {0} };

    fn read(_alloc: Global, reader: &mut Reader) -> Result<u32, ReadError> {
        reader.u32()
    }

    fn write(&self, writer: &mut Writer) -> Result<(), AllocError> {
        writer.u32(*self)
    }
}

impl Item for u64 {
    ghost form = { u64_form };

    ghost short = { λ _. Unit {0} };

    fn read(_alloc: Global, reader: &mut Reader) -> Result<u64, ReadError> {
        reader.u64()
    }

    fn write(&self, writer: &mut Writer) -> Result<(), AllocError> {
        writer.u64(*self)
    }
}

impl Item for bool {
    ghost form = { bool_form };

    ghost short = { λ _. Unit {0} };

    fn read(_alloc: Global, reader: &mut Reader) -> Result<bool, ReadError> {
        reader.bool()
    }

    fn write(&self, writer: &mut Writer) -> Result<(), AllocError> {
        writer.bool(*self)
    }
}

impl Item for () {
    ghost use Rattle.xdr_codec.specs.Compose.{nothing};

    ghost form = { nothing tt };

    ghost short = { λ _. Unit {0} };

    fn read(_alloc: Global, _reader: &mut Reader) -> Result<(), ReadError> {
        Ok(())
    }

    fn write(&self, _writer: &mut Writer) -> Result<(), AllocError> {
        Ok(())
    }
}

impl<A: Item, B: Item> Item for (A, B) {
    ghost use Rattle.xdr_codec.specs.Compose.{◌⋆◌};

    ghost form = { A.form ⋆ B.form };

    ghost short = { λ p. A.short p.0 × B.short p.1 };

    fn read(alloc: Global, reader: &mut Reader) -> Result<(A, B), ReadError> {
        let first = A::read(alloc, reader)?;
        let second = B::read(alloc, reader)?;
        Ok((first, second))
    }

    fn write(&self, writer: &mut Writer) -> Result<(), AllocError> {
        self.0.write(writer)?;
        self.1.write(writer)
    }
}

impl<T: Item> Item for Option<T> {
    ghost form = { optional T.form };

    ghost short = { λ o. IfSome o T.short };

    fn read(alloc: Global, reader: &mut Reader) -> Result<Option<T>, ReadError> {
        if reader.bool()? {
            read_as!(Some, T::read(alloc, reader))
        } else {
            Ok(None)
        }
    }

    fn write(&self, writer: &mut Writer) -> Result<(), AllocError> {
        match self {
            None => writer.bool(false),
            Some(item) => {
                writer.bool(true)?;
                item.write(writer)
            }
        }
    }
}

/// So many items.
fn read_many<T: Item>(alloc: Global, count: u32, reader: &mut Reader) -> Result<Items<T>, ReadError>
    ensures { Gives result reader.new ((repeated T.form count).read reader.old) }
{
    let mut items = Vec::new(alloc);
    for _ in 0..count {
        let item = T::read(alloc, reader)?;
        items.push(item)?;
    }
    Ok(Items::from_vec(items))
}

/// Items behind their number, which is at most `max`, else `TooLong` (RFC 4506, section 4.13). After
/// an `Err` the reader is where it was.
pub fn read_counted<T: Item>(
    alloc: Global,
    max: u32,
    reader: &mut Reader,
) -> Result<Items<T>, ReadError>
    ensures gives { Gives result reader.new ((counted max T.form).read reader.old) }
    ensures stays { OnErr result (reader.new ≡ reader.old) }
{
    let start = reader.here();
    let count = reader.count(max)?;
    let read = read_many(alloc, count, reader);
    if read.is_err() {
        *reader = start;
    }
    read
}

fn write_many<T: Item>(writer: &mut Writer, items: &[T]) -> Result<(), AllocError>
    ensures spelled { OnOk result (writer.new ≡ writer.old ++ flat_map T.form.spell items.now) }
    ensures fits { OnOk result (All T.short items.now → All T.form.Fits items.now) }
{
    for item in items {
        item.write(writer)?;
    }
    Ok(())
}

/// Links up to the false.
fn read_links<T: Item>(alloc: Global, reader: &mut Reader) -> Result<Items<T>, ReadError>
    ensures { Gives result reader.new ((chained T.form).read reader.old) }
{
    let most = reader.left();
    let mut items = Vec::new(alloc);
    for _ in 0..most {
        match Option::read(alloc, reader)? {
            None => return Ok(Items::from_vec(items)),
            Some(item) => items.push(item)?,
        }
    }
    Err(ReadError::Fault(Fault::Short { at: reader.at() }))
}

/// Items, each behind a true, and a false (RFC 4506, section 4.19). After an `Err` the reader is
/// where it was.
pub fn read_chain<T: Item>(alloc: Global, reader: &mut Reader) -> Result<Items<T>, ReadError>
    ensures gives { Gives result reader.new ((chained T.form).read reader.old) }
    ensures stays { OnErr result (reader.new ≡ reader.old) }
{
    let start = reader.here();
    let read = read_links(alloc, reader);
    if read.is_err() {
        *reader = start;
    }
    read
}

fn write_link<T: Item>(writer: &mut Writer, item: &T) -> Result<(), AllocError>
    ensures spelled { OnOk result (writer.new ≡ writer.old ++ link_spell T.form item.now) }
    ensures fits { OnOk result (T.short item.now → T.form.Fits item.now) }
{
    writer.bool(true)?;
    item.write(writer)
}

/// Items, each behind a true, and a false (RFC 4506, section 4.19). After an `Err`, which says that
/// memory ran out, the writer holds what it held.
pub fn write_chain<T: Item>(writer: &mut Writer, items: &[T]) -> Result<(), AllocError>
    ensures spelled { OnOk result (writer.new ≡ writer.old ++ (chained T.form).spell items.now) }
    ensures fits { OnOk result (All T.short items.now → All T.form.Fits items.now) }
    ensures stays { OnErr result (writer.new ≡ writer.old) }
{
    let mut part = writer.part();
    for item in items {
        write_link(&mut part, item)?;
    }
    part.bool(false)?;
    writer.append(part)
}

/// Items behind their number (RFC 4506, section 4.13). They are to be fewer than 2 ^ 32, as those of
/// any message that fits are. After an `Err`, which says that memory ran out, the writer holds what
/// it held.
#[tactic(auto, unfolding(crate::specs::Xdr::count_form, crate::specs::Xdr::u32_form))]
pub fn write_counted<T: Item>(writer: &mut Writer, items: &[T]) -> Result<(), AllocError>
    ensures spelled { (max : ℕ) → OnOk result (writer.new ≡ writer.old ++ (counted max T.form).spell items.now) }
    ensures fits { OnOk result ((max : ℕ) → length items.now ≤ max → max < 2 ^ 32 → All T.short items.now → (counted max T.form).Fits items.now) }
    ensures stays { OnErr result (writer.new ≡ writer.old) }
{
    let mut part = writer.part();
    part.u32((items.len() % 0x1_0000_0000) as u32)?;
    write_many(&mut part, items)?;
    writer.append(part)
}
