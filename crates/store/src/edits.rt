//! Changes of a list of records, in place. `specs/Records.antt` states what each makes of it.

ghost use Rattle.std.specs.Prelude.{◌≡◌, ◌+◌, ◌<◌, ◌≤◌, length, [], ◌∷◌, IsTrue, not, IfOk, OnOk};
ghost use Rattle.std.specs.Vec.{vec_capacity};
ghost use Rattle.std.specs.List.{filter};
ghost use Rattle.store.specs.Records.{is_head, is_of, takes_place, with_record, place_of, changed, changed_too, headless, applied, places};
ghost use Rattle.store.specs.declared.record.Kept.TheVariants as kept;
ghost use Rattle.store.specs.declared.record.Kept.{Kept};

use crate::record::{ContentRecord, Head, Kept, NodeRecord, RecordChange};
use lb_base::items::{Bytes, Items};
use std::alloc::{AllocError, Global};

/// Whether a record is a head.
pub fn is_head(one: &Kept) -> bool
    ensures { result ≡ is_head one.now }
{
    match one {
        Kept::Head(_) => true,
        Kept::Node(_) | Kept::Content(_) => false,
    }
}

/// Whether a record is of the node of this id.
fn is_of(id: u64, one: &Kept) -> bool
    ensures { result ≡ is_of id one.now }
{
    match one {
        Kept::Head(_) => false,
        Kept::Node(node) => node.id == id,
        Kept::Content(content) => content.id == id,
    }
}

/// Whether a record takes the place of the other.
fn takes_place(one: &Kept, other: &Kept) -> bool
    ensures { result ≡ takes_place one.now other.now }
{
    match (one, other) {
        (Kept::Head(_), Kept::Head(_)) => true,
        (Kept::Node(node), Kept::Node(other)) => other.id == node.id,
        (Kept::Content(content), Kept::Content(other)) => other.id == content.id,
        _ => false,
    }
}

/// A second record like this one. The one error is running out of memory.
pub fn copy_of(alloc: Global, one: &Kept) -> Result<Kept, AllocError>
    ensures { IfOk result (λ copy. copy ≡ one.now) }
{
    match one {
        Kept::Head(head) => Ok(Kept::Head(*head)),
        Kept::Node(node) => {
            let name = node.name.try_clone(alloc)?;
            Ok(Kept::Node(NodeRecord {
                id: node.id,
                parent: node.parent,
                kind: node.kind,
                name,
            }))
        }
        Kept::Content(content) => {
            let bytes = content.bytes.share()?;
            Ok(Kept::Content(ContentRecord {
                id: content.id,
                version: content.version,
                bytes,
            }))
        }
    }
}

/// The place of the record that this one replaces; the number of records where there is none.
fn place_of(records: &Vec<Kept>, one: &Kept) -> usize
    ensures { result ≡ place_of one.now records.now.items }
{
    let mut place = 0;
    'places: while place < records.len() {
        if takes_place(one, &records[place]) {
            return place;
        }
        place += 1;
    }
    place
}

/// Puts a record in the place of the one that it replaces, or at the end. It takes no memory.
#[tactic(auto, using(crate::proofs::Putting::by_put))]
fn put(records: &mut Vec<Kept>, one: Kept)
    requires { length records.old.items < vec_capacity records.old }
    ensures done { records.new.items ≡ with_record one records.old.items }
    ensures capacity { vec_capacity records.old ≤ vec_capacity records.new }
    ensures len { length records.new.items ≤ length records.old.items + 1 }
{
    let place = place_of(records, &one);
    if place < records.len() {
        records[place] = one;
        return;
    }
    match records.push(one) {
        Ok(()) => {}
        Err(_) => unreachable!(),
    }
}

/// Takes out the node and the content of an id.
fn take_out(records: &mut Vec<Kept>, id: u64)
    ensures done { records.new.items ≡ filter (λ r. not (is_of id r)) records.old.items }
    ensures capacity { vec_capacity records.old ≤ vec_capacity records.new }
    ensures len { length records.new.items ≤ length records.old.items }
{
    records.retain(|record| !is_of(id, record));
}

/// Makes a change. It takes no memory.
fn change(records: &mut Vec<Kept>, change: RecordChange)
    requires { length records.old.items < vec_capacity records.old }
    ensures done { records.new.items ≡ changed change records.old.items }
    ensures capacity { vec_capacity records.old ≤ vec_capacity records.new }
    ensures len { length records.new.items ≤ length records.old.items + 1 }
{
    match change {
        RecordChange::Node(node) => put(records, Kept::Node(node)),
        RecordChange::Content(content) => put(records, Kept::Content(content)),
        RecordChange::Drop(id) => take_out(records, id),
    }
}

/// Takes out all heads.
fn behead(records: &mut Vec<Kept>)
    ensures done { records.new.items ≡ headless records.old.items }
    ensures capacity { vec_capacity records.old ≤ vec_capacity records.new }
{
    records.retain(|record| !is_head(record));
}

/// Makes the head the only one, in front. It takes no memory.
fn set_head(records: &mut Vec<Kept>, head: Head)
    requires { length (headless records.old.items) < vec_capacity records.old }
    ensures done { records.new.items ≡ kept.Head head ∷ headless records.old.items }
    ensures capacity { vec_capacity records.old ≤ vec_capacity records.new }
{
    behead(records);
    match records.insert(0, Kept::Head(head)) {
        Ok(()) => {}
        Err(_) => unreachable!(),
    }
}

/// Makes the head the only one, in front, and then the changes, in their order. It takes no memory.
pub fn apply(records: &mut Vec<Kept>, head: Head, first: RecordChange, second: Option<RecordChange>)
    requires { length (headless records.old.items) + places second < vec_capacity records.old }
    ensures done { records.new.items ≡ applied head first second records.old.items }
    ensures capacity { vec_capacity records.old ≤ vec_capacity records.new }
{
    set_head(records, head);
    change(records, first);
    if let Some(second) = second {
        change(records, second);
    }
}

/// Makes room for a head and this many records more. The one error is running out of memory.
pub fn reserve(records: &mut Vec<Kept>, count: u32) -> Result<(), AllocError>
    ensures room { OnOk result (length records.new.items + (count + 1) ≤ vec_capacity records.new) }
    ensures same { records.new.items ≡ records.old.items }
    ensures capacity { vec_capacity records.old ≤ vec_capacity records.new }
{
    records.reserve(count as usize + 1)
}

/// Copies of all records. The one error is running out of memory.
pub fn copies(alloc: Global, records: &[Kept]) -> Result<Vec<Kept>, AllocError>
    ensures { IfOk result (λ v. v.items ≡ records.now) }
{
    let mut copies = Vec::new(alloc);
    for record in records.iter() {
        let copy = copy_of(alloc, record)?;
        copies.push(copy)?;
    }
    Ok(copies)
}
