//! Where the first records of ids and names stand: `first_node`, `first_named` and `first_content`
//! in `specs/Load.antt`, as tables have them in `specs/Found.antt`.

ghost use Rattle.std.specs.Prelude.{◌≡◌, ℕ, ◌==◌, ◌&&◌, if◌then◌else◌, Some, IfOk, OnOk};
ghost use Rattle.std.specs.BTreeMap.{get};
ghost use Rattle.std.specs.Ordering.{nat_cmp};
ghost use Rattle.std.specs.Str.{bytes_eq};
ghost use Rattle.tree_load.specs.Found.{NameKey, by_name, AreFirstNodes, AreFirstNames, AreFirstContents, node_over, content_over, IsNameNoted};

use std::alloc::{AllocError, Global};
use std::collections::BTreeMap;
use store::record::{Kept, NodeKind};

/// The place of a node's record, and what it is.
#[derive(Clone, Copy)]
pub struct Found {
    pub place: usize,
    pub kind: NodeKind,
}

/// Where the first records of ids and names stand.
#[derive(Drop)]
pub struct Firsts<'a> {
    /// The first node of each id.
    pub nodes: BTreeMap<u64, Found>,
    /// The first node of each name in each directory.
    pub names: BTreeMap<(u64, &'a [u8]), usize>,
    /// The first content of each id.
    pub contents: BTreeMap<u64, usize>,
}

/// Puts what was found under an id, in place of what stood there.
#[tactic(auto, using(crate::proofs::Tables::put_is))]
fn put_node(firsts: &mut BTreeMap<u64, Found>, id: u64, found: Found) -> Result<(), AllocError>
    ensures { OnOk result ((q : ℕ) → get nat_cmp firsts.new q ≡ (if id == q then Some found else get nat_cmp firsts.old q)) }
{
    firsts.insert(id, found)?;
    Ok(())
}

/// Puts a place under an id, in place of what stood there.
#[tactic(auto, using(crate::proofs::Tables::put_is))]
fn put_content(firsts: &mut BTreeMap<u64, usize>, id: u64, place: usize) -> Result<(), AllocError>
    ensures { OnOk result ((q : ℕ) → get nat_cmp firsts.new q ≡ (if id == q then Some place else get nat_cmp firsts.old q)) }
{
    firsts.insert(id, place)?;
    Ok(())
}

/// Puts a place under a name, in place of what stood there.
#[tactic(auto, using(crate::proofs::Tables::name_put))]
fn put_name<'a>(
    firsts: &mut BTreeMap<(u64, &'a [u8]), usize>,
    parent: u64,
    name: &'a [u8],
    place: usize,
) -> Result<(), AllocError>
    ensures { OnOk result ((q : NameKey) → get by_name firsts.new q ≡ (if (parent == q.0) && bytes_eq name.now q.1.now then Some place else get by_name firsts.old q)) }
{
    firsts.insert((parent, name), place)?;
    Ok(())
}

/// Notes a record that comes before those that were noted.
fn note<'a>(firsts: &mut Firsts<'a>, place: usize, one: &'a Kept) -> Result<(), AllocError>
    ensures nodes { OnOk result ((id : ℕ) → get nat_cmp firsts.new.nodes id ≡ node_over place one.now (get nat_cmp firsts.old.nodes id) id) }
    ensures names { OnOk result (IsNameNoted place one.now firsts.old.names firsts.new.names) }
    ensures contents { OnOk result ((id : ℕ) → get nat_cmp firsts.new.contents id ≡ content_over place one.now (get nat_cmp firsts.old.contents id) id) }
{
    match one {
        Kept::Head(_) => Ok(()),
        Kept::Node(node) => {
            let found = Found {
                place,
                kind: node.kind,
            };
            put_node(&mut firsts.nodes, node.id, found)?;
            put_name(&mut firsts.names, node.parent, node.name.as_slice(), place)
        }
        Kept::Content(content) => put_content(&mut firsts.contents, content.id, place),
    }
}

/// Where the first records stand. The one error is running out of memory.
#[tactic(auto, using(crate::proofs::Tables::by_first_places))]
pub fn first_places<'a>(alloc: Global, records: &'a [Kept]) -> Result<Firsts<'a>, AllocError>
    ensures nodes { IfOk result (λ f. AreFirstNodes 0 records.now f.nodes) }
    ensures names { IfOk result (λ f. AreFirstNames 0 records.now f.names) }
    ensures contents { IfOk result (λ f. AreFirstContents 0 records.now f.contents) }
{
    let mut firsts = Firsts {
        nodes: BTreeMap::new(alloc),
        names: BTreeMap::new(alloc),
        contents: BTreeMap::new(alloc),
    };
    let mut place = records.len();
    'records: while place > 0 {
        place -= 1;
        note(&mut firsts, place, &records[place])?;
    }
    Ok(firsts)
}
