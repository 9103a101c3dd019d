//! Loading a tree (`load` in `specs/Load.antt`).

ghost use Rattle.std.specs.Prelude.{◌≡◌, [], ◌∷◌, length, drop, IfOk, None, Some, Option};
ghost use Rattle.file_tree.specs.Storing.{IsStored};
ghost use Rattle.store.specs.declared.record.Kept.TheVariants as kept;
ghost use Rattle.tree_load.specs.Load.{load, fault, first_head, loaded_tree};
ghost use Rattle.tree_load.specs.Loads.{Loads};

use crate::error::LoadError;
use crate::{making, rules};
use file_tree::tree::Tree;
use std::alloc::{AllocError, Global};
use std::thread::Threads;
use store::record::{Head, Kept};
use tree_nodes::nodes::Nodes;

/// The head that is the first record, if it is one.
pub(crate) fn first_head(records: &[Kept]) -> Option<Head>
    ensures { result ≡ first_head records.now }
{
    match records.first() {
        Some(Kept::Head(head)) => Some(*head),
        Some(Kept::Node(_) | Kept::Content(_)) | None => None,
    }
}

/// Which record is the first that breaks a rule, where this head is the first.
#[tactic(auto, using(crate::proofs::Loading::by_fault_load))]
fn fault(alloc: Global, head: Head, records: &[Kept]) -> Result<Option<usize>, AllocError>
    requires { first_head records.now ≡ Some head }
    ensures { IfOk result (λ o. o ≡ fault head (drop 1 records.now)) }
{
    if !rules::is_head_well(head) {
        return Ok(Some(0));
    }
    let known = rules::learn(alloc, records)?;
    Ok(rules::first_fault(head, records, &known))
}

/// The tree of records that break no rule.
#[tactic(auto, using(crate::proofs::Loading::by_tree_of))]
fn tree_of<R: Threads + Sync>(
    rt: &R,
    alloc: Global,
    head: Head,
    records: Vec<Kept>,
) -> Result<Tree, AllocError>
    requires head { first_head records.items ≡ Some head }
    requires well { fault head (drop 1 records.items) ≡ None }
    ensures { IfOk result (λ t. t.tree ≡ loaded_tree head records.items) }
{
    let nodes = making::nodes_of(rt, alloc, head, records)?;
    let nodes = Nodes::from_list(alloc, nodes, head.next)?;
    Ok(Tree::from_nodes(alloc, nodes, head.changes))
}

/// The tree of these records, whose contents several threads cut into chunks; an empty list is the root
/// alone. Else the first record that breaks a rule is named, or memory ran out.
#[tactic(auto, using(crate::proofs::Loading::by_load))]
pub fn load<R: Threads + Sync>(rt: &R, alloc: Global, records: Vec<Kept>) -> Result<Tree, LoadError>
    ensures exact { Loads (load records.items) result }
    ensures stored { IfOk result (λ t. IsStored records.items t.tree) }
{
    if records.is_empty() {
        let tree = Tree::new(alloc)?;
        return Ok(tree);
    }
    let Some(head) = first_head(records.as_slice()) else {
        return Err(LoadError::BadRecord { which: 0 });
    };
    if let Some(which) = fault(alloc, head, records.as_slice())? {
        return Err(LoadError::BadRecord { which });
    }
    let tree = tree_of(rt, alloc, head, records)?;
    Ok(tree)
}
