//! Nodes as calls make them, what a rename moves, and whether a call may be made
//! (`specs/Step.antt`). The other calls are methods of `Tree`.

ghost use Rattle.std.specs.Prelude.{◌≡◌, ◌≤◌, [], IfOk};
ghost use Rattle.tree_reading.specs.Plans.{rename_plan, IsPlannedMove, may};
ghost use Rattle.file_tree.specs.Step.{rename};
ghost use Rattle.tree_reading.specs.Chain.{refused};
ghost use Rattle.file_tree.specs.State.{state_of, IsState};
ghost use Rattle.tree_nodes.specs.declared.node.Body.TheVariants.{File, Directory};

use crate::state::TreeState;
use lb_base::items::Name;
use tree_nodes::content::Content;
use tree_nodes::node::{Body, Node};
use tree_reading::call::{Call, Changed, Planned, Reservation, Spot};
use tree_reading::plans;
use xdr_codec::status::Status;

/// A file with no content.
pub fn new_file(tree: &TreeState, id: u64, dir: u64, name: Name) -> Node
    ensures { result ≡ record { id = id; parent = dir; name = name; version = 1; body = File [] } }
{
    Node {
        id,
        parent: dir,
        name,
        version: 1,
        body: Body::File(Content::empty(tree.alloc)),
    }
}

/// A directory without entries.
pub fn new_directory(id: u64, dir: u64, name: Name, version: u64) -> Node
    ensures { result ≡ record { id = id; parent = dir; name = name; version = version; body = Directory } }
{
    Node {
        id,
        parent: dir,
        name,
        version,
        body: Body::Directory,
    }
}

/// RENAME, once nothing blocks it. It takes no memory.
pub fn rename(
    tree: &mut TreeState,
    held: Reservation,
    dir: u64,
    name: &[u8],
    to: u64,
    to_name: Name,
) -> Result<Changed, Status>
    requires { IsState tree.old }
    ensures done { rename (state_of tree.old) held dir name.now to to_name ≡ (state_of tree.new, result) }
    ensures state { IsState tree.new }
    ensures room { tree.old.nodes.room ≤ tree.new.nodes.room }
{
    let plan = plan_rename(tree, held, dir, name, to, to_name.as_slice())?;
    match plan {
        Planned::Nothing(done) => Ok(done),
        Planned::Free(done) => {
            tree.move_free(dir, name, to, to_name);
            Ok(done)
        }
        Planned::Over(done) => {
            tree.move_over(dir, name, to, to_name);
            Ok(done)
        }
    }
}

/// What RENAME comes to in a tree.
pub fn plan_rename(
    tree: &TreeState,
    held: Reservation,
    dir: u64,
    name: &[u8],
    to: u64,
    to_name: &[u8],
) -> Result<Planned, Status>
    requires { IsState tree.now }
    ensures exact { result ≡ rename_plan (state_of tree.now) held dir name.now to to_name.now }
    ensures there { IfOk result (IsPlannedMove (state_of tree.now) dir name.now to to_name.now) }
{
    plans::rename(&tree.nodes, tree.changes, held, dir, name, to, to_name)
}

/// Why such a call would be refused, up to want of space.
#[tactic(auto, using(crate::proofs::lemmas::Limits::bounds))]
pub fn may(tree: &TreeState, call: &Call, held: Reservation) -> Result<(), Status>
    requires { IsState tree.now }
    ensures { result ≡ may (state_of tree.now) held call.now }
{
    let nodes = &tree.nodes;
    let changes = tree.changes;
    match call {
        Call::Create(spot, mode) => {
            match plans::may_create(nodes, changes, held, spot.dir, spot.name.as_slice(), *mode) {
                Ok(_found) => Ok(()),
                Err(why) => Err(why),
            }
        }
        Call::MkDir(spot) => {
            plans::may_mkdir(nodes, changes, held, spot.dir, spot.name.as_slice())
        }
        Call::Remove(spot) => {
            match plans::may_remove(nodes, changes, held, spot.dir, spot.name.as_slice()) {
                Ok(_file) => Ok(()),
                Err(why) => Err(why),
            }
        }
        Call::RmDir(spot) => {
            match plans::may_rmdir(nodes, changes, held, spot.dir, spot.name.as_slice()) {
                Ok(_gone) => Ok(()),
                Err(why) => Err(why),
            }
        }
        Call::Rename(spot, to) => may_rename(tree, spot, to, held),
        Call::Replace(id, len) => {
            match plans::may_replace_content(nodes, changes, tree.bytes, held, *id, *len) {
                Ok(_file) => Ok(()),
                Err(why) => Err(why),
            }
        }
    }
}

fn may_rename(tree: &TreeState, spot: &Spot, to: &Spot, held: Reservation) -> Result<(), Status>
    requires { IsState tree.now }
    ensures { result ≡ refused (rename_plan (state_of tree.now) held spot.now.dir spot.now.name to.now.dir to.now.name) }
{
    let name = spot.name.as_slice();
    match plan_rename(tree, held, spot.dir, name, to.dir, to.name.as_slice()) {
        Ok(_plan) => Ok(()),
        Err(why) => Err(why),
    }
}
