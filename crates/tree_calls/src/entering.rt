//! Which calls may make entries of the journal (`enters` in `specs/Waiting.antt`). None of this takes
//! memory.

ghost use Rattle.std.specs.Prelude.{◌≡◌, false};
ghost use Rattle.nfs3_calls.specs.declared.message.Nfs.TheVariants as nfs;
ghost use Rattle.tree_calls.specs.Waiting.{enters};

use crate::asking::{asks_remove, asks_rename};
use crate::changing::mode_of;
use crate::naming::id_of;
use file_tree::tree::Tree;
use nfs3_calls::making::{NewDir, NewFile};
use nfs3_calls::message::Nfs;
use nfs3_calls::place::{Place, Rename};
use tree_reading::call::Reservation;

fn create_enters(tree: &Tree, held: Reservation, new: &NewFile) -> bool
    ensures { result ≡ enters tree.now.tree held false (nfs.Create new.now) }
{
    let name = new.place.name.as_slice();
    match id_of(&new.place.dir) {
        Ok(dir) => tree.plan_create(dir, name, mode_of(&new.how), held).is_ok(),
        Err(_) => false,
    }
}

fn mkdir_enters(tree: &Tree, held: Reservation, new: &NewDir) -> bool
    ensures { result ≡ enters tree.now.tree held false (nfs.MkDir new.now) }
{
    let name = new.place.name.as_slice();
    match id_of(&new.place.dir) {
        Ok(dir) => tree.plan_mkdir(dir, name, held).is_ok(),
        Err(_) => false,
    }
}

fn remove_enters(tree: &Tree, held: Reservation, busy: bool, place: &Place) -> bool
    ensures { result ≡ enters tree.now.tree held busy (nfs.Remove place.now) }
{
    match id_of(&place.dir) {
        Ok(dir) => asks_remove(tree, held, busy, dir, place.name.as_slice()).is_ok(),
        Err(_) => false,
    }
}

fn rmdir_enters(tree: &Tree, held: Reservation, place: &Place) -> bool
    ensures { result ≡ enters tree.now.tree held false (nfs.RmDir place.now) }
{
    match id_of(&place.dir) {
        Ok(dir) => tree.plan_rmdir(dir, place.name.as_slice(), held).is_ok(),
        Err(_) => false,
    }
}

fn rename_enters(tree: &Tree, held: Reservation, busy: bool, rename: &Rename) -> bool
    ensures { result ≡ enters tree.now.tree held busy (nfs.Rename rename.now) }
{
    let Ok(dir) = id_of(&rename.from.dir) else {
        return false;
    };
    let Ok(to) = id_of(&rename.to.dir) else {
        return false;
    };
    let name = rename.from.name.as_slice();
    let to_name = rename.to.name.as_slice();
    asks_rename(tree, held, busy, dir, name, to, to_name).is_ok()
}

/// Whether a call that may change the tree is not refused, so that it may make entries, at once or
/// once it has waited. It changes nothing.
pub fn enters(tree: &Tree, call: &Nfs, held: Reservation, busy: bool) -> bool
    ensures { result ≡ enters tree.now.tree held busy call.now }
{
    match call {
        Nfs::Create(new) => create_enters(tree, held, new),
        Nfs::MkDir(new) => mkdir_enters(tree, held, new),
        Nfs::Remove(place) => remove_enters(tree, held, busy, place),
        Nfs::RmDir(place) => rmdir_enters(tree, held, place),
        Nfs::Rename(rename) => rename_enters(tree, held, busy, rename),
        _ => false,
    }
}
