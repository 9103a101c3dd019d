//! What follows from the definitions of a tree's calls, whatever is called.

ghost use Rattle.std.specs.Prelude.{◌≡◌, ℕ, ◌+◌, ◌≤◌, List, [], length, None, Ok};
ghost use Rattle.store.specs.declared.record.Kept.{Kept};
ghost use Rattle.file_tree.specs.Storing.{with_given, create_gives, mkdir_gives, remove_gives, rename_gives, replace_gives, IsStored};
ghost use Rattle.tree_reading.specs.declared.call.Changed.{Changed};
ghost use Rattle.tree_reading.specs.declared.call.CreateMode.{CreateMode};
ghost use Rattle.tree_reading.specs.declared.call.Reservation.{Reservation};
ghost use Rattle.tree_reading.specs.Tree.{Tree, empty};
ghost use Rattle.tree_reading.specs.Plans.{create_plan, may_mkdir, remove_plan, rmdir_plan, rename_plan, replace_plan};
ghost use Rattle.file_tree.specs.Step.{create, mkdir, remove, rmdir, rename, replace, made};

/// The id that the next node gets never falls, and a node that is made gets that id and raises it: so
/// no id is given twice, whatever is removed.
pub fn ids_come_once()
    ensures create { (t : Tree) (held : Reservation) (dir : ℕ) (name : List ℕ) (m : CreateMode) → t.next ≤ (create t held dir name m).0.next }
    ensures made { (t : Tree) (held : Reservation) (dir : ℕ) (name : List ℕ) (m : CreateMode)
        (done : Changed) → create_plan t held dir name m ≡ Ok None
        → (create t held dir name m).1 ≡ Ok done → (done.id ≡ t.next)
        × ((create t held dir name m).0.next ≡ t.next + 1) }
    ensures mkdir { (t : Tree) (held : Reservation) (dir : ℕ) (name : List ℕ) (done : Changed)
        → (mkdir t held dir name).1 ≡ Ok done → (done.id ≡ t.next)
        × ((mkdir t held dir name).0.next ≡ t.next + 1) }
    ensures remove { (t : Tree) (held : Reservation) (dir : ℕ) (name : List ℕ) → (remove t held dir name).0.next ≡ t.next }
    ensures rmdir { (t : Tree) (held : Reservation) (dir : ℕ) (name : List ℕ) → (rmdir t held dir name).0.next ≡ t.next }
    ensures rename { (t : Tree) (held : Reservation) (dir : ℕ) (name : List ℕ) (to : ℕ) (to_name : List ℕ) → (rename t held dir name to to_name).0.next ≡ t.next }
    ensures replace { (t : Tree) (held : Reservation) (id : ℕ) (content : List ℕ) → (replace t held id content).0.next ≡ t.next }
{}

/// A store that kept a tree whose ids stand once, and is given what a call gives it
/// (`specs/Storing.antt`), keeps the tree that the call leaves: of each of the six changes, also where
/// it is refused, which gives nothing. Of no record it keeps the root alone.
#[tactic(auto, using(crate::proofs::lemmas::Stored::empty_stored))]
pub fn calls_keep()
    ensures empty { IsStored [] empty }
    ensures create { (t : Tree) (held : Reservation) (dir : ℕ) (name : List ℕ) (m : CreateMode)
        (records : List Kept) → IsStored records t
        → IsStored (with_given
        (create_gives t dir name (create_plan t held dir name m)) records)
        (create t held dir name m).0 }
    ensures mkdir { (t : Tree) (held : Reservation) (dir : ℕ) (name : List ℕ)
        (records : List Kept) → IsStored records t
        → IsStored (with_given (mkdir_gives t dir name (may_mkdir t held dir name)) records)
        (mkdir t held dir name).0 }
    ensures remove { (t : Tree) (held : Reservation) (dir : ℕ) (name : List ℕ)
        (records : List Kept) → IsStored records t
        → IsStored (with_given (remove_gives t dir (remove_plan t held dir name)) records)
        (remove t held dir name).0 }
    ensures rmdir { (t : Tree) (held : Reservation) (dir : ℕ) (name : List ℕ)
        (records : List Kept) → IsStored records t
        → IsStored (with_given (remove_gives t dir (rmdir_plan t held dir name)) records)
        (rmdir t held dir name).0 }
    ensures rename { (t : Tree) (held : Reservation) (dir : ℕ) (name : List ℕ) (to : ℕ)
        (to_name : List ℕ) (records : List Kept) → IsStored records t
        → IsStored (with_given
        (rename_gives t dir name to to_name (rename_plan t held dir name to to_name)) records)
        (rename t held dir name to to_name).0 }
    ensures replace { (t : Tree) (held : Reservation) (id : ℕ) (content : List ℕ)
        (records : List Kept) → IsStored records t
        → IsStored (with_given
        (replace_gives t id content (replace_plan t held id (length content))) records)
        (replace t held id content).0 }
{}
