//! How far a command on names has come (`specs/Walk.antt`).

ghost use Rattle.std.specs.Prelude.{◌≡◌};
ghost use Rattle.path_calls.specs.Walk.{from_root, begun};

use crate::answers;
use command_text::path::{Path, PathCommand, Spot};
use lb_base::items::{Items, Name};
use std::alloc::Global;
use xdr_codec::handle::ROOT;

/// What is done where the directory has been reached.
#[derive(Drop)]
pub enum Goal {
    /// The name is looked up, to be opened.
    Find(Name),
    /// The name is looked up, and its file written anew.
    Rewrite(Name),
    /// The name is looked up, to be told of.
    Look(Name),
    /// The directory itself is told of.
    LookRoot,
    /// Its entries are listed, page by page.
    List(Pages),
    Make(Name),
    MakeDir(Name),
    Remove(Name),
    RemoveDir(Name),
    /// The name is to move to that spot, which is walked to next.
    RenameFrom(Name, Spot),
    /// The name in the directory of this id moves here, to the second name.
    RenameTo(u64, Name, Name),
}

/// The pages of a directory that came so far.
#[derive(Drop)]
pub struct Pages {
    /// The names on them.
    pub names: Items<Name>,
    /// How many READDIRs were answered.
    pub count: u32,
    /// Behind which entry the next page begins.
    pub cookie: u64,
    /// What came with that cookie.
    pub verifier: u64,
}

/// A walk: names that are still to be looked up, the first in the directory of this id, and what is
/// done behind them.
#[derive(Drop)]
pub struct Walk {
    pub dir: u64,
    pub left: Path,
    pub goal: Goal,
}

/// A walk from the root. It takes no memory.
pub fn from_root(left: Path, goal: Goal) -> Walk
    ensures { result ≡ from_root left goal }
{
    Walk {
        dir: ROOT,
        left,
        goal,
    }
}

impl Walk {
    /// The walk that a command begins with. It takes no memory.
    pub fn new(alloc: Global, command: PathCommand) -> Walk
        ensures { result ≡ begun command }
    {
        match command {
            PathCommand::Find(spot) => from_root(spot.dirs, Goal::Find(spot.name)),
            PathCommand::Rewrite(spot) => from_root(spot.dirs, Goal::Rewrite(spot.name)),
            PathCommand::Look(spot) => from_root(spot.dirs, Goal::Look(spot.name)),
            PathCommand::LookRoot => from_root(Items::new(alloc), Goal::LookRoot),
            PathCommand::List(path) => {
                let pages = Pages {
                    names: Items::new(alloc),
                    count: 0,
                    cookie: 0,
                    verifier: 0,
                };
                from_root(path, Goal::List(pages))
            }
            PathCommand::Make(spot) => from_root(spot.dirs, Goal::Make(spot.name)),
            PathCommand::MakeDir(spot) => from_root(spot.dirs, Goal::MakeDir(spot.name)),
            PathCommand::Remove(spot) => from_root(spot.dirs, Goal::Remove(spot.name)),
            PathCommand::RemoveDir(spot) => from_root(spot.dirs, Goal::RemoveDir(spot.name)),
            PathCommand::Rename(from, to) => {
                answers::arrive(alloc, ROOT, from.dirs, Goal::RenameFrom(from.name, to))
            }
        }
    }
}
