//! The tree: its one public face. What is read of it, and what its calls come to, is defined in
//! `tree_reading`, and what they make of it in `specs/Step.antt`.

ghost use Rattle.std.specs.Prelude.{◌≡◌, ◌+◌, ◌<◌, ◌≤◌, IfOk, IfSome, OnOk, OnErr, length};
ghost use Rattle.std.specs.Option.{option_copied};
ghost use Rattle.tree_nodes.specs.Nodes.{with_id};
ghost use Rattle.file_tree.specs.Opening.{can_open, opens};
ghost use Rattle.tree_reading.specs.Tree.{empty, content_of, contents_size, file_most};
ghost use Rattle.tree_reading.specs.Reading.{lookup, attr, version, content, chunks, read, list, stands_for, Answers};
ghost use Rattle.tree_reading.specs.Plans.{may, create_plan, may_mkdir, remove_plan, rmdir_plan, rename_plan, replace_plan};
ghost use Rattle.file_tree.specs.Step.{create, mkdir, remove, rmdir, rename, replace};
ghost use Rattle.tree_reading.specs.View.{lent_list, tree_of};
ghost use Rattle.file_tree.specs.View.{IsWithinLimits};

use crate::state::{self, TreeState};
use crate::{opening, steps};
use chunk_cut::chunk::Chunk;
use lb_base::items::{Bytes, Name};
use nfs3_calls::call::Piece;
use nfs3_calls::listing::Listing;
use std::alloc::{AllocError, Global};
use std::marker::Model;
use store::record::Head;
use tree_nodes::content::Content;
use tree_nodes::node::{Body, Node};
use tree_nodes::nodes::Nodes;
use tree_reading::call::{Call, Changed, CreateMode, Planned, Reservation};
use tree_reading::error::TreeError;
use tree_reading::reading::{self, Looked, Standing};
use tree_reading::{answers, listing, plans};
use xdr_codec::attr::Attr;
use xdr_codec::status::Status;

/// A tree of files and directories, and the places that are reserved for nodes more.
pub struct Tree {
    state: TreeState,
}

impl Drop for Tree {
    fn drop(self) {
        let Tree { state } = self;
        drop(state);
    }
}

impl Model for Tree {
    ghost use Rattle.file_tree.specs.State.{TreeView, state_of, IsState};

    ghost Value = { TreeView };

    ghost view = { λ t. record { tree = state_of t.state; room = t.state.nodes.room } };

    ghost invariant = { λ t. IsState t.state };
}

impl Tree {
    /// The root alone, whose id is 1. The one error is running out of memory.
    pub fn new(alloc: Global) -> Result<Tree, AllocError>
        ensures { IfOk result (λ t. t.tree ≡ empty) }
    {
        let state = state::root_alone(alloc)?;
        Ok(Tree { state })
    }

    /// A tree of these nodes, within its limits. It takes no memory.
    pub fn from_nodes(alloc: Global, nodes: Nodes, changes: u64) -> Tree
        requires { IsWithinLimits nodes changes }
        ensures { result.tree ≡ tree_of nodes changes }
    {
        Tree {
            state: state::of_nodes(alloc, nodes, changes),
        }
    }

    /// Makes room for so many nodes more. The one error is running out of memory; the tree stays as it was.
    pub fn reserve(&mut self, count: u32) -> Result<(), AllocError>
        ensures room { OnOk result (count ≤ self.new.room) }
        ensures more { self.old.room ≤ self.new.room }
        ensures tree { self.new.tree ≡ self.old.tree }
    {
        self.state.nodes.reserve(count)
    }

    /// Whether a node may be opened with a name in a directory: the directory is there, and the name
    /// is one that a node may have, and free. It takes no memory.
    pub fn can_open(&self, dir: u64, name: &[u8]) -> bool
        ensures { result ≡ can_open self.now.tree dir name.now }
    {
        opening::may_open(&self.state.nodes, dir, name).is_ok()
    }

    /// Adds a node that the tree opens with, if it may have it. The one error is running out of
    /// memory, as which a content past the limits counts too, and an id of 2^63 or more; the tree
    /// stays as it was.
    pub fn open(&mut self, dir: u64, name: Name, body: Body) -> Result<(), AllocError>
        ensures ok { OnOk result (self.new.tree ≡ opens self.old.tree dir name body) }
        ensures err { OnErr result (self.new.tree ≡ self.old.tree) }
    {
        self.state.open(dir, name, body)
    }

    /// What a store's head says of the tree. It takes no memory.
    pub fn head(&self) -> Head
        ensures { result ≡ record { next = self.now.tree.next; changes = self.now.tree.changes } }
    {
        Head {
            next: self.state.nodes.next(),
            changes: self.state.changes,
        }
    }

    /// What a store's head says once a node was made. It takes no memory.
    #[tactic(auto, using(crate::proofs::lemmas::Limits::bounds))]
    pub fn head_made(&self) -> Head
        ensures { result ≡ record { next = self.now.tree.next + 1; changes = self.now.tree.changes + 1 } }
    {
        Head {
            next: self.state.nodes.next() + 1,
            changes: self.state.changes + 1,
        }
    }

    /// What a store's head says once so many changes more were made. It takes no memory.
    #[tactic(auto, using(crate::proofs::lemmas::Limits::bounds))]
    pub fn head_changed(&self, count: u8) -> Head
        ensures { result ≡ record { next = self.now.tree.next; changes = self.now.tree.changes + count } }
    {
        Head {
            next: self.state.nodes.next(),
            changes: self.state.changes + u64::from(count),
        }
    }

    /// How many bytes all contents have. It takes no memory.
    pub fn bytes(&self) -> u64
        ensures { result ≡ contents_size self.now.tree.nodes }
    {
        self.state.bytes
    }

    /// CREATE. It needs the place of one node, and takes no memory.
    #[tactic(auto, using(tree_reading::proofs::lemmas::Admitted::create_free))]
    pub fn create(
        &mut self,
        dir: u64,
        name: Name,
        mode: CreateMode,
        held: Reservation,
    ) -> Result<Changed, Status>
        requires { 0 < self.old.room }
        ensures done { create self.old.tree held dir name mode ≡ (self.new.tree, result) }
        ensures room { self.old.room ≤ self.new.room + 1 }
    {
        let state = &mut self.state;
        let plan = plans::create(
            &state.nodes,
            state.changes,
            held,
            dir,
            name.as_slice(),
            mode,
        )?;
        if let Some(done) = plan {
            return Ok(done);
        }
        let id = state.nodes.next();
        let node = steps::new_file(state, id, dir, name);
        state.make(node);
        Ok(answers::one(id, 1, answers::made_entry(id)))
    }

    /// MKDIR. It needs the place of one node, and takes no memory.
    #[tactic(auto, using(tree_reading::proofs::lemmas::Admitted::mkdir_free))]
    pub fn mkdir(&mut self, dir: u64, name: Name, held: Reservation) -> Result<Changed, Status>
        requires { 0 < self.old.room }
        ensures done { mkdir self.old.tree held dir name ≡ (self.new.tree, result) }
        ensures room { self.old.room ≤ self.new.room + 1 }
    {
        let state = &mut self.state;
        plans::may_mkdir(&state.nodes, state.changes, held, dir, name.as_slice())?;
        let id = state.nodes.next();
        let version = state.changes + 1;
        let node = steps::new_directory(id, dir, name, version);
        state.make(node);
        Ok(answers::one(id, version, answers::name_entry(id)))
    }

    /// REMOVE, once nothing blocks it. It takes no memory.
    #[tactic(auto, using(crate::proofs::lemmas::Limits::by_remove))]
    pub fn remove(&mut self, dir: u64, name: &[u8], held: Reservation) -> Result<Changed, Status>
        ensures done { remove self.old.tree held dir name.now ≡ (self.new.tree, result) }
        ensures room { self.old.room ≤ self.new.room }
    {
        let state = &mut self.state;
        let done = plans::remove(&state.nodes, state.changes, held, dir, name)?;
        state.take_away(dir, name);
        Ok(done)
    }

    /// RMDIR. It takes no memory.
    #[tactic(auto, using(crate::proofs::lemmas::Limits::by_rmdir))]
    pub fn rmdir(&mut self, dir: u64, name: &[u8], held: Reservation) -> Result<Changed, Status>
        ensures done { rmdir self.old.tree held dir name.now ≡ (self.new.tree, result) }
        ensures room { self.old.room ≤ self.new.room }
    {
        let state = &mut self.state;
        let done = plans::rmdir(&state.nodes, state.changes, held, dir, name)?;
        state.take_away(dir, name);
        Ok(done)
    }

    /// RENAME, once nothing blocks it. It takes no memory.
    pub fn rename(
        &mut self,
        dir: u64,
        name: &[u8],
        to: u64,
        to_name: Name,
        held: Reservation,
    ) -> Result<Changed, Status>
        ensures done { rename self.old.tree held dir name.now to to_name ≡ (self.new.tree, result) }
        ensures room { self.old.room ≤ self.new.room }
    {
        steps::rename(&mut self.state, held, dir, name, to, to_name)
    }

    /// COMMITTMP, once its content is whole and nothing blocks it. It takes no memory.
    #[tactic(auto, using(crate::proofs::lemmas::Limits::by_replace))]
    pub fn replace(
        &mut self,
        id: u64,
        content: Content,
        held: Reservation,
    ) -> Result<Changed, Status>
        ensures done { replace self.old.tree held id content ≡ (self.new.tree, result) }
        ensures room { self.old.room ≤ self.new.room }
    {
        let state = &mut self.state;
        let len = content.len() as u64;
        let version = plans::replace(&state.nodes, state.changes, state.bytes, held, id, len)?;
        let entry = answers::commit_entry(id, version, &content);
        state.refill(id, version, content);
        Ok(answers::one(id, version, entry))
    }

    /// Why such a call would be refused, up to want of space. It changes nothing and takes no
    /// memory.
    pub fn check(&self, call: &Call, held: Reservation) -> Result<(), Status>
        ensures { result ≡ may self.now.tree held call.now }
    {
        steps::may(&self.state, call, held)
    }

    /// What CREATE comes to: the file that is there and may be, or none, and one is to be made. It
    /// changes nothing and takes no memory.
    pub fn plan_create(
        &self,
        dir: u64,
        name: &[u8],
        mode: CreateMode,
        held: Reservation,
    ) -> Result<Option<Changed>, Status>
        ensures { result ≡ create_plan self.now.tree held dir name.now mode }
    {
        plans::create(&self.state.nodes, self.state.changes, held, dir, name, mode)
    }

    /// Why MKDIR would be refused. It changes nothing and takes no memory.
    pub fn plan_mkdir(&self, dir: u64, name: &[u8], held: Reservation) -> Result<(), Status>
        ensures { result ≡ may_mkdir self.now.tree held dir name.now }
    {
        plans::may_mkdir(&self.state.nodes, self.state.changes, held, dir, name)
    }

    /// What REMOVE comes to. It changes nothing and takes no memory.
    #[tactic(auto, using(crate::proofs::lemmas::Limits::bounds))]
    pub fn plan_remove(&self, dir: u64, name: &[u8], held: Reservation) -> Result<Changed, Status>
        ensures { result ≡ remove_plan self.now.tree held dir name.now }
    {
        plans::remove(&self.state.nodes, self.state.changes, held, dir, name)
    }

    /// What RMDIR comes to. It changes nothing and takes no memory.
    #[tactic(auto, using(crate::proofs::lemmas::Limits::bounds))]
    pub fn plan_rmdir(&self, dir: u64, name: &[u8], held: Reservation) -> Result<Changed, Status>
        ensures { result ≡ rmdir_plan self.now.tree held dir name.now }
    {
        plans::rmdir(&self.state.nodes, self.state.changes, held, dir, name)
    }

    /// The version that a file comes to by a content of so many bytes. It changes nothing and takes no
    /// memory.
    #[tactic(auto, using(crate::proofs::lemmas::Limits::bounds))]
    pub fn plan_replace(&self, id: u64, len: u64, held: Reservation) -> Result<u64, Status>
        ensures { result ≡ replace_plan self.now.tree held id len }
    {
        let state = &self.state;
        plans::replace(&state.nodes, state.changes, state.bytes, held, id, len)
    }

    /// What RENAME comes to. It changes nothing and takes no memory.
    pub fn plan_rename(
        &self,
        dir: u64,
        name: &[u8],
        to: u64,
        to_name: &[u8],
        held: Reservation,
    ) -> Result<Planned, Status>
        ensures { result ≡ rename_plan self.now.tree held dir name.now to to_name.now }
    {
        steps::plan_rename(&self.state, held, dir, name, to, to_name)
    }

    /// What a name stands for, if for anything, whatever its spelling. It takes no memory.
    pub fn stands_for(&self, dir: u64, name: &[u8]) -> Option<Standing>
        ensures { result ≡ stands_for self.now.tree.nodes dir name.now }
    {
        reading::at_name(&self.state.nodes, dir, name)
    }

    /// LOOKUP: the id of what a name stands for, its attributes and the directory's. It takes no
    /// memory.
    #[tactic(auto, using(crate::proofs::lemmas::Limits::bounds))]
    pub fn lookup(&self, dir: u64, name: &[u8]) -> Result<Looked, Status>
        ensures { result ≡ lookup self.now.tree.nodes dir name.now }
    {
        reading::lookup(&self.state.nodes, self.state.changes, dir, name)
    }

    /// The attributes of a file or directory. It takes no memory.
    #[tactic(auto, using(crate::proofs::lemmas::Limits::bounds))]
    pub fn attr(&self, id: u64) -> Result<Attr, Status>
        ensures { result ≡ attr self.now.tree.nodes id }
    {
        reading::attr(&self.state.nodes, self.state.changes, id)
    }

    /// The version of a file or directory. It takes no memory.
    pub fn version(&self, id: u64) -> Result<u64, Status>
        ensures { result ≡ version self.now.tree.nodes id }
    {
        reading::version(&self.state.nodes, id)
    }

    /// The node of an id, if there is one. It takes no memory.
    #[tactic(auto, using(crate::proofs::lemmas::Limits::bounds))]
    pub fn node(&self, id: u64) -> Option<&Node>
        ensures node { option_copied result ≡ with_id self.now.tree.nodes id }
        ensures short { IfSome result (λ n. length (content_of n.now.body) ≤ file_most) }
    {
        reading::node(&self.state.nodes, self.state.changes, id)
    }

    /// The bytes of a file. It takes no memory.
    pub fn bytes_of(&self, id: u64) -> Result<&[u8], Status>
        ensures { lent_list result ≡ content self.now.tree.nodes id }
    {
        reading::file_bytes(&self.state.nodes, id)
    }

    /// The chunks of a file, in order. It takes no memory.
    pub fn chunks(&self, id: u64) -> Result<&[Chunk], Status>
        ensures { lent_list result ≡ chunks self.now.tree.nodes id }
    {
        reading::file_chunks(&self.state.nodes, id)
    }

    /// A copy of a file's content.
    pub fn content(&self, id: u64) -> Result<Bytes, TreeError>
        ensures { Answers (content self.now.tree.nodes id) result }
    {
        reading::content(self.state.alloc, &self.state.nodes, id)
    }

    /// READ: a copy of the bytes of a file from an offset on, at most `count` and at most 65,536.
    #[tactic(auto, using(crate::proofs::lemmas::Limits::bounds))]
    pub fn read(&self, id: u64, offset: u64, count: u32) -> Result<Piece, TreeError>
        ensures { Answers (read self.now.tree.nodes id offset count) result }
    {
        let state = &self.state;
        reading::read(state.alloc, &state.nodes, state.changes, id, offset, count)
    }

    /// READDIR: copies of the entries behind a cookie, in an answer of at most `count` bytes.
    #[tactic(auto, using(crate::proofs::lemmas::Limits::bounds))]
    pub fn list(
        &self,
        dir: u64,
        cookie: u64,
        verifier: u64,
        count: u32,
    ) -> Result<Listing, TreeError>
        ensures { Answers (list self.now.tree.nodes dir cookie verifier count) result }
    {
        let state = &self.state;
        listing::list(
            state.alloc,
            &state.nodes,
            state.changes,
            dir,
            cookie,
            verifier,
            count,
        )
    }
}
