//! What a shell asks of its client: one command after the other, each done before the next.

ghost use Rattle.std.specs.Prelude.{◌≡◌, ℕ, ◌≤◌, List, length, Bool, IfOk};
ghost use Rattle.command_text.specs.declared.command.Command.{Command};
ghost use Rattle.limits.specs.declared.TheConstants.{FILE_MOST};
ghost use Rattle.shell_walks.specs.Fetched.{Fetched};
ghost use Rattle.shell_walks.specs.declared.remote.Answer.{Answer};

use command_text::command::Command;
use lb_base::items::{Bytes, Items, Name};
use std::alloc::{AllocError, Global};

/// Why a command wasn't done.
#[derive(Clone, Copy)]
pub enum Why {
    /// The file isn't open, or is, or an operation is under way: a shell makes no such command.
    Order,
    /// The file would be larger than any may be.
    TooBig,
    /// The connection was lost meanwhile: it may have been done, or not.
    Lost,
    /// The connection was lost meanwhile, and what was asked changes nothing.
    Cut,
    /// The file changed each time that it was fetched.
    Changed,
    /// There is no connection, and none can be had.
    NoLink,
    /// The server refused it, with this status (nfsstat3 of RFC 1813, section 2.6, or one of LBFS).
    Refused(u32),
    /// The server lacked memory.
    PeerMemory,
    /// The other end broke the protocol; the number says how.
    BadPeer(u32),
    /// It is the root, which has no other name, and stays.
    Root,
    /// Memory ran out.
    Memory,
    /// It was made, and nobody stored in it yet: somebody puts it, a put of it was stopped, or it was only made.
    Unstored,
}

/// What a name stands for.
#[derive(Clone, Copy)]
pub struct Seen {
    /// Its id.
    pub id: u64,
    /// Whether it is a directory.
    pub is_dir: bool,
    /// Its version.
    pub version: u64,
    /// The bytes of a file, or the names in a directory.
    pub len: u64,
}

/// What a listing told of a directory.
pub struct Listed {
    /// Its names, in its order.
    pub names: Items<Name>,
    /// The id of each, in the same order; no id where they aren't known.
    pub ids: Items<u64>,
}

// By hand: docs/proving/dropping.md.
impl Drop for Listed {
    fn drop(self) {
        let Listed { names, ids } = self;
        drop(names);
        drop(ids);
    }
}

/// How a command ended.
pub enum Answer {
    /// It was done, and has nothing to tell.
    Done,
    /// A file was made, and has this id.
    Made(u64),
    /// The file with this id is open.
    Opened(u64),
    /// The file was stored, and has this version.
    Closed(u64),
    /// What the name stands for.
    Seen(Seen),
    /// What is in a directory.
    Names(Listed),
    /// It wasn't done.
    Failed(Why),
    /// It wasn't stored, but a file was made for it, which may stay, without bytes.
    Left(Why),
}

// By hand: docs/proving/dropping.md.
impl Drop for Answer {
    fn drop(self) {
        match self {
            Answer::Names(listed) => drop(listed),
            Answer::Done
            | Answer::Made(_)
            | Answer::Opened(_)
            | Answer::Closed(_)
            | Answer::Seen(_)
            | Answer::Failed(_)
            | Answer::Left(_) => {}
        }
    }
}

/// A client that is asked one command after the other.
pub trait Remote {
    /// What a command may come to, and leave.
    ghost asks: { Self → Command → Answer → Self → Type 0 };

    /// What the client has of an open file.
    ghost content: { Self → ℕ → Fetched };

    /// What an offer of bytes may leave.
    ghost offers: { Self → List ℕ → Self → Type 0 };

    /// What the taking of a cache file's bytes may leave, by whether it was done.
    ghost warms: { Self → List ℕ → Bool → Self → Type 0 };

    /// Which bytes a cache file may be given in place of those that it has.
    ghost saves: { Self → List ℕ → List ℕ → Type 0 };

    /// What the giving up of its leases may leave.
    ghost farewells: { Self → Self → Type 0 };

    /// Asks for a command, and waits until it has ended.
    fn ask(&mut self, alloc: Global, command: Command) -> Answer
        ensures { asks self.old command result self.new };

    /// The content of an open file; no bytes where it isn't open.
    fn content(&self, file: u64) -> &[u8]
        ensures { result.now ≡ (content self.now file).bytes };

    /// The version in which that was fetched; 0 where it isn't open.
    fn version(&self, file: u64) -> u64
        ensures { result ≡ (content self.now file).version };

    /// Offers bytes that the host has, so that a fetch doesn't bring those of them again: a hint, which
    /// nobody trusts.
    fn offer(&mut self, alloc: Global, bytes: Bytes)
        requires { length bytes ≤ FILE_MOST }
        ensures { offers self.old bytes self.new };

    /// What stands in a cache file with these bytes is the client's, so that a fetch doesn't bring it again: hints,
    /// which nobody trusts. Whether there was memory for it.
    fn warm(&mut self, alloc: Global, bytes: &[u8]) -> bool
        ensures { warms self.old bytes.now result self.new };

    /// The bytes of a cache file with what the client keeps, in place of these, whose items go behind. The one error
    /// is running out of memory.
    fn kept(&self, alloc: Global, old: &[u8]) -> Result<Bytes, AllocError>
        ensures { IfOk result (λ bytes. saves self.now old.now bytes) };

    /// Gives up all leases that the server may think it has, since nobody answers a RECALL until the next command.
    /// Where it can't be told so, nothing comes of it.
    fn farewell(&mut self, alloc: Global)
        ensures { farewells self.old self.new };
}
