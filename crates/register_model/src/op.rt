//! The operations of a history, and how they ended. What is said of them (`changes`, `succeeded` and
//! the others) stands in `specs/Register.antt`.

ghost use Rattle.std.specs.Prelude.{◌≡◌};
ghost use Rattle.register_model.specs.Register.{changes, is_opened, is_closed, is_done, is_stale, is_lost, is_untold, succeeded};
ghost use Rattle.register_model.specs.Test.{is_open};
ghost use Rattle.register_model.specs.Summary.{is_other, is_refused};

use lb_base::items::{Bytes, Items, Name};
use shared_bytes::SharedBytes;

/// The status by which a file is gone: NFS3ERR_STALE of RFC 1813, section 2.6.
const STALE: u32 = 70;

/// What an operation was to do: the first word of its command.
#[derive(Clone, Copy)]
pub enum Word {
    /// Opens a file: the client gets its whole content, as it is at one moment.
    Open,
    /// Opens a file with an empty copy, to be written anew: its content isn't fetched.
    Rewrite,
    /// Writes bytes into the client's copy of an open file.
    Write,
    /// Cuts that copy to a length, or fills it with zeros up to it.
    Trunc,
    /// Reads bytes of that copy.
    Read,
    /// Closes a file: that copy replaces the whole file at one moment.
    Close,
    /// Drops that copy, and leaves the file as it is.
    Abandon,
    /// Makes an empty file.
    Make,
    /// Makes a directory.
    Mkdir,
    /// Removes a file.
    Remove,
    /// Removes an empty directory.
    Rmdir,
    /// Gives a file or a directory another name; a file that had that name is gone.
    Rename,
    /// Lists the names of a directory.
    List,
    /// Looks up what a name stands for.
    Look,
}

/// How an operation ended. Lengths are bytes, digests the 20 bytes of SHA-1.
pub enum Outcome {
    /// An open got the whole content.
    Opened {
        /// The content's length.
        len: u64,
        /// The content's digest.
        sha1: Bytes,
    },
    /// A read gave bytes of an open file.
    Piece {
        /// How many bytes it gave.
        len: u64,
        /// Their digest.
        sha1: Bytes,
    },
    /// A close replaced the file.
    Closed {
        /// The version that the file has since then.
        version: u64,
        /// The length of its content.
        len: u64,
        /// The digest of its content.
        sha1: Bytes,
    },
    /// It was done, and has nothing to tell.
    Done,
    /// The names of a directory.
    Names(Items<Name>),
    /// What a name stands for.
    Seen {
        /// The id of the file or directory.
        file: u64,
        /// Its kind (ftype3 of RFC 1813, section 2.6): 1 for a file, 2 for a directory.
        kind: u32,
        /// Its version.
        version: u64,
        /// The length of a file; of a directory the number of its names.
        len: u64,
    },
    /// The client had an operation under way.
    Busy,
    /// The file isn't open there.
    NotOpen,
    /// The file is open there already.
    AlreadyOpen,
    /// The connection was lost first: it may have been done or not.
    Lost,
    /// Each attempt of an open to fetch the content met a change of the file.
    Changed {
        /// The version with which the last attempt began.
        first: u64,
        /// The version that it then met.
        last: u64,
    },
    /// The server refused it, with this status (nfsstat3 of RFC 1813, section 2.6, or one of LBFS).
    Refused(u32),
    /// The server lacked memory.
    PeerMemory,
    /// The other end broke the protocol; the number says how.
    BadPeer(u32),
    /// The file would have had so many bytes, above the limit of a file.
    TooBig(u128),
    /// The client lacked memory.
    Memory,
    /// The client had no connection.
    NoLink,
    /// It hasn't ended.
    Running,
}

/// What an operation sent and received.
#[derive(Clone, Copy)]
pub struct Traffic {
    /// CONDWRITE calls sent.
    pub cond: u64,
    /// TMPWRITE calls sent.
    pub tmp: u64,
    /// READ calls sent.
    pub read: u64,
    /// Bytes of file data: those sent by TMPWRITE and those received by READ.
    pub data: u64,
}

/// One operation of a client, or the change of a file by a session that is no client's. The number of a
/// client's is its place among them, from 1; steps are numbered from 1 too.
pub struct Op {
    /// The client's number, from 1, or 0 of a change by a session that is none's.
    pub client: u32,
    /// What it was to do.
    pub word: Word,
    /// The file's id, 0 where none is known.
    pub file: u64,
    /// The step that began it.
    pub begin: u64,
    /// The step that ended it, if one did.
    pub end: Option<u64>,
    /// The step at which the file's content was read or changed, if one did.
    pub point: Option<u64>,
    /// How it ended, or that it hasn't.
    pub outcome: Outcome,
    /// The content that an open got, or that a close stores; of any other operation, no byte.
    pub value: SharedBytes,
    /// What it sent and received.
    pub traffic: Traffic,
}

/// A file that was there before the first step.
pub struct Opening {
    /// The file's id.
    pub file: u64,
    /// Its whole content.
    pub content: Bytes,
}

// Written by hand, it is proved here alone; derived, each crate above would prove how each part is let
// go.
impl Drop for Outcome {
    fn drop(self) {
        match self {
            Outcome::Opened { len: _, sha1 }
            | Outcome::Piece { len: _, sha1 }
            | Outcome::Closed {
                version: _,
                len: _,
                sha1,
            } => drop(sha1),
            Outcome::Names(names) => drop(names),
            Outcome::Seen {
                file: _,
                kind: _,
                version: _,
                len: _,
            }
            | Outcome::Changed { first: _, last: _ }
            | Outcome::Refused(_)
            | Outcome::BadPeer(_)
            | Outcome::TooBig(_) => {}
            Outcome::Done
            | Outcome::Busy
            | Outcome::NotOpen
            | Outcome::AlreadyOpen
            | Outcome::Lost
            | Outcome::PeerMemory
            | Outcome::Memory
            | Outcome::NoLink
            | Outcome::Running => {}
        }
    }
}

// Written by hand, it is proved here alone; derived, each crate above would prove how each part is let
// go.
impl Drop for Op {
    fn drop(self) {
        let Op {
            client: _,
            word: _,
            file: _,
            begin: _,
            end: _,
            point: _,
            outcome,
            value,
            traffic: _,
        } = self;
        drop(outcome);
        drop(value);
    }
}

// Written by hand, it is proved here alone; derived, each crate above would prove how each part is let
// go.
impl Drop for Opening {
    fn drop(self) {
        let Opening { file: _, content } = self;
        drop(content);
    }
}

impl Word {
    /// Whether it opens a file.
    pub fn is_open(self) -> bool
        ensures { result ≡ is_open self }
    {
        matches!(self, Word::Open)
    }

    /// Whether it changes the content of a file where it is done.
    pub fn changes(self) -> bool
        ensures { result ≡ changes self }
    {
        matches!(self, Word::Close | Word::Make | Word::Remove | Word::Rename)
    }
}

impl Outcome {
    /// An open got its content.
    pub fn is_opened(&self) -> bool
        ensures { result ≡ is_opened self.now }
    {
        matches!(self, Outcome::Opened { .. })
    }

    /// A close replaced its file.
    pub fn is_closed(&self) -> bool
        ensures { result ≡ is_closed self.now }
    {
        matches!(self, Outcome::Closed { .. })
    }

    /// It was done, with nothing to tell.
    pub fn is_done(&self) -> bool
        ensures { result ≡ is_done self.now }
    {
        matches!(self, Outcome::Done)
    }

    /// It was refused since its file is gone.
    pub fn is_stale(&self) -> bool
        ensures { result ≡ is_stale self.now }
    {
        match self {
            Outcome::Refused(status) => *status == STALE,
            _ => false,
        }
    }

    /// The connection was lost before it ended.
    pub fn is_lost(&self) -> bool
        ensures { result ≡ is_lost self.now }
    {
        matches!(self, Outcome::Lost)
    }

    /// Nobody was told whether it was done.
    pub fn is_untold(&self) -> bool
        ensures { result ≡ is_untold self.now }
    {
        matches!(self, Outcome::Lost | Outcome::Running)
    }

    /// It was done, and was neither an open nor a close.
    pub fn is_other(&self) -> bool
        ensures { result ≡ is_other self.now }
    {
        matches!(
            self,
            Outcome::Done | Outcome::Piece { .. } | Outcome::Names(_) | Outcome::Seen { .. }
        )
    }

    /// It ended, and was not done.
    pub fn is_refused(&self) -> bool
        ensures { result ≡ is_refused self.now }
    {
        !matches!(
            self,
            Outcome::Opened { .. }
                | Outcome::Closed { .. }
                | Outcome::Done
                | Outcome::Piece { .. }
                | Outcome::Names(_)
                | Outcome::Seen { .. }
                | Outcome::Running
        )
    }
}

impl Op {
    /// It ended as a change of its file that was made. A rename is over a file where it has the id
    /// of one.
    pub fn succeeded(&self) -> bool
        ensures { result ≡ succeeded self.now }
    {
        match self.word {
            Word::Close => self.outcome.is_closed(),
            Word::Make | Word::Remove => self.outcome.is_done(),
            Word::Rename => self.outcome.is_done() && 0 < self.file,
            _ => false,
        }
    }
}
