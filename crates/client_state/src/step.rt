//! What a client does in one step: what it sends, how the operation under way ended, and what is
//! counted. `specs/Counting.antt` has the plain ones.

ghost use Rattle.std.specs.Prelude.{◌≡◌};

use digests::Dig;
use lb_base::items::{Items, Name};
use send_list::SendList;
use transfer_rules::counts::Counts;
use wire::message::Message;
use xdr_codec::attr::Kind;
use xdr_codec::digest::Digest;
use xdr_codec::status::Status;

/// What is wrong with what the other end sent.
#[derive(Drop)]
pub enum BadPeer {
    /// Bytes outside their grammar, with the place of the fault in its record.
    Garbage { at: u64 },
    /// An answer to nothing that waits.
    UnknownXid { xid: u32 },
    /// A chunk's bytes have another digest than was told.
    Digest { got: Dig, wanted: Dig },
    /// A call was not accepted: the accept_stat, or 10 and the reject_stat.
    Denied { code: u32 },
    /// A number that came breaks a bound: 0 where none came.
    Shape { got: u64, wanted: u64 },
}

/// How a command ended.
#[derive(Drop)]
pub enum Outcome {
    /// The file is open: the length and the SHA-1 of its whole content.
    Opened {
        file: u64,
        len: u64,
        sha1: Digest,
    },
    /// A part of an open file: its length and its SHA-1.
    Piece {
        len: u64,
        sha1: Digest,
    },
    /// The file has this version since then: the length and the SHA-1 of its whole content.
    Closed {
        file: u64,
        version: u64,
        len: u64,
        sha1: Digest,
    },
    /// It was done, and has nothing to tell.
    Done,
    /// The names in a directory, in its order.
    Names(Items<Name>),
    /// What the last name of a path stands for: its id, its kind, its version, and its length.
    Seen {
        id: u64,
        kind: Kind,
        version: u64,
        len: u64,
    },
    /// An operation is under way already.
    Busy,
    /// The file isn't open.
    NotOpen,
    /// The file is open already.
    AlreadyOpen,
    /// The file would have had so many bytes, above the limit of a file.
    TooBig(u128),
    /// The connection was lost meanwhile.
    Lost,
    /// Each of four attempts to fetch the file met two versions of it: those that the last one met,
    /// its first GETHASH's before the other.
    Changed {
        first: u64,
        last: u64,
    },
    /// No connection is joined, or it has too few xids left: 1,000,000 for any operation, and as many as
    /// a command on names may need. A listing that needs too many pages ends so too.
    NoLink,
    /// The server answered this status.
    Refused(Status),
    /// The server has no memory.
    PeerMemory,
    /// The other end is not this project's server.
    BadPeer(BadPeer),
    /// Memory ran out.
    Memory,
}

/// How a command ended, and on which call of its operation that rests.
pub struct Ended {
    pub outcome: Outcome,
    /// The call's xid: for Opened the first GETHASH of the last attempt, or the GETLEASE where a content that
    /// was kept is used again; the call that was answered for Closed, Refused, and whatever else ends a
    /// command on names by an answer. 0 where it rests on no call: what the client tells by itself
    /// (AlreadyOpen of a path too), and Lost, Changed, PeerMemory, BadPeer and Memory.
    pub rests_on: u32,
}

/// By hand, so that the crates above prove nothing of how the parts are dropped.
impl Drop for Ended {
    fn drop(self) {
        let Ended {
            outcome,
            rests_on: _,
        } = self;
        drop(outcome);
    }
}

/// What a client does in one step.
pub struct ClientStep {
    /// The messages that it sends, in order.
    pub send: SendList<Message>,
    /// How the operation under way ended, if it did.
    pub ended: Option<Ended>,
    pub counts: Counts,
    /// The id that the path of an open, a rewrite or a look was found to stand for, in the step that found it.
    pub found: Option<u64>,
    /// Whether memory ran out: then the operation under way ended with Memory.
    pub missed: bool,
}

/// By hand, so that the crates above prove nothing of how the parts are dropped.
impl Drop for ClientStep {
    fn drop(self) {
        let (send, ended) = self.into_parts();
        drop(send);
        drop(ended);
    }
}

impl ClientStep {
    /// What is sent, and how the operation under way ended. It takes no memory.
    pub fn into_parts(self) -> (SendList<Message>, Option<Ended>)
        ensures send { result.0 ≡ self.send }
        ensures ended { result.1 ≡ self.ended }
    {
        let ClientStep {
            send,
            ended,
            counts: _,
            found: _,
            missed: _,
        } = self;
        (send, ended)
    }
}
