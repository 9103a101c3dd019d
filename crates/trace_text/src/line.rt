//! What a line of a trace says: `line_of` of `specs/Grammar.antt`.

ghost use Rattle.std.specs.Prelude.{◌≡◌, IfOk};
ghost use Rattle.trace_text.specs.Grammar.{is_skipped, line_of};
ghost use Rattle.command_text.specs.Reading.{Gives};
ghost use Rattle.trace_text.specs.Reading.{IsTimely};

use crate::kinds::read_kind;
use command_text::command::Command;
use command_text::content::Content;
use command_text::line_error::LineError;
use command_text::parts::Words;
use command_text::path::Spot;
use lb_base::items::Bytes;
use std::alloc::Global;

/// There are traces of the versions of LBFS from 1 to this one.
pub const LBFS_TRACED: u64 = 1;

/// How many bytes of a queue are delivered.
#[derive(Clone, Copy)]
pub enum Amount {
    /// `all`: those that are queued at that moment.
    All,
    /// A decimal number, 0 to 2^64 - 1: the first so many, or as many as there are.
    Bytes(u64),
}

/// Whose index a line is about.
#[derive(Clone, Copy)]
pub enum Who {
    /// `server`.
    Server,
    /// The client of this number.
    Client(u64),
}

/// A line of a trace. Terms, drifts and readings are in milliseconds. A reading is 0 to 2^63 - 1:
/// `at` is one of the client's clock, `server` one of the server's. Clients, sessions and rounds are
/// any numbers of 64 bits: whether there is such a client or session is the business of the world.
#[derive(Drop)]
pub enum Line {
    /// `lbfs-trace V`: the first line, with the version of LBFS that the clients speak, 1 to
    /// [`LBFS_TRACED`].
    Version(u32),
    /// `term T`: how long a lease holds, 1 to 3,600,000.
    Term(u64),
    /// `drift E`: how far clocks drift apart, 0 to 3,600,000.
    Drift(u64),
    /// `clients N`: how many clients there are, 1 to 16.
    Clients(u64),
    /// `dir PATH`: a directory that is there from the start. Whether the directory that it stands in
    /// is there, and its name is free, is the business of the world.
    Dir(Spot),
    /// `file PATH CONTENT`: a file that is there from the start, in a directory as `dir` has it. The
    /// content may be of any length, and its bytes are not built yet.
    File {
        spot: Spot,
        content: Content,
    },
    /// `join C c s`: the client gets a session.
    Join {
        client: u64,
        at: u64,
        server: u64,
    },
    /// `do C c COMMAND`: the client's command.
    Do {
        client: u64,
        at: u64,
        command: Command,
    },
    /// `up S n s`: so many bytes that the session's client sent reach the server.
    Up {
        session: u64,
        amount: Amount,
        server: u64,
    },
    /// `down S n c`: so many bytes that the server sent reach the session's client.
    Down {
        session: u64,
        amount: Amount,
        at: u64,
    },
    /// `pass S k s c`: so many times all bytes of the session go up, and then down.
    Pass {
        session: u64,
        rounds: u64,
        server: u64,
        at: u64,
    },
    /// `rawjoin s`: a session is made that is no client's.
    RawJoin {
        server: u64,
    },
    /// `raw S HEX`: the session, which is no client's, sends these bytes. No step.
    Raw {
        session: u64,
        bytes: Bytes,
    },
    /// `settle s`: the server makes the change that came first of those that wait.
    Settle {
        server: u64,
    },
    /// `cut C c`: the client sees its connection lost.
    Cut {
        client: u64,
        at: u64,
    },
    /// `hang S s`: the server sees the session lost.
    Hang {
        session: u64,
        server: u64,
    },
    /// `forge WHO KEY FILE OFFSET COUNT`: the index gets this place for the key, whatever stands there:
    /// a range of a file by its id, where it begins and its length in bytes. No step.
    Forge {
        who: Who,
        key: u64,
        file: u64,
        offset: u64,
        count: u64,
    },
    /// `clear WHO`: the index has no place any more. No step.
    Clear(Who),
    /// `evict C FILE`: the client drops the content that it keeps of the file with this id. No step.
    Evict {
        client: u64,
        file: u64,
    },
    /// `warm C CONTENT`: the client gets the items of a cache file that has this content. No step.
    Warm {
        client: u64,
        content: Content,
    },
    /// An empty line, or one that begins with `#`, whatever bytes follow: it says nothing.
    Skipped,
}

/// Whether a line is empty or begins with `#`.
fn is_skipped(line: &[u8]) -> bool
    ensures { result ≡ is_skipped line.now }
{
    line.is_empty() || line.starts_with(b"#")
}

/// What a line says, where it is in the grammar.
fn said_by(alloc: Global, line: &[u8]) -> Result<Line, LineError>
    ensures { Gives result (line_of line.now) }
{
    if is_skipped(line) {
        return Ok(Line::Skipped);
    }
    let mut words = Words::new(line);
    let Some(kind) = words.next() else {
        return Err(LineError::BadLine);
    };
    read_kind(alloc, kind, &mut words)
}

impl Line {
    /// Reads a line, which stands here without its line feed, in time linear in its length. Every
    /// reading of a clock in it has at most 63 bits. The error is `BadLine` where the line is not
    /// in the grammar, or `Memory`.
    pub fn read(alloc: Global, line: &[u8]) -> Result<Line, LineError>
        ensures read { Gives result (line_of line.now) }
        ensures timely { IfOk result IsTimely }
    {
        said_by(alloc, line)
    }
}
