//! Messages, and what is known of those that are awaited. `specs/Message.antt` states what each
//! says, and `specs/Parse.antt` which may come.

ghost use Rattle.std.specs.Prelude.{◌≡◌};
ghost use Rattle.wire.specs.Message.{program_of, program_number, procedure_number, body_version};
ghost use Rattle.wire.specs.Parse.{serves_files, serves_callbacks};

use hash_calls::message::{Back, BackProc, Lb, LbProc};
use lb_base::items::Items;
use nfs3_calls::message::{Nfs, NfsProc};

/// The program number of NFS (RFC 1813, section 3.1).
pub const NFS_PROGRAM: u32 = 100_003;

/// The version of NFS.
pub const NFS_VERSION: u32 = 3;

/// The program number of LBFS.
pub const LBFS_PROGRAM: u32 = 0x2000_4c42;

/// The versions of LBFS are served from this one on.
pub const LBFS_LEAST: u32 = 1;

/// And up to this one.
pub const LBFS_SERVED: u32 = 1;

/// The version of LBFS that clients speak.
pub const LBFS_SPOKEN: u32 = 1;

/// The program number of the callback program, which a server calls on a client's connection.
pub const BACK_PROGRAM: u32 = 0x2000_4c43;

/// The version of the callback program.
pub const BACK_VERSION: u32 = 1;

/// The version of RPC (RFC 5531, section 9).
pub const RPC_VERSION: u32 = 2;

/// What a program's call or answer says: the arguments in a `Call`, what the call gave in an
/// `Answer`.
pub enum Body {
    /// Of NFS version 3 (RFC 1813, section 3.3).
    Nfs(Nfs),
    /// Of LBFS.
    Lb(Lb),
    /// Of the callback program.
    Back(Back),
}

/// Why a call is refused (RFC 5531, section 9: accept_stat other than SUCCESS, and reject_stat).
#[derive(Clone, Copy, Drop)]
pub enum RpcRefusal {
    /// No such program here (PROG_UNAVAIL, 1).
    ProgUnavail,
    /// Only the versions from `low` to `high` of the program (PROG_MISMATCH, 2). `parse` gives 3
    /// and 3 for NFS, 1 and 1 for the callback program, and for LBFS 1 and the last that is served.
    ProgMismatch { low: u32, high: u32 },
    /// No such procedure (PROC_UNAVAIL, 3).
    ProcUnavail,
    /// The arguments are outside their grammar, or don't fill the record (GARBAGE_ARGS, 4).
    GarbageArgs,
    /// Running out of memory (SYSTEM_ERR, 5). `parse` never gives it to a call.
    SystemErr,
    /// Only the versions from `low` to `high` of RPC (RPC_MISMATCH, a reject_stat). `parse` gives 2
    /// and 2.
    RpcMismatch { low: u32, high: u32 },
    /// The caller isn't known (AUTH_ERROR, a reject_stat), with the auth_stat: any number. `parse`
    /// never gives it to a call.
    AuthError(u32),
}

/// A message under its transaction number, the xid. One record holds one message.
#[derive(Drop)]
pub enum Message {
    /// A call of a program that is served here.
    Call(u32, Body),
    /// What a call gave (accept_stat SUCCESS, 0).
    Answer(u32, Body),
    /// An answer that refuses a call, and holds nothing else.
    Refuse(u32, RpcRefusal),
    /// A call that can't be taken, and the refusal that is to be sent back. It is read alone, and
    /// never sent.
    Unfit(u32, RpcRefusal),
}

/// Which end reads a record, and so which programs are served there.
#[derive(Clone, Copy, Drop)]
pub enum Side {
    /// A server: NFS and LBFS. The callback program is `ProgUnavail` here.
    Server,
    /// A client: the callback program. NFS and LBFS are `ProgUnavail` here.
    Client,
    /// Both, where records of either end are read: all three programs.
    Either,
}

/// A program and a procedure of it.
#[derive(Clone, Copy, Drop)]
pub enum Program {
    /// NFS version 3 (RFC 1813), program 100003.
    Nfs(NfsProc),
    /// LBFS, program 0x20004C42. Of which version a call is, says what it asks for.
    Lb(LbProc),
    /// The callback program, version 1, program 0x20004C43.
    Back(BackProc),
}

/// A call that waits for its answer.
#[derive(Clone, Copy, Drop)]
pub struct Pending {
    /// The number under which its answer comes.
    pub xid: u32,
    /// What was called, and so what its answer holds.
    pub program: Program,
}

/// What may come: calls of the programs served, and answers to the calls that wait.
#[derive(Drop)]
pub struct Waiting {
    /// The end that waits.
    pub side: Side,
    /// A version of LBFS: where it is served, the last that is, and elsewhere that of the calls that
    /// wait.
    pub lbfs: u32,
    /// The calls without an answer yet, any number of them. Where two have one xid, an answer is
    /// taken as the first's. `parse` takes none out: its caller does so with the answer.
    pub calls: Items<Pending>,
}

// Written by hand, it is proved here alone; derived, each crate above would prove how each part of a
// message is dropped.
impl Drop for Body {
    fn drop(self) {
        match self {
            Body::Nfs(message) => drop(message),
            Body::Lb(message) => drop(message),
            Body::Back(_) => (),
        }
    }
}

impl Body {
    /// The program and the procedure that is called or answered.
    pub fn program(&self) -> Program
        ensures { result ≡ program_of self.now }
    {
        match self {
            Body::Nfs(message) => Program::Nfs(message.procedure()),
            Body::Lb(message) => Program::Lb(message.procedure()),
            Body::Back(message) => Program::Back(message.procedure()),
        }
    }

    /// The version of its program that a call is of; an answer doesn't say it.
    pub fn version(&self) -> u32
        ensures { result ≡ body_version self.now }
    {
        match self {
            Body::Nfs(_) => NFS_VERSION,
            Body::Lb(message) => message.lbfs(),
            Body::Back(_) => BACK_VERSION,
        }
    }
}

impl Program {
    /// The number of the program.
    pub fn number(self) -> u32
        ensures { result ≡ program_number self }
    {
        match self {
            Program::Nfs(_) => NFS_PROGRAM,
            Program::Lb(_) => LBFS_PROGRAM,
            Program::Back(_) => BACK_PROGRAM,
        }
    }

    /// The number of the procedure.
    pub fn procedure(self) -> u32
        ensures { result ≡ procedure_number self }
    {
        match self {
            Program::Nfs(procedure) => procedure.number(),
            Program::Lb(procedure) => procedure.number(),
            Program::Back(procedure) => procedure.number(),
        }
    }
}

impl Side {
    /// Whether NFS and LBFS are served.
    pub fn serves_files(self) -> bool
        ensures { result ≡ serves_files self }
    {
        match self {
            Side::Server | Side::Either => true,
            Side::Client => false,
        }
    }

    /// Whether the callback program is served.
    pub fn serves_callbacks(self) -> bool
        ensures { result ≡ serves_callbacks self }
    {
        match self {
            Side::Client | Side::Either => true,
            Side::Server => false,
        }
    }
}
