//! Any call and any answer. `specs/Lb.antt` and `specs/Back.antt` state the numbers of the
//! procedures.

ghost use Rattle.std.specs.Prelude.{◌≡◌};
ghost use Rattle.hash_calls.specs.Lb.{proc_number, proc_of, proc_in, since, lb_proc, lbfs_of};
ghost use Rattle.hash_calls.specs.Back.{proc_number as back_number, proc_of as back_of, back_proc};

use crate::call::{
    Commit, Committed, CondPiece, HashRange, Hashes, LeaseOn, Leased, LookOn, Looked, NewTemp,
    TempPiece,
};
use crate::version::LOOKLEASE_SINCE;
use xdr_codec::answer::Answer;
use xdr_codec::handle::Handle;

/// The procedures of LBFS, program 0x20004C42.
#[derive(Clone, Copy, Drop)]
pub enum LbProc {
    /// Does nothing.
    Null,
    /// Gives a file's attributes and version, and a lease on it.
    GetLease,
    /// Gives the digests of a file's chunks, and a lease on it.
    GetHash,
    /// Makes a temporary file.
    MkTmpFile,
    /// Puts bytes into a temporary file.
    TmpWrite,
    /// Puts bytes that the server knows into a temporary file, told by their digest.
    CondWrite,
    /// Replaces a file's content by a temporary file's.
    CommitTmp,
    /// Gives what a name of a directory stands for, and a lease on the directory.
    LookLease,
}

/// A procedure in a version of LBFS.
#[derive(Clone, Copy, Drop)]
pub struct LbIn {
    /// The version.
    pub lbfs: u32,
    /// The procedure.
    pub procedure: LbProc,
}

impl LbProc {
    /// The number of the procedure.
    pub fn number(self) -> u32
        ensures { result ≡ proc_number self }
    {
        match self {
            LbProc::Null => 0,
            LbProc::GetLease => 1,
            LbProc::GetHash => 2,
            LbProc::MkTmpFile => 3,
            LbProc::TmpWrite => 4,
            LbProc::CondWrite => 5,
            LbProc::CommitTmp => 6,
            LbProc::LookLease => 7,
        }
    }

    /// The procedure that has the number.
    pub fn of_number(number: u32) -> Option<LbProc>
        ensures { result ≡ proc_of number }
    {
        match number {
            0 => Some(LbProc::Null),
            1 => Some(LbProc::GetLease),
            2 => Some(LbProc::GetHash),
            3 => Some(LbProc::MkTmpFile),
            4 => Some(LbProc::TmpWrite),
            5 => Some(LbProc::CondWrite),
            6 => Some(LbProc::CommitTmp),
            7 => Some(LbProc::LookLease),
            _ => None,
        }
    }

    /// The first version of LBFS that has the procedure.
    fn since(self) -> u32
        ensures { result ≡ since self }
    {
        match self {
            LbProc::LookLease => LOOKLEASE_SINCE,
            _ => 1,
        }
    }

    /// The procedure that has the number in a version of LBFS.
    pub fn of_number_in(lbfs: u32, number: u32) -> Option<LbProc>
        ensures { result ≡ proc_in lbfs number }
    {
        match LbProc::of_number(number) {
            None => None,
            Some(procedure) => {
                if procedure.since() <= lbfs {
                    Some(procedure)
                } else {
                    None
                }
            }
        }
    }
}

/// The arguments of a call of LBFS with the version that it is of, or what a call gave: a failure
/// answer is the status alone.
pub enum Lb {
    /// NULL has no arguments. The number is the version.
    Null(u32),
    /// NULL gives nothing, and no status.
    NullAnswer,
    /// The file that a GETLEASE is about.
    GetLease(LeaseOn),
    /// What a GETLEASE gave.
    GetLeaseAnswer(Answer<Leased, ()>),
    /// The part of a file that a GETHASH is about.
    GetHash(HashRange),
    /// The chunks that a GETHASH gave.
    GetHashAnswer(Answer<Hashes, ()>),
    /// The temporary file that a MKTMPFILE is to make.
    MkTmpFile(NewTemp),
    /// Whether a MKTMPFILE was done.
    MkTmpFileAnswer(Answer<(), ()>),
    /// The bytes that a TMPWRITE puts into a temporary file.
    TmpWrite(TempPiece),
    /// Whether a TMPWRITE was done.
    TmpWriteAnswer(Answer<(), ()>),
    /// The digest of the bytes that a CONDWRITE puts into a temporary file.
    CondWrite(CondPiece),
    /// Whether a CONDWRITE was done.
    CondWriteAnswer(Answer<(), ()>),
    /// The temporary file and the file that a COMMITTMP is about.
    CommitTmp(Commit),
    /// What a COMMITTMP gave.
    CommitTmpAnswer(Answer<Committed, ()>),
    /// The name that a LOOKLEASE is about.
    LookLease(LookOn),
    /// What a LOOKLEASE gave.
    LookLeaseAnswer(Answer<Looked, ()>),
}

// Written by hand, it is proved here alone; derived, each crate above would prove how each part is
// dropped.
impl Drop for Lb {
    fn drop(self) {
        match self {
            Lb::Null(_) | Lb::NullAnswer | Lb::GetLease(_) | Lb::GetHash(_) => (),
            Lb::MkTmpFile(_) | Lb::CondWrite(_) | Lb::CommitTmp(_) => (),
            Lb::TmpWrite(piece) => drop(piece),
            Lb::LookLease(look) => drop(look),
            Lb::GetLeaseAnswer(answer) => drop(answer),
            Lb::GetHashAnswer(answer) => drop(answer),
            Lb::MkTmpFileAnswer(answer) | Lb::TmpWriteAnswer(answer) => drop(answer),
            Lb::CondWriteAnswer(answer) => drop(answer),
            Lb::CommitTmpAnswer(answer) => drop(answer),
            Lb::LookLeaseAnswer(answer) => drop(answer),
        }
    }
}

impl Lb {
    /// The procedure that is called or answered.
    pub fn procedure(&self) -> LbProc
        ensures { result ≡ lb_proc self.now }
    {
        match self {
            Lb::Null(_) | Lb::NullAnswer => LbProc::Null,
            Lb::GetLease(_) | Lb::GetLeaseAnswer(_) => LbProc::GetLease,
            Lb::GetHash(_) | Lb::GetHashAnswer(_) => LbProc::GetHash,
            Lb::MkTmpFile(_) | Lb::MkTmpFileAnswer(_) => LbProc::MkTmpFile,
            Lb::TmpWrite(_) | Lb::TmpWriteAnswer(_) => LbProc::TmpWrite,
            Lb::CondWrite(_) | Lb::CondWriteAnswer(_) => LbProc::CondWrite,
            Lb::CommitTmp(_) | Lb::CommitTmpAnswer(_) => LbProc::CommitTmp,
            Lb::LookLease(_) | Lb::LookLeaseAnswer(_) => LbProc::LookLease,
        }
    }

    /// The version that a call is of; of an answer 0.
    pub fn lbfs(&self) -> u32
        ensures { result ≡ lbfs_of self.now }
    {
        match self {
            Lb::Null(lbfs) => *lbfs,
            Lb::GetLease(call) => call.lbfs,
            Lb::GetHash(call) => call.lbfs,
            Lb::MkTmpFile(call) => call.lbfs,
            Lb::TmpWrite(call) => call.lbfs,
            Lb::CondWrite(call) => call.lbfs,
            Lb::CommitTmp(call) => call.lbfs,
            Lb::LookLease(call) => call.lbfs,
            _ => 0,
        }
    }
}

/// The procedures of the callback program, 0x20004C43, which the server calls on a client's
/// connection.
#[derive(Clone, Copy, Drop)]
pub enum BackProc {
    /// Does nothing.
    Null,
    /// Asks for a lease to be given up.
    Recall,
}

impl BackProc {
    /// The number of the procedure.
    pub fn number(self) -> u32
        ensures { result ≡ back_number self }
    {
        match self {
            BackProc::Null => 0,
            BackProc::Recall => 1,
        }
    }

    /// The procedure that has the number.
    pub fn of_number(number: u32) -> Option<BackProc>
        ensures { result ≡ back_of number }
    {
        match number {
            0 => Some(BackProc::Null),
            1 => Some(BackProc::Recall),
            _ => None,
        }
    }
}

/// The arguments of a call of the callback program, or what it gave.
#[derive(Clone, Copy, Drop)]
pub enum Back {
    /// NULL has no arguments.
    Null,
    /// NULL gives nothing, and no status.
    NullAnswer,
    /// The file whose lease a RECALL asks for.
    Recall(Handle),
    /// RECALL gives nothing, and no status.
    RecallAnswer,
}

impl Back {
    /// The procedure that is called or answered.
    pub fn procedure(&self) -> BackProc
        ensures { result ≡ back_proc self.now }
    {
        match self {
            Back::Null | Back::NullAnswer => BackProc::Null,
            Back::Recall(_) | Back::RecallAnswer => BackProc::Recall,
        }
    }
}
