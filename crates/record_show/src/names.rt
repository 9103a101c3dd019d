//! The names of programs, procedures, refusals and answers. `specs/Names.antt` states them.

ghost use Rattle.std.specs.Prelude.{◌≡◌};
ghost use Rattle.record_show.specs.Names.{program_name, nfs_name, lb_name, back_name, procedure_name, refusal_name, accept_name, reject_name, stat_name};

use crate::stat::{AcceptStat, RejectStat, Stat};
use hash_calls::message::{BackProc, LbProc};
use nfs3_calls::message::NfsProc;
use wire::message::{Program, RpcRefusal};

/// The name of a procedure's program.
pub fn program_name(program: Program) -> &'static str
    ensures { result.now ≡ program_name program }
{
    match program {
        Program::Nfs(_) => "nfs",
        Program::Lb(_) => "lbfs",
        Program::Back(_) => "back",
    }
}

/// A procedure of NFS version 3 (RFC 1813, section 3.3).
fn nfs_name(procedure: NfsProc) -> &'static str
    ensures { result.now ≡ nfs_name procedure }
{
    match procedure {
        NfsProc::Null => "NULL",
        NfsProc::GetAttr => "GETATTR",
        NfsProc::Lookup => "LOOKUP",
        NfsProc::Access => "ACCESS",
        NfsProc::Read => "READ",
        NfsProc::Create => "CREATE",
        NfsProc::MkDir => "MKDIR",
        NfsProc::Remove => "REMOVE",
        NfsProc::RmDir => "RMDIR",
        NfsProc::Rename => "RENAME",
        NfsProc::ReadDir => "READDIR",
        NfsProc::FsInfo => "FSINFO",
    }
}

/// A procedure of LBFS.
fn lb_name(procedure: LbProc) -> &'static str
    ensures { result.now ≡ lb_name procedure }
{
    match procedure {
        LbProc::Null => "NULL",
        LbProc::GetLease => "GETLEASE",
        LbProc::GetHash => "GETHASH",
        LbProc::MkTmpFile => "MKTMPFILE",
        LbProc::TmpWrite => "TMPWRITE",
        LbProc::CondWrite => "CONDWRITE",
        LbProc::CommitTmp => "COMMITTMP",
        LbProc::LookLease => "LOOKLEASE",
    }
}

/// A procedure of the callback program.
fn back_name(procedure: BackProc) -> &'static str
    ensures { result.now ≡ back_name procedure }
{
    match procedure {
        BackProc::Null => "NULL",
        BackProc::Recall => "RECALL",
    }
}

/// The name of a procedure.
pub fn procedure_name(program: Program) -> &'static str
    ensures { result.now ≡ procedure_name program }
{
    match program {
        Program::Nfs(procedure) => nfs_name(procedure),
        Program::Lb(procedure) => lb_name(procedure),
        Program::Back(procedure) => back_name(procedure),
    }
}

/// The name of a refusal (RFC 5531, section 9: accept_stat or reject_stat), without its numbers.
pub fn refusal_name(refusal: RpcRefusal) -> &'static str
    ensures { result.now ≡ refusal_name refusal }
{
    match refusal {
        RpcRefusal::ProgUnavail => "PROG_UNAVAIL",
        RpcRefusal::ProgMismatch { .. } => "PROG_MISMATCH",
        RpcRefusal::ProcUnavail => "PROC_UNAVAIL",
        RpcRefusal::GarbageArgs => "GARBAGE_ARGS",
        RpcRefusal::SystemErr => "SYSTEM_ERR",
        RpcRefusal::RpcMismatch { .. } => "RPC_MISMATCH",
        RpcRefusal::AuthError(_) => "AUTH_ERROR",
    }
}

fn accept_name(stat: AcceptStat) -> &'static str
    ensures { result.now ≡ accept_name stat }
{
    match stat {
        AcceptStat::Success => "SUCCESS",
        AcceptStat::ProgUnavail => "PROG_UNAVAIL",
        AcceptStat::ProgMismatch => "PROG_MISMATCH",
        AcceptStat::ProcUnavail => "PROC_UNAVAIL",
        AcceptStat::GarbageArgs => "GARBAGE_ARGS",
        AcceptStat::SystemErr => "SYSTEM_ERR",
    }
}

fn reject_name(stat: RejectStat) -> &'static str
    ensures { result.now ≡ reject_name stat }
{
    match stat {
        RejectStat::RpcMismatch => "RPC_MISMATCH",
        RejectStat::AuthError => "AUTH_ERROR",
    }
}

/// The name of what became of a call (RFC 5531, section 9: accept_stat or reject_stat).
pub fn stat_name(stat: &Stat) -> &'static str
    ensures { result.now ≡ stat_name stat.now }
{
    match stat {
        Stat::Accepted(_, stat) => accept_name(*stat),
        Stat::Denied(stat) => reject_name(*stat),
    }
}
