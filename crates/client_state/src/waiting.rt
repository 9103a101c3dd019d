//! The calls that wait for their answers: `pending` and those around it in `specs/State.antt`.

ghost use Rattle.std.specs.Prelude.{◌≡◌, [], ◌∷◌, map, take, IfOk};
ghost use Rattle.hash_calls.specs.declared.message.LbProc.TheVariants as lb_proc;
ghost use Rattle.wire.specs.declared.message.Program.TheVariants as program;
ghost use Rattle.client_state.specs.State.{read_pending, store_pending, pending_in, has_call, without_call};

use crate::task::{ReadCall, Stage, UploadCall, Way};
use hash_calls::message::LbProc;
use lb_base::items::Items;
use nfs3_calls::message::NfsProc;
use std::alloc::{AllocError, Global};
use wire::message::{Pending, Program};

/// A call for a chunk of a close, as one that waits.
fn store_pending(call: &UploadCall) -> Pending
    ensures { result ≡ store_pending call.now }
{
    let procedure = match call.way {
        Way::Named => LbProc::CondWrite,
        Way::Whole => LbProc::TmpWrite,
    };
    Pending {
        xid: call.xid,
        program: Program::Lb(procedure),
    }
}

/// READs, as ones that wait.
pub fn reads_pending(alloc: Global, under: &[ReadCall]) -> Result<Vec<Pending>, AllocError>
    ensures { IfOk result (λ ps. ps.items ≡ map read_pending under.now) }
{
    let mut calls = Vec::new(alloc);
    for call in under {
        let xid = call.xid;
        let program = Program::Nfs(NfsProc::Read);
        calls.push(Pending { xid, program })?;
    }
    Ok(calls)
}

/// Calls for chunks of a close, as ones that wait.
fn stores_pending(alloc: Global, under: &[UploadCall]) -> Result<Vec<Pending>, AllocError>
    ensures { IfOk result (λ ps. ps.items ≡ map store_pending under.now) }
{
    let mut calls = Vec::new(alloc);
    for call in under {
        calls.push(store_pending(call))?;
    }
    Ok(calls)
}

/// One call that waits.
fn one_pending(alloc: Global, xid: u32, program: Program) -> Result<Vec<Pending>, AllocError>
    ensures { IfOk result (λ ps. ps.items ≡ record { xid = xid; program = program } ∷ []) }
{
    let mut calls = Vec::new(alloc);
    calls.push(Pending { xid, program })?;
    Ok(calls)
}

/// The calls that wait in a stage.
pub fn pending_in(alloc: Global, stage: &Stage) -> Result<Vec<Pending>, AllocError>
    ensures { IfOk result (λ ps. ps.items ≡ pending_in stage.now) }
{
    match stage {
        Stage::Asking(xid) | Stage::Rewriting(xid) => {
            one_pending(alloc, *xid, Program::Lb(LbProc::GetLease))
        }
        Stage::Hashing { tries: _, xid } => one_pending(alloc, *xid, Program::Lb(LbProc::GetHash)),
        Stage::Listing { xid, fetch: _ } => one_pending(alloc, *xid, Program::Lb(LbProc::GetHash)),
        Stage::Reading(fetch) => reads_pending(alloc, fetch.under.as_slice()),
        Stage::Making { xid, temp: _ } => one_pending(alloc, *xid, Program::Lb(LbProc::MkTmpFile)),
        Stage::Storing(store) => stores_pending(alloc, store.under.as_slice()),
        Stage::Committing(xid) => one_pending(alloc, *xid, Program::Lb(LbProc::CommitTmp)),
        Stage::Walking { xid, walk } => { one_pending(alloc, *xid, Program::Nfs(walk.procedure())) }
    }
}

/// Whether a call with this xid is among these.
pub fn has_call(calls: &[Pending], xid: u32) -> bool
    ensures { result ≡ has_call calls.now xid }
{
    calls.iter().any(|c| c.xid == xid)
}

/// The calls with other xids. It takes no memory.
pub fn without_call(calls: Items<Pending>, xid: u32) -> Items<Pending>
    ensures { result ≡ without_call calls xid }
{
    let mut left = calls.into_vec();
    left.retain(|c| c.xid != xid);
    Items::from_vec(left)
}

/// A GETHASH that waits, and behind it the calls with other xids than the one that was answered.
pub fn anew(
    alloc: Global,
    asked: u32,
    calls: &[Pending],
    xid: u32,
) -> Result<Items<Pending>, AllocError>
    ensures { IfOk result (λ ps. ps ≡ record { xid = asked; program = program.Lb lb_proc.GetHash } ∷ without_call calls.now xid) }
{
    let others = without_call(Items::copy_of(alloc, calls)?, xid);
    let mut all = one_pending(alloc, asked, Program::Lb(LbProc::GetHash))?;
    all.extend_from_slice(others.as_slice())?;
    Ok(Items::from_vec(all))
}

/// The first so many of these calls. It takes no memory.
pub fn first_calls(calls: Items<Pending>, count: usize) -> Items<Pending>
    ensures { result ≡ take count calls }
{
    let mut first = calls.into_vec();
    first.truncate(count);
    Items::from_vec(first)
}
