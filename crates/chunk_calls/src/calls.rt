//! Any call of LBFS but COMMITTMP (`calls` in `specs/Calling.antt`).

ghost use Rattle.std.specs.Prelude.{◌≡◌, ℕ, Some, true, false, IfOk, OnErr};
ghost use Rattle.temp_files.specs.Temps.{Temps as Known};
ghost use Rattle.chunk_calls.specs.Answers.{node_of, IsFile};
ghost use Rattle.chunk_calls.specs.Calling.{calls, Takes, index_left, LeavesPlaces};
ghost use Rattle.hash_calls.specs.declared.message.Lb.TheVariants as lb;

use crate::{answers, entering, hashes, writing};
use chunk_index::index::Index;
use file_tree::tree::Tree;
use hash_calls::call::HashRange;
use hash_calls::message::Lb;
use std::alloc::{AllocError, Global};
use temp_files::temps::Temps;

/// What a message comes to.
#[derive(Drop)]
pub struct Outcome {
    /// What it is answered; none where it is none of these calls.
    pub answer: Option<Lb>,
    /// Whether places of chunks for which memory ran out were left out of the index.
    pub left_out: bool,
}

/// An answer, where all was done.
fn done(answer: Lb) -> Outcome
    ensures { result ≡ record { answer = Some answer; left_out = false } }
{
    Outcome {
        answer: Some(answer),
        left_out: false,
    }
}

/// A GETHASH. The one error is running out of memory, and all then stays as it was.
fn tell_hashes(
    alloc: Global,
    tree: &Tree,
    index: &mut Index,
    term: u32,
    range: &HashRange,
) -> Result<Outcome, AllocError>
    ensures ok { (temps : Known) (session : ℕ)
        → IfOk result (λ o. o.left_out ≡ false
        → calls tree.now.tree temps index.old session term (lb.GetHash range.now)
        ≡ record { temps = temps; index = index.new; answer = o.answer }) }
    ensures lacks { (temps : Known) (session : ℕ)
        → IfOk result (λ o. o.left_out ≡ true
        → LeavesPlaces tree.now.tree temps index.old session term (lb.GetHash range.now)
        (record { temps = temps; index = index.new; answer = o.answer })) }
    ensures err { OnErr result (index.new ≡ index.old) }
    ensures takes { OnErr result (IsFile (node_of tree.now.tree range.now.handle)) }
{
    let told = hashes::hash_answer(alloc, term, tree, range)?;
    let left_out = entering::enter_told(index, tree, range);
    Ok(Outcome {
        answer: Some(Lb::GetHashAnswer(told)),
        left_out,
    })
}

/// What a message of a session comes to, over a tree, the temporary files of all sessions, and an
/// index of chunks. A GETLEASE or GETHASH is told the term of its lease, which the caller grants,
/// in milliseconds; 0 where it grants none. A TMPWRITE's bytes are taken out of it. The one error
/// is running out of memory, at a call that isn't refused; nothing has changed then, but that a
/// CONDWRITE's digest was looked up.
pub fn call(
    alloc: Global,
    tree: &Tree,
    temps: &mut Temps,
    index: &mut Index,
    session: u32,
    term: u32,
    call: &mut Lb,
) -> Result<Outcome, AllocError>
    ensures ok { IfOk result (λ o. o.left_out ≡ false → calls tree.now.tree temps.old index.old session term call.old ≡ record { temps = temps.new; index = index.new; answer = o.answer }) }
    ensures lacks { IfOk result (λ o. o.left_out ≡ true → LeavesPlaces tree.now.tree temps.old index.old session term call.old (record { temps = temps.new; index = index.new; answer = o.answer })) }
    ensures err { OnErr result (temps.new ≡ temps.old) }
    ensures order { OnErr result (index.new ≡ index_left index.old call.old) }
    ensures takes { OnErr result (Takes tree.now.tree temps.old index.old session call.old) }
{
    match call {
        Lb::Null(_) => Ok(done(Lb::NullAnswer)),
        Lb::GetLease(lease) => {
            let told = answers::lease_answer(term, tree, &lease.handle);
            Ok(done(Lb::GetLeaseAnswer(told)))
        }
        Lb::GetHash(range) => tell_hashes(alloc, tree, index, term, range),
        Lb::MkTmpFile(new) => {
            let told = writing::make_temp(tree, temps, session, new)?;
            Ok(done(Lb::MkTmpFileAnswer(told)))
        }
        Lb::TmpWrite(piece) => {
            let told = writing::write_temp(alloc, temps, session, piece)?;
            Ok(done(Lb::TmpWriteAnswer(told)))
        }
        Lb::CondWrite(piece) => {
            let told = writing::cond_write(alloc, tree, temps, index, session, piece)?;
            Ok(done(Lb::CondWriteAnswer(told)))
        }
        _ => Ok(Outcome {
            answer: None,
            left_out: false,
        }),
    }
}
