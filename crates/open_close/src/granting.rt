//! The lease that an answer grants beside what it tells: `lease_in` of `specs/Step.antt`, by what the answer is
//! of.

ghost use Rattle.std.specs.Prelude.{◌≡◌};
ghost use Rattle.open_close.specs.Step.{lease_in};
ghost use Rattle.client_state.specs.declared.task.Stage.TheVariants as stage;

use client_state::noting::Granted;
use hash_calls::message::Lb;
use wire::message::Body;
use xdr_codec::answer::Answer;

/// What an answer to GETLEASE grants.
pub fn by_lease(body: &Body) -> Option<Granted>
    ensures { result ≡ lease_in (stage.Asking 0) body.now }
{
    match body {
        Body::Lb(Lb::GetLeaseAnswer(answer)) => match answer {
            Answer::Done(leased) => Some(Granted {
                version: leased.version,
                term: leased.term,
            }),
            Answer::Failed(_, _) => None,
        },
        _ => None,
    }
}

/// What an answer to GETHASH grants.
pub fn by_hashes(body: &Body) -> Option<Granted>
    ensures { result ≡ lease_in (stage.Hashing 0 0) body.now }
{
    match body {
        Body::Lb(Lb::GetHashAnswer(answer)) => match answer {
            Answer::Done(hashes) => Some(Granted {
                version: hashes.version,
                term: hashes.term,
            }),
            Answer::Failed(_, _) => None,
        },
        _ => None,
    }
}

/// What an answer to COMMITTMP grants.
pub fn by_commit(body: &Body) -> Option<Granted>
    ensures { result ≡ lease_in (stage.Committing 0) body.now }
{
    match body {
        Body::Lb(Lb::CommitTmpAnswer(answer)) => match answer {
            Answer::Done(committed) => Some(Granted {
                version: committed.version,
                term: committed.term,
            }),
            Answer::Failed(_, _) => None,
        },
        _ => None,
    }
}
