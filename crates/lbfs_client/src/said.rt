//! What a mounted client says: `says` of `specs/Walks.antt`.

ghost use Rattle.std.specs.Prelude.{◌≡◌, IfOk, Some, None};
ghost use Rattle.lbfs_client.specs.Walks.{says, answer_of, answer_to};

use crate::answer::Answer;
use client_state::step::{Ended, Outcome};
use lb_base::items::{Bytes, Items};
use std::alloc::{AllocError, Global};
use told_outcome::told_of;
use wire::message::Message;

/// What is to be sent and written.
#[derive(Drop)]
pub struct Said {
    /// The messages to send, in order.
    pub send: Items<Message>,
    /// The line of what ended, if anything did, with its line feed.
    pub line: Option<Bytes>,
}

/// These messages go out, and nothing ended.
pub(crate) fn sends(send: Items<Message>) -> Said
    ensures { result ≡ says send None }
{
    Said { send, line: None }
}

/// These messages go out, and this is written.
pub(crate) fn says(alloc: Global, send: Items<Message>, answer: &Answer) -> Result<Said, AllocError>
    ensures { IfOk result (λ said. said ≡ says send (Some answer.now)) }
{
    let line = answer.line(alloc)?;
    Ok(Said {
        send,
        line: Some(line),
    })
}

/// How an operation of the client ended.
pub(crate) fn answer_of(alloc: Global, outcome: &Outcome) -> Result<Answer, AllocError>
    ensures { IfOk result (λ answer. answer ≡ answer_of outcome.now) }
{
    let told = told_of(alloc, outcome)?;
    Ok(Answer::Ended(told))
}

/// These messages go out, and an operation ended so.
pub(crate) fn says_end(
    alloc: Global,
    send: Items<Message>,
    outcome: &Outcome,
) -> Result<Said, AllocError>
    ensures { IfOk result (λ said. said ≡ says send (Some (answer_of outcome.now))) }
{
    let answer = answer_of(alloc, outcome)?;
    says(alloc, send, &answer)
}

/// These messages go out, and an operation ended if it did.
pub(crate) fn says_step(
    alloc: Global,
    send: Items<Message>,
    ended: &Option<Ended>,
) -> Result<Said, AllocError>
    ensures { IfOk result (λ said. said ≡ says send (answer_to ended.now)) }
{
    match ended {
        None => Ok(sends(send)),
        Some(ended) => says_end(alloc, send, &ended.outcome),
    }
}
