//! What is written for a line of a script: `answer_line` of `specs/Answers.antt`.

ghost use Rattle.std.specs.Prelude.{◌≡◌, ◌++◌, IfOk, OnOk, string_bytes};
ghost use Rattle.lbfs_client.specs.Answers.{answer_text, answer_line};

use lb_base::items::{Bytes, Items};
use register_model::op::Outcome;
use register_model::text::put_outcome;
use std::alloc::{AllocError, Global};

/// What a line came to.
#[derive(Drop)]
pub enum Answer {
    /// An operation of the client ended so.
    Ended(Outcome),
    /// A file of the host couldn't be read, or written.
    LocalFault,
}

/// How it ended.
fn put_answer(alloc: Global, out: &mut String, answer: &Answer) -> Result<(), AllocError>
    ensures { OnOk result (string_bytes out.new ≡ string_bytes out.old ++ answer_text answer.now) }
{
    match answer {
        Answer::Ended(outcome) => put_outcome(alloc, out, outcome),
        Answer::LocalFault => out.push_str("LocalFault"),
    }
}

impl Answer {
    /// The line that is written, with its line feed. The one error is running out of memory.
    pub fn line(&self, alloc: Global) -> Result<Bytes, AllocError>
        ensures { IfOk result (λ text. text ≡ answer_line self.now) }
    {
        let mut out = String::new(alloc);
        put_answer(alloc, &mut out, self)?;
        out.push_str("\n")?;
        Ok(Items::from_vec(out.into_bytes()))
    }
}
