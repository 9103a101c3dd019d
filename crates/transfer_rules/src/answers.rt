//! Whose call an answer is of, and what the answer to a CONDWRITE asks for: `specs/Answers.antt`.

ghost use Rattle.std.specs.Prelude.{◌≡◌, ◌≤◌, length, take};
ghost use Rattle.transfer_rules.specs.Answers.{wants_bytes};

use xdr_codec::answer::Answer;
use xdr_codec::status::Status;

/// The calls of the operation under way, which stand before those of ended operations and attempts.
pub fn own_calls<T>(calls: &[T], own: usize) -> &[T]
    requires { own ≤ length calls.now }
    ensures { result.now ≡ take own calls.now }
{
    &calls[..own]
}

/// Whether the answer to a CONDWRITE asks for the chunk's bytes.
pub fn wants_bytes(answer: &Answer<(), ()>) -> bool
    ensures { result ≡ wants_bytes answer.now }
{
    match answer {
        Answer::Failed(Status::HashNotFound, _) => true,
        _ => false,
    }
}
