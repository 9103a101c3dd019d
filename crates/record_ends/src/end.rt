//! Why an end of a link is done with. `specs/Ends.antt` states when each comes.

ghost use Rattle.std.specs.Prelude.{◌≡◌};
ghost use Rattle.record_ends.specs.Ends.{end_of_give};
ghost use Rattle.record_ends.specs.declared.end.End.TheVariants as ends;

use lb_base::sink::GiveError;
use lb_base::source::Failed;
use rpc_record::refusal::MarkError;
use std::alloc::AllocError;

/// Why no more records come, or messages go.
#[derive(Clone, Copy, Drop)]
pub enum End {
    /// The input ended.
    InputEnd,
    /// The link failed; its count of faults rose.
    Failed,
    /// The bytes that came hold a start of a record that none may have.
    Spoilt,
    /// Memory ran out.
    Memory,
}

impl From<Failed> for End {
    ghost from_gives = { λ _ e. e ≡ ends.Failed };

    fn from(_failed: Failed) -> End {
        End::Failed
    }
}

impl From<AllocError> for End {
    ghost from_gives = { λ _ e. e ≡ ends.Memory };

    fn from(_want: AllocError) -> End {
        End::Memory
    }
}

impl From<GiveError> for End {
    ghost from_gives = { λ why e. e ≡ end_of_give why };

    fn from(why: GiveError) -> End {
        match why {
            GiveError::Failed => End::Failed,
            GiveError::Memory => End::Memory,
        }
    }
}

// A message that no record can hold is told as running out of memory: no end makes one.
impl From<MarkError> for End {
    ghost from_gives = { λ _ e. e ≡ ends.Memory };

    fn from(_refused: MarkError) -> End {
        End::Memory
    }
}
