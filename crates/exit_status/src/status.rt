//! How a run ends, and the number that the program then ends with: `code_of` of `specs/Statuses.antt`.

ghost use Rattle.std.specs.Prelude.{◌≡◌};
ghost use Rattle.exit_status.specs.Statuses.{code_of};

/// How a run ends.
#[derive(Clone, Copy)]
pub enum Status {
    /// All was written, and the input, where the words have it read, was read to its end.
    Done,
    /// The words are no command.
    BadWords,
    /// The source failed.
    ReadFault,
    /// The sink failed; a front of the output was written.
    WriteFault,
    /// The input was refused, and the refusal written.
    Refused,
    /// Memory ran out; a front of the output was written.
    Memory,
    /// A thread that a server can't do without could not be started.
    NoThread,
    /// The network failed.
    Network,
    /// The store failed as it was opened, or one of its records breaks a rule; which, was written.
    Store,
    /// A store that was looked over has files that break a rule; which, was written.
    Broken,
}

impl Status {
    /// The number that the program ends with.
    pub fn code(self) -> u8
        ensures { result ≡ code_of self }
    {
        match self {
            Status::Done => 0,
            Status::BadWords => 2,
            Status::ReadFault => 3,
            Status::WriteFault => 4,
            Status::Refused => 5,
            Status::Memory => 6,
            Status::NoThread => 6,
            Status::Network => 7,
            Status::Store => 8,
            Status::Broken => 8,
        }
    }
}
