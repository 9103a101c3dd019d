//! How a shell ends, and the number that the program then ends with: `shell_code_of` of
//! `specs/Statuses.antt`.

ghost use Rattle.std.specs.Prelude.{◌≡◌};
ghost use Rattle.exit_status.specs.Statuses.{shell_code_of};

/// How a shell ends.
#[derive(Clone, Copy)]
pub enum ShellEnd {
    /// All that was asked for was done.
    Done,
    /// Something was refused, or the connection was lost meanwhile; what, was said.
    Undone,
    /// The words of the one command are none.
    BadWords,
    /// The input failed.
    ReadFault,
    /// The output failed.
    WriteFault,
    /// The input is longer than any may be.
    TooLong,
    /// Memory ran out.
    Memory,
    /// There was no connection to begin with.
    Network,
}

impl ShellEnd {
    /// The number that the program ends with.
    pub fn code(self) -> u8
        ensures { result ≡ shell_code_of self }
    {
        match self {
            ShellEnd::Done => 0,
            ShellEnd::Undone => 1,
            ShellEnd::BadWords => 2,
            ShellEnd::ReadFault => 3,
            ShellEnd::WriteFault => 4,
            ShellEnd::TooLong => 5,
            ShellEnd::Memory => 6,
            ShellEnd::Network => 7,
        }
    }
}
