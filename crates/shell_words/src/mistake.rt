//! What is wrong with a line.

ghost use Rattle.std.specs.Prelude.{◌≡◌};
ghost use Rattle.shell_words.specs.declared.mistake.ReadError.TheVariants as errors;

use std::alloc::AllocError;

/// What is wrong with a line. `text` of `specs/Mistakes.antt` says it in words.
#[derive(Clone, Copy)]
pub enum Mistake {
    /// A backslash stands before a letter or a digit that it gives no meaning, or at the line's end.
    BadEscape,
    /// A quote isn't closed.
    OpenQuote,
    /// The first word is no command.
    Unknown,
    /// The command has no such option.
    BadOption,
    /// `put --if-version`: no server has a call for it yet.
    NoVersions,
    /// The command wants a path of the server's.
    NoPath,
    /// It wants a second one.
    NoSecondPath,
    /// It wants a file or a folder of the host's.
    NoLocal,
    /// There is a word too many.
    TooMany,
    /// A word has no byte, and so names nothing.
    NoName,
    /// A name has more bytes than any may have.
    LongName,
    /// A path has more names than any may have.
    LongPath,
}

/// Why a line wasn't read.
#[derive(Clone, Copy)]
pub enum ReadError {
    /// It is wrong.
    Mistaken(Mistake),
    /// Memory ran out.
    Memory,
}

impl From<AllocError> for ReadError {
    ghost from_gives = { λ _ e. e ≡ errors.Memory };

    fn from(_want: AllocError) -> ReadError {
        ReadError::Memory
    }
}
