//! The line of an operation that ended, as it is written.

ghost use Rattle.std.specs.Prelude.{◌≡◌};
ghost use Rattle.mount_desk.specs.Turns.{IsAnswer};

use lb_base::items::Bytes;

/// The line of an operation that ended, with its line feed.
#[derive(Drop)]
pub struct AnswerLine {
    text: Bytes,
    ghost told: { IsAnswer text },
}

impl AnswerLine {
    /// The line with these bytes.
    pub fn of(text: Bytes) -> AnswerLine
        requires { IsAnswer text }
        ensures { result.text ≡ text }
    {
        AnswerLine { text }
    }

    /// Its bytes.
    pub fn as_slice(&self) -> &[u8]
        ensures answer { IsAnswer result.now }
        ensures text { result.now ≡ self.now.text }
    {
        self.text.as_slice()
    }
}
