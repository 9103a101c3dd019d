//! The names of files of the host: `local_of` of `specs/Lines.antt`.

ghost use Rattle.std.specs.Prelude.{◌≡◌, true, IfOk, string_bytes};
ghost use Rattle.command_text.specs.Reading.{Gives};
ghost use Rattle.lbfs_client.specs.Lines.{is_local, local_of};

use command_text::fields;
use command_text::line_error::LineError;
use limits::NAME_MOST;
use std::alloc::{AllocError, Global};
use std::marker::Model;

/// The name of a file of the host. Contracts see its bytes, which are letters of names, 1 to 255 of
/// them, where it was read.
pub struct LocalName {
    text: String,
}

// By hand: docs/proving/dropping.md.
impl Drop for LocalName {
    fn drop(self) {
        let LocalName { text } = self;
        drop(text);
    }
}

impl Model for LocalName {
    ghost use Rattle.std.specs.Prelude.{ℕ, List, string_bytes};

    ghost Value = { List ℕ };

    ghost view = { λ n. string_bytes n.text };
}

/// Whether this is the name of a file of the host.
fn is_local(word: &[u8]) -> bool
    ensures { result ≡ is_local word.now }
{
    fields::is_text(word) && word.len() <= NAME_MOST
}

/// A name as a text.
fn text_of(alloc: Global, word: &[u8]) -> Result<String, AllocError>
    requires { is_local word.now ≡ true }
    ensures { IfOk result (λ text. string_bytes text ≡ word.now) }
{
    let text = String::from_utf8_lossy(alloc, word)?;
    Ok(text)
}

impl LocalName {
    /// Reads a name. The error is `BadLine` where the word is none, or `Memory`.
    pub fn read(alloc: Global, word: &[u8]) -> Result<LocalName, LineError>
        ensures { Gives result (local_of word.now) }
    {
        if is_local(word) {
            let text = text_of(alloc, word)?;
            Ok(LocalName { text })
        } else {
            Err(LineError::BadLine)
        }
    }

    /// The name. It takes no memory.
    pub fn as_str(&self) -> &str
        ensures { result.now ≡ self.now }
    {
        self.text.as_str()
    }
}
