//! The names of files that are being written (`LocalPath::temporary`), as they are known again:
//! `specs/Temporary.antt`. A fetch that is stopped leaves such a file, so
//! they are nobody's content, and go neither to a server nor from one.

ghost use Rattle.std.specs.Prelude.{◌≡◌, false, true, MatchOption};
ghost use Rattle.shell_words.specs.Temporary.{first_of_two, is_carried, is_temporary, writer_of};

use crate::local::local_name;
use command_text::fields::number;
use command_text::parts::cut;

/// The first of two numbers that a hyphen parts.
fn first_of_two(text: &[u8]) -> Option<u64>
    ensures { result ≡ first_of_two text.now }
{
    let (first, second) = cut(b'-', text)?;
    let process = number(first)?;
    number(second)?;
    Some(process)
}

/// The process that writes, or wrote, the file of a name; none where no file that is being written has it.
pub fn writer_of(name: &[u8]) -> Option<u64>
    ensures { result ≡ writer_of name.now }
{
    first_of_two(name.strip_prefix(b"~lbfs-")?)
}

/// Whether it is the name of a file that is being written, or was.
pub fn is_temporary(name: &[u8]) -> bool
    ensures { result ≡ is_temporary name.now }
{
    writer_of(name).is_some()
}

/// A name that goes between a folder and a directory, as one component of a path of the host; nothing where it
/// can't be one, or is that of a file that is being written.
pub fn carried_name(name: &[u8]) -> Option<&str>
    ensures { MatchOption result (is_carried name.now ≡ false) (λ text. (text.now ≡ name.now) × (is_carried name.now ≡ true)) }
{
    if is_temporary(name) {
        None
    } else {
        local_name(name)
    }
}
