//! Which record a file of the folder holds. `specs/Names.antt` states it.

ghost use Rattle.std.specs.Prelude.{◌≡◌, ◌++◌, OnOk, string_bytes};
ghost use Rattle.system_files.specs.Names.{name_of, which_of, lettered};

use command_text::fields::number;
use log_store::which::Which;
use std::alloc::AllocError;
use std::fmt::Write;

/// The record that a letter and a number name, if they name one.
fn lettered(letter: u8, digits: &[u8]) -> Option<Which>
    ensures { result ≡ lettered letter digits.now }
{
    let id = number(digits)?;
    match letter {
        b'n' => Some(Which::Node(id)),
        b'c' => Some(Which::Content(id)),
        _ => None,
    }
}

/// The record that the file of this name holds, if it holds one.
pub fn held_by(name: &[u8]) -> Option<Which>
    ensures { result ≡ which_of name.now }
{
    if name == b"head".as_slice() {
        return Some(Which::Head);
    }
    let (letter, digits) = name.split_first()?;
    lettered(*letter, digits)
}

/// Writes the name of a record's file behind a path. The one error is running out of memory.
pub fn put_name(path: &mut String, which: Which) -> Result<(), AllocError>
    ensures { OnOk result (string_bytes path.new ≡ string_bytes path.old ++ name_of which) }
{
    match which {
        Which::Head => path.push_str("head"),
        Which::Node(id) => write!(path, "n{id}"),
        Which::Content(id) => write!(path, "c{id}"),
    }
}
