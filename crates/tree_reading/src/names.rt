//! Which names a directory takes (`specs/Names.antt`).

ghost use Rattle.std.specs.Prelude.{◌≡◌, ◌==◌, ◌||◌};
ghost use Rattle.std.specs.List.{list_any};
ghost use Rattle.tree_reading.specs.Names.{is_misspelt, spelt, undotted, is_dot, is_dot_dot};

use limits::NAME_MOST;
use xdr_codec::status::Status;

/// Whether a slash or a zero byte is among these.
fn has_wrong(name: &[u8]) -> bool
    ensures { result ≡ list_any (λ b. (b == 47) || (b == 0)) name.now }
{
    for byte in name {
        if *byte == b'/' || *byte == 0 {
            return true;
        }
    }
    false
}

/// Whether a name has no byte, or a wrong one.
fn is_misspelt(name: &[u8]) -> bool
    ensures { result ≡ is_misspelt name.now }
{
    if name.len() == 0 {
        return true;
    }
    has_wrong(name)
}

/// Whether a name has neither too many bytes nor wrong ones. It takes no memory.
pub fn spelt(name: &[u8]) -> Result<(), Status>
    ensures { result ≡ spelt name.now }
{
    if name.len() > NAME_MOST {
        return Err(Status::NameTooLong);
    }
    if is_misspelt(name) {
        return Err(Status::Acces);
    }
    Ok(())
}

/// Whether a name is `.`.
pub fn is_dot(name: &[u8]) -> bool
    ensures { result ≡ is_dot name.now }
{
    name == b".".as_slice()
}

/// Whether a name is `..`.
pub fn is_dot_dot(name: &[u8]) -> bool
    ensures { result ≡ is_dot_dot name.now }
{
    name == b"..".as_slice()
}

/// Refuses `.` with the one status, and `..` with the other.
pub fn undotted(name: &[u8], dot: Status, dot_dot: Status) -> Result<(), Status>
    ensures { result ≡ undotted dot dot_dot name.now }
{
    if is_dot(name) {
        return Err(dot);
    }
    if is_dot_dot(name) {
        return Err(dot_dot);
    }
    Ok(())
}
