//! What holds of every format (how a value is spelled in bytes and read again, `item.rt`):
//! `specs/Exact.antt`.

ghost use Rattle.xdr_codec.specs.Exact.{IsExact};

use crate::item::Item;

/// Reading takes exactly the spelling of a value that fits, and each such spelling is read as that
/// value, whatever follows it; where reading is refused no such spelling begins; none is a proper
/// prefix of another, and no two values have one.
pub fn form_is_exact<T: Item>()
    ensures { IsExact T.form }
{}
