//! The xids of the calls of one end of a session (`draw` in `specs/Xids.antt`).

ghost use Rattle.std.specs.Prelude.{◌≡◌};
ghost use Rattle.lease_rules.specs.Xids.{draw};

use limits::XIDS_MOST;

/// The xid of the next call, where this one was drawn last: 0 where none was, so the first is 1.
/// There is none where all were drawn, since none is used twice.
pub fn draw(last: u32) -> Option<u32>
    ensures { result ≡ draw last }
{
    if last >= XIDS_MOST {
        return None;
    }
    Some(last + 1)
}
