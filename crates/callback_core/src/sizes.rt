//! How much the pending changes will make (`entries_of` and `bytes_of` in `specs/Waits.antt`).

ghost use Rattle.std.specs.Prelude.{◌≡◌, ◌<◌, ◌^◌};
ghost use Rattle.callback_core.specs.Waits.{entries_of, bytes_of};

use lease_rules::change::PendingChange;

/// The entries of the journal that they will make.
pub fn entries_of<P>(waits: &Vec<PendingChange<P>>) -> u64
    requires { entries_of waits.now.items < 2 ^ 64 }
    ensures { result ≡ entries_of waits.now.items }
{
    let mut entries = 0;
    for change in waits {
        entries += change.entries;
    }
    entries
}

/// The bytes that they will add to the tree.
pub fn bytes_of<P>(waits: &Vec<PendingChange<P>>) -> u64
    requires { bytes_of waits.now.items < 2 ^ 64 }
    ensures { result ≡ bytes_of waits.now.items }
{
    let mut bytes = 0;
    for change in waits {
        bytes += change.bytes;
    }
    bytes
}
