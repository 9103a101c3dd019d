//! What a mount tells its client between lines, where its index of chunks may find bytes: what was stored
//! last, and a file of the host. `specs/Hinting.antt` says what comes of it.

ghost use Rattle.std.specs.Prelude.{◌≡◌, ◌≤◌, length, IfOk};
ghost use Rattle.limits.specs.declared.TheConstants.{FILE_MOST};
ghost use Rattle.lbfs_client.specs.Hinting.{OffersRead, closing_of, has_fresh};

use crate::line::Place;
use crate::walk::Walk;
use lb_base::items::Bytes;
use links::files::FilesError;
use open_close::client::Client;
use shared_bytes::SharedBytes;
use std::alloc::Global;

/// The bytes that were read of a file of the host are offered to the client; says whether they were.
pub(crate) fn offer_read(
    alloc: Global,
    client: &mut Client,
    read: Result<Bytes, FilesError>,
) -> bool
    requires { IfOk read (λ bytes. length bytes ≤ FILE_MOST) }
    ensures { OffersRead client.old read result client.new }
{
    let Ok(bytes) = read else {
        return false;
    };
    match SharedBytes::new(alloc, bytes) {
        Ok(content) => client.offer(alloc, content).is_ok(),
        Err(_want) => false,
    }
}

/// Whether an open of this place, whose file isn't open, asks nobody, as its content is fresh. Of a path that
/// isn't known before it was looked up.
pub(crate) fn has_fresh(client: &Client, place: &Place, now: u64) -> bool
    ensures { result ≡ has_fresh client.now place.now now }
{
    match place.file() {
        Some(file) => client.fresh(file, now).is_some(),
        None => false,
    }
}

/// The file that the line under way closes.
pub(crate) fn closing(walk: &Option<Walk>) -> Option<u64>
    ensures { result ≡ closing_of walk.now }
{
    match walk {
        Some(Walk::Closes(file)) => Some(*file),
        _ => None,
    }
}
