//! Where the paths of opening lines lead in the server's tree. `led_to` and `place_for` in
//! `specs/Run.antt` say it.

ghost use Rattle.std.specs.Prelude.{◌≡◌};
ghost use Rattle.trace_replay.specs.Run.{led_to, place_for};

use command_text::path::Spot;
use lb_base::items::Name;
use server_core::server::Server;
use xdr_codec::handle::ROOT;

/// The id of what these names lead to, from a directory on, if there is such a file or directory.
fn led_to(server: &Server, dir: u64, names: &[Name]) -> Option<u64>
    ensures { result ≡ led_to server.now.tree.nodes dir names.now }
{
    let mut at = dir;
    for name in names {
        let found = server.stands_for(at, name.as_slice())?;
        at = found.id;
    }
    Some(at)
}

/// The directory in which the name of a spot is free, if there is one.
pub fn place_for(server: &Server, spot: &Spot) -> Option<u64>
    ensures { result ≡ place_for server.now.tree spot.now }
{
    let dir = led_to(server, ROOT, spot.dirs.as_slice())?;
    if server.can_open(dir, spot.name.as_slice()) {
        Some(dir)
    } else {
        None
    }
}
