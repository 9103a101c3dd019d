//! On which wire goes what is sent on a session: its own, or none where the end that it goes to saw the
//! connection lost. `specs/Ways.antt` says it.

ghost use Rattle.std.specs.Prelude.{◌≡◌};
ghost use Rattle.session_rules.specs.Ways.{own_way, way_up, way_down};
ghost use Rattle.session_rules.specs.Numbers.{numbered};

use crate::numbers::place_of;
use crate::session::Session;

/// The place of a session's own wire, among so many, unless the end that it goes to saw the connection
/// lost.
fn own_way(is_lost: bool, wires: usize, number: u64) -> Option<usize>
    ensures { result ≡ own_way is_lost wires number }
{
    if is_lost {
        return None;
    }
    place_of(wires, number)
}

/// The place, among so many wires, of the one on which goes what a client sends on this session.
pub fn way_up(sessions: &[Session], wires: usize, number: u64) -> Option<usize>
    ensures { result ≡ way_up (numbered sessions.now number) wires number }
{
    let place = place_of(sessions.len(), number)?;
    let session = &sessions[place];
    own_way(session.hung, wires, number)
}

/// The place, among so many wires, of the one on which goes what the server sends on this session.
pub fn way_down(sessions: &[Session], wires: usize, number: u64) -> Option<usize>
    ensures { result ≡ way_down (numbered sessions.now number) wires number }
{
    let place = place_of(sessions.len(), number)?;
    let session = &sessions[place];
    own_way(session.cut, wires, number)
}
