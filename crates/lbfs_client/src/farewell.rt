//! What a client says last on a link: `specs/Farewell.antt`.

ghost use Rattle.std.specs.Prelude.{◌≡◌};
ghost use Rattle.lbfs_client.specs.Farewell.{farewell};

use hash_calls::message::Back;
use wire::message::{Body, Message};

/// By this a client gives up all leases of its session at once. Whoever sends it lets the client go, or has it
/// take no command any more: what it noted of leases holds no longer. It takes no memory.
pub fn farewell() -> Message
    ensures { result ≡ farewell }
{
    Message::Answer(0, Body::Back(Back::RecallAnswer))
}
