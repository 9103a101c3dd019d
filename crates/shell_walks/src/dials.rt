//! What gives a shell its connections.

use lb_base::source::Failed;
use links::link::Link;

/// Dials a server, from several threads at once.
pub trait Dials {
    /// A link to the server.
    type L: Link;

    /// A link to the server.
    fn dial(&self) -> Result<Self::L, Failed>;

    /// How many bytes went over its links so far, both ways.
    fn bytes(&self) -> u64;
}
