//! Which lines of a trace may come next. `asks_at` in `specs/Run.antt` says which each stage takes.

/// Which lines may come next.
#[derive(Clone, Copy)]
pub enum Stage {
    /// The line with the version of LBFS.
    Version,
    /// The line with the lease term.
    Term,
    /// The line with the clocks' drift.
    Drift,
    /// The line with the number of clients.
    Clients,
    /// A file of the opening tree, or an event.
    Files,
    /// An event.
    Events,
}
