//! What an event of a server is told beside its messages. `specs/Step.antt` of `server_core` says when.

ghost use Rattle.std.specs.Prelude.{◌≡◌};
ghost use Rattle.server_rules.specs.declared.told.Told.TheVariants as told;

/// What an event that asks for something is told.
#[derive(Clone, Copy, Drop)]
pub enum Told {
    /// It asked for nothing.
    Nothing,
    /// The number of the session that a connection made.
    Session(u32),
    /// No further session can stand.
    Full,
    /// There was no memory for a further session.
    Memory,
    /// A change left the queue: the session that asked for it, under this xid. It was made, or its
    /// file is gone, or a name stands for another node.
    Settled { session: u32, xid: u32 },
    /// No change waits that can be made.
    NotReady,
}

/// What is told of a change that left the queue: whose it was.
pub fn settled(session: u32, xid: u32) -> Told
    ensures { result ≡ told.Settled session xid }
{
    Told::Settled { session, xid }
}
