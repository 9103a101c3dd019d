//! Connections: a link on which messages go, its twin, at which records come, and their thread.

ghost use Rattle.std.specs.Prelude.{ℕ, ◌≤◌, IfErr};
ghost use Rattle.lbfs_mount.specs.Mounts.{IsFaulty, Unjoined};

use crate::hearing::hear_all;
use crate::mount_error::MountError;
use lb_base::source::Failed;
use links::clock::Clock;
use links::link::Link;
use links::network::Network;
use mount_desk::shared::ScriptTurns;
use mount_desk::turns::Turns;
use record_ends::inbox::Inbox;
use std::alloc::Global;
use std::sync::Wait;
use std::thread::{Scope, Threads};

/// By what a mount gets its connections.
#[derive(Drop)]
pub(crate) struct Dialler<N, L> {
    /// The network in which the server is dialled.
    pub(crate) net: N,
    /// The server's port.
    pub(crate) port: u16,
    /// The link whose twin could not be made, where that was so.
    pub(crate) unpaired: Option<L>,
}

/// A connection, whose records aren't taken yet.
struct Dialled<L> {
    /// Where messages go.
    link: L,
    /// Where records come.
    twin: L,
    inbox: Inbox,
}

/// A link with its twin, and nothing that came on it. Where there can be no twin the link is shut, and
/// kept aside.
fn pair<L: Link + Drop>(
    link: L,
    inbox: Inbox,
    unpaired: &mut Option<L>,
) -> Result<Dialled<L>, MountError>
    ensures { (dials : ℕ) → IfErr result (λ e. Unjoined (IsFaulty L.faults unpaired.new) dials dials e) }
{
    let mut link = link;
    match link.twin() {
        Ok(twin) => Ok(Dialled { link, twin, inbox }),
        Err(Failed) => {
            link.shut();
            *unpaired = Some(link);
            Err(MountError::Network)
        }
    }
}

/// Dials the port.
fn dial<N: Network>(
    alloc: Global,
    dialler: &mut Dialler<N, N::L>,
) -> Result<Dialled<N::L>, MountError>
where
    N::L: Drop,
    ensures why { IfErr result (λ e. Unjoined (IsFaulty N.L.faults dialler.new.unpaired) (N.faults dialler.old.net) (N.faults dialler.new.net) e) }
    ensures later { N.faults dialler.old.net ≤ N.faults dialler.new.net }
{
    match Inbox::new(alloc) {
        Ok(inbox) => match dialler.net.dial(dialler.port) {
            Ok(link) => pair(link, inbox, &mut dialler.unpaired),
            Err(Failed) => {
                drop(inbox);
                Err(MountError::Network)
            }
        },
        Err(_want) => Err(MountError::Memory),
    }
}

/// Joins a connection, and has a thread take its records. Where no thread can be started memory
/// runs out.
pub(crate) fn connect<
    's,
    'e,
    R: Threads + Wait + Sync,
    D: Turns<L = N::L> + Drop + Send,
    N: Network,
    C: Clock + Sync,
>(
    scope: &'s Scope<'s, &'e ()>,
    rt: &'e R,
    turns: &ScriptTurns<'e, D>,
    dialler: &mut Dialler<N, N::L>,
    clock: &'e C,
) -> Result<(), MountError>
where
    N::L: Drop + Send + 's,
    ensures why { IfErr result (λ e. Unjoined (IsFaulty N.L.faults dialler.new.unpaired) (N.faults dialler.old.net) (N.faults dialler.new.net) e) }
    ensures later { N.faults dialler.old.net ≤ N.faults dialler.new.net }
{
    // Errors are handed on by a `match`, which is proved more cheaply than `?` (docs/PROVING.md, Code).
    match dial(turns.alloc(), dialler) {
        Ok(dialled) => {
            let Dialled { link, twin, inbox } = dialled;
            let connection = turns.join(rt, link, clock.now());
            let shared = turns.shared();
            let hear = move || {
                let mut twin = twin;
                let mut inbox = inbox;
                hear_all(rt, shared, connection, &mut twin, &mut inbox, clock);
            };
            match scope.spawn(hear) {
                Ok(_thread) => Ok(()),
                Err(_refused) => Err(MountError::Memory),
            }
        }
        Err(why) => Err(why),
    }
}
