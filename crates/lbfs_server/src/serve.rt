//! Serving a store's tree on a port. `specs/Serve.antt` states which tree that is, and which record
//! is told that breaks a rule.

ghost use Rattle.std.specs.Prelude.{◌≡◌, ◌<◌, ◌^◌, ◌-◌, ◌⊎◌, ℕ, length, Some, IfOk, OnOk, IsErrOf};
ghost use Rattle.lb_base.specs.Causes.{Rose};
ghost use Rattle.lbfs_server.specs.Ends.{CountsMore};
ghost use Rattle.lbfs_server.specs.Serve.{IsServerOf, IsBad, IsFront, quiet_from};
ghost use Rattle.lbfs_server.specs.declared.listener.Stop.{Stop};
ghost use Rattle.lbfs_server.specs.declared.listener.Stop.TheVariants as stops;
ghost use Rattle.lbfs_server.specs.declared.serve.ServeError.TheVariants as errors;
ghost use Rattle.server_held.specs.Kept.{KeepsTree};
ghost use Rattle.store.specs.declared.store.StoreError.TheVariants as store_errors;
ghost use Rattle.server_law.specs.Facts.{Holds};
ghost use mathlib.Core.List.{IsPrefix};

use crate::hints::{content_ids, learn_all};
use crate::listener::{Stop, serve_links};
use links::clock::Clock;
use links::network::Network;
use links::rest::Rest;
use server_core::server::Server;
use server_held::held::SharedServer;
use server_held::turns::Turns;
use server_turns::gate::Gate;
use server_turns::shared::Shared;
use std::alloc::{AllocFailed, Global};
use std::sync::Wait;
use std::thread::Threads;
use store::store::{Store, StoreError};
use synced_store::syncs::{Synced, Syncs};
use tree_load::error::LoadError;
use tree_load::load::load;
use turn_post::journaled::Journaled;
use turn_post::post::Post;

/// How many bytes of memory the temporary files of all sessions may hold together.
const TEMPS_HELD_MOST: u64 = 1 << 30;

/// What came of serving.
#[derive(Clone, Copy)]
pub struct Served {
    /// How many sessions were served.
    pub sessions: u32,
    /// How long the journal is that the listener has seen by its last turn, which it takes once all
    /// sessions have ended.
    pub front: u64,
}

/// Why nothing more is served.
#[derive(Clone, Copy)]
pub enum ServeError {
    /// The network failed.
    Network,
    /// The store failed as its records were to be given, or it was to be made sure of what it was given.
    Store,
    /// This record of the store, counted from 0, is the first that breaks a rule.
    BadRecord { which: usize },
    /// Memory ran out.
    Memory,
    /// No thread could be had that makes changes which wait.
    NoThread,
}

/// A server of the tree of a store's records, and what makes the store sure of what it is given. That is asked
/// for first: so no server is dropped for want of it.
#[tactic(auto, using(crate::proofs::Serving::by_opened))]
fn opened<R: Threads + Sync, S: Synced>(
    rt: &R,
    alloc: Global,
    store: &mut S,
    place: &str,
    term: u32,
) -> Result<(Server, S::Y), ServeError>
    ensures tree { IfOk result (λ made. IsServerOf (S.records store.old) term made.0) }
    ensures place { OnOk result (S.records store.old ≡ S.there store.old place.now) }
    ensures opened { IfOk result (λ made. Holds made.0.tree made.0) }
    ensures kept { IfOk result (λ made. KeepsTree (S.records store.new) made.0.tree) }
    ensures store { IsErrOf result errors.Store → Rose (S.faults store.old) (S.faults store.new) }
    ensures record { (which : ℕ) → IsErrOf result (errors.BadRecord which) → IsBad (S.records store.old) which }
    ensures network { IsErrOf result errors.Network → ⊥ }
    ensures alone { IsErrOf result errors.NoThread → ⊥ }
{
    let records = match store.load(alloc, place) {
        Ok(records) => records,
        Err(StoreError::Failed) => return Err(ServeError::Store),
        Err(StoreError::Memory) => return Err(ServeError::Memory),
    };
    let syncs = match store.syncs() {
        Ok(syncs) => syncs,
        Err(_want) => return Err(ServeError::Memory),
    };
    let files = match content_ids(alloc, &records) {
        Ok(files) => files,
        Err(_want) => return Err(ServeError::Memory),
    };
    let tree = match load(rt, alloc, records) {
        Ok(tree) => tree,
        Err(LoadError::BadRecord { which }) => return Err(ServeError::BadRecord { which }),
        Err(LoadError::Memory) => return Err(ServeError::Memory),
    };
    match Server::with_tree(alloc, tree, term) {
        Ok(mut server) => {
            server.bound_temps(TEMPS_HELD_MOST);
            learn_all(&mut server, files.as_slice());
            Ok((server, syncs))
        }
        Err(_) => Err(ServeError::Memory),
    }
}

/// The reading before which no change is made: leases of the run before may stand until then, if it granted
/// none for a longer term. Nothing has to wait where nothing was ever changed.
fn quiet_from(changes: u64, now: u64, term: u32) -> u64
    requires { now < 2 ^ 63 }
    ensures { result ≡ quiet_from changes now term }
{
    if changes == 0 {
        0
    } else {
        now + u64::from(term)
    }
}

/// How many changes a journal tells of that begins with what the server was opened with.
fn changes_in(long: u64) -> u64
    ensures { result ≡ long - 1 }
{
    long.saturating_sub(1)
}

/// What threads share, in a box, so that a turn moves a pointer to it. Where memory runs out its store comes back.
fn boxed<S: Store + Drop>(alloc: Global, held: SharedServer<S>) -> Result<Box<SharedServer<S>>, S>
    ensures { IfOk result (λ made. made.value.kept ≡ held.kept) }
{
    match Box::new(alloc, held) {
        Ok(made) => Ok(made),
        Err(AllocFailed { value }) => Err(value.into_store()),
    }
}

/// The store of what threads shared.
fn store_of<S: Store + Drop>(held: Box<SharedServer<S>>) -> S
    ensures store { result ≡ held.value.kept.store }
    ensures accounted { Holds held.value.kept.opened.tree held.value.kept.server }
    ensures kept { KeepsTree (S.records result) held.value.kept.server.tree }
{
    Box::into_inner(held).into_store()
}

/// Why nothing more is served once a store could not be closed for a reason: running out of memory, or `Store`. That
/// its count of faults is above the one before is looked up: of a store that comes back from other threads
/// nothing else tells it.
fn close_error(why: StoreError, before: u64, after: u64) -> ServeError
    ensures store { result ≡ errors.Store → Rose before after }
    ensures memory { why ≡ store_errors.Memory → result ≡ errors.Memory }
    ensures failed { why ≡ store_errors.Failed → Rose before after → result ≡ errors.Store }
    ensures others { (result ≡ errors.Store) ⊎ (result ≡ errors.Memory) }
{
    match why {
        StoreError::Failed if before < after || after == u64::MAX => ServeError::Store,
        _ => ServeError::Memory,
    }
}

/// Closes a store, and answers what came of serving it: how it ended, unless that fails.
fn closed<S: Synced>(
    store: &mut S,
    before: u64,
    ended: Result<(), Stop>,
    sessions: u32,
    front: u64,
) -> Result<Served, ServeError>
    ensures kept { S.records store.new ≡ S.records store.old }
    ensures told { IfOk result (λ s. (s.sessions ≡ sessions) × (s.front ≡ front)) }
    ensures ended { OnOk result ((stop : Stop) → IsErrOf ended stop → ⊥) }
    ensures network { IsErrOf result errors.Network → IsErrOf ended stops.Network }
    ensures alone { IsErrOf result errors.NoThread → IsErrOf ended stops.NoThread }
    ensures store { IsErrOf result errors.Store → Rose before (S.faults store.new) }
    ensures record { (which : ℕ) → IsErrOf result (errors.BadRecord which) → ⊥ }
{
    if let Err(why) = store.close() {
        return Err(close_error(why, before, store.fault_count()));
    }
    match ended {
        Ok(()) => Ok(Served { sessions, front }),
        Err(Stop::Network) => Err(ServeError::Network),
        Err(Stop::NoThread) => Err(ServeError::NoThread),
        // Its close would have failed.
        Err(Stop::Doubt) => Err(ServeError::Memory),
        Err(Stop::Memory) => Err(ServeError::Memory),
    }
}

/// Serves what threads share, on a port, and gives it back with how long its journal is. It is written for any
/// such thing, so that all that a server is stands in reach of `serve` alone.
fn serve_post<
    R: Threads + Wait + Sync,
    H: Turns + Drop + Send,
    Y: Syncs + Drop + Sync,
    N: Network + Drop,
    C: Clock + Sync,
    T: Rest + Sync,
    G: Gate + Drop + Sync,
>(
    rt: &R,
    alloc: Global,
    held: H,
    syncs: Y,
    net: N,
    clock: &C,
    rest: &T,
    gate: G,
    quiet: u64,
    port: u16,
    sessions: u32,
) -> (Result<(), Stop>, N, u64, H)
where
    N::L: Drop + Send,
    ensures front { result.2 ≡ length (H.journal result.3) }
    ensures seen { IsPrefix (H.journal held) (H.journal result.3) }
    ensures counted { OnOk result.0 (CountsMore (N.accepted net) sessions (N.accepted result.1)) }
    ensures at { OnOk result.0 (N.at result.1 ≡ Some port) }
    ensures cause { IsErrOf result.0 stops.Network → Rose (N.faults net) (N.faults result.1) }
    ensures alone { IsErrOf result.0 stops.NoThread → result.1 ≡ net }
{
    let (post, pass) = match Post::new(alloc, held) {
        Ok(made) => made,
        Err(held) => {
            let long = held.count();
            return (Err(Stop::Memory), net, long, held);
        }
    };
    let shared = Shared::new(alloc, post, syncs, gate, quiet);
    let (ended, net, pass) = serve_links(rt, &shared, pass, net, clock, rest, port, sessions);
    let (long, held) = shared.finish(rt, pass);
    (ended, net, long, held)
}

/// Loads the tree of a store, listens at a port, and serves as many sessions as are asked for, each
/// in threads of its own; it returns once they have ended, and gives the store and the network back.
/// What the store then keeps is the tree of a server that holds what its journal says, over the tree that
/// it was opened with, and how long that journal is, is told. Leases are granted for `term` milliseconds; and
/// where anything was ever changed, no change that waits is made in so long a time from the beginning on.
///
/// An empty store has the root alone. `Store` comes only where the store's count of faults rose: as it
/// gave its records, or as it was to be made sure of what it was given. Then nothing more goes out on
/// any link. `BadRecord` names the first record that breaks a rule, and `Network` comes only where the
/// network's count rose. With `NoThread` the network is as it was.
#[tactic(auto, using(crate::proofs::Serving::none_held, crate::proofs::Serving::same_error))]
pub fn serve<
    R: Threads + Wait + Sync,
    S: Synced + Drop + Send,
    N: Network + Drop,
    C: Clock + Sync,
    T: Rest + Sync,
    G: Gate + Drop + Sync,
>(
    rt: &R,
    alloc: Global,
    store: S,
    place: &str,
    net: N,
    clock: &C,
    rest: &T,
    gate: G,
    port: u16,
    term: u32,
    sessions: u32,
) -> (Result<Served, ServeError>, S, N)
where
    N::L: Drop + Send,
    ensures place { OnOk result.0 (S.records store ≡ S.there store place.now) }
    ensures port { OnOk result.0 (N.at result.2 ≡ Some port) }
    ensures sessions { IfOk result.0 (λ s. (s.sessions ≡ sessions) × CountsMore (N.accepted net) sessions (N.accepted result.2)) }
    ensures front { IfOk result.0 (λ s. IsFront (S.records store) (S.records result.1) s.front) }
    ensures network { IsErrOf result.0 errors.Network → Rose (N.faults net) (N.faults result.2) }
    ensures alone { IsErrOf result.0 errors.NoThread → result.2 ≡ net }
    ensures store { IsErrOf result.0 errors.Store → Rose (S.faults store) (S.faults result.1) }
    ensures record { (which : ℕ) → IsErrOf result.0 (errors.BadRecord which) → IsBad (S.records store) which }
{
    let mut store = store;
    let before = store.fault_count();
    let (server, syncs) = match opened(rt, alloc, &mut store, place, term) {
        Ok(made) => made,
        Err(error) => return (Err(error), store, net),
    };
    let quiet = quiet_from(server.changes(), clock.now(), term);
    let held = match boxed(alloc, SharedServer::new(alloc, server, store)) {
        Ok(held) => held,
        Err(store) => return (Err(ServeError::Memory), store, net),
    };
    let (ended, net, long, held) = serve_post(
        rt, alloc, held, syncs, net, clock, rest, gate, quiet, port, sessions,
    );
    let front = changes_in(long);
    let mut store = store_of(held);
    let told = closed(&mut store, before, ended, sessions, front);
    (told, store, net)
}
