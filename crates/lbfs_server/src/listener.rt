//! The listener: it takes links off the network, makes a session for each, and has threads serve
//! them beside each other. A change that waits for a moment is made by a thread of its own.

ghost use Rattle.std.specs.Prelude.{◌≡◌, ◌<◌, ◌≤◌, ◌^◌, Some, OnOk, IsErrOf};
ghost use Rattle.lb_base.specs.Causes.{Rose};
ghost use Rattle.lbfs_server.specs.Ends.{CountsMore};
ghost use Rattle.lbfs_server.specs.declared.listener.Stop.TheVariants as stops;
ghost use Rattle.turn_post.specs.Passes.{IsPassOf, Follows};

use crate::session::{session_both, session_in, session_out};
use links::clock::Clock;
use links::link::Link;
use links::network::{AcceptError, Bell, Network};
use links::rest::Rest;
use record_ends::end::End;
use server_held::held::Went;
use server_held::turns::Turns;
use server_turns::gate::Gate;
use server_turns::shared::Shared;
use server_turns::work::Work;
use std::sync::{Mutex, Wait};
use std::thread;
use std::thread::{Scope, Threads};
use synced_store::syncs::Syncs;
use turn_post::post::Pass;

/// Why no further link is taken.
#[derive(Clone, Copy)]
pub enum Stop {
    /// The network failed.
    Network,
    /// The store could not be made sure of something that was told to it.
    Doubt,
    /// No thread could be had that makes changes which wait.
    NoThread,
    /// Memory ran out before any link was taken.
    Memory,
}

/// Serves a session on its link and the link's twin: one thread takes records and puts out their
/// answers, and another puts out what further events have to say. Where that can't be had the one does
/// both.
fn serve_twins<
    'x,
    R: Threads + Wait + Sync,
    H: Turns + Drop + Send,
    Y: Syncs + Sync,
    G: Gate + Drop + Sync,
    L: Link + Drop + Send,
    C: Clock + Sync,
>(
    rt: &'x R,
    shared: &'x Shared<H, Y, G, L>,
    pass: Pass<H>,
    session: u32,
    gives: &'x Mutex<L>,
    twin: L,
    clock: &'x C,
) -> End
    requires { IsPassOf shared.now.post pass }
{
    let (pass, other) = shared.split(pass);
    thread::scope(
        thread::scope_env(),
        rt,
        move |scope| -> End
            requires { IsPassOf shared.now.post pass × IsPassOf shared.now.post other }
        {
            let mut twin = twin;
            let giver = scope.spawn(
                move ||
                    requires { IsPassOf shared.now.post other }
                {
                    session_out(rt, shared, other, session, gives);
                },
            );
            let is_alone = giver.is_err();
            drop(giver);
            if is_alone {
                let (_pass, end) = session_both(rt, shared, pass, session, &mut twin, clock);
                twin.shut();
                return end;
            }
            let (_pass, end) = session_in(rt, shared, pass, session, &mut twin, gives, clock);
            end
        },
    )
}

/// Serves a session on its link, in two threads; where the link has no twin, in one.
fn serve_session<
    R: Threads + Wait + Sync,
    H: Turns + Drop + Send,
    Y: Syncs + Sync,
    G: Gate + Drop + Sync,
    L: Link + Drop + Send,
    C: Clock + Sync,
>(rt: &R, shared: &Shared<H, Y, G, L>, pass: Pass<H>, session: u32, link: L, clock: &C) -> End
    requires { IsPassOf shared.now.post pass }
{
    let mut link = link;
    let Ok(twin) = link.twin() else {
        let (_pass, end) = session_both(rt, shared, pass, session, &mut link, clock);
        return end;
    };
    if let Ok(further) = link.twin() {
        shared.keep_link(rt, session, further);
    }
    let gives = Mutex::new(link);
    let end = serve_twins(rt, shared, pass, session, &gives, twin, clock);
    shared.drop_link(rt, session);
    end
}

/// How many changes that wait are made between two rests, at most.
const CHANGES_MOST: u32 = 64;

/// Lets changes be made that wait, as long as one can be, once the quiet is over; the answer is whether one
/// may wait still.
fn settle_all<R: Wait, H: Turns + Drop, Y: Syncs, G: Gate + Drop, L: Link + Drop>(
    rt: &R,
    shared: &Shared<H, Y, G, L>,
    pass: Pass<H>,
    now: u64,
) -> (Pass<H>, bool)
    requires pass { IsPassOf shared.now.post pass }
    requires timed { now < 2 ^ 63 }
    ensures { Follows shared.now.post pass result.0 }
{
    if !shared.settles(now) {
        return shared.waits(rt, pass);
    }
    let mut pass = pass;
    for _at in 0..CHANGES_MOST {
        let (next, made) = shared.make_one(rt, pass, now);
        pass = next;
        if !made {
            return shared.waits(rt, pass);
        }
    }
    (pass, true)
}

/// Lets changes be made that wait for a moment, until nothing is served any more: it looks again and again
/// as long as one waits, and else sleeps. Where the store is in doubt it ends what is served: it shuts all
/// links, and has the listener look.
fn tick<
    R: Wait,
    H: Turns + Drop,
    Y: Syncs,
    G: Gate + Drop,
    L: Link + Drop,
    B: Bell,
    C: Clock,
    T: Rest,
>(rt: &R, shared: &Shared<H, Y, G, L>, pass: Pass<H>, bell: &B, clock: &C, rest: &T, work: &Work)
    requires { IsPassOf shared.now.post pass }
{
    let mut pass = pass;
    for _turn in rt.forever() {
        // Counted before all looks: what comes behind them rings once more.
        let ticks = shared.ticks();
        if work.is_done() {
            return;
        }
        if shared.is_in_doubt() {
            shared.shut_all(rt);
            work.ring(bell);
        }
        let (next, waits) = settle_all(rt, shared, pass, clock.now());
        pass = next;
        if waits || shared.is_in_doubt() {
            rest.rest();
        } else {
            shared.await_tick(rt, ticks);
        }
    }
}

/// Makes a session of a link, and has threads serve it; the answer is whether it did. The link is
/// shut where no session can stand.
fn begin<
    's,
    'e,
    R: Threads + Wait + Sync,
    H: Turns + Drop + Send,
    Y: Syncs + Sync,
    G: Gate + Drop + Sync,
    L: Link + Drop + Send + 's,
    C: Clock + Sync,
>(
    scope: &'s Scope<'s, &'e ()>,
    rt: &'e R,
    shared: &'e Shared<H, Y, G, L>,
    pass: Pass<H>,
    link: L,
    clock: &'e C,
    work: &'e Work,
) -> (Pass<H>, bool)
    requires { IsPassOf shared.now.post pass }
    ensures { Follows shared.now.post pass result.0 }
{
    let mut link = link;
    let (pass, went) = shared.connect(rt, pass);
    match went {
        Went::Open { session } => {
            work.begin();
            let (pass, theirs) = shared.split(pass);
            let serve = move ||
                requires { IsPassOf shared.now.post theirs }
            {
                serve_session(rt, shared, theirs, session, link, clock);
                work.end();
                shared.tell_ticker(true);
            };
            // Without a thread the listener serves this session itself, and accepts nothing meanwhile.
            if let Err(refused) = scope.spawn(serve) {
                (refused.value)();
            }
            (pass, true)
        }
        Went::NotReady | Went::Closed | Went::Full | Went::Memory => {
            link.shut();
            (pass, false)
        }
    }
}

/// Takes links off the network until of one a session has begun. Where the store is in doubt none begins
/// any more.
fn begin_next<
    's,
    'e,
    R: Threads + Wait + Sync,
    H: Turns + Drop + Send,
    Y: Syncs + Sync,
    G: Gate + Drop + Sync,
    N: Network,
    C: Clock + Sync,
    T: Rest,
>(
    scope: &'s Scope<'s, &'e ()>,
    rt: &'e R,
    shared: &'e Shared<H, Y, G, N::L>,
    pass: Pass<H>,
    net: &mut N,
    clock: &'e C,
    rest: &T,
    work: &'e Work,
) -> (Pass<H>, Result<(), Stop>)
where
    N::L: Drop + Send + 's,
    requires { IsPassOf shared.now.post pass }
    ensures pass { Follows shared.now.post pass result.0 }
    ensures counted { OnOk result.1 (CountsMore (N.accepted net.old) 1 (N.accepted net.new)) }
    ensures at { N.at net.new ≡ N.at net.old }
    ensures later { N.faults net.old ≤ N.faults net.new }
    ensures cause { IsErrOf result.1 stops.Network → Rose (N.faults net.old) (N.faults net.new) }
    ensures alone { IsErrOf result.1 stops.NoThread → ⊥ }
{
    let mut pass = pass;
    for _turn in rt.forever() {
        let accepted = net.accept();
        if shared.is_in_doubt() {
            return (pass, Err(Stop::Doubt));
        }
        match accepted {
            Ok(link) => {
                let (next, begun) = begin(scope, rt, shared, pass, link, clock, work);
                pass = next;
                if begun {
                    return (pass, Ok(()));
                }
            }
            Err(AcceptError::Passing) => rest.rest(),
            Err(AcceptError::Failed) => return (pass, Err(Stop::Network)),
        }
    }
    unreachable!()
}

/// Listens at a port, and takes links off the network until as many sessions as are asked for have begun.
fn listen_all<
    's,
    'e,
    R: Threads + Wait + Sync,
    H: Turns + Drop + Send,
    Y: Syncs + Sync,
    G: Gate + Drop + Sync,
    N: Network,
    C: Clock + Sync,
    T: Rest,
>(
    scope: &'s Scope<'s, &'e ()>,
    rt: &'e R,
    shared: &'e Shared<H, Y, G, N::L>,
    pass: Pass<H>,
    net: &mut N,
    clock: &'e C,
    rest: &T,
    work: &'e Work,
    port: u16,
    sessions: u32,
) -> (Pass<H>, Result<(), Stop>)
where
    N::L: Drop + Send + 's,
    requires { IsPassOf shared.now.post pass }
    ensures pass { Follows shared.now.post pass result.0 }
    ensures counted { OnOk result.1 (CountsMore (N.accepted net.old) sessions (N.accepted net.new)) }
    ensures at { OnOk result.1 (N.at net.new ≡ Some port) }
    ensures later { N.faults net.old ≤ N.faults net.new }
    ensures cause { IsErrOf result.1 stops.Network → Rose (N.faults net.old) (N.faults net.new) }
    ensures alone { IsErrOf result.1 stops.NoThread → ⊥ }
{
    if net.listen(port).is_err() {
        return (pass, Err(Stop::Network));
    }
    let mut pass = pass;
    for _at in 0..sessions {
        let (next, begun) = begin_next(scope, rt, shared, pass, net, clock, rest, work);
        pass = next;
        if let Err(stop) = begun {
            return (pass, Err(stop));
        }
    }
    (pass, Ok(()))
}

/// Listens at a port and serves as many sessions as are asked for, each in threads of its own; it
/// returns once they have ended. A link for which no session can stand is shut at once, and is none
/// of these. Where the ticker can't be started it doesn't listen: a change that waits might never be made.
///
/// `Ok` comes once at least so many links were accepted, `Network` only where the network's count of
/// faults rose, `Doubt` where the store could not be made sure of something, and `NoThread` where no ticker
/// could be had: then the network is as it was.
pub fn serve_links<
    'x,
    R: Threads + Wait + Sync,
    H: Turns + Drop + Send,
    Y: Syncs + Sync,
    G: Gate + Drop + Sync,
    N: Network + Drop,
    C: Clock + Sync,
    T: Rest + Sync,
>(
    rt: &'x R,
    shared: &'x Shared<H, Y, G, N::L>,
    pass: Pass<H>,
    net: N,
    clock: &'x C,
    rest: &'x T,
    port: u16,
    sessions: u32,
) -> (Result<(), Stop>, N, Pass<H>)
where
    N::L: Drop + Send,
    requires { IsPassOf shared.now.post pass }
    ensures pass { Follows shared.now.post pass result.2 }
    ensures counted { OnOk result.0 (CountsMore (N.accepted net) sessions (N.accepted result.1)) }
    ensures at { OnOk result.0 (N.at result.1 ≡ Some port) }
    ensures later { N.faults net ≤ N.faults result.1 }
    ensures cause { IsErrOf result.0 stops.Network → Rose (N.faults net) (N.faults result.1) }
    ensures alone { IsErrOf result.0 stops.NoThread → result.1 ≡ net }
{
    let bell = net.bell();
    let (pass, ticks_pass) = shared.split(pass);
    let at_work = Work::new();
    let work = &at_work;
    thread::scope(
        thread::scope_env(),
        rt,
        move |scope| -> (Result<(), Stop>, N, Pass<H>)
            requires { IsPassOf shared.now.post pass × IsPassOf shared.now.post ticks_pass }
            ensures pass { Follows shared.entry.now.post pass result.2 }
            ensures counted { OnOk result.0 (CountsMore (N.accepted net) sessions (N.accepted result.1)) }
            ensures at { OnOk result.0 (N.at result.1 ≡ Some port) }
            ensures later { N.faults net ≤ N.faults result.1 }
            ensures cause { IsErrOf result.0 stops.Network → Rose (N.faults net) (N.faults result.1) }
            ensures alone { IsErrOf result.0 stops.NoThread → result.1 ≡ net }
        {
            let ticks = scope.spawn(
                move ||
                    requires { IsPassOf shared.now.post ticks_pass }
                {
                    tick(rt, shared, ticks_pass, &bell, clock, rest, work);
                },
            );
            let is_alone = ticks.is_err();
            drop(ticks);
            let mut net = net;
            if is_alone {
                return (Err(Stop::NoThread), net, pass);
            }
            let (pass, served) = listen_all(
                scope, rt, shared, pass, &mut net, clock, rest, work, port, sessions,
            );
            work.end_accepting();
            shared.tell_ticker(true);
            (served, net, pass)
        },
    )
}
