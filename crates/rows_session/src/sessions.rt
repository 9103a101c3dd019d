//! Sessions of a server without the program around it: why each ends, and that all its threads come
//! back where its client takes nothing.
//!
//! What the turns are of is a parameter (`H`), but where the server is made (`put`, `put_held`): so no other function
//! has it in reach, and that a thread may be given it is shown once. What is said to a server stands in `hashing`, so
//! that none here has messages in reach.

ghost use Rattle.turn_post.specs.Passes.{IsPassOf};

use crate::hashing::{say, store_pieces};
use lb_base::items::Items;
use lbfs_server::session::{session_both, session_in, session_out};
use links::clock::FixedClock;
use record_ends::end::End;
use row_text::out::Out;
use server_core::server::Server;
use server_held::held::{SharedServer, Went};
use server_held::turns::Turns;
use server_turns::gate::OpenGate;
use server_turns::shared::Shared;
use std::alloc::{AllocError, Global};
use std::rt::Clock;
use std::sync::{Arc, Mutex, Wait};
use std::thread;
use std::thread::Threads;
use std::time::Duration;
use store::mem_store::MemStore;
use synced_store::syncs::Synced;
use trial_outside::line::Until;
use trial_outside::port::{Port, PortLink, Three, three_of};
use trial_outside::tried_store::{TriedStore, TriedSyncs};
use turn_post::post::{Pass, Post};

/// What the threads of a server share.
pub(crate) type SharedOf<H, R> = Shared<H, TriedSyncs, OpenGate, PortLink<R>>;

/// What another thread has to do with a session.
#[derive(Clone, Copy)]
pub struct Others {
    /// Whether something is to be said to it.
    says: bool,
    /// Whether it is hung.
    hangs: bool,
    /// Whether a content of it is hashed before.
    hashes: bool,
}

/// What a row has of sessions.
#[derive(Clone, Copy)]
pub enum Kind {
    /// One connection after the other.
    Connections,
    /// A session in one thread.
    Alone,
    /// One in threads of its own, beside another.
    Beside(Others),
}

/// What a word of a row says; nothing where it is of leases.
pub fn kind_of(word: &str) -> Option<Kind> {
    let (says, hangs, hashes) = match word {
        "connections" => return Some(Kind::Connections),
        "alone" => return Some(Kind::Alone),
        "ends" => (true, false, false),
        "hung" => (true, true, false),
        "gone" => (false, true, false),
        "hashes" => (true, false, true),
        _ => return None,
    };
    Some(Kind::Beside(Others {
        says,
        hangs,
        hashes,
    }))
}

/// Why a session ended.
fn name_of(end: End) -> &'static str {
    match end {
        End::InputEnd => " InputEnd",
        End::Failed => " Failed",
        End::Spoilt => " Spoilt",
        End::Memory => " Memory",
    }
}

/// Why no session stands.
fn refused_of(went: Went) -> &'static str {
    match went {
        Went::Full => " Full",
        Went::Memory => " Memory",
        Went::Open { .. } | Went::NotReady | Went::Closed => " another end",
    }
}

/// Once the session's threads sleep, something is said to it, where it should be, and a thread of it waits
/// for its client then, or hashes. Behind that the session is hung, where it should be.
fn speak_to<R: Wait + Clock + Copy + Drop, H: Turns + Drop>(
    rt: &R,
    shared: &SharedOf<H, R>,
    pass: Pass<H>,
    session: u32,
    port: &Port,
    others: Others,
)
    requires { IsPassOf shared.now.post pass }
{
    thread::sleep(rt, Duration::from_millis(20));
    let mut pass = pass;
    if others.hashes {
        port.wait(rt, 0, Until::Given { records: 2 });
        pass = store_pieces(rt, shared, pass, session);
        port.wait(rt, 0, Until::Taken);
        thread::sleep(rt, Duration::from_millis(10));
    }
    if others.says {
        pass = say(rt, shared, pass, session);
        if !others.hashes {
            port.wait(rt, 0, Until::Speaker);
        }
    }
    if others.hangs {
        let pass = shared.hang(rt, pass, session);
        drop(shared.shut_links(rt, pass));
    }
}

/// Runs a session in its two threads, and beside them one that has something to say to it. It returns
/// once all three have ended.
fn run_threads<'x, R: Threads + Wait + Clock + Sync + Send + Copy + Drop, H: Turns + Drop + Send>(
    rt: &'x R,
    shared: &'x SharedOf<H, R>,
    pass: Pass<H>,
    session: u32,
    port: &'x Port,
    gives: &'x Mutex<PortLink<R>>,
    takes: PortLink<R>,
    others: Others,
) -> End
    requires { IsPassOf shared.now.post pass }
{
    let (pass, other) = shared.split(pass);
    let (giving, speaking) = shared.split(other);
    thread::scope(
        thread::scope_env(),
        rt,
        move |scope| -> End
            requires { IsPassOf shared.now.post pass × IsPassOf shared.now.post giving × IsPassOf shared.now.post speaking }
        {
            let mut takes = takes;
            let giver = scope.spawn(
                move ||
                    requires { IsPassOf shared.now.post giving }
                { drop(session_out(rt, shared, giving, session, gives)) },
            );
            drop(giver);
            let speaker = scope.spawn(
                move ||
                    requires { IsPassOf shared.now.post speaking }
                { speak_to(rt, shared, speaking, session, port, others) },
            );
            drop(speaker);
            let clock = FixedClock::at(0);
            let (_pass, end) = session_in(rt, shared, pass, session, &mut takes, gives, &clock);
            end
        },
    )
}

/// How many of 66 connections stand; where they are a server's first ones, which are told the next number, and how
/// the others end.
fn put_connections<R: Wait + Copy + Drop, H: Turns + Drop>(
    rt: &R,
    shared: &SharedOf<H, R>,
    pass: Pass<H>,
    are_first: bool,
    out: &mut Out,
)
    requires { IsPassOf shared.now.post pass }
{
    let mut pass = pass;
    let mut stand = 0u64;
    for next in 1..67u32 {
        let (later, went) = shared.connect(rt, pass);
        pass = later;
        match went {
            Went::Open { session } if session == next || !are_first => {
                stand = stand.saturating_add(1)
            }
            went if are_first => out.text(refused_of(went)),
            _ => (),
        }
    }
    out.text(" free");
    out.number(stand)
}

/// Runs a session in one thread, or in two beside another that has to do with it.
fn run<R: Threads + Wait + Clock + Sync + Send + Copy + Drop, H: Turns + Drop + Send>(
    rt: &R,
    shared: &SharedOf<H, R>,
    pass: Pass<H>,
    session: u32,
    port: &Port,
    links: Three<R>,
    others: Option<Others>,
) -> End
    requires { IsPassOf shared.now.post pass }
{
    let Three {
        takes,
        gives,
        further,
    } = links;
    match others {
        None => {
            let mut link = takes;
            let clock = FixedClock::at(0);
            let (_pass, end) = session_both(rt, shared, pass, session, &mut link, &clock);
            end
        }
        Some(others) => {
            shared.keep_link(rt, session, further);
            let gives = Mutex::new(gives);
            run_threads(rt, shared, pass, session, port, &gives, takes, others)
        }
    }
}

/// Runs a session, and tells why it ended, how many further connections can be made then, and what is left of its
/// line.
fn put_session<R: Threads + Wait + Clock + Sync + Send + Copy + Drop, H: Turns + Drop + Send>(
    rt: &R,
    shared: &SharedOf<H, R>,
    pass: Pass<H>,
    session: u32,
    port: &Arc<Port>,
    others: Option<Others>,
    out: &mut Out,
)
    requires { IsPassOf shared.now.post pass }
{
    let (pass, later) = shared.split(pass);
    match three_of(*rt, port) {
        Ok(links) => {
            let end = run(rt, shared, pass, session, port, links, others);
            out.text(name_of(end))
        }
        Err(_) => out.lack(),
    }
    put_connections(rt, shared, later, false, out);
    match others {
        Some(Others { hashes: true, .. }) => port.put_calls(rt, out),
        _ => port.put_lines(rt, out),
    }
}

/// What comes of a row at a server.
fn put_shared<R: Threads + Wait + Clock + Sync + Send + Copy + Drop, H: Turns + Drop + Send>(
    rt: &R,
    shared: &SharedOf<H, R>,
    pass: Pass<H>,
    port: &Arc<Port>,
    kind: Kind,
    out: &mut Out,
)
    requires { IsPassOf shared.now.post pass }
{
    let others = match kind {
        Kind::Connections => {
            put_connections(rt, shared, pass, true, out);
            return out.text("\n");
        }
        Kind::Alone => None,
        Kind::Beside(others) => Some(others),
    };
    let (pass, went) = shared.connect(rt, pass);
    match went {
        Went::Open { session } => { put_session(rt, shared, pass, session, port, others, out) }
        went => out.text(refused_of(went)),
    }
}

/// What comes of a row at a server, with a pass of its post.
fn put_held<R: Threads + Wait + Clock + Sync + Send + Copy + Drop>(
    rt: &R,
    alloc: Global,
    held: SharedServer<TriedStore>,
    syncs: TriedSyncs,
    port: &Arc<Port>,
    kind: Kind,
    out: &mut Out,
) {
    match Post::new(alloc, held) {
        Ok((post, pass)) => {
            let shared = Shared::new(alloc, post, syncs, OpenGate, 0);
            let (pass, last) = shared.split(pass);
            put_shared(rt, &shared, pass, port, kind, out);
            let (_front, held) = shared.finish(rt, last);
            drop(held.into_store())
        }
        Err(held) => {
            drop(held.into_store());
            out.lack()
        }
    }
}

/// A store with no record, and what makes it sure.
fn empty_store(alloc: Global) -> Result<(TriedStore, TriedSyncs), AllocError> {
    let store = MemStore::new(Items::new(alloc), Items::new(alloc));
    let store = TriedStore::new(alloc, store, None)?;
    let syncs = store.syncs()?;
    Ok((store, syncs))
}

/// What comes of a row: a session of a server of an empty store over the port's first line, or one
/// connection after the other.
#[tactic(auto, using(crate::proofs::Opened::by_put))]
pub fn put<R: Threads + Wait + Clock + Sync + Send + Copy + Drop>(
    rt: &R,
    alloc: Global,
    port: &Arc<Port>,
    kind: Kind,
    out: &mut Out,
) {
    let Ok((store, syncs)) = empty_store(alloc) else {
        return out.lack();
    };
    match Server::new(alloc, 0) {
        Ok(server) => {
            let held = SharedServer::new(alloc, server, store);
            put_held(rt, alloc, held, syncs, port, kind, out)
        }
        Err(_) => out.lack(),
    }
}
