//! Links and a network over TCP, on 127.0.0.1 alone. What is given goes out at once (`TCP_NODELAY`),
//! so that whoever has much to say gives it in one call.

ghost use Rattle.std.specs.Prelude.{◌≡◌, ℕ, ◌+◌, ◌-◌, ◌^◌, ◌≤◌, ◌<◌, List, length, min, Option, None, IfOk, OnOk, OnErr, IsErrOf};
ghost use Rattle.lb_base.specs.Causes.{Rose};
ghost use Rattle.lb_base.specs.declared.sink.GiveError.TheVariants as errors;

use crate::notes::{PortNote, tell};
use crate::serving::Serving;
use lb_base::faults::one_more;
use lb_base::sink::GiveError;
use lb_base::source::Failed;
use links::link::Link;
use links::network::{AcceptError, Bell, Network};
use std::alloc::Global;
use std::io;
use std::io::{ErrorKind, Read, Write};
use std::net::{Ipv4Addr, Net, Shutdown, SocketAddr, SocketAddrV4, TcpListener, TcpStream};
use std::rt::Files as HostDisk;
use std::sync::Arc;
use std::sync::atomic::{AtomicBool, Ordering};

/// How many times in all a call is tried that is interrupted before that counts as a fault.
const RETRIES: u32 = 16;

/// Linux's numbers of the errors by which descriptors (of the program, of all) or memory for a connection
/// ran out. They pass.
const RAN_OUT: [i32; 4] = [23, 24, 12, 105];

/// A server that was dialled, for the twins of the link to it: whoever sees its connection end first
/// tells it, unless this end has ended it.
#[derive(Drop)]
struct Peer<R> {
    rt: R,
    port: u16,
    is_over: AtomicBool,
}

impl<R: Eprint> Peer<R> {
    /// The connection failed, for this reason.
    fn lose(&self, why: io::Error) {
        if !self.is_over.swap(true, Ordering::SeqCst) {
            let port = self.port;
            tell(&self.rt, &PortNote::Lost { port, why });
        }
    }

    /// The peer ended the connection.
    fn end(&self) {
        if !self.is_over.swap(true, Ordering::SeqCst) {
            tell(&self.rt, &PortNote::Ended { port: self.port });
        }
    }

    /// This end ends the connection, which isn't told.
    fn leave(&self) {
        self.is_over.store(true, Ordering::SeqCst);
    }
}

/// A link over a TCP connection. It tells nothing of the bytes.
#[derive(Drop)]
pub struct TcpLink<R> {
    stream: TcpStream,
    faults: u64,
    /// The server, where this end dialled it: one that serves says nothing of peers that went.
    peer: Option<Arc<Peer<R>>>,
}

impl<R> TcpLink<R> {
    /// A link over a connection, with no fault so far.
    fn new(stream: TcpStream, peer: Option<Arc<Peer<R>>>) -> TcpLink<R>
        ensures { result ≡ record { stream = stream; faults = 0; peer = peer } }
    {
        TcpLink {
            stream,
            faults: 0,
            peer,
        }
    }
}

impl<R: Eprint> TcpLink<R> {
    /// The connection failed, for this reason.
    fn lose(&self, why: io::Error) {
        if let Some(peer) = &self.peer {
            peer.lose(why);
        }
    }

    /// Of so many bytes that were asked for, so many came: none is the end.
    fn note_end(&self, wanted: usize, came: usize) {
        if wanted != 0 && came == 0 {
            if let Some(peer) = &self.peer {
                peer.end();
            }
        }
    }
}

impl<R: Eprint + Drop> Link for TcpLink<R> {
    ghost left = { λ _. None };

    ghost held = { λ _. None };

    ghost faults = { λ l. l.faults };

    fn take(&mut self, into: &mut [u8]) -> Result<usize, Failed> {
        for _ in 0..RETRIES {
            match self.stream.read(into) {
                Ok(count) => {
                    self.note_end(into.len(), count);
                    return Ok(count);
                }
                Err(error) if error.kind() == ErrorKind::Interrupted => {}
                Err(error) => {
                    self.lose(error);
                    break;
                }
            }
        }
        self.faults = one_more(self.faults);
        Err(Failed)
    }

    fn give(&mut self, from: &[u8]) -> Result<usize, GiveError> {
        for _ in 0..RETRIES {
            match self.stream.write(from) {
                Ok(0) if !from.is_empty() => break,
                Ok(count) => return Ok(count),
                Err(error) if error.kind() == ErrorKind::Interrupted => {}
                Err(error) => {
                    self.lose(error);
                    break;
                }
            }
        }
        self.faults = one_more(self.faults);
        Err(GiveError::Failed)
    }

    fn shut(&mut self) {
        if let Some(peer) = &self.peer {
            peer.leave();
        }
        let _ended = self.stream.shutdown(Shutdown::Both);
    }

    fn twin(&mut self) -> Result<TcpLink<R>, Failed> {
        match self.stream.try_clone() {
            Ok(stream) => Ok(TcpLink::new(stream, one_more_of(&self.peer))),
            Err(error) => {
                self.lose(error);
                self.faults = one_more(self.faults);
                Err(Failed)
            }
        }
    }
}

/// One owner more of what there is, if anything. Where there can be none more, that one has none.
fn one_more_of<T: Drop>(it: &Option<Arc<T>>) -> Option<Arc<T>> {
    match it {
        Some(it) => Arc::try_clone(it).ok(),
        None => None,
    }
}

/// A network over TCP, on 127.0.0.1 alone.
#[derive(Drop)]
pub struct TcpNetwork<R: Net<Listener = TcpListener, Stream = TcpStream>> {
    rt: R,
    alloc: Global,
    /// What is served, which is told once it listens.
    serving: Option<Arc<Serving>>,
    listener: Option<TcpListener>,
    /// The listener's port.
    at: Option<u16>,
    accepted: u64,
    faults: u64,
}

/// A port of this host.
fn here(port: u16) -> SocketAddr {
    SocketAddr::V4(SocketAddrV4::new(Ipv4Addr::LOCALHOST, port))
}

/// Tells where nobody can listen at a port, as where another server does.
pub fn tell_taken<R: Net<Listener = TcpListener, Stream = TcpStream> + Eprint>(rt: &R, port: u16) {
    match TcpListener::bind(rt, here(port)) {
        Ok(listener) => drop(listener),
        Err(why) => tell(rt, &PortNote::Listen { port, why }),
    }
}

/// A link that gives its bytes at once.
fn prompt<R: Drop>(stream: TcpStream, peer: Option<Arc<Peer<R>>>) -> io::Result<TcpLink<R>> {
    stream.set_nodelay(true)?;
    Ok(TcpLink::new(stream, peer))
}

/// A link to a port of this host that says nothing on standard error: whoever dials it tells what failed.
pub(crate) fn quiet_link<R: Net<Listener = TcpListener, Stream = TcpStream> + Drop>(
    rt: &R,
    port: u16,
) -> io::Result<TcpLink<R>> {
    let stream = TcpStream::connect(rt, here(port))?;
    prompt(stream, None)
}

/// Whether accepting may go through after a rest: it was interrupted, the peer went before it was
/// accepted, or descriptors or memory ran out. That is no fault of the network.
fn is_passing(error: &io::Error) -> bool {
    match error.raw_os_error() {
        Some(number) if RAN_OUT.contains(&number) => true,
        _ => matches!(
            error.kind(),
            ErrorKind::Interrupted | ErrorKind::ConnectionAborted
        ),
    }
}

/// The link of the next peer that dialled. Of one that went since then no link is made.
fn next_link<R: Drop>(listener: &TcpListener) -> Result<TcpLink<R>, AcceptError> {
    match listener.accept() {
        Ok((stream, _peer)) => match prompt(stream, None) {
            Ok(link) => Ok(link),
            Err(_) => Err(AcceptError::Passing),
        },
        Err(error) if is_passing(&error) => Err(AcceptError::Passing),
        Err(_) => Err(AcceptError::Failed),
    }
}

/// Dials the port that is served, so that whoever accepts there has something to accept.
#[derive(Drop)]
pub struct TcpBell<R: Net<Listener = TcpListener, Stream = TcpStream>> {
    rt: R,
    serving: Option<Arc<Serving>>,
}

/// The port that is served, if one is.
fn port_of(serving: &Option<Arc<Serving>>) -> Option<u16> {
    match serving {
        Some(serving) => serving.port(),
        None => None,
    }
}

impl<R: Net<Listener = TcpListener, Stream = TcpStream>> Bell for TcpBell<R> {
    fn ring(&self) {
        if let Some(port) = port_of(&self.serving) {
            let _dialled = TcpStream::connect(&self.rt, here(port));
        }
    }
}

impl<R: Net<Listener = TcpListener, Stream = TcpStream>> TcpNetwork<R> {
    /// A network with no fault so far. It listens at no port yet.
    pub fn new(rt: R, alloc: Global, serving: Option<Arc<Serving>>) -> TcpNetwork<R>
        ensures { (result.accepted ≡ 0) × (result.faults ≡ 0) }
    {
        TcpNetwork {
            rt,
            alloc,
            serving,
            listener: None,
            at: None,
            accepted: 0,
            faults: 0,
        }
    }
}

impl<R: Net<Listener = TcpListener, Stream = TcpStream> + Copy + Drop> TcpNetwork<R> {
    /// A link to a port of this host.
    fn dialled(&self, port: u16) -> io::Result<TcpLink<R>> {
        let stream = TcpStream::connect(&self.rt, here(port))?;
        let peer = Peer {
            rt: self.rt,
            port,
            is_over: AtomicBool::new(false),
        };
        let peer = Arc::new(self.alloc, peer)?;
        prompt(stream, Some(peer))
    }
}

impl<R: Net<Listener = TcpListener, Stream = TcpStream> + HostDisk + Eprint> TcpNetwork<R> {
    /// Whether leases may be granted of what is served: for how long, is noted before.
    fn may_grant(&self) -> bool {
        match &self.serving {
            Some(serving) => serving.may_grant(&self.rt),
            None => true,
        }
    }

    /// A listener at a port, where leases may be granted.
    fn listener_at(&self, port: u16) -> Result<TcpListener, Failed> {
        match TcpListener::bind(&self.rt, here(port)) {
            Ok(listener) => {
                if self.may_grant() {
                    return Ok(listener);
                }
                drop(listener);
                Err(Failed)
            }
            Err(why) => {
                tell(&self.rt, &PortNote::Listen { port, why });
                Err(Failed)
            }
        }
    }
}

impl<
    R: Net<Listener = TcpListener, Stream = TcpStream> + HostDisk + Eprint + Copy + Drop + Send,
> Network for TcpNetwork<R> {
    type L = TcpLink<R>;

    type B = TcpBell<R>;

    ghost faults = { λ n. n.faults };

    ghost accepted = { λ n. n.accepted };

    ghost at = { λ n. n.at };

    fn listen(&mut self, port: u16) -> Result<(), Failed> {
        match self.listener_at(port) {
            Ok(listener) => {
                self.listener = Some(listener);
                self.at = Some(port);
                if let Some(serving) = &self.serving {
                    serving.tell_at(&self.rt, port);
                }
                Ok(())
            }
            Err(Failed) => {
                self.faults = one_more(self.faults);
                Err(Failed)
            }
        }
    }

    fn bell(&self) -> TcpBell<R> {
        TcpBell {
            rt: self.rt,
            serving: one_more_of(&self.serving),
        }
    }

    fn accept(&mut self) -> Result<TcpLink<R>, AcceptError> {
        let next = match &self.listener {
            Some(listener) => next_link(listener),
            None => Err(AcceptError::Failed),
        };
        match next {
            Ok(link) => {
                self.accepted = one_more(self.accepted);
                Ok(link)
            }
            Err(AcceptError::Passing) => Err(AcceptError::Passing),
            Err(AcceptError::Failed) => {
                self.faults = one_more(self.faults);
                Err(AcceptError::Failed)
            }
        }
    }

    fn dial(&mut self, port: u16) -> Result<TcpLink<R>, Failed> {
        match self.dialled(port) {
            Ok(link) => Ok(link),
            Err(why) => {
                tell(&self.rt, &PortNote::Dial { port, why });
                self.faults = one_more(self.faults);
                Err(Failed)
            }
        }
    }
}
