//! What gives a shell its connections: TCP on this host alone, with a count of the bytes that go over them.

ghost use Rattle.std.specs.Prelude.{◌≤◌, None};
ghost use Rattle.lb_base.specs.Causes.{Rose};

use crate::tcp::{TcpLink, quiet_link};
use lb_base::faults::one_more;
use lb_base::sink::GiveError;
use lb_base::source::Failed;
use links::link::Link;
use shell_walks::dials::Dials;
use std::net::{Net, TcpListener, TcpStream};
use std::sync::Arc;
use std::sync::atomic::{AtomicU64, Ordering};

/// A link whose bytes are counted, both ways.
#[derive(Drop)]
pub struct CountedLink<R> {
    link: TcpLink<R>,
    count: Arc<AtomicU64>,
    faults: u64,
}

impl<R> CountedLink<R> {
    /// So many bytes more went over it.
    fn count(&self, bytes: usize) {
        let _before = self.count.fetch_add(bytes as u64, Ordering::SeqCst);
    }

    /// A fault more.
    fn fail(&mut self) -> Failed
        ensures cause { Rose self.old.faults self.new.faults }
        ensures later { self.old.faults ≤ self.new.faults }
    {
        self.faults = one_more(self.faults);
        Failed
    }
}

impl<R: Eprint + Drop> Link for CountedLink<R> {
    ghost left = { λ _. None };

    ghost held = { λ _. None };

    ghost faults = { λ l. l.faults };

    fn take(&mut self, into: &mut [u8]) -> Result<usize, Failed> {
        match self.link.take(into) {
            Ok(count) => {
                self.count(count);
                Ok(count)
            }
            Err(Failed) => Err(self.fail()),
        }
    }

    fn give(&mut self, from: &[u8]) -> Result<usize, GiveError> {
        match self.link.give(from) {
            Ok(count) => {
                self.count(count);
                Ok(count)
            }
            Err(GiveError::Failed) => {
                self.fail();
                Err(GiveError::Failed)
            }
            Err(GiveError::Memory) => Err(GiveError::Memory),
        }
    }

    fn shut(&mut self) {
        self.link.shut();
    }

    fn twin(&mut self) -> Result<CountedLink<R>, Failed> {
        match (self.link.twin(), Arc::clone(&self.count)) {
            (Ok(link), Ok(count)) => Ok(CountedLink {
                link,
                count,
                faults: 0,
            }),
            _ => Err(self.fail()),
        }
    }
}

/// Dials a port of this host.
#[derive(Drop)]
pub struct TcpDialler<R> {
    rt: R,
    port: u16,
    count: Arc<AtomicU64>,
}

impl<R> TcpDialler<R> {
    /// Nothing went over its links yet.
    pub fn new(rt: R, port: u16, count: Arc<AtomicU64>) -> TcpDialler<R> {
        TcpDialler { rt, port, count }
    }
}

impl<R: Net<Listener = TcpListener, Stream = TcpStream> + Eprint + Copy + Drop> Dials
    for TcpDialler<R> {
    type L = CountedLink<R>;

    fn dial(&self) -> Result<CountedLink<R>, Failed> {
        match (quiet_link(&self.rt, self.port), Arc::clone(&self.count)) {
            (Ok(link), Ok(count)) => Ok(CountedLink {
                link,
                count,
                faults: 0,
            }),
            _ => Err(Failed),
        }
    }

    fn bytes(&self) -> u64 {
        self.count.load(Ordering::SeqCst)
    }
}
