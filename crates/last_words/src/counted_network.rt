//! A network that tells that it listens, and each connection that it gave. It is in all else the one that it
//! stands over.

ghost use Rattle.std.specs.Prelude.{◌≡◌};

use crate::counts::Done;
use lb_base::source::Failed;
use links::network::{AcceptError, Network};
use std::sync::{Arc, Wait};

/// A network whose connections are counted.
#[derive(Drop)]
pub struct CountedNetwork<R, N> {
    rt: R,
    network: N,
    /// Who counts, if anybody does.
    done: Option<Arc<Done>>,
}

impl<R, N> CountedNetwork<R, N> {
    /// This network, whose connections are counted there.
    pub fn new(rt: R, network: N, done: Option<Arc<Done>>) -> CountedNetwork<R, N>
        ensures { result ≡ record { rt = rt; network = network; done = done } }
    {
        CountedNetwork { rt, network, done }
    }
}

impl<R: Wait, N> CountedNetwork<R, N> {
    /// It listens.
    fn begin(&self) {
        if let Some(done) = &self.done {
            done.begin(&self.rt);
        }
    }

    /// It gave a connection.
    fn note_connection(&self) {
        if let Some(done) = &self.done {
            done.note_connection(&self.rt);
        }
    }
}

impl<R: Wait, N: Network> Network for CountedNetwork<R, N> {
    type L = N::L;

    type B = N::B;

    ghost faults = { λ n. N.faults n.network };

    ghost accepted = { λ n. N.accepted n.network };

    ghost at = { λ n. N.at n.network };

    fn listen(&mut self, port: u16) -> Result<(), Failed> {
        match self.network.listen(port) {
            Ok(()) => {
                self.begin();
                Ok(())
            }
            Err(Failed) => Err(Failed),
        }
    }

    fn bell(&self) -> N::B {
        self.network.bell()
    }

    fn accept(&mut self) -> Result<N::L, AcceptError> {
        match self.network.accept() {
            Ok(link) => {
                self.note_connection();
                Ok(link)
            }
            Err(why) => Err(why),
        }
    }

    fn dial(&mut self, port: u16) -> Result<N::L, Failed> {
        self.network.dial(port)
    }
}
