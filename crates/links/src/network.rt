//! The network, which gives links. `Causes.antt` of `lb_base` states when a fault may be answered.

ghost use Rattle.std.specs.Prelude.{◌≡◌, ℕ, ◌+◌, ◌-◌, ◌^◌, ◌≤◌, min, Option, Some, OnOk, OnErr, IsErrOf};
ghost use Rattle.lb_base.specs.Causes.{Rose};
ghost use Rattle.links.specs.declared.network.AcceptError.TheVariants as errors;

use crate::link::Link;
use lb_base::source::Failed;

/// Why the link of no peer was given.
#[derive(Clone, Copy)]
pub enum AcceptError {
    /// The network failed; its count of faults rose.
    Failed,
    /// None could be given just now, as where the peer went, or descriptors or memory ran out. Another
    /// may be asked for after a rest.
    Passing,
}

/// Ends a wait for a peer, from another thread.
pub trait Bell {
    /// Has an `accept` that waits return: it gives a link that leads to nobody. It promises nothing.
    fn ring(&self);
}

/// The bell of a network of which no call waits.
#[derive(Clone, Copy, Drop)]
pub struct NoBell;

impl Bell for NoBell {
    fn ring(&self) {}
}

/// A network of ports.
pub trait Network {
    /// A link of this network.
    type L: Link;

    /// A bell of this network.
    type B: Bell + Drop + Send;

    /// How many faults there were.
    ghost faults: { Self → ℕ };

    /// How many links `accept` gave.
    ghost accepted: { Self → ℕ };

    /// The port at which it listens, if at one.
    ghost at: { Self → Option ℕ };

    /// Lets peers dial this port.
    fn listen(&mut self, port: u16) -> Result<(), Failed>
        ensures at { OnOk result (at self.new ≡ Some port) }
        ensures accepted { accepted self.new ≡ accepted self.old }
        ensures later { faults self.old ≤ faults self.new }
        ensures cause { OnErr result (Rose (faults self.old) (faults self.new)) };

    /// A bell by which another thread ends a wait of `accept` at the port that was listened at last.
    fn bell(&self) -> Self::B;

    /// The link of the next peer that dialled the port. It may wait for one.
    fn accept(&mut self) -> Result<Self::L, AcceptError>
        ensures counted { OnOk result (accepted self.new ≡ min (accepted self.old + 1) (2 ^ 64 - 1)) }
        ensures failed { OnErr result (accepted self.new ≡ accepted self.old) }
        ensures at { at self.new ≡ at self.old }
        ensures later { faults self.old ≤ faults self.new }
        ensures cause { IsErrOf result errors.Failed → Rose (faults self.old) (faults self.new) };

    /// A link to the peer that listens at this port.
    fn dial(&mut self, port: u16) -> Result<Self::L, Failed>
        ensures at { at self.new ≡ at self.old }
        ensures accepted { accepted self.new ≡ accepted self.old }
        ensures later { faults self.old ≤ faults self.new }
        ensures cause { OnErr result (Rose (faults self.old) (faults self.new)) };
}
