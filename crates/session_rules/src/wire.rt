//! The bytes of a session on their way, and what each of its ends has of a record that is not
//! whole. `specs/Wires.antt` says what they are, and `specs/Queue.antt` of `trace_wires` how many bytes a
//! delivery takes.

ghost use Rattle.std.specs.Prelude.{◌≡◌, ◌++◌, [], Some, length, take, drop, IfOk, OnOk};
ghost use Rattle.rpc_record.specs.Records.{nothing_read, fed};
ghost use Rattle.session_rules.specs.Wires.{new_wire, is_still_at};
ghost use Rattle.trace_wires.specs.Queue.{count_of};

use lb_base::items::{Bytes, Items};
use rpc_record::record::Record;
use rpc_record::records::Records;
use rpc_record::refusal::Refusal;
use std::alloc::{AllocError, Global};
use std::marker::Model;
use trace_text::line::Amount;
use trace_wires::queue::{Queue, deliver};

/// The two directions of a session.
pub struct Wire {
    /// The bytes on their way to the server.
    pub up: Queue,
    /// The bytes on their way to the client.
    pub down: Queue,
    /// What the server has of a record that is not whole.
    server_end: Records,
    /// What the client has of a record that is not whole.
    client_end: Records,
}

// Written by hand, it is proved here alone; derived, each crate above would prove how each part is
// dropped.
impl Drop for Wire {
    fn drop(self) {
        let Wire {
            up,
            down,
            server_end,
            client_end,
        } = self;
        drop(up);
        drop(down);
        drop(server_end);
        drop(client_end);
    }
}

impl Model for Wire {
    ghost use Rattle.session_rules.specs.Wires as wires;

    ghost Value = { wires.Wire };

    ghost view = { λ q. record { up = q.up; down = q.down; server_end = q.server_end; client_end = q.client_end } };
}

impl Wire {
    /// A session on which nothing is on its way. It takes no memory.
    pub fn new(alloc: Global) -> Wire
        ensures { result ≡ new_wire }
    {
        Wire {
            up: Queue::new(alloc),
            down: Queue::new(alloc),
            server_end: Records::new(alloc),
            client_end: Records::new(alloc),
        }
    }

    /// Whether nothing is on its way.
    pub fn is_still(&self) -> bool
        ensures { result ≡ is_still_at (Some self.now) }
    {
        self.up.is_empty() && self.down.is_empty()
    }

    /// So many bytes on their way up reach the server, which has these records of them.
    pub fn take_up(&mut self, alloc: Global, amount: Amount) -> Result<Items<Record>, AllocError>
        ensures records { IfOk result (λ records. records ≡ (fed self.old.server_end (take (count_of amount (length self.old.up)) self.old.up)).1.records) }
        ensures rest { OnOk result (self.new
            ≡ record self.old {
              up = drop (count_of amount (length self.old.up)) self.old.up;
              server_end = (fed self.old.server_end
                  (take (count_of amount (length self.old.up)) self.old.up)).0;
            }) }
    {
        deliver(alloc, &mut self.up, amount, &mut self.server_end)
    }

    /// So many bytes on their way down reach the client, which has these records of them.
    pub fn take_down(&mut self, alloc: Global, amount: Amount) -> Result<Items<Record>, AllocError>
        ensures records { IfOk result (λ records. records ≡ (fed self.old.client_end (take (count_of amount (length self.old.down)) self.old.down)).1.records) }
        ensures rest { OnOk result (self.new
            ≡ record self.old {
              down = drop
                  (count_of amount (length self.old.down)) self.old.down;
              client_end = (fed self.old.client_end
                  (take (count_of amount (length self.old.down)) self.old.down)).0;
            }) }
    {
        deliver(alloc, &mut self.down, amount, &mut self.client_end)
    }

    /// Why the server can have no record any more of what comes up, if it can't.
    pub fn spoilt(&self) -> Option<Refusal>
        ensures { result ≡ self.now.server_end.spoilt }
    {
        self.server_end.spoilt()
    }

    /// Bytes that are no client's are on their way up, behind those that were. The one error is
    /// running out of memory.
    pub fn put_up(&mut self, bytes: Bytes) -> Result<(), AllocError>
        ensures { OnOk result (self.new ≡ record self.old { up = self.old.up ++ bytes }) }
    {
        self.up.put(bytes)
    }

    /// The server saw the connection lost: what is on its way up is dropped, and so is what the
    /// server has of a record.
    pub fn lose_up(&mut self, alloc: Global)
        ensures { self.new ≡ record self.old { up = []; server_end = nothing_read } }
    {
        self.up = Queue::new(alloc);
        self.server_end = Records::new(alloc);
    }

    /// The client saw the connection lost: what is on its way down is dropped, and so is what the
    /// client has of a record.
    pub fn lose_down(&mut self, alloc: Global)
        ensures { self.new ≡ record self.old { down = []; client_end = nothing_read } }
    {
        self.down = Queue::new(alloc);
        self.client_end = Records::new(alloc);
    }
}
