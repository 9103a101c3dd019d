//! The history of a run: `History` of `specs/Register.antt`.

ghost use Rattle.std.specs.Prelude.{◌≡◌};
ghost use Rattle.std.specs.Option.{option_copied};
ghost use Rattle.register_model.specs.Register.{of_clients};

use crate::op::{Op, Opening};
use crate::raw::Raw;
use lb_base::items::Items;
use std::marker::Model;

/// What was done in a run: the version of LBFS that its clients speak, the files that were there at
/// first, the operations of clients in the order of their begins, behind them the changes of others,
/// and the number of steps.
pub struct History {
    lbfs: u32,
    opening: Items<Opening>,
    ops: Items<Op>,
    raws: Option<Items<Raw>>,
    steps: u64,
}

// Written by hand, it is proved here alone; derived, each crate above would prove how each part is let
// go.
impl Drop for History {
    fn drop(self) {
        let History {
            lbfs: _,
            opening,
            ops,
            raws,
            steps: _,
        } = self;
        drop(opening);
        drop(ops);
        drop(raws);
    }
}

impl Model for History {
    ghost use Rattle.register_model.specs.Register as register;

    ghost Value = { register.History };

    ghost view = { λ h. record { lbfs = h.lbfs; opening = h.opening; ops = h.ops; raws = h.raws; steps = h.steps } };
}

impl History {
    /// The history of these operations, by clients that speak this version of LBFS, and of these
    /// changes that sessions made which are no client's, if there is such a session.
    pub fn new(
        lbfs: u32,
        opening: Items<Opening>,
        ops: Items<Op>,
        raws: Option<Items<Raw>>,
        steps: u64,
    ) -> History
        ensures { result ≡ record { lbfs = lbfs; opening = opening; ops = ops; raws = raws; steps = steps } }
    {
        History {
            lbfs,
            opening,
            ops,
            raws,
            steps,
        }
    }

    /// The version of LBFS that the clients speak.
    pub fn lbfs(&self) -> u32
        ensures { result ≡ self.now.lbfs }
    {
        self.lbfs
    }

    /// The files that were there before the first step.
    pub fn opening(&self) -> &[Opening]
        ensures { result.now ≡ self.now.opening }
    {
        self.opening.as_slice()
    }

    /// The operations: those of clients, in the order of their begins, and then the changes of others.
    pub fn ops(&self) -> &[Op]
        ensures { result.now ≡ self.now.ops }
    {
        self.ops.as_slice()
    }

    /// The operations that clients were told to do.
    pub fn of_clients(&self) -> &[Op]
        ensures { result.now ≡ of_clients self.now }
    {
        let ops = self.ops.as_slice();
        match &self.raws {
            Some(raws) => ops.split_at(ops.len().saturating_sub(raws.len())).0,
            None => ops,
        }
    }

    /// The changes that sessions made which are no client's, in order, if there is such a session.
    pub fn raws(&self) -> Option<&[Raw]>
        ensures { option_copied result ≡ self.now.raws }
    {
        match &self.raws {
            Some(raws) => Some(raws.as_slice()),
            None => None,
        }
    }

    /// The number of steps.
    pub fn steps(&self) -> u64
        ensures { result ≡ self.now.steps }
    {
        self.steps
    }
}
