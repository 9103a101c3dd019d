//! Which calls of an object in memory are to fail. Its state stands in `specs/Memory.antt`.

ghost use Rattle.std.specs.Prelude.{◌≡◌, ℕ, ◌+◌, ◌-◌, ◌^◌, ◌↔◌, min, Contains, IsTrue};

use lb_base::faults::one_more;
use lb_base::items::Items;
use std::marker::Model;

/// A list of the calls that are to fail, by their numbers, and how many calls there were.
pub struct Calls {
    made: u64,
    failing: Items<u64>,
}

// By hand: docs/proving/dropping.md.
impl Drop for Calls {
    fn drop(self) {
        let Calls { made: _, failing } = self;
        drop(failing);
    }
}

impl Model for Calls {
    ghost use Rattle.links.specs.Memory.{CallState};

    ghost Value = { CallState };

    ghost view = { λ c. record { made = c.made; failing = c.failing } };
}

impl Calls {
    /// No call was made yet. Those whose numbers are listed are to fail; the first is number 0.
    pub fn new(failing: Items<u64>) -> Calls
        ensures { result ≡ record { made = 0; failing = failing } }
    {
        Calls { made: 0, failing }
    }

    /// Counts a call, and answers whether it is to fail.
    pub fn next(&mut self) -> bool
        ensures fails { IsTrue result ↔ Contains self.old.failing self.old.made }
        ensures counts { self.new ≡ record self.old { made = min (self.old.made + 1) (2 ^ 64 - 1) } }
    {
        let fails = self.failing.as_slice().contains(&self.made);
        self.made = one_more(self.made);
        fails
    }
}
