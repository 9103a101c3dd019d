//! The laws: the promise that every replay keeps, which traces are accepted, and that deliveries may
//! be cut anywhere. What is promised is `IsKeptPromise` of `trace_replay/specs/Traces.antt`.

ghost use Rattle.std.specs.Prelude.{◌≡◌, ◌↔◌, ℕ, ◌+◌, List, Ok};
ghost use Rattle.trace_replay.specs.World.{World};
ghost use Rattle.trace_replay.specs.Delivery.{up_some, down_some, passes};
ghost use Rattle.trace_replay.specs.Readings.{KeepsClocks};
ghost use Rattle.trace_replay.specs.Run.{run};
ghost use Rattle.trace_replay.specs.Timed.{accepted};
ghost use Rattle.trace_replay.specs.Traces.{IsKeptPromise};
ghost use Rattle.kept_promise.specs.Rounds.{rounds};
ghost use Rattle.kept_promise.specs.Whole.{UpsComeWhole, DownsComeWhole};
ghost use Rattle.kept_promise.specs.Arrivals.{UpsComeInOrder, DownsComeInOrder};

/// Of every accepted trace: each of its commands has its one operation in the history, each outcome
/// has its cause and each cause its outcome, and the history is legal wherever no two different byte
/// lists that were hashed in the run share a digest. What an operation counts is what was sent and
/// received for it, and bytes that the other end was found to have are not sent. Operations whose client
/// is left alone have ended, and well. A change waits no longer than the leases that hold it up, which are
/// asked for and given up; and an open under a lease that is noted asks nobody. Each change of a client
/// that waits at the server has the value of the close that asked for it, which is still running or was
/// lost, and of each file the server's tree has what the history says; and what is on its way on each
/// session of a client are whole messages, which their end takes. Beside sessions that are no client's
/// all of this holds, whatever these send. It does nothing: a caller learns this by calling it.
pub fn promise_is_kept()
    ensures { (input : List ℕ) (w : World) → accepted input ≡ Ok w → IsKeptPromise input w }
{}

/// A trace is accepted exactly where its run goes through and it keeps the clock rule. What it says
/// of the clocks is then a term, a drift, and readings, in this order; the server's readings never
/// fall, and any two events keep the rule with that term and that drift, each event with the server's
/// last reading at it; a session's line is an event of the client that made it. It does nothing: a
/// caller learns this by calling it.
pub fn clocks_keep_the_rule()
    ensures { (input : List ℕ) (w : World) → (accepted input ≡ Ok w) ↔ ((run input ≡ Ok w) × KeepsClocks input) }
{}

/// Deliveries on a session add up, in every world, whatever is on its way and whatever the ends have
/// of it: so many bytes and then so many more, at one reading of the clock, do what all of them do at
/// once. It does nothing: a caller learns this by calling it.
pub fn deliveries_add_up()
    ensures up { (w : World) (number m n now : ℕ) → up_some (up_some w number m now) number n now ≡ up_some w number (m + n) now }
    ensures down { (w : World) (number m n now : ℕ) → down_some (down_some w number m now) number n now ≡ down_some w number (m + n) now }
{}

/// In a run so many rounds of `pass` are so many times its two deliveries, though it ends as soon as
/// nothing is on its way. It does nothing: a caller learns this by calling it.
pub fn passes_are_rounds()
    ensures { (input : List ℕ) (w : World) → run input ≡ Ok w → (count number server at : ℕ) → passes count w number server at ≡ rounds count w number server at }
{}

/// A message that is on its way alone is taken whole, wherever deliveries cut it: one that leaves
/// some of its bytes behind is no step and changes nothing else, and the one that brings the last of
/// them is the step in which the end takes it. It does nothing: a caller learns this by calling it.
pub fn messages_come_whole()
    ensures up { UpsComeWhole }
    ensures down { DownsComeWhole }
{}

/// Messages that are on their way, in any number, are taken one after the other and in their order,
/// wherever deliveries cut them: a delivery is the steps in which the end takes those whose last bytes
/// it brings, each by itself, and the others are still coming. It does nothing: a caller learns this
/// by calling it.
pub fn messages_come_in_order()
    ensures up { UpsComeInOrder }
    ensures down { DownsComeInOrder }
{}
