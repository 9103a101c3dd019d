//! Why who opens a file under a lease has the version that the file has at that moment. It is a law
//! of the machine of one lease (`specs/Machine.antt`), whose events may come in any order. The
//! functions do nothing: a caller learns a law by calling its function.

ghost use Rattle.std.specs.Prelude.{◌≡◌, ℕ, ◌<◌, ◌≤◌, List, Some};
ghost use Rattle.clock_rule.specs.Clocks.{Clocked};
ghost use Rattle.lease_rules.specs.declared.lease.Lease.{Lease};
ghost use Rattle.lease_table.specs.Leases.{lease_at, without_ended};
ghost use Rattle.lease_table.specs.Order.{AreOrdered};
ghost use Rattle.lease_table.specs.Machine.{Machine, Note, Event, happens, run, start};
ghost use Rattle.lease_table.specs.Claims.{IsKept, IsNew, IsLater, IsTimed, IsNoted, KeepsClocks, AllRight};

/// For every list of events whose readings keep the clock rule, each open by a note gave the version
/// that the file had at that moment.
pub fn opens_are_right()
    ensures { (client session file term drift : ℕ) (es : List Event) → KeepsClocks client term drift es → AllRight (run (start client session file term drift) es).opens }
{}

/// How it comes, in parts, for worlds that have more than one client, session and file. `IsKept` holds
/// where nothing was said on a session yet, and stays as time passes and with each event, where leases
/// of other sessions or files come and go (and RECALLs of these are numbered), and where leases that
/// have ended are forgotten.
/// Where it holds, what is noted and not over at a reading of the client that keeps the rule is the
/// file's version.
pub fn leases_are_safe()
    ensures start { (m : Machine) → IsNew m → IsKept m }
    ensures time { (m : Machine) (new : Clocked) → IsLater m.clocks new → IsKept m → IsKept (record m { clocks = new }) }
    ensures event { (m : Machine) (e : Event) → IsTimed m e → IsKept m → IsKept (happens m e) }
    ensures elsewhere { (m : Machine) (leases : List Lease) (next : ℕ) → AreOrdered leases
        → lease_at leases m.session m.file ≡ lease_at m.leases m.session m.file → m.next ≤ next
        → IsKept m → IsKept (record m { leases = leases; next = next }) }
    ensures forgotten { (m : Machine) (now : ℕ) → now ≤ m.clocks.server → IsKept m → IsKept (record m { leases = without_ended m.leases now }) }
    ensures open { (m : Machine) (seen : ℕ) (n : Note) → IsKept m → IsNoted m seen → m.note ≡ Some n → seen < n.until → n.version ≡ m.version }
{}
