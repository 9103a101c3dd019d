//! What the clock rule says of any two events of a trace: `KeepsRule` of `specs/Keeping.antt`.

ghost use Rattle.std.specs.Prelude.{◌≡◌, ◌↔◌, ℕ, List, Ok, IsOk};
ghost use Rattle.clock_rule.specs.declared.rule.Reading.{Reading};
ghost use Rattle.clock_rule.specs.Clocks.{Clocked, read_at};
ghost use Rattle.clock_rule.specs.Keeping.{at_first, KeepsRule, KeptSoFar, StillKept, all_read, servers, events, NeverFall};

/// Readings are all taken, one after the other, exactly where the server's never fall and any two
/// events among them keep the rule, each event with the server's last reading at it. It does nothing:
/// a caller learns this by calling it.
pub fn readings_keep_the_rule()
    ensures { (term drift : ℕ) (readings : List Reading) → IsOk (all_read (at_first term drift) readings) ↔ (NeverFall (servers readings) × KeepsRule term drift (events 0 readings)) }
{}

/// The same, reading by reading: it holds at the start, where no event is noted, and the next reading
/// is taken exactly where with it the server's don't fall and any two events still keep the rule.
/// It does nothing.
pub fn each_reading_keeps_the_rule()
    ensures start { (term drift : ℕ) → KeptSoFar (at_first term drift) }
    ensures exact { (clocks new : Clocked) (reading : Reading) → KeptSoFar clocks → (read_at clocks reading ≡ Ok new) ↔ StillKept clocks new reading }
{}
