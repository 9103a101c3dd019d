//! The law of the server alone (`specs/Facts.antt`, `specs/Growth.antt`).

ghost use Rattle.std.specs.Prelude.{◌≡◌, ℕ, [], List, Bool};
ghost use Rattle.tree_reading.specs.Tree.{Tree};
ghost use Rattle.server_core.specs.declared.event.Event.{Event};
ghost use Rattle.server_core.specs.State.{State};
ghost use Rattle.server_core.specs.Step.{server_step_under, gives_up, Misses};
ghost use Rattle.server_core.specs.declared.event.ServerStep.{ServerStep};
ghost use Rattle.server_law.specs.Growth.{Grows};
ghost use Rattle.server_law.specs.Facts.{Holds, IsGiven};

/// Whatever happens to a server, and whether its store fails or not, its tree holds of each file what
/// the last entry of its journal says that tells of that file (a version, a length and a digest, or
/// that it is gone), and what the opening tree had where no entry does; and along the journal a file's
/// versions rise by one, from 1 where it is made; and so it is where memory runs out (`missed`), and
/// where a session gives its leases up (`given_up`). Each entry is one change of the tree. It does nothing: a
/// caller learns this by calling it.
pub fn journal_tells()
    ensures opening { (s : State) → s.journal ≡ [] → IsGiven s.tree → Holds s.tree s }
    ensures step { (opening : Tree) (s : State) (fault : Bool) (e : Event) → Holds opening s → Holds opening (server_step_under s fault e).0 }
    ensures missed { (opening : Tree) (s : State) (e : Event) (n : State) (step : ServerStep) → Misses s e n step → Holds opening s → Holds opening n }
    ensures given_up { (opening : Tree) (s : State) (session : ℕ) → Holds opening s → Holds opening (gives_up s session) }
{}

/// Each step adds at most two entries to the journal, behind those that it has, whether its store fails
/// or not (`step`), and also where memory runs out (`missed`). It does nothing: a caller learns this by
/// calling it.
pub fn journal_grows()
    ensures step { (s : State) (fault : Bool) (e : Event) → Grows s (server_step_under s fault e).0 }
    ensures missed { (s : State) (e : Event) (n : State) (step : ServerStep) → Misses s e n step → Grows s n }
{}
