//! The law of leases at a server (`specs/Claims.antt`, `specs/Orderly.antt`).

ghost use Rattle.std.specs.Prelude.{◌≡◌, ℕ, ◌<◌, ◌≤◌, ◌==◌, List, Some, Bool, false};
ghost use Rattle.std.specs.List.{AllByRecursion};
ghost use Rattle.clock_rule.specs.declared.rule.Note.{Note};
ghost use Rattle.clock_rule.specs.Keeping.{KeepRule};
ghost use Rattle.wire.specs.declared.message.Message.{Message};
ghost use Rattle.server_core.specs.State.{State};
ghost use Rattle.server_core.specs.Step.{server_step_under, gives_up, Misses};
ghost use Rattle.server_core.specs.declared.event.Event.{Event};
ghost use Rattle.server_core.specs.declared.event.ServerStep.{ServerStep};
ghost use Rattle.lease_law.specs.Claims.{Claim, Way, IsClaim, IsNote, noted_at, version_at};
ghost use Rattle.lease_law.specs.Orderly.{IsOrderly, AreNumbered, IsTimed, IsOnWay, Lasts};

/// What a client may rely on by a lease goes on, whatever happens at the server, and whether its store
/// fails or memory runs out (`missed`): the claim is held, or the server's clock has come to its end.
/// And by a note that hasn't ended the file has the version that is noted, where the clocks keep their
/// rule (`fresh`). It does nothing: a caller learns this by calling it.
pub fn claims_last()
    ensures event { (s : State) (clock now : ℕ) (c : Claim) (way : Way)
        (behind downs : List Message) (fault : Bool) (e : Event) → IsOrderly s clock
        → 0 < c.session → c.session ≤ s.sessions_made → AreNumbered s c.session way.ups downs
        → IsClaim s clock c way behind → IsTimed e clock now → IsOnWay e c.session way.ups
        → Lasts now c way behind downs (server_step_under s fault e) }
    ensures missed { (s : State) (clock now : ℕ) (c : Claim) (way : Way)
        (behind downs : List Message) (e : Event) (n : State) (step : ServerStep)
        → Misses s e n step → IsOrderly s clock → 0 < c.session → c.session ≤ s.sessions_made
        → AreNumbered s c.session way.ups downs → IsClaim s clock c way behind
        → IsTimed e clock now → IsOnWay e c.session way.ups
        → Lasts now c way behind downs (n, step) }
    ensures fresh { (s : State) (clock drift : ℕ) (noted : List Note)
        (client session file version until now : ℕ) (way : Way) (behind : List Message)
        → IsNote s clock drift noted client session file version until way behind
        → AllByRecursion (λ n.
        KeepRule s.leasing.term drift n (noted_at client now clock)) noted → now < until
        → version_at s.tree file ≡ Some version }
{}

/// Where a session gives all of its leases up, what is claimed on other sessions goes on, and the server
/// stays as the law wants it. The session's own claims are gone. It does nothing: a caller learns this
/// by calling it.
pub fn farewells_spare()
    ensures claim { (s : State) (session clock : ℕ) (c : Claim) (way : Way)
        (behind : List Message) → (c.session == session) ≡ false → IsClaim s clock c way behind
        → IsClaim (gives_up s session) clock c way behind }
    ensures orderly { (s : State) (session clock : ℕ) → IsOrderly s clock → IsOrderly (gives_up s session) clock }
    ensures numbered { (s : State) (session other : ℕ) (ups downs : List Message) → AreNumbered s other ups downs → AreNumbered (gives_up s session) other ups downs }
{}
