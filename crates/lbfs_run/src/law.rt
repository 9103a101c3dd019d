//! The law of generated traces.

ghost use Rattle.std.specs.Prelude.{◌≡◌, ℕ, ◌≤◌, length, Ok};
ghost use Rattle.limits.specs.declared.TheConstants.{INPUT_MOST};
ghost use Rattle.trace_replay.specs.World.{World};
ghost use Rattle.trace_replay.specs.Timed.{accepted};
ghost use Rattle.trace_generator.specs.Lines.{generated_text};
ghost use Rattle.trace_generator.specs.declared.TheConstants.{BLOCKS_MOST};

/// Every generated trace is accepted, whatever its seed is, up to the most blocks that a trace may be
/// made of: no line of it is refused by the grammar, a limit or the clock rule. And its text is no
/// longer than an input may be (`short`), so it is not refused where it is read either. It does
/// nothing: a caller learns this by calling it.
pub fn generated_traces_are_accepted()
    ensures accepted { (seed blocks : ℕ) → blocks ≤ BLOCKS_MOST → (w : World) × (accepted (generated_text seed blocks) ≡ Ok w) }
    ensures short { (seed blocks : ℕ) → blocks ≤ BLOCKS_MOST → length (generated_text seed blocks) ≤ INPUT_MOST }
{}
