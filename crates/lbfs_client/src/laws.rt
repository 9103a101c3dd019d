//! What holds of the contents that a client keeps. `specs/Bounded.antt` states it.

ghost use Rattle.std.specs.Prelude.{ℕ};
ghost use Rattle.client_state.specs.Bounding.{kept_within};
ghost use Rattle.client_state.specs.State.{State};
ghost use Rattle.lbfs_client.specs.Bounded.{IsBounded, IsCache};

/// What is dropped where so many bytes may be kept leaves at most so many, or else nothing but what is open, or
/// what an operation is under way on. A client's cache is such a one: of at most 256 files, of each once.
pub fn what_is_kept_is_bounded()
    ensures { (most : ℕ) → (s : State) → IsCache s.cache → IsBounded most (kept_within most s) }
{}
