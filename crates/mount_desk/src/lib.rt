//! A mount's client under a lock, and each turn at it.
//!
//! `desk` has the client, the link on which its messages go, and the line of what ended; `giving` gives messages to
//! the link. `kept_desk` has it with the fact that the client took its turns alone. `shared` has that under a
//! lock, by the trait of `turns`; it has the turns of a connection's thread, and those of the script's. It stands
//! below the threads themselves, and the script (`lbfs_mount`).
#![tactic(auto)]

pub mod answer_line;
pub mod desk;
mod giving;
pub mod kept_desk;
pub mod shared;
pub mod turns;
