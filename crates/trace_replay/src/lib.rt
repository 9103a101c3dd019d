//! Traces replayed: a server and its clients in one world, with a queue of bytes in each direction
//! of each session.
//!
//! A trace's lines deliver bytes, and the history of the run tells what each command of a client
//! gave. The ends are the very ones of a real connection, over the real bytes. `specs/Core.antt` of
//! `trace_ends` says what the ends do, `specs/World.antt` and `specs/Delivery.antt` what becomes of the
//! bytes between them, and `specs/Run.antt` and `specs/Timed.antt` what a trace comes to.
#![tactic(auto)]

mod applying;
mod delivery;
pub mod fault;
mod opening;
mod paths;
pub mod run;
mod sending;
pub mod stage;
mod state;
pub mod timing;
mod turn;
mod wire_loss;
pub mod world;
