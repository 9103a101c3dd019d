//! The two ends of a trace, and each event at them: the server, the clients, their sessions, and the
//! operations of their commands, apart from the bytes between them.
//!
//! `specs/Core.antt` says what each event makes of the ends, and what it leaves to be sent. The ends are
//! the very ones of a real connection. What a command is as an operation, and how that begins, goes on
//! and ends, say `specs/Commands.antt` and `specs/Ops.antt`; what a client and a session are
//! `specs/Session.antt`; and what is put on its way `specs/Wires.antt`.
#![tactic(auto)]

pub mod adjusting;
mod commanding;
pub mod commands;
pub mod core_step;
mod disconnecting;
mod entering;
mod hearing;
mod joining;
pub mod ops;
mod outbox;
pub mod places;
mod raw_changes;
pub mod seat;
pub mod sending;
mod serving;
pub mod session;
mod settling;
pub mod world_core;
