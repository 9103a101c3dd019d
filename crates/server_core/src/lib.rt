//! The server: a tree of files and directories, and one event after another on it.
//!
//! It stands on `wire`'s messages and knows no bytes of the wire: a message comes in, messages go
//! out, each to a session. One event is one atomic step.
#![tactic(auto)]

pub mod change;
mod closing;
pub mod event;
mod hanging;
pub mod journal;
mod leasing;
mod naming;
mod recalling;
pub mod server;
mod settling;
mod state;
pub mod steps;
mod unkept;
mod waiting;
