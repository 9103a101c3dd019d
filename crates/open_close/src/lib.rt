//! The client: commands go in and messages come in, messages go out, and each command has one
//! outcome.
//!
//! It stands on `wire`'s messages and knows no bytes of the wire. It keeps the open files' whole
//! contents. `specs/Step.antt` says what a command, or a message, does; `file_open` how a file is
//! fetched, and `file_close` how it is stored.
#![tactic(auto)]

mod answers;
pub mod client;
mod commands;
mod granting;
mod recalling;
mod taking;
mod walking;
