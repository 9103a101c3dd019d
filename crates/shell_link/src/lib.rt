//! The client behind a shell, on its connection: what a shell asks is a command of the client, whose
//! messages go out and whose answers are taken until the command has ended. Nothing runs beside it, so
//! what a command comes to is known: `specs/Asking.antt`, over the client's own steps.
#![tactic(auto)]

mod hearing;
mod outcomes;
pub mod session;
