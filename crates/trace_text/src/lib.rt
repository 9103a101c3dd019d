//! The grammar of traces: what each line says, and the texts of refusals. What the lines do is the
//! business of the world that runs them. The words of a line, contents and commands are those of
//! `command_text`.
#![tactic(auto)]

mod events;
mod fields;
mod kinds;
pub mod line;
pub mod refusal;
