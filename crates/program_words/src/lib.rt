//! The program's words and what they ask for: `asked_of` of `specs/Words.antt`, over the `clap` command
//! of `specs/Line.antt`; and beside them those of `shell` and `share`, `front_of` of `specs/Front.antt`.
#![tactic(auto)]

pub mod asked;
pub mod front;
mod line;
pub mod refusal;
pub mod words;
