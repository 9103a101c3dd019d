//! Commands of a client, and contents in parts, as text: the words of a line, what they stand for,
//! and the commands that they say. Traces have such commands behind a client and a reading of its
//! clock, and scripts a command a line.
//!
//! `specs/Parts.antt`, `specs/Fields.antt`, `specs/Paths.antt` and `specs/Commands.antt` have the grammar, and
//! `specs/Content.antt` what a content's parts stand for.
#![tactic(auto)]

pub mod command;
pub mod content;
pub mod fields;
pub mod laws;
pub mod line_error;
mod naming;
pub mod parts;
pub mod path;
pub mod pieces;
pub mod words;
