//! The state of a client: its connection, its open files, the operation under way with its calls, and
//! the calls that it has forgotten; what a step answers; and how an operation ends, whichever it is.
//!
//! `specs/State.antt` says what a client is, `specs/View.antt` what always holds of its fields, and
//! `specs/Ending.antt` when an operation may begin and how one ends. It knows no answer's meaning: what
//! opens a file, and what closes one, stands in crates above.
#![tactic(auto)]

pub mod bounding;
pub mod fields;
pub mod hints;
pub mod lending;
pub mod local;
pub mod noting;
pub mod parts;
pub mod state;
pub mod step;
pub mod task;
pub mod waiting;
