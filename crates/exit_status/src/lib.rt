//! How a run ends, and the number that the program then ends with: its `main` takes it from here.
//! `specs/Statuses.antt` has the numbers.
#![tactic(auto)]

pub mod shell_end;
pub mod status;
