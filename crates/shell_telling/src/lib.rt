//! What a person is told of a shell's command: the lines that say how far it is, and what it came to or how it goes on
//! (`telling`), and the counts in these (`tally`).
#![tactic(auto)]

pub mod tally;
pub mod telling;
