//! A store in a folder of the host: a file for each record, and a log of changes, so that each is made as a
//! whole or not at all, however the program ends, and whatever a cut of power leaves.
#![tactic(auto)]

mod ahead;
pub mod commit;
mod edits;
pub mod folder;
pub mod format;
mod found;
pub mod look;
