//! A stream of records as text: a line for each record.
#![tactic(auto)]

pub mod laws;
mod line;
mod names;
mod reading;
pub mod show;
mod stat;
