//! The ground that every other crate stands on: lists of values and of bytes, and the outside of
//! the program as traits that count their faults, with objects over the standard streams that meet
//! them.
#![tactic(auto)]

pub mod faults;
pub mod items;
pub mod sink;
pub mod source;
pub mod streams;
