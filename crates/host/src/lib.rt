//! The outside of the program on a machine: TCP on this host alone, its files, its clock, and a
//! rest. They tell nothing of bytes, and are trusted for those; what is proved is that each fault is
//! counted.
#![tactic(auto)]

pub mod dialler;
pub mod host_files;
pub mod host_folder;
mod left_over;
pub mod notes;
mod replacing;
pub mod screen;
pub mod serving;
mod sleeping;
pub mod streams;
pub mod tcp;
mod terms;
pub mod time;
pub mod told_store;
