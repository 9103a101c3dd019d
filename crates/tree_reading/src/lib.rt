//! What is read of a tree of files and directories, over its nodes alone: what an id and a name stand
//! for, attributes, LOOKUP, READ and READDIR, and what a call that changes a tree will come to, with
//! the entries of the journal that it makes; each with its refusals in their order. Nothing changes.
//! A tree, and what its names stand for, is in `specs/Tree.antt`, which names a directory takes in
//! `specs/Names.antt`, what is read in `specs/Reading.antt`, and what a call comes to in
//! `specs/Plans.antt`.
#![tactic(auto)]

pub mod answers;
pub mod call;
pub mod checks;
pub mod entry;
pub mod error;
pub mod finding;
pub mod listing;
pub mod names;
pub mod plans;
pub mod reading;
