//! The commands of a shell: what a line comes to, over what is done with one path (`path_commands`). `specs/Lines.antt`
//! says which path a word names, and what is done with it.
#![tactic(auto)]

mod here;
pub mod shell;
