//! What the calls of NFS version 3 (RFC 1813) come to over a tree of files: what each is answered,
//! what it makes of the tree and of the journal, and what waits. What is only told is defined in
//! `specs/Telling.antt`, what is done at once in `specs/Changing.antt`, and what waits in
//! `specs/Waiting.antt`; the tree's own steps, and their refusals, `file_tree` defines.
#![tactic(auto)]

pub mod asked;
pub mod asking;
pub mod calls;
pub mod changing;
pub mod entering;
pub mod naming;
mod room;
pub mod settling;
pub mod sides;
pub mod telling;
