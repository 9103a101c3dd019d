//! The nodes of a tree of files and directories, found by their ids and by their names. What is
//! found, and what a change makes of the nodes, `specs/Nodes.antt` states; what a content is cut
//! into, `chunk_cut` does.
#![tactic(auto)]

pub mod content;
pub mod key;
mod listed;
pub mod node;
pub mod nodes;
pub mod slot;
pub mod slots;
pub mod table;
