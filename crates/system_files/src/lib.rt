//! The files of a store's folder by the system's calls: their names and paths, how one is read, written and
//! flushed, the log's file, and how much room a write needs. `specs/Names.antt` says the names.
#![tactic(auto)]

pub mod disk_files;
pub mod laws;
pub mod log_file;
pub mod made;
pub mod naming;
pub mod needs;
pub mod paths;
