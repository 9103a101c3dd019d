//! The folder of a store by the system's calls: the names of its files, its log, what it keeps for a full
//! disk, and what an earlier form of it left. `DiskFolder` is the `Folder` of `log_store`.
#![tactic(auto)]

pub mod disk_folder;
pub mod open_folder;
pub mod redo;
pub mod strangers;
