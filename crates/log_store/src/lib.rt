//! A store of records in a folder that a cut of power can't spoil: a log of changes, which is carried
//! out into the records' files later. `specs/Disk.antt` states what the calls of a folder do and what a
//! cut may leave, `specs/Sound.antt` what a folder stands for.
#![tactic(auto)]

pub mod carrying;
pub mod edit;
mod ending;
pub mod entry;
pub mod folder;
pub mod frame;
pub mod records;
mod room;
pub mod staging;
pub mod syncing;
pub mod which;
