//! What a shell does with one path, as walks of what a client is asked: which commands of the client each makes,
//! in which order, what becomes of a file of the host, and what is told. Its commands are `shell_commands`, its
//! tasks `folder_tasks`.
//!
//! `remote` is what a shell asks of its client, and `folder` what it asks of the host's files; both are
//! traits. `specs/Storing.antt` and `Fetching.antt` have what each walk comes to, over whatever the client does at
//! one command (`asks`), and `specs/Telling.antt` what is written then.
#![tactic(auto)]

pub mod asking;
pub mod caching;
pub mod dials;
pub mod fetching;
pub mod folder;
pub mod remote;
pub mod removing;
pub mod screen;
pub mod storing;
pub mod tasks;
pub mod telling;
pub mod told;
