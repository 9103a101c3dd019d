//! How a client opens a file: a content that is kept is used again in its version, and else the file is
//! fetched, in attempts, by its chunks and their bytes; or it is to be written anew, and nothing of it is.
//!
//! It works on the state of `client_state`. `specs/Opening.antt` says what an attempt has, and
//! `specs/Fetching.antt` what is done at each answer.
#![tactic(auto)]

pub mod caching;
mod calls;
mod faults;
pub mod fetch;
pub mod kept;
mod messages;
pub mod opening;
pub mod rewriting;
mod shape;
