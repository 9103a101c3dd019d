//! How a client closes a file: its local content goes into a temporary file, a CONDWRITE for each chunk
//! and a TMPWRITE for each that the server doesn't know, and is then committed.
//!
//! It works on the state of `client_state`. `specs/Closing.antt` says what a close has stored, and
//! `specs/Storing.antt` what is done at each answer.
#![tactic(auto)]

pub mod calls;
pub mod closing;
mod messages;
pub mod stores;
