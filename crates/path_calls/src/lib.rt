//! The calls of a command on names, one after the other: each name of its paths is looked up from the
//! root on, and then comes the call that does what is wanted. No state of a client is needed: a walk
//! tells its next call, and an answer where it goes on or how it ends.
//!
//! `specs/Walk.antt` says what each command asks for, and `specs/Told.antt` what comes of an answer.
#![tactic(auto)]

pub mod answers;
mod calls;
pub mod walk;
