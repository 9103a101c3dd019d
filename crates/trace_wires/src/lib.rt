//! The bytes of a session on their way to one of its ends. `specs/Queue.antt` says how many of them a
//! delivery takes and what the end makes of them. Nothing here knows what the bytes say.
#![tactic(auto)]

pub mod queue;
