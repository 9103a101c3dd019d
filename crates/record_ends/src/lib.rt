//! The two ends of a link: records out of the bytes that come, and the bytes that messages go out
//! as.
#![tactic(auto)]

pub mod end;
pub mod inbox;
pub mod laws;
pub mod outgoing;
