//! Rules of the server that need neither the nodes of its tree nor its messages: which sessions stand,
//! which number one gets and what goes with one, which pieces of a temporary file follow on each other,
//! what an event is told, whether a store that was asked has failed, and how changes of the tree are
//! counted.
#![tactic(auto)]

pub mod asking;
pub mod sessions;
pub mod temps;
pub mod told;
pub mod tree;
