//! The outside of a trial in memory: lines at a port, an input that is typed, a screen, and a store; what a row says of
//! them, and what of their calls fails.
#![tactic(auto)]

pub mod line;
pub mod outside;
pub mod port;
pub mod rowless;
pub mod screen;
pub mod trial;
pub mod tried_store;
mod wanted;
