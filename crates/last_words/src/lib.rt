//! What a program did so far, kept where whoever waits for its end finds it, also where a signal ends it:
//! the first line of a file (`keeping`). Of a server that is shared these are its counts (`counts`), which
//! its network and its store tell (`counted_network`, `counted_store`). That a file has its line, and that a
//! count is right, no clause says; the examples test it.
#![tactic(auto)]

pub mod counted_network;
pub mod counted_store;
pub mod counts;
pub mod keeping;
