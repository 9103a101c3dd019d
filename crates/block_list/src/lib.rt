//! A list of numbers that grows and shrinks at any place.
#![tactic(auto)]

mod block;
mod blocks;
pub mod list;
