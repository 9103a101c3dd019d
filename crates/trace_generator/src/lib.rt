//! Traces that are made from a number: the same seed and number of blocks give the same text.
//! `specs/Lines.antt` says which lines they have.
#![tactic(auto)]

pub mod blocks;
mod choosing;
pub mod text;

/// The most blocks that a trace is made of.
pub const BLOCKS_MOST: u64 = 5000;
