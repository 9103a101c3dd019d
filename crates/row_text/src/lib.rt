//! What programs over rows of data share: a text that grows by calls that never fail, and rows, words
//! and bytes as texts have them.
#![tactic(auto)]

pub mod bytes;
pub mod out;
pub mod text;
