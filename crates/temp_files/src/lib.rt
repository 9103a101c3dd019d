//! The temporary files of all sessions: the pieces of a content that a client sends one by one, and
//! what they come to.
//!
//! What each call makes of them, and why it is refused, is `specs/Temps.antt`; the pieces of one
//! temporary file are `specs/Pieces.antt`, and what they come to `specs/Covered.antt`.
#![tactic(auto)]

pub mod fault;
mod front;
pub mod gathering;
pub mod pieces;
mod room;
pub mod temp;
pub mod temps;
