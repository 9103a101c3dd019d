//! The tree of files and directories, and what its calls make of it. The changes are defined in
//! `specs/Step.antt`, what a tree opens with in `specs/Opening.antt`, and what a store keeps of a tree
//! in `specs/Kept.antt`. What is read of a tree, and what a call comes to, or why it is refused,
//! `tree_reading` says.
//!
//! With a store that keeps the tree, the store is asked first, and where it fails the tree stays as it
//! is (`stored_steps`): `specs/Stores.antt` says what a step comes to then, and what the store keeps.
#![tactic(auto)]

pub mod laws;
pub mod opening;
pub mod pair;
pub mod places;
pub mod state;
pub mod steps;
pub mod stored_steps;
pub mod tree;
