//! The model that a replayed run is held against: files as registers of whole contents, the
//! operations on them as a history, when a history is legal, and its text. The promise of a replay is
//! stated in the definitions of `specs/Register.antt`; what a replay calls is `History` and `text`.
//! The test of legality, by an index that is made for it, is for those who look at histories.
#![tactic(auto)]

pub mod history;
mod index;
pub mod indexed;
pub mod legal;
pub mod op;
mod openings;
pub mod raw;
pub mod summary;
pub mod text;
