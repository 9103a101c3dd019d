//! What a server asks of a store beyond its records: that changes are made sure before they are told,
//! and that a place is looked at. It stands beside `store`, so that what knows records alone is not
//! touched by it.
#![tactic(auto)]

pub mod checks;
pub mod mem_checks;
pub mod syncs;
