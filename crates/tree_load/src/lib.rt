//! A tree of files from the records of a store. `specs/Load.antt` says which record of a list is
//! the first that breaks a rule, and which tree the records of one without a fault keep;
//! `specs/Rules.antt` all that break one, each with the rule.
#![tactic(auto)]

mod above;
pub mod breaches;
mod coming;
pub mod counts;
pub mod error;
mod firsts;
pub mod laws;
pub mod load;
mod making;
pub mod rule;
mod rules;
