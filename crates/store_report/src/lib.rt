//! What looking over a store comes to, as text: a line for each of its files that breaks a rule, or
//! `whole`. `specs/Report.antt` states it.
#![tactic(auto)]

pub mod report;
pub mod subject;
