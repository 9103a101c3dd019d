//! A run of the program over its whole outside: what its words ask for, from what it reads to what it
//! writes. The program `lbfs` calls it (`run::status_of`) over the standard streams, a folder, TCP on
//! this host and its clock; tests call it (`run::run_asked`) over objects in memory that fail when they
//! are told to.
//!
//! What each status says stands in the clauses of `run::run`: of `replay`, `gen`, `cut` and `show` by the
//! definitions of `plain`, of `serve` by `specs/Serving.antt`, of `mount` by `specs/Mounting.antt`, of `check` by
//! `specs/Checking.antt`.
#![tactic(auto)]

mod checking;
mod chunk_lines;
mod law;
mod mounting;
mod output;
pub mod outside;
mod plain;
mod replayed;
pub mod run;
mod serving;
mod telling;
