//! The changes that wait at a server: each waits until no lease blocks it, and until it is the first
//! of its file. They are made in the order of their arrival, as soon as each may be. The leases that
//! they wait for stand beside them (`lease_table`), and the calls by which sessions are asked for these
//! stand in `back_calls`. `specs/Waits.antt` says which change waits for what, and which is next;
//! `specs/BackCalls.antt` what is asked for, and waited for.
#![tactic(auto)]

mod asking;
pub mod back_calls;
mod ready;
mod sizes;
pub mod waits;
