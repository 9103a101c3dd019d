//! The calls of LBFS (Muthitacharoen, Chen and Mazieres, SOSP 2001), program 0x20004C42, and of its
//! callback program, 0x20004C43: arguments and answers as values, read from a record and written to
//! it.
#![tactic(auto)]

pub mod asking;
pub mod back;
pub mod call;
pub mod hashing;
pub mod lb;
pub mod message;
pub mod version;
