//! The law of leases at a server of many sessions and files: what each of its steps does to what a client
//! may rely on. `specs` has the definitions; there is no code.
#![tactic(auto)]

pub mod law;
