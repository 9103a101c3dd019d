//! The law of the server alone: what its tree holds is what its journal says, and how that grows. `specs` has
//! the definitions; there is no code.
#![tactic(auto)]

pub mod law;
