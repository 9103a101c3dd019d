//! The rules on single leases and changes that a server goes by (Gray and Cheriton, SOSP 1989): until
//! when a lease stands, which change it holds up, whose answer gives it up, for how long one is granted
//! and a client goes by it, and which change waits behind another; and which xids the calls of an end
//! have. `lease_table` and `callback_core` keep many of them, and ask here. `specs/Leases.antt` has the
//! rules on leases, `specs/Changes.antt` those on changes, `specs/Xids.antt` that on xids.
#![tactic(auto)]

pub mod change;
pub mod lease;
pub mod leaving;
pub mod note;
pub mod term;
pub mod xids;
