//! Rules on the clients and sessions of a trace that need neither an end nor a message: which place a
//! number has, on which wire goes what is sent on a session, which operation is under way, whose operation
//! has its point where a change is made, and how one is told to have ended. What is kept of a session,
//! and its bytes on their way, stand here too.
#![tactic(auto)]

pub mod numbers;
pub mod pointing;
pub mod running;
pub mod session;
pub mod taken_call;
pub mod telling;
pub mod ways;
pub mod wire;
