//! A server on its connections: the listener, the ticker and a session's threads, and what each of them does.
//! What they share and the turns that they take are `server_turns`; `serve` puts all of it together, over the
//! server of a store's tree.
#![tactic(auto)]

mod hints;
pub mod listener;
pub mod serve;
pub mod session;
