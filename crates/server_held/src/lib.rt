//! What the threads of a server share: the server and the store of its tree, and what it has to say to each
//! session. A turn is calls of it (`turns`). `outboxes` has the messages to each session that its thread
//! didn't take yet.
#![tactic(auto)]

pub mod boxes;
pub mod entries;
pub mod held;
mod kept;
pub mod outboxes;
pub mod turns;
