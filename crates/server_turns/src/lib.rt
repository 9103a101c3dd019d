//! The turns of a server's threads. `shared` has what they share, and each kind of turn that one of them takes
//! at it; what is done inside of one is `inside`, calls of `Turns` (`server_held`). Whom a turn wakes is `bells`, what may go out behind it `outgoing`,
//! who is at work `work`, and what a test decides whose turn it is by, `gate`. It stands above what is shared
//! and below the threads themselves (`lbfs_server`).
#![tactic(auto)]

mod bells;
pub mod gate;
pub mod inside;
pub mod outgoing;
pub mod shared;
pub mod work;
