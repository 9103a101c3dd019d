//! A mount: the lines of a script, run one by one over a client on its connection.
//!
//! What its threads share, and each turn at that, is `mount_desk`. `hearing` is the thread of a connection, which
//! takes its records; `connecting` dials one; `running` goes through the script, whose lines `script` gives as
//! they come. `noticing` reads and writes the cache file. `mount` has them all.
#![tactic(auto)]

mod connecting;
mod hearing;
pub mod mount;
pub mod mount_error;
mod noticing;
mod running;
pub mod script;
mod splitting;
