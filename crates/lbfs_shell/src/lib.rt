//! A shell on the tree of a server, for people: its lines and its one command, what it does over several
//! connections at once, and what it says meanwhile.
//!
//! What a command makes of the server's tree and of the host's files are the walks of `shell_walks`, over
//! the client of `shell_link`. Here is what runs them. `running` goes through the lines; `lines` reads one, and
//! says what wasn't done. `pool` has the tasks of one command, which the threads of `crew` share. `watching`
//! shows how far it is, in the lines of `shell_telling`. `help` is what there is to type.
#![tactic(auto)]

mod caching;
mod crew;
mod help;
mod lines;
pub mod outside;
mod pool;
pub mod running;
mod saying;
mod watching;
