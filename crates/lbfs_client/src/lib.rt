//! The command client: it runs the lines of a script, one by one, over a client of one connection.
//!
//! `mounted` has the client with the files of the host, and the four things that may happen to it: a
//! line, a record that came, the end of the link, and a connection that is joined. What each comes to
//! is `specs/Mounting.antt`; `specs/Walks.antt` says what `put` and `get` do, one operation after the
//! other. `line` has the lines of a script, whose grammar is `specs/Lines.antt`, and `answer` what is
//! written for each (`specs/Answers.antt`). `farewell` is what a client says last on a link.
#![tactic(auto)]

pub mod answer;
mod caching;
mod commanding;
pub mod farewell;
mod fetching;
mod hinting;
pub mod laws;
pub mod line;
pub mod local;
pub mod mounted;
pub mod paging;
mod running;
pub mod said;
mod storing;
pub mod walk;
mod walking;
