//! The clock rule of traces. Server readings never fall, and each client's never fall. At each
//! event of a client its reading and the last server reading are noted. For two events of one client
//! whose client readings differ by at most the term, the server readings differ by at most that
//! client difference plus the drift. So it stands in `specs/Keeping.antt`; what is answered reading by
//! reading in `specs/Clocks.antt`.
#![tactic(auto)]

pub mod clocks;
pub mod laws;
pub mod rule;
mod window;
