//! The rules by which a client fetches and stores a file's chunks, each over the few values that it looks
//! at: how many calls and attempts there may be, which chunk comes next, whether what came fits, whose
//! answer it is, what is counted of it, and what an evicted content leaves. What a look-up makes of an
//! index, and whether what it found fits, is asked by both ends.
//!
//! They know no message and no state of an end (a look-up is handed its index), so that a wrong rule is
//! refused here, in a check of seconds. `client_cache`, `client_state`, `file_open` and `file_close` go
//! by them, and `chunk_index` for both ends.
#![tactic(auto)]

pub mod answers;
pub mod bounds;
pub mod chunks;
pub mod counts;
pub mod kept;
pub mod pieces;
