//! The leases that a server has granted (Gray and Cheriton, SOSP 1989): a session is told of each
//! change of a file before it is made, until its lease ends. `specs/Leases.antt` says what each call
//! does to the list of them, and `laws` why who opens a file under a lease has its present version,
//! though clocks drift (`specs/Machine.antt`). `map` has the maps in which they lie: a place for an entry
//! can be reserved there.
#![tactic(auto)]

mod blocking;
mod changes;
mod farewell;
mod keyed;
pub mod laws;
pub mod map;
mod pair;
mod part;
pub mod range;
mod spare;
pub mod table;
