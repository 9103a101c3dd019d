//! What comes of the rows of data of the protocol and of traces, a line or more for each: items and
//! handles of XDR, streams of records, headers of RPC, arguments and results of each procedure, whole
//! records as messages; fingerprints, cuts, the text of a refusal, and histories with their legality.
#![tactic(auto)]

mod bodies;
mod cuts;
pub mod files;
mod headers;
mod histories;
mod items;
mod lb;
mod made;
mod nfs;
mod prints;
mod records;
mod refusals;
mod streams;
mod values;
