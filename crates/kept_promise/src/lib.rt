//! The law over runs: every accepted trace keeps the promise. It has no code, and proofs alone, over
//! the definitions of `trace_replay`, of the crates that it stands on, and of the two ends; `law` has
//! what a caller can cite.
//!
//! `proofs/Facts.antt` says what holds in each world of a run, `proofs/Leading.antt` what each event
//! is shown to keep, and docs/PROOF.md how the parts hang together.
#![tactic(auto)]

pub mod law;
