//! Calls that the server took. `taken_at` in `specs/Ops.antt` of `trace_ends` says what an operation has of them.

/// A call that the server took, and the step at which it did.
#[derive(Clone, Copy)]
pub struct TakenCall {
    pub xid: u32,
    pub step: u64,
}
