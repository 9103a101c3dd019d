//! What is counted of a step: `specs/Counts.antt`.

ghost use Rattle.std.specs.Prelude.{◌≡◌, IfSome};
ghost use Rattle.transfer_rules.specs.Counts.{no_counts, with_share};

/// What was sent and received for an operation in a step.
#[derive(Clone, Copy, Drop)]
pub struct Counts {
    /// CONDWRITE calls sent.
    pub cond_writes: u64,
    /// TMPWRITE calls sent.
    pub temp_writes: u64,
    /// READ calls sent.
    pub reads: u64,
    /// Bytes of files sent by TMPWRITE, or received by READs that it asked for.
    pub bytes: u64,
}

/// Nothing is counted.
pub fn no_counts() -> Counts
    ensures { result ≡ no_counts }
{
    Counts {
        cond_writes: 0,
        temp_writes: 0,
        reads: 0,
        bytes: 0,
    }
}

/// What is counted of a late answer, to a call of an operation or attempt that has ended: nothing.
pub fn late_counts() -> Counts
    ensures { result ≡ no_counts }
{
    no_counts()
}

/// What was counted, with a step's share; nothing where that comes to 2^64 of anything.
pub fn with_share(counted: Counts, share: Counts) -> Option<Counts>
    ensures { IfSome result (λ n. n ≡ with_share counted share) }
{
    let all = Counts {
        cond_writes: counted.cond_writes.checked_add(share.cond_writes)?,
        temp_writes: counted.temp_writes.checked_add(share.temp_writes)?,
        reads: counted.reads.checked_add(share.reads)?,
        bytes: counted.bytes.checked_add(share.bytes)?,
    };
    Some(all)
}
