//! Changes of files by sessions that are no client's. `specs/Raw.antt` says which operation each is.

ghost use Rattle.std.specs.Prelude.{◌≡◌, IfOk};
ghost use Rattle.register_model.specs.Raw.{word_of, outcome_of, op_of};

use crate::op::{Op, Outcome, Traffic, Word};
use lb_base::items::Bytes;
use shared_bytes::SharedBytes;
use std::alloc::{AllocError, Global};

/// What was done to the file.
#[derive(Clone, Copy)]
pub enum RawKind {
    /// It got a content.
    Commit,
    /// It was made, with no bytes.
    Make,
    /// It was removed, or another took its name.
    Remove,
}

/// A change of a file by a session that is no client's, as the server's journal has it.
pub struct Raw {
    /// The session's number, from 1.
    pub session: u32,
    /// What was done.
    pub kind: RawKind,
    /// The file's id.
    pub file: u64,
    /// The step in which the server took the message that asked for it.
    pub begin: u64,
    /// The step in which it was made.
    pub point: u64,
    /// The version that the file has since then, or had as its last.
    pub version: u64,
    /// The length of its content, 0 where it is gone.
    pub len: u64,
    /// The digest of its content, or of no bytes.
    pub sha1: Bytes,
    /// Its content; no byte where it is gone.
    pub value: SharedBytes,
}

// Written by hand, it is proved here alone; derived, each crate above would prove how each part is
// dropped.
impl Drop for Raw {
    fn drop(self) {
        let Raw {
            session: _,
            kind: _,
            file: _,
            begin: _,
            point: _,
            version: _,
            len: _,
            sha1,
            value,
        } = self;
        drop(sha1);
        drop(value);
    }
}

impl RawKind {
    /// The word of a client's operation that does the same.
    fn word(self) -> Word
        ensures { result ≡ word_of self }
    {
        match self {
            RawKind::Commit => Word::Close,
            RawKind::Make => Word::Make,
            RawKind::Remove => Word::Remove,
        }
    }
}

impl Raw {
    /// How it ended, as an operation. The one error is running out of memory.
    fn outcome(&self, alloc: Global) -> Result<Outcome, AllocError>
        ensures { IfOk result (λ o. o ≡ outcome_of self.now.kind self.now.version self.now.len self.now.sha1) }
    {
        match self.kind {
            RawKind::Commit => Ok(Outcome::Closed {
                version: self.version,
                len: self.len,
                sha1: self.sha1.try_clone(alloc)?,
            }),
            RawKind::Make | RawKind::Remove => Ok(Outcome::Done),
        }
    }

    /// The operation that it is. The one error is running out of memory.
    pub fn op(&self, alloc: Global) -> Result<Op, AllocError>
        ensures { IfOk result (λ o. o ≡ op_of self.now) }
    {
        let outcome = self.outcome(alloc)?;
        let value = self.value.share()?;
        Ok(Op {
            client: 0,
            word: self.kind.word(),
            file: self.file,
            begin: self.begin,
            end: Some(self.point),
            point: Some(self.point),
            outcome,
            value,
            traffic: Traffic {
                cond: 0,
                tmp: 0,
                read: 0,
                data: 0,
            },
        })
    }
}
