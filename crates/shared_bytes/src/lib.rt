//! Bytes with several owners. A file's content is kept, is open and stands in a history at once, and
//! each has it by an owner of its own, so that it lies in memory once.
//!
//! `specs/Shared.antt` says which list it is.
#![tactic(auto)]

ghost use Rattle.std.specs.Prelude.{◌≡◌, [], length, IfOk, IfErr};
ghost use Rattle.shared_bytes.specs.Shared.{shared_list};

use lb_base::items::Bytes;
use std::alloc::{AllocError, AllocFailed, Global};
use std::marker::Model;
use std::sync::Arc;

/// One owner of some bytes, which never change. Contracts see their list. They are dropped with their
/// last owner.
pub struct SharedBytes {
    held: Option<Arc<Bytes>>,
}

/// By hand, so that the crates above prove nothing of how the parts are dropped.
impl Drop for SharedBytes {
    fn drop(self) {
        let SharedBytes { held } = self;
        drop(held);
    }
}

impl Model for SharedBytes {
    ghost use Rattle.std.specs.Prelude.{List, ℕ};
    ghost use Rattle.shared_bytes.specs.Shared.{shared_list};

    ghost Value = { List ℕ };

    ghost view = { λ s. shared_list s.held };
}

impl SharedBytes {
    /// No byte. It takes no memory.
    pub fn empty() -> SharedBytes
        ensures { result ≡ [] }
    {
        SharedBytes { held: None }
    }

    /// The first owner of these bytes. They aren't copied. The one error is running out of memory, and gives
    /// them back.
    pub fn new(alloc: Global, bytes: Bytes) -> Result<SharedBytes, AllocFailed<Bytes>>
        ensures ok { IfOk result (λ shared. shared ≡ bytes) }
        ensures back { IfErr result (λ e. e.value ≡ bytes) }
    {
        let held = Arc::new(alloc, bytes)?;
        Ok(SharedBytes { held: Some(held) })
    }

    /// One more owner of the same bytes. It copies none and takes no memory. The one error is that
    /// there are 2^63 owners, which is told as running out of memory.
    pub fn share(&self) -> Result<SharedBytes, AllocError>
        ensures { IfOk result (λ shared. shared ≡ self.now) }
    {
        match &self.held {
            Some(held) => Ok(SharedBytes {
                held: Some(Arc::try_clone(held)?),
            }),
            None => Ok(SharedBytes { held: None }),
        }
    }

    /// The bytes as a slice.
    pub fn as_slice(&self) -> &[u8]
        ensures { result.now ≡ self.now }
    {
        match &self.held {
            Some(held) => held.as_slice(),
            None => &[],
        }
    }

    /// The number of bytes.
    pub fn len(&self) -> usize
        ensures { result ≡ length self.now }
    {
        self.as_slice().len()
    }
}
