//! The bytes of the first pieces of a temporary file, of which others may be owners too.
//! `specs/Laid.antt` states how the pieces lie in them.

ghost use Rattle.std.specs.Prelude.{◌≡◌, [], length, IfOk, OnOk};
ghost use Rattle.temp_files.specs.Laid.{AreLengthsOf, laid};

use crate::gathering::{self, Placed};
use lb_base::items::Bytes;
use shared_bytes::SharedBytes;
use std::alloc::{AllocError, Global};
use std::marker::Model;
use std::mem;

/// The bytes of the first pieces, in a vector of their own, or shared with those to whom they were
/// given. Contracts see their list.
#[derive(Drop)]
pub struct Front {
    /// The bytes, where they aren't shared.
    own: Vec<u8>,
    /// The bytes, where they are.
    shared: Option<SharedBytes>,
}

impl Model for Front {
    ghost use Rattle.std.specs.Prelude.{List, ℕ};
    ghost use Rattle.temp_files.specs.Laid.{front_bytes};

    ghost Value = { List ℕ };

    ghost view = { λ f. front_bytes f.shared f.own.items };
}

impl Front {
    /// No bytes. It takes no memory.
    pub fn new(alloc: Global) -> Front
        ensures { result ≡ [] }
    {
        Front {
            own: Vec::new(alloc),
            shared: None,
        }
    }

    /// The bytes as a slice.
    pub fn as_slice(&self) -> &[u8]
        ensures { result.now ≡ self.now }
    {
        match &self.shared {
            Some(shared) => shared.as_slice(),
            None => self.own.as_slice(),
        }
    }

    /// The number of bytes.
    pub fn len(&self) -> usize
        ensures { result ≡ length self.now }
    {
        self.as_slice().len()
    }

    /// Moves two pieces at most behind the bytes, where these aren't shared.
    pub fn gather(&mut self, lengths: &mut Vec<usize>, rest: &mut Placed)
        requires { AreLengthsOf self.old lengths.old.items }
        ensures lengths { AreLengthsOf self.new lengths.new.items }
        ensures same { laid self.new lengths.new.items rest.new.entries ≡ laid self.old lengths.old.items rest.old.entries }
    {
        match &self.shared {
            Some(_) => {}
            None => gathering::gather(&mut self.own, lengths, rest),
        }
    }

    /// Makes the bytes its own, with room for this many; shared ones are copied. The one error is
    /// running out of memory.
    fn make_own(&mut self, alloc: Global, count: usize) -> Result<(), AllocError>
        ensures { self.new ≡ self.old }
    {
        match &self.shared {
            Some(shared) => {
                let mut own = Vec::new(alloc);
                own.reserve_exact(count)?;
                own.extend_from_slice(shared.as_slice())?;
                self.own = own;
                self.shared = None;
                Ok(())
            }
            None => {
                if count > self.own.len() {
                    self.own.reserve_exact(count - self.own.len())?;
                }
                Ok(())
            }
        }
    }

    /// Moves all pieces behind the bytes, where each begins where the one before it ends; `count` is
    /// how many bytes all have. The one error is running out of memory, and each piece then has the bytes
    /// that it had.
    pub fn gather_all(
        &mut self,
        alloc: Global,
        lengths: &mut Vec<usize>,
        rest: &mut Placed,
        count: usize,
    ) -> Result<(), AllocError>
        requires { AreLengthsOf self.old lengths.old.items }
        ensures lengths { AreLengthsOf self.new lengths.new.items }
        ensures same { laid self.new lengths.new.items rest.new.entries ≡ laid self.old lengths.old.items rest.old.entries }
        ensures done { OnOk result (rest.new.entries ≡ []) }
    {
        if rest.is_empty() {
            return Ok(());
        }
        self.make_own(alloc, count)?;
        match &self.shared {
            Some(_) => {}
            None => gathering::gather_all(&mut self.own, lengths, rest),
        }
        if rest.is_empty() {
            Ok(())
        } else {
            Err(AllocError)
        }
    }

    /// Makes the bytes shared, if they aren't, without copying them. The one error is running out of memory.
    fn make_shared(&mut self, alloc: Global) -> Result<(), AllocError>
        ensures { self.new ≡ self.old }
    {
        match &self.shared {
            Some(_) => Ok(()),
            None => {
                let mut own = mem::replace(&mut self.own, Vec::new(alloc));
                own.shrink_to_fit();
                match SharedBytes::new(alloc, Bytes::from_vec(own)) {
                    Ok(shared) => {
                        self.shared = Some(shared);
                        Ok(())
                    }
                    Err(back) => {
                        self.own = back.value.into_vec();
                        Err(AllocError)
                    }
                }
            }
        }
    }

    /// One more owner of the bytes, which aren't copied. The one error is running out of memory.
    pub fn share(&mut self, alloc: Global) -> Result<SharedBytes, AllocError>
        ensures bytes { IfOk result (λ shared. shared ≡ self.old) }
        ensures same { self.new ≡ self.old }
    {
        self.make_shared(alloc)?;
        match &self.shared {
            Some(shared) => shared.share(),
            None => Err(AllocError),
        }
    }
}
