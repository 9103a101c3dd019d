//! The messages of a step: a list whose first stands in place, so that a step that sends one takes
//! no memory for it. Both ends tell by it what they send.
//!
//! `specs/Sent.antt` says which list it is.
#![tactic(auto)]

ghost use Rattle.std.specs.Prelude.{◌≡◌, [], ◌∷◌, ◌++◌, OnOk, OnErr};
ghost use Rattle.std.specs.Option.{option_copied, option_to_list};
ghost use Rattle.send_list.specs.Sent.{sent_list};

use lb_base::items::Items;
use std::alloc::{AllocError, Global};
use std::marker::Model;
use std::mem;

/// Messages that are sent, in order. Contracts see their list.
pub struct SendList<T> {
    first: Option<T>,
    rest: Items<T>,
}

/// By hand, so that the crates above prove nothing of how the parts are dropped.
impl<T: Drop> Drop for SendList<T> {
    fn drop(self) {
        let SendList { first, rest } = self;
        drop(first);
        drop(rest);
    }
}

impl<T> Model for SendList<T> {
    ghost use Rattle.std.specs.Prelude.{◌≡◌, List, [], None};
    ghost use Rattle.send_list.specs.Sent.{sent_list};

    ghost Value = { List T };

    ghost view = { λ s. sent_list s.first s.rest };

    ghost invariant = { λ s. s.first ≡ None → s.rest ≡ [] };
}

impl<T> SendList<T> {
    /// No message. It takes no memory.
    pub fn none(alloc: Global) -> SendList<T>
        ensures { result ≡ [] }
    {
        SendList {
            first: None,
            rest: Items::new(alloc),
        }
    }

    /// One message. It takes no memory.
    pub fn one(alloc: Global, message: T) -> SendList<T>
        ensures { result ≡ message ∷ [] }
    {
        SendList {
            first: Some(message),
            rest: Items::new(alloc),
        }
    }

    /// The first message, if there is one, and those behind it.
    pub fn as_pair(&self) -> (Option<&T>, &[T])
        ensures { sent_list (option_copied result.0) result.1.now ≡ self.now }
    {
        (self.first.as_ref(), self.rest.as_slice())
    }

    /// The first message, if there is one, and those behind it. It takes no memory.
    pub fn into_parts(self) -> (Option<T>, Items<T>)
        ensures { sent_list result.0 result.1 ≡ self }
    {
        let SendList { first, rest } = self;
        (first, rest)
    }
}

impl<T: Drop> SendList<T> {
    /// One more message, behind the others. The one error is running out of memory, and changes
    /// nothing.
    pub fn push(&mut self, message: T) -> Result<(), AllocError>
        ensures ok { OnOk result (self.new ≡ self.old ++ message ∷ []) }
        ensures err { OnErr result (self.new ≡ self.old) }
    {
        if self.first.is_none() && self.rest.is_empty() {
            let old = self.first.replace(message);
            drop(old);
            return Ok(());
        }
        match self.rest.push(message) {
            Ok(()) => Ok(()),
            Err(failed) => {
                drop(failed);
                Err(AllocError)
            }
        }
    }
}

/// The item goes behind those that there are, if there is one.
fn add_first<T: Drop>(all: &mut Items<T>, first: Option<T>) -> Result<(), AllocError>
    ensures { OnOk result (all.new ≡ all.old ++ option_to_list first) }
{
    match first {
        None => Ok(()),
        Some(first) => {
            all.push(first)?;
            Ok(())
        }
    }
}

/// Items go behind those that there are. After an error some may be gone.
fn add_rest<T: Drop>(alloc: Global, all: &mut Items<T>, rest: Items<T>) -> Result<(), AllocError>
    ensures { OnOk result (all.new ≡ all.old ++ rest) }
{
    let mut items = mem::replace(all, Items::new(alloc)).into_vec();
    let mut more = rest.into_vec();
    items.append(&mut more)?;
    *all = Items::from_vec(items);
    Ok(())
}

/// The messages of a step go behind those that there are. The one error is running out of memory, and some of
/// them may be gone then.
pub fn append<T: Drop>(
    alloc: Global,
    all: &mut Items<T>,
    more: SendList<T>,
) -> Result<(), AllocError>
    ensures { OnOk result (all.new ≡ all.old ++ more) }
{
    let (first, rest) = more.into_parts();
    add_first(all, first)?;
    add_rest(alloc, all, rest)?;
    Ok(())
}
