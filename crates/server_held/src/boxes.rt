//! Boxes of messages in a slab, each beside its session's number, which says whose it is where its
//! place was another session's before. `specs/Boxes.antt` states what they hold.

ghost use Rattle.std.specs.Prelude.{◌≡◌, ◌≢◌, ℕ, List, [], ◌∷◌, ◌++◌, Some, None, IfSome, IfNone, OnOk, OnErr, IsTrue, false, ◌↔◌};
ghost use Rattle.slab.specs.Slab.{Slab, get};
ghost use Rattle.server_held.specs.Boxes.{AllEmpty, Holds, Lacks, IsUnique, KeepsOthers};
ghost use Rattle.server_held.specs.declared.boxes.Outbox.{Outbox};

use lb_base::items::Items;
use server_rules::sessions::is_of;
use slab::Slab;
use std::alloc::{AllocError, Global};
use std::mem;

/// The messages to a session that were not taken yet, in order.
pub struct Outbox<T> {
    pub session: u32,
    pub messages: Items<T>,
}

// By hand: docs/proving/dropping.md.
impl<T: Drop> Drop for Outbox<T> {
    fn drop(self) {
        let Outbox {
            session: _,
            messages,
        } = self;
        drop(messages);
    }
}

/// The key of a session's box.
pub fn key_of<T>(boxes: &Slab<Outbox<T>>, session: u32) -> Option<usize>
    ensures found { IfSome result (λ key. (messages : List T) × (get boxes.now key ≡ Some (record { session = session; messages = messages }))) }
    ensures none { IfNone result (Lacks boxes.now session) }
{
    for (key, one) in boxes.iter() {
        if is_of(one.session, session) {
            return Some(key);
        }
    }
    None
}

/// Whose box is under a key, where there is one.
pub fn owner_in<T>(boxes: &Slab<Outbox<T>>, key: usize) -> Option<u32>
    ensures some { (one : Outbox T) → get boxes.now key ≡ Some one → result ≡ Some one.session }
    ensures none { get boxes.now key ≡ None → result ≡ None }
{
    match boxes.get(key) {
        Some(one) => Some(one.session),
        None => None,
    }
}

/// Whether something is in the box under a key, where there is one.
pub fn is_full_in<T>(boxes: &Slab<Outbox<T>>, key: usize) -> bool
    ensures some { (one : Outbox T) → get boxes.now key ≡ Some one → IsTrue result ↔ ¬ (one.messages ≡ []) }
    ensures none { get boxes.now key ≡ None → result ≡ false }
{
    match boxes.get(key) {
        Some(one) => !one.messages.is_empty(),
        None => false,
    }
}

/// Whether nothing is in any box.
pub fn is_still_in<T>(boxes: &Slab<Outbox<T>>) -> bool
    ensures { IsTrue result ↔ AllEmpty boxes.now }
{
    for (_key, one) in boxes.iter() {
        if !one.messages.is_empty() {
            return false;
        }
    }
    true
}

/// Adds a message to the box under a key, where there is one. The one error is running out of
/// memory, and changes nothing.
fn put_at<T: Drop>(boxes: &mut Slab<Outbox<T>>, key: usize, message: T) -> Result<(), AllocError>
    ensures ok { (one : Outbox T) → get boxes.old key ≡ Some one → OnOk result (get boxes.new key ≡ Some (record one { messages = one.messages ++ message ∷ [] })) }
    ensures err { (one : Outbox T) → get boxes.old key ≡ Some one → OnErr result (get boxes.new key ≡ Some one) }
    ensures others { (other : ℕ) → other ≢ key → get boxes.new other ≡ get boxes.old other }
{
    match boxes.get_mut(key) {
        Some(one) => {
            one.messages.push(message)?;
            Ok(())
        }
        None => {
            drop(message);
            Ok(())
        }
    }
}

/// Takes all messages out of the box under a key, where there is one.
fn take_at<T: Drop>(alloc: Global, boxes: &mut Slab<Outbox<T>>, key: usize) -> Items<T>
    ensures taken { (one : Outbox T) → get boxes.old key ≡ Some one → (result ≡ one.messages) × (get boxes.new key ≡ Some (record one { messages = [] })) }
    ensures others { (other : ℕ) → other ≢ key → get boxes.new other ≡ get boxes.old other }
{
    let none = Items::new(alloc);
    match boxes.get_mut(key) {
        Some(one) => mem::replace(&mut one.messages, none),
        None => none,
    }
}

/// Takes away the box under a key, where there is one.
fn remove_at<T: Drop>(boxes: &mut Slab<Outbox<T>>, key: usize)
    ensures gone { get boxes.new key ≡ None }
    ensures others { (other : ℕ) → other ≢ key → get boxes.new other ≡ get boxes.old other }
{
    let gone = boxes.try_remove(key);
    drop(gone);
}

/// Adds a message at the end of a session's box; where it has none, the message goes.
pub fn put_in<T: Drop>(
    boxes: &mut Slab<Outbox<T>>,
    session: u32,
    message: T,
) -> Result<(), AllocError>
    requires { IsUnique boxes.old }
    ensures unique { IsUnique boxes.new }
    ensures put { (messages : List T) → Holds boxes.old session messages → OnOk result (Holds boxes.new session (messages ++ message ∷ [])) }
    ensures kept { (messages : List T) → Holds boxes.old session messages → OnErr result (Holds boxes.new session messages) }
    ensures none { Lacks boxes.old session → Lacks boxes.new session }
    ensures others { KeepsOthers boxes.old boxes.new session }
{
    match key_of(boxes, session) {
        Some(key) => put_at(boxes, key, message),
        None => {
            drop(message);
            Ok(())
        }
    }
}

/// All messages of a session's box, in order; the box is empty then.
pub fn take_in<T: Drop>(alloc: Global, boxes: &mut Slab<Outbox<T>>, session: u32) -> Items<T>
    requires { IsUnique boxes.old }
    ensures unique { IsUnique boxes.new }
    ensures taken { (messages : List T) → Holds boxes.old session messages → (result ≡ messages) × Holds boxes.new session [] }
    ensures none { Lacks boxes.old session → (result ≡ []) × Lacks boxes.new session }
    ensures others { KeepsOthers boxes.old boxes.new session }
{
    match key_of(boxes, session) {
        Some(key) => take_at(alloc, boxes, key),
        None => Items::new(alloc),
    }
}

/// Takes away a session's box, with all that is in it.
pub fn close_in<T: Drop>(boxes: &mut Slab<Outbox<T>>, session: u32)
    requires { IsUnique boxes.old }
    ensures unique { IsUnique boxes.new }
    ensures gone { Lacks boxes.new session }
    ensures others { KeepsOthers boxes.old boxes.new session }
{
    match key_of(boxes, session) {
        Some(key) => remove_at(boxes, key),
        None => {}
    }
}

/// Gives a session an empty box. The one error is running out of memory; the session has none then.
fn open_new<T: Drop>(
    alloc: Global,
    boxes: &mut Slab<Outbox<T>>,
    session: u32,
) -> Result<(), AllocError>
    requires unique { IsUnique boxes.old }
    requires none { Lacks boxes.old session }
    ensures unique { IsUnique boxes.new }
    ensures opened { OnOk result (Holds boxes.new session []) }
    ensures err { OnErr result (Lacks boxes.new session) }
    ensures others { KeepsOthers boxes.old boxes.new session }
{
    let one = Outbox {
        session,
        messages: Items::new(alloc),
    };
    boxes.insert(one)?;
    Ok(())
}

/// Gives a session an empty box, in place of one that it had. The one error is running out of
/// memory; the session has none then.
pub fn open_in<T: Drop>(
    alloc: Global,
    boxes: &mut Slab<Outbox<T>>,
    session: u32,
) -> Result<(), AllocError>
    requires { IsUnique boxes.old }
    ensures unique { IsUnique boxes.new }
    ensures opened { OnOk result (Holds boxes.new session []) }
    ensures err { OnErr result (Lacks boxes.new session) }
    ensures others { KeepsOthers boxes.old boxes.new session }
{
    close_in(boxes, session);
    open_new(alloc, boxes, session)
}
