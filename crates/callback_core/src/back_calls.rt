//! What a server asks for on its sessions' connections (`specs/BackCalls.antt`).

ghost use Rattle.std.specs.Prelude.{◌≡◌, [], ◌++◌, ◌∷◌, IfOk, OnOk, Option, find, filter, map, not, ◌==◌};
ghost use Rattle.std.specs.Option.{option_copied, option_map};
ghost use Rattle.wire.specs.declared.message.Side.TheVariants.{Server};
ghost use Rattle.wire.specs.declared.message.TheConstants.{LBFS_SERVED};
ghost use Rattle.callback_core.specs.BackCalls.{unasked, with_recall, recalled_if, recall_pending, is_at, call_at, waiting_at, xid_at, with_call, asks, asks_if, answered_by, answered, hung, is_spent};
ghost use Rattle.callback_core.specs.BackCalls.{spent};

use hash_calls::message::BackProc;
use lb_base::items::Items;
use lease_rules::change::Recall;
use lease_rules::xids::draw;
use std::alloc::{AllocError, Global};
use std::marker::Model;
use std::mem;
use wire::message::{LBFS_SERVED, Pending, Program, Side, Waiting};

/// That a session was asked for its lease on a file, by the RECALL with this xid.
#[derive(Clone, Copy)]
pub struct Asked {
    /// The session.
    pub session: u32,
    /// The id of the file.
    pub file: u64,
    /// The xid.
    pub xid: u32,
}

/// A session that was asked for something.
#[derive(Drop)]
struct BackCall {
    session: u32,
    /// The xid that was drawn last; 0 where none was.
    last: u32,
    /// What may come on its connection.
    waiting: Waiting,
    /// Whether it was to be asked once more, and had no xid left.
    spent: bool,
}

impl Model for BackCall {
    ghost use Rattle.std.specs.Prelude.{◌≡◌};
    ghost use Rattle.wire.specs.declared.message.Side.TheVariants.{Server};
    ghost use Rattle.wire.specs.declared.message.TheConstants.{LBFS_SERVED};
    ghost use Rattle.callback_core.specs.BackCalls.{BackCall as Seen};

    ghost Value = { Seen };

    ghost view = { λ c. record { session = c.session; last = c.last; waits = c.waiting.calls; spent = c.spent } };

    ghost invariant = { λ c. (c.waiting.side ≡ Server) × (c.waiting.lbfs ≡ LBFS_SERVED) };
}

impl BackCall {
    /// A session that was asked for nothing. It takes no memory.
    fn new(alloc: Global, session: u32) -> BackCall
        ensures { result ≡ unasked session }
    {
        BackCall {
            session,
            last: 0,
            waiting: no_calls(alloc),
            spent: false,
        }
    }

    /// Whether it is the session's.
    fn is_at(&self, session: u32) -> bool
        ensures { result ≡ is_at session self.now }
    {
        self.session == session
    }

    /// Whether it was to be asked for more than it has xids.
    fn is_spent(&self) -> bool
        ensures { result ≡ is_spent self.now }
    {
        self.spent
    }

    /// The same once more. The one error is running out of memory.
    fn try_clone(&self, alloc: Global) -> Result<BackCall, AllocError>
        ensures { IfOk result (λ copy. copy ≡ self.now) }
    {
        let calls = self.waiting.calls.try_clone(alloc)?;
        Ok(BackCall {
            session: self.session,
            last: self.last,
            waiting: Waiting {
                side: Side::Server,
                lbfs: LBFS_SERVED,
                calls,
            },
            spent: self.spent,
        })
    }

    /// A RECALL waits under this xid. The one error is running out of memory.
    fn wait(&mut self, xid: u32) -> Result<(), AllocError>
        ensures { OnOk result (self.new ≡ with_recall self.old xid) }
    {
        self.waiting.calls.push(Pending {
            xid,
            program: Program::Back(BackProc::Recall),
        })?;
        self.last = xid;
        Ok(())
    }

    /// A RECALL waits, if there is an xid for it. The one error is running out of memory.
    fn wait_if(&mut self, xid: Option<u32>) -> Result<(), AllocError>
        ensures { OnOk result (self.new ≡ recalled_if self.old xid) }
    {
        match xid {
            Some(xid) => self.wait(xid),
            None => {
                self.spent = true;
                Ok(())
            }
        }
    }

    /// An answer to the session's call with this xid came. It takes no memory.
    fn take_answer(&mut self, alloc: Global, session: u32, xid: u32)
        ensures { self.new ≡ answered_by session xid self.old }
    {
        if self.session == session {
            let calls = mem::replace(&mut self.waiting.calls, Items::new(alloc));
            self.waiting.calls = without_call(calls, xid);
        }
    }
}

/// What a server waits for where it asked for nothing. It takes no memory.
fn no_calls(alloc: Global) -> Waiting
    ensures { result ≡ record { side = Server; lbfs = LBFS_SERVED; calls = [] } }
{
    Waiting {
        side: Side::Server,
        lbfs: LBFS_SERVED,
        calls: Items::new(alloc),
    }
}

/// The calls with other xids. It takes no memory.
fn without_call(calls: Items<Pending>, xid: u32) -> Items<Pending>
    ensures { result ≡ filter (λ p. not (p.xid == xid)) calls }
{
    let mut left = calls.into_vec();
    left.retain(|call| call.xid != xid);
    Items::from_vec(left)
}

/// A session's, if it was asked for something.
fn find_call(calls: &[BackCall], session: u32) -> Option<&BackCall>
    ensures { option_copied result ≡ find (is_at session) calls.now }
{
    calls.iter().find(|call| call.is_at(session))
}

/// A copy of a session's. The one error is running out of memory.
fn call_at(alloc: Global, calls: &[BackCall], session: u32) -> Result<BackCall, AllocError>
    ensures { IfOk result (λ call. call ≡ call_at calls.now session) }
{
    match find_call(calls, session) {
        Some(call) => call.try_clone(alloc),
        None => Ok(BackCall::new(alloc, session)),
    }
}

/// The xid of a session's next call, if it has one left.
fn xid_at(calls: &[BackCall], session: u32) -> Option<u32>
    ensures { result ≡ xid_at calls.now session }
{
    match find_call(calls, session) {
        Some(call) => draw(call.last),
        None => draw(0),
    }
}

/// The same once more. The one error is running out of memory.
fn copy_of(alloc: Global, calls: &[BackCall]) -> Result<Vec<BackCall>, AllocError>
    ensures { IfOk result (λ copy. copy.items ≡ calls.now) }
{
    let mut copy = Vec::new(alloc);
    for call in calls {
        let call = call.try_clone(alloc)?;
        copy.push(call)?;
    }
    Ok(copy)
}

/// Nothing of the session is waited for. It takes no memory.
fn withdraw(calls: &mut Vec<BackCall>, session: u32)
    ensures { calls.new.items ≡ hung calls.old.items session }
{
    calls.retain(|call| !call.is_at(session));
}

/// A session is asked for a lease under this xid, if there is one for it. The one error is running
/// out of memory.
fn ask_one(
    alloc: Global,
    calls: &mut Vec<BackCall>,
    session: u32,
    xid: Option<u32>,
) -> Result<(), AllocError>
    ensures { OnOk result (calls.new.items ≡ asks_if calls.old.items session xid) }
{
    let mut call = call_at(alloc, calls, session)?;
    call.wait_if(xid)?;
    withdraw(calls, session);
    calls.push(call)?;
    Ok(())
}

/// Sessions are asked for leases, one after the other; which were, under which xids. The one error
/// is running out of memory.
fn ask_each(
    alloc: Global,
    calls: &mut Vec<BackCall>,
    recalls: &[Recall],
) -> Result<Items<Asked>, AllocError>
    ensures calls { OnOk result (calls.new.items ≡ (asks calls.old.items recalls.now).0) }
    ensures asked { IfOk result (λ asked. asked ≡ (asks calls.old.items recalls.now).1) }
{
    let mut asked = Vec::new(alloc);
    for recall in recalls {
        let Recall { session, file } = *recall;
        let xid = xid_at(calls, session);
        ask_one(alloc, calls, session, xid)?;
        if let Some(xid) = xid {
            asked.push(Asked { session, file, xid })?;
        }
    }
    Ok(Items::from_vec(asked))
}

/// What a server asked for on its sessions' connections. Contracts see a list, with one of each
/// session that was asked for something and isn't hung.
#[derive(Drop)]
pub struct BackCalls {
    calls: Vec<BackCall>,
    /// What waits where nothing was asked for.
    none: Waiting,
}

impl Model for BackCalls {
    ghost use Rattle.std.specs.Prelude.{◌≡◌, List, []};
    ghost use Rattle.wire.specs.declared.message.Side.TheVariants.{Server};
    ghost use Rattle.wire.specs.declared.message.TheConstants.{LBFS_SERVED};
    ghost use Rattle.callback_core.specs.BackCalls.{BackCall as Seen};

    ghost Value = { List Seen };

    ghost view = { λ b. b.calls.items };

    ghost invariant = { λ b. b.none ≡ record { side = Server; lbfs = LBFS_SERVED; calls = [] } };
}

/// What RECALLs come to, before any is sent.
#[derive(Drop)]
pub struct Asking {
    /// What was asked for then.
    pub calls: BackCalls,
    /// The sessions that are asked, and the xids.
    pub asked: Items<Asked>,
}

impl BackCalls {
    /// Nothing was asked for. It takes no memory.
    pub fn new(alloc: Global) -> BackCalls
        ensures { result ≡ [] }
    {
        BackCalls {
            calls: Vec::new(alloc),
            none: no_calls(alloc),
        }
    }

    /// What comes to be asked for where these leases are recalled, one after the other, each under
    /// the next xid of its session; one whose session has none left is passed over. Nothing
    /// changes: who asks takes `calls` in the place of these once nothing can fail any more. The one
    /// error is running out of memory.
    pub fn ask(&self, alloc: Global, recalls: &[Recall]) -> Result<Asking, AllocError>
        ensures calls { IfOk result (λ a. a.calls ≡ (asks self.now recalls.now).0) }
        ensures asked { IfOk result (λ a. a.asked ≡ (asks self.now recalls.now).1) }
    {
        let mut calls = copy_of(alloc, &self.calls)?;
        let asked = ask_each(alloc, &mut calls, recalls)?;
        Ok(Asking {
            calls: BackCalls {
                calls,
                none: no_calls(alloc),
            },
            asked,
        })
    }

    /// An answer to the session's call with this xid came, whatever it says: it is waited for no
    /// longer. It takes no memory.
    pub fn answered(&mut self, alloc: Global, session: u32, xid: u32)
        ensures { self.new ≡ answered self.old session xid }
    {
        for call in self.calls.iter_mut() {
            call.take_answer(alloc, session, xid);
        }
    }

    /// A session is hung: none of its calls is waited for. It takes no memory.
    pub fn hang(&mut self, session: u32)
        ensures { self.new ≡ hung self.old session }
    {
        withdraw(&mut self.calls, session);
    }

    /// What may come on a session's connection. It takes no memory.
    pub fn waiting(&self, session: u32) -> &Waiting
        ensures { result.now ≡ waiting_at self.now session }
    {
        match find_call(&self.calls, session) {
            Some(call) => &call.waiting,
            None => &self.none,
        }
    }

    /// A session that was to be asked for more than it has xids, if there is one. It takes no memory.
    pub fn spent(&self) -> Option<u32>
        ensures { result ≡ spent self.now }
    {
        let call = self.calls.iter().find(|call| call.is_spent())?;
        Some(call.session)
    }
}
