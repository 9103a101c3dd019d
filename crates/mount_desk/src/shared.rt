//! The turns of a mount: each locks what its threads share, and is one call of `Turns`. What a call makes is
//! proved of `Desk`. Another thread's turn may stand before and behind each, so a clause says that of some two
//! desks the one was made of the other by just this call. That no others are taken is a fact of `KeptDesk`,
//! which no lock hides.
//!
//! A connection's thread takes the turns of `Shared`. Lines run and connections are joined by `ScriptTurns`
//! alone, which the mount's farewell takes away: so the client takes no line behind that.

ghost use Rattle.std.specs.Prelude.{◌≡◌};

use crate::answer_line::AnswerLine;
use crate::desk::Left;
use crate::turns::Turns;
use cut_bytes::CutBytes;
use lbfs_client::line::MountLine;
use record_ends::end::End;
use shared_bytes::SharedBytes;
use std::alloc::{AllocError, Global};
use std::sync::{Condvar, Mutex, Wait};

/// What the threads of a mount share, and by what the script is woken that waits for a line.
pub struct Shared<D> {
    desk: Mutex<D>,
    /// A line ended, or memory ran out.
    news: Condvar,
    alloc: Global,
}

impl<D: Turns + Drop> Shared<D> {
    /// What a mount's threads share. It takes no memory.
    pub fn new(alloc: Global, desk: D) -> Shared<D>
        ensures { result.alloc ≡ alloc }
    {
        Shared {
            desk: Mutex::new(desk),
            news: Condvar::new(),
            alloc,
        }
    }

    /// The allocator.
    pub fn alloc(&self) -> Global
        ensures { result ≡ self.now.alloc }
    {
        self.alloc
    }

    /// What was shared, once no thread does any more.
    pub fn into_desk(self) -> D {
        let Shared {
            desk,
            news,
            alloc: _,
        } = self;
        drop(news);
        desk.into_inner()
    }

    /// A turn of a record that came on a connection, behind which more are there or not. It answers whether
    /// more may come there.
    pub fn hear<W: Wait>(&self, rt: &W, connection: u64, bytes: &[u8], more: bool, now: u64) -> bool
        ensures { (a : D.Desk) × (b : D.Desk) × D.hears a connection bytes.now more now result b }
    {
        let mut desk = self.desk.lock(rt);
        let goes_on = desk.hear(self.alloc, connection, bytes, more, now);
        let wakes = desk.wakes();
        drop(desk);
        // Whoever waits for a line isn't woken by each of the records that come before it.
        if wakes {
            self.news.notify_all();
        }
        goes_on
    }

    /// A turn in which a connection's records have ended.
    pub fn stop<W: Wait>(&self, rt: &W, connection: u64, end: End, now: u64)
        ensures { (a : D.Desk) × (b : D.Desk) × D.stops a connection end now b }
    {
        self.desk.lock(rt).stop(self.alloc, connection, end, now);
        self.news.notify_all();
    }
}

/// The turns of the thread that runs the script. It can't be dropped, but by the last of them: so each mount
/// gives a farewell.
pub struct ScriptTurns<'e, D> {
    shared: &'e Shared<D>,
}

impl<'e, D: Turns + Drop> ScriptTurns<'e, D> {
    /// The turns of a mount's script. A mount makes them once.
    pub fn new(shared: &'e Shared<D>) -> ScriptTurns<'e, D>
        ensures { result.shared.now ≡ shared.now }
    {
        ScriptTurns { shared }
    }

    /// What the thread of a connection shares.
    pub fn shared(&self) -> &'e Shared<D>
        ensures { result.now ≡ self.now.shared.now }
    {
        self.shared
    }

    /// The allocator.
    pub fn alloc(&self) -> Global
        ensures { result ≡ self.now.shared.now.alloc }
    {
        self.shared.alloc
    }

    /// A turn in which a line begins. It answers whether a connection is to be joined for it, and the bytes with
    /// which it waits to go on, if it does.
    pub fn run<W: Wait>(&self, rt: &W, line: MountLine, now: u64) -> (bool, Option<SharedBytes>)
        ensures { (a : D.Desk) × (b : D.Desk) × D.runs a line now result.0 b }
    {
        let mut desk = self.shared.desk.lock(rt);
        let wants = desk.run(self.shared.alloc, line, now);
        let bytes = desk.read_bytes();
        drop(desk);
        (wants, bytes)
    }

    /// A turn in which a line that waits goes on, with what was found of its bytes ahead, if anything was.
    pub fn go_on<W: Wait>(&self, rt: &W, found: Option<CutBytes>, now: u64)
        ensures { (a : D.Desk) × (b : D.Desk) × D.continues a now b }
    {
        self.shared
            .desk
            .lock(rt)
            .go_on(self.shared.alloc, found, now);
    }

    /// A turn that takes the line of what ended, once there is one. What comes of a file until then is lent and
    /// hashed meanwhile. The error says that memory ran out.
    pub fn await_line<W: Wait>(&self, rt: &W) -> Result<AnswerLine, AllocError>
        ensures { (a : D.Desk) × (b : D.Desk) × D.takes a result b }
    {
        let mut hashed = None;
        for _turn in rt.forever() {
            let mut desk = self.shared.desk.lock(rt);
            if desk.has_news() {
                return desk.take_line();
            }
            let lent = desk.lend(self.shared.alloc, hashed.take());
            match lent {
                Some(mut lent) => {
                    drop(desk);
                    lent.hash();
                    hashed = Some(lent);
                }
                None => drop(self.shared.news.wait(rt, desk)),
            }
        }
        unreachable!()
    }

    /// A turn in which a connection is joined, on this link. It answers the connection's number.
    pub fn join<W: Wait>(&self, rt: &W, link: D::L, now: u64) -> u64
        ensures { (a : D.Desk) × (b : D.Desk) × D.joins a link now result b }
    {
        self.shared.desk.lock(rt).join(self.shared.alloc, link, now)
    }

    /// The last turn of a mount: its farewell goes out where a link stands, and the link is shut, so that no
    /// more records come. No line runs behind it, and so none opens by the note of a lease that was given up.
    pub fn leave<W: Wait>(self, rt: &W) -> Left
        ensures { (a : D.Desk) × (b : D.Desk) × D.leaves a result b }
    {
        let ScriptTurns { shared } = self;
        shared.desk.lock(rt).leave(shared.alloc)
    }
}
