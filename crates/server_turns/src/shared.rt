//! The turns of a server: each takes what the threads share, and changes it by calls of `Turns`. Another
//! thread's may stand before and behind it; so a clause says that in some turn behind what the pass had seen a
//! value did just that (`InTurn`).

ghost use Rattle.std.specs.Prelude.{◌≡◌, true, nat_le, ◌<◌, ◌^◌, [], ◌∷◌, length, All, Contains, OnOk, IfOk, IfSome};
ghost use Rattle.std.specs.List.Sorted.{IsPermutation};
ghost use Rattle.server_turns.specs.Telling.{any_tells};
ghost use Rattle.server_turns.specs.Turned.{InTurn, IsAnswered, IsConnected, IsHung, IsSettled, IsTaken};
ghost use Rattle.server_turns.specs.declared.shared.SessionLink.{SessionLink};
ghost use Rattle.server_core.specs.Step.{IsTimed};
ghost use Rattle.server_held.specs.Held.{server_waits};
ghost use Rattle.wire.specs.Parse.{parse_of, IsParsed};
ghost use Rattle.turn_post.specs.Passes.{IsPassOf, Follows, seen};
ghost use mathlib.Core.List.{IsPrefix};

use crate::bells::{Bells, PLACES};
use crate::gate::{Gate, Who};
use crate::inside::{
    Behind, Got, Happened, Prepared, Settled, any_waits, behind_in, commit_in, event_in, gone,
    got_in, is_owed, quiet_bell, settles_from, taken_in,
};
use crate::outgoing::{Sure, Taken};
use lb_base::source::Failed;
use links::link::Link;
use server_core::event::Event;
use server_held::held::{Went, read_record};
use server_held::turns::Turns;
use std::alloc::Global;
use std::sync::atomic::{AtomicBool, Ordering};
use std::sync::{Mutex, Wait};
use std::thread::Threads;
use synced_store::syncs::Syncs;
use tree_nodes::content::Content;
use turn_post::post::{Pass, Post};
use wire::fault::WireError;
use wire::message::Message;

/// What the threads of a server share, and by what those are woken that have nothing to say.
pub struct Shared<H: Turns, Y, G, L> {
    post: Post<H>,
    /// What makes the store sure, beside its turns.
    syncs: Y,
    /// Whether it couldn't once.
    in_doubt: AtomicBool,
    /// The reading before which no change that waits is made.
    quiet: u64,
    /// Rung where something was put into a box that another thread has to take out, or its session went.
    bells: Bells,
    /// A link of each session that has threads, by which whoever hangs it shuts it.
    links: Mutex<Vec<SessionLink<L>>>,
    gate: G,
    alloc: Global,
}

// By hand: docs/proving/dropping.md.
impl<H: Turns + Drop, Y: Drop, G: Drop, L: Drop> Drop for Shared<H, Y, G, L> {
    fn drop(self) {
        let Shared {
            post,
            syncs,
            in_doubt: _,
            quiet: _,
            bells,
            links,
            gate,
            alloc: _,
        } = self;
        drop(post);
        drop(syncs);
        drop(bells);
        drop(links);
        drop(gate);
    }
}

/// A further link to a session's client, on which nothing is taken and nothing given.
#[derive(Drop)]
struct SessionLink<L> {
    session: u32,
    link: L,
}

/// Lets a session's link go, where there is one; all others stay. A session's link is kept once
/// (`keep_link`), and its number is no later session's, so there is no second one.
fn remove_link<L: Drop>(links: &mut Vec<SessionLink<L>>, session: u32)
    ensures gone { (one : SessionLink L) → Contains links.old.items one → one.session ≡ session
        → (gone : SessionLink L) × (gone.session ≡ session)
        × IsPermutation links.old.items (gone ∷ links.new.items) }
    ensures none { All (λ one. ¬ (one.session ≡ session)) links.old.items → links.new.items ≡ links.old.items }
{
    let mut at = 0;
    while at < links.len() && links[at].session != session {
        at += 1;
    }
    if at < links.len() {
        drop(links.swap_remove(at));
    }
}

impl<H: Turns + Drop, Y: Syncs, G: Gate + Drop, L: Link + Drop> Shared<H, Y, G, L> {
    /// What a server's threads share; before the reading `quiet` no change that waits is made. It takes no
    /// memory.
    pub fn new(alloc: Global, post: Post<H>, syncs: Y, gate: G, quiet: u64) -> Shared<H, Y, G, L>
        ensures post { result.post ≡ post }
        ensures quiet { result.quiet ≡ quiet }
    {
        Shared {
            post,
            syncs,
            in_doubt: AtomicBool::new(false),
            quiet,
            bells: Bells::new(),
            links: Mutex::new(Vec::new(alloc)),
            gate,
            alloc,
        }
    }

    /// The allocator.
    pub fn alloc(&self) -> Global {
        self.alloc
    }

    /// Two passes in place of one, for a thread more.
    pub fn split(&self, pass: Pass<H>) -> (Pass<H>, Pass<H>)
        requires { IsPassOf self.now.post pass }
        ensures { Follows self.now.post pass result.0 × Follows self.now.post pass result.1 }
    {
        self.post.split(pass)
    }

    /// The last turn: how long the journal is that the pass has seen by it, and what was shared.
    pub fn finish<W: Wait>(&self, rt: &W, pass: Pass<H>) -> (u64, H)
        requires { IsPassOf self.now.post pass }
        ensures front { result.0 ≡ length (H.journal result.1) }
        ensures seen { IsPrefix (seen pass) (H.journal result.1) }
    {
        let mut turn = self.post.enter(rt, pass);
        let front = turn.value().count();
        (front, turn.finish())
    }

    /// A turn of one event.
    pub fn event<W: Wait>(&self, rt: &W, pass: Pass<H>, event: Event) -> (Pass<H>, Went)
        requires pass { IsPassOf self.now.post pass }
        requires timed { IsTimed event }
        ensures follows { Follows self.now.post pass result.0 }
        ensures did { InTurn H.journal (λ found left. H.does found event result.1 left) pass result.0 }
    {
        self.gate.before(Who::of(&event));
        let mut turn = self.post.enter(rt, pass);
        let happened = event_in(turn.value(), self.alloc, event);
        let pass = turn.leave();
        let Happened { went, wakes, waits } = happened;
        let pass = self.wake(rt, pass, went, wakes);
        self.tell_ticker(waits);
        self.gate.after();
        (pass, went)
    }

    /// A turn in which a connection is made.
    pub fn connect<W: Wait>(&self, rt: &W, pass: Pass<H>) -> (Pass<H>, Went)
        requires { IsPassOf self.now.post pass }
        ensures follows { Follows self.now.post pass result.0 }
        ensures did { IsConnected H.journal H.does result.1 pass result.0 }
    {
        self.event(rt, pass, Event::Connect)
    }

    /// A turn that hangs a session.
    pub fn hang<W: Wait>(&self, rt: &W, pass: Pass<H>, session: u32) -> Pass<H>
        requires { IsPassOf self.now.post pass }
        ensures follows { Follows self.now.post pass result }
        ensures hung { IsHung H.journal H.does session pass result }
    {
        let (next, _went) = self.event(rt, pass, Event::Hang { session });
        next
    }

    /// A turn in which a pending change is made, if one can be; the answer is whether it could.
    pub fn make_one<W: Wait>(&self, rt: &W, pass: Pass<H>, now: u64) -> (Pass<H>, bool)
        requires pass { IsPassOf self.now.post pass }
        requires timed { now < 2 ^ 63 }
        ensures follows { Follows self.now.post pass result.0 }
        ensures did { IsSettled H.journal H.does now pass result.0 }
    {
        let (next, went) = self.event(rt, pass, Event::Settle { now });
        (next, !matches!(went, Went::NotReady))
    }

    /// What is made of a record before its turn: the content that its COMMITTMP comes to, cut and
    /// hashed while others take their turns; none where its temporary file has no such content, or
    /// memory runs out. The turn comes to the same without it.
    fn ahead<W: Threads + Wait>(
        &self,
        rt: &W,
        pass: Pass<H>,
        session: u32,
        read: &Result<Message, WireError>,
    ) -> (Pass<H>, Option<Content>)
        requires { IsPassOf self.now.post pass }
        ensures { Follows self.now.post pass result.0 }
    {
        let Some(commit) = commit_in(read) else {
            return (pass, None);
        };
        let mut turn = self.post.enter(rt, pass);
        let bytes = turn.value().share_temp(session, commit);
        let pass = turn.leave();
        let Some(bytes) = bytes else {
            return (pass, None);
        };
        match Content::ahead(rt, self.alloc, bytes) {
            Ok(content) => (pass, Some(content)),
            Err(_) => (pass, None),
        }
    }

    /// Reads a record of a session, before its turn. That may take long, so no link of the session is to
    /// be held meanwhile.
    pub fn read<W: Threads + Wait>(
        &self,
        rt: &W,
        pass: Pass<H>,
        session: u32,
        bytes: &[u8],
    ) -> (Pass<H>, Prepared)
        requires { IsPassOf self.now.post pass }
        ensures follows { Follows self.now.post pass result.0 }
        ensures parsed { IsParsed result.1.read (parse_of server_waits bytes.now) }
    {
        let read = read_record(self.alloc, bytes);
        let (pass, ahead) = self.ahead(rt, pass, session, &read);
        (pass, Prepared { read, ahead })
    }

    /// The turn of a record of a session that was read before. Where a change of the session waits then, or
    /// the record was an answer, which may have given a lease up, one that waits is made in a turn behind
    /// it, if it may be; and what there is to say to the session is taken. The link is the one on which it
    /// goes out: whoever takes holds it, so that what is taken first goes out first.
    pub fn got<W: Wait>(
        &self,
        rt: &W,
        pass: Pass<H>,
        session: u32,
        bytes: &[u8],
        prepared: Prepared,
        now: u64,
        _link: &L,
    ) -> (Pass<H>, Taken)
        requires pass { IsPassOf self.now.post pass }
        requires timed { now < 2 ^ 63 }
        ensures follows { Follows self.now.post pass result.0 }
        ensures answered { IsParsed prepared.read (parse_of server_waits bytes.now) → IsAnswered H.journal H.hears H.gives session now bytes.now result.1.messages.items pass result.0 }
    {
        self.gate.before(Who::Reader(session));
        let mut turn = self.post.enter(rt, pass);
        let got = got_in(turn.value(), self.alloc, session, bytes, prepared, now);
        let pass = turn.leave();
        let Got {
            heard,
            wakes,
            answer,
        } = got;
        let pass = self.wake(rt, pass, heard, wakes);
        self.gate.after();
        match answer {
            Some(answer) => (pass, answer),
            None => self.settle(rt, pass, session, now),
        }
    }

    /// A turn in which a pending change is made, if it may be; what there is to say to a session is
    /// taken.
    fn settle<W: Wait>(&self, rt: &W, pass: Pass<H>, session: u32, now: u64) -> (Pass<H>, Taken)
        requires pass { IsPassOf self.now.post pass }
        requires timed { now < 2 ^ 63 }
        ensures follows { Follows self.now.post pass result.0 }
        ensures took { IsTaken H.journal H.gives session result.1.messages.items pass result.0 }
    {
        self.gate.before(Who::Reader(session));
        let mut turn = self.post.enter(rt, pass);
        let behind = behind_in(turn.value(), self.alloc, self.quiet, session, now);
        let pass = turn.leave();
        let Behind {
            settled,
            taken,
            said,
            waits,
        } = behind;
        let went = settled.went;
        let pass = self.wake(rt, pass, went, gone(went, 0) | said);
        self.tell_ticker(waits);
        self.gate.after();
        let pass = self.close_spent(rt, pass, settled);
        (pass, taken)
    }

    /// Ends the session that was to be asked for something and has no xid left, if there is one, and others as
    /// it. Their leases stay until they end.
    fn close_spent<W: Wait>(&self, rt: &W, pass: Pass<H>, settled: Settled) -> Pass<H>
        requires { IsPassOf self.now.post pass }
        ensures follows { Follows self.now.post pass result }
        ensures hung { IfSome settled.spent (λ session. IsHung H.journal H.does session pass result) }
    {
        let Settled { went: _, spent } = settled;
        match spent {
            Some(session) => self.hang_on(rt, pass, session),
            None => pass,
        }
    }

    /// Hangs a session that has no xid left, and then each other one.
    fn hang_on<W: Wait>(&self, rt: &W, pass: Pass<H>, session: u32) -> Pass<H>
        requires { IsPassOf self.now.post pass }
        ensures follows { Follows self.now.post pass result }
        ensures hung { IsHung H.journal H.does session pass result }
    {
        let (pass, spent) = self.hang_spent(rt, pass, session);
        self.hang_others(rt, pass, spent)
    }

    /// Hangs the sessions that have no xid left, from this one on.
    fn hang_others<W: Wait>(&self, rt: &W, pass: Pass<H>, spent: Option<u32>) -> Pass<H>
        requires { IsPassOf self.now.post pass }
        ensures { Follows self.now.post pass result }
    {
        let mut pass = pass;
        let mut spent = spent;
        for _at in 0..PLACES {
            let Some(session) = spent else {
                return pass;
            };
            let (next, later) = self.hang_spent(rt, pass, session);
            pass = next;
            spent = later;
        }
        pass
    }

    /// Hangs a session, and looks for one that has no xid left.
    fn hang_spent<W: Wait>(&self, rt: &W, pass: Pass<H>, session: u32) -> (Pass<H>, Option<u32>)
        requires { IsPassOf self.now.post pass }
        ensures follows { Follows self.now.post pass result.0 }
        ensures hung { IsHung H.journal H.does session pass result.0 }
    {
        let next = self.hang(rt, pass, session);
        self.spent_now(rt, next)
    }

    /// Shuts the links of the sessions that are gone, and looks for one that has no xid left.
    fn spent_now<W: Wait>(&self, rt: &W, pass: Pass<H>) -> (Pass<H>, Option<u32>)
        requires { IsPassOf self.now.post pass }
        ensures { Follows self.now.post pass result.0 }
    {
        let pass = self.shut_links(rt, pass);
        let mut turn = self.post.enter(rt, pass);
        let spent = turn.value().spent();
        (turn.leave(), spent)
    }

    /// Whether changes that wait are made at this reading.
    pub fn settles(&self, now: u64) -> bool
        ensures { result ≡ nat_le self.now.quiet now }
    {
        settles_from(self.quiet, now)
    }

    /// A turn that looks whether a change waits.
    pub fn waits<W: Wait>(&self, rt: &W, pass: Pass<H>) -> (Pass<H>, bool)
        requires { IsPassOf self.now.post pass }
        ensures { Follows self.now.post pass result.0 }
    {
        self.gate.before(Who::Ticker);
        let mut turn = self.post.enter(rt, pass);
        let waits = any_waits(&*turn.value());
        let pass = turn.leave();
        self.gate.after();
        (pass, waits)
    }

    /// Rings the ticker's bell, where it has to look.
    pub fn tell_ticker(&self, looks: bool) {
        if looks {
            self.bells.ring_ticker();
        }
    }

    /// How often the ticker's bell was rung.
    pub fn ticks(&self) -> u64 {
        self.bells.ticks()
    }

    /// Sleeps until the ticker's bell is rung, where it has been rung so often alone.
    pub fn await_tick<W: Wait>(&self, rt: &W, ticks: u64) {
        self.gate.sleeps(Who::Ticker);
        self.bells.wait_tick(rt, ticks);
    }

    /// A turn that takes what there is to say to a session, for whoever holds the link on which it goes out.
    pub fn take_out<W: Wait>(
        &self,
        rt: &W,
        pass: Pass<H>,
        session: u32,
        _link: &L,
    ) -> (Pass<H>, Taken)
        requires { IsPassOf self.now.post pass }
        ensures follows { Follows self.now.post pass result.0 }
        ensures took { IsTaken H.journal H.gives session result.1.messages.items pass result.0 }
    {
        self.gate.before(Who::Writer(session));
        let mut turn = self.post.enter(rt, pass);
        let taken = taken_in(turn.value(), session);
        let pass = turn.leave();
        self.gate.after();
        (pass, taken)
    }

    /// What was taken may go out, once the store is sure of what was made before. Where it can't be,
    /// nothing is to go out on any link any more (`is_in_doubt`), not even nothing: a link ends by that.
    pub fn sync_taken<W: Wait>(&self, rt: &W, taken: Taken) -> Result<Sure, Failed>
        ensures sure { OnOk result (any_tells taken.messages.items ≡ true → Y.is_sure self.now.syncs) }
        ensures same { IfOk result (λ sure. (sure.messages ≡ taken.messages) × (sure.stands ≡ taken.stands)) }
    {
        if self.is_in_doubt() {
            drop(taken);
            return Err(Failed);
        }
        let settled = taken.sync(rt, &self.syncs);
        if settled.is_err() {
            self.note_doubt();
        }
        settled
    }

    /// The store is in doubt. Whoever sleeps is woken, since it has to end.
    fn note_doubt(&self) {
        self.in_doubt.store(true, Ordering::SeqCst);
        self.bells.ring(u64::MAX);
        self.tell_ticker(true);
    }

    /// Whether the store is in doubt.
    pub fn is_in_doubt(&self) -> bool {
        self.in_doubt.load(Ordering::SeqCst)
    }

    /// Waits until there is something to say to a session, or it is gone, or the store is in doubt. Another
    /// may have taken it by then.
    pub fn await_said<W: Wait>(&self, rt: &W, pass: Pass<H>, session: u32) -> Pass<H>
        requires { IsPassOf self.now.post pass }
        ensures { Follows self.now.post pass result }
    {
        let mut pass = pass;
        for _turn in rt.forever() {
            self.gate.before(Who::Writer(session));
            let mut turn = self.post.enter(rt, pass);
            let quiet = quiet_bell(&self.bells, &*turn.value(), session);
            pass = turn.leave();
            self.gate.after();
            let Some(rung) = quiet else {
                return pass;
            };
            // Looked at behind the count: a doubt that comes later rings.
            if self.is_in_doubt() {
                return pass;
            }
            self.gate.sleeps(Who::Writer(session));
            self.bells.wait(rt, rung);
        }
        unreachable!()
    }

    /// A turn that looks whether something is to be said to a session, or will be once a change of it is
    /// made.
    pub fn owes<W: Wait>(&self, rt: &W, pass: Pass<H>, session: u32) -> (Pass<H>, bool)
        requires { IsPassOf self.now.post pass }
        ensures { Follows self.now.post pass result.0 }
    {
        let mut turn = self.post.enter(rt, pass);
        let owed = is_owed(&*turn.value(), session);
        (turn.leave(), owed)
    }

    /// Wakes the threads of these places that have nothing to say: now they have, or their session went.
    /// Where memory ran out, another thread's session may have been hung: its link is shut, so
    /// that its threads come back that wait there.
    fn wake<W: Wait>(&self, rt: &W, pass: Pass<H>, went: Went, places: u64) -> Pass<H>
        requires { IsPassOf self.now.post pass }
        ensures { Follows self.now.post pass result }
    {
        self.bells.ring(places);
        if matches!(went, Went::Memory) {
            return self.shut_links(rt, pass);
        }
        pass
    }

    /// Keeps a link of a session's client, by which the session can be shut. Where memory runs out
    /// for it none is kept.
    pub fn keep_link<W: Wait>(&self, rt: &W, session: u32, link: L) {
        let mut links = self.links.lock(rt);
        let kept = links.push(SessionLink { session, link });
        drop(kept);
    }

    /// Lets the link of a session's client go.
    pub fn drop_link<W: Wait>(&self, rt: &W, session: u32) {
        let mut links = self.links.lock(rt);
        remove_link(&mut *links, session);
    }

    /// Shuts the links of all sessions.
    pub fn shut_all<W: Wait>(&self, rt: &W) {
        let mut links = self.links.lock(rt);
        for one in links.iter_mut() {
            one.link.shut();
        }
    }

    /// Whether a session stands.
    fn stands<W: Wait>(&self, rt: &W, pass: Pass<H>, session: u32) -> (Pass<H>, bool)
        requires { IsPassOf self.now.post pass }
        ensures { Follows self.now.post pass result.0 }
    {
        let mut turn = self.post.enter(rt, pass);
        let stands = turn.value().place(session).is_some();
        (turn.leave(), stands)
    }

    /// Shuts the links of the sessions that don't stand any more.
    pub fn shut_links<W: Wait>(&self, rt: &W, pass: Pass<H>) -> Pass<H>
        requires { IsPassOf self.now.post pass }
        ensures { Follows self.now.post pass result }
    {
        let mut pass = pass;
        let mut links = self.links.lock(rt);
        for one in links.iter_mut() {
            let (next, stands) = self.stands(rt, pass, one.session);
            pass = next;
            if !stands {
                one.link.shut();
            }
        }
        pass
    }
}
