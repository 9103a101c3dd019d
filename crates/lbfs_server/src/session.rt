//! What the threads of a session do: one takes records off its link, another puts out what there is
//! to say. Where there is one thread alone, it does both in turn.

ghost use Rattle.std.specs.Prelude.{◌≡◌, ◌⊎◌, ◌<◌, ◌≤◌, ◌^◌, List, Bool, IsTrue, true, false};
ghost use Rattle.std.specs.Io.KnownBytes.{IsAtEnd};
ghost use Rattle.lb_base.specs.Causes.{Rose};
ghost use Rattle.record_ends.specs.Ends.{out_bytes};
ghost use Rattle.record_ends.specs.declared.end.End.TheVariants as ends;
ghost use Rattle.lbfs_server.specs.Ends.{IsSpoilt};
ghost use Rattle.lbfs_server.specs.Given.{Given, GivesTaken, Goes};
ghost use Rattle.lbfs_server.specs.Heard.{AnswersRecord, HearsToEnd, HearsThenHung};
ghost use Rattle.server_held.specs.Held.{server_waits};
ghost use Rattle.server_turns.specs.Turned.{IsAnswered, IsHung, IsTaken};
ghost use Rattle.turn_post.specs.Passes.{IsPassOf, Follows};
ghost use Rattle.wire.specs.Parse.{parse_of, IsParsed};
ghost use Rattle.wire.specs.declared.message.Message.{Message};

use lb_base::source::Failed;
use links::clock::Clock;
use links::link::Link;
use record_ends::end::End;
use record_ends::inbox::Inbox;
use record_ends::outgoing::put_out;
use server_held::turns::Turns;
use server_turns::gate::Gate;
use server_turns::inside::Prepared;
use server_turns::outgoing::{Sure, Taken};
use server_turns::shared::Shared;
use std::alloc::Global;
use std::sync::{Mutex, Wait};
use std::thread::Threads;
use synced_store::syncs::Syncs;
use turn_post::post::Pass;

/// Gives a link what may go out to a session, and answers whether more may follow: then the link was given
/// the bytes of all messages, in order, and else a front of them.
fn give<L: Link>(alloc: Global, link: &mut L, sure: &Sure) -> bool
    ensures given { Given result (L.held link.old) (L.held link.new) (out_bytes sure.now.messages.items) }
    ensures stands { IsTrue result → IsTrue sure.now.stands }
    ensures come { L.left link.new ≡ L.left link.old }
    ensures later { L.faults link.old ≤ L.faults link.new }
{
    match put_out(alloc, link, sure.messages()) {
        Ok(()) => sure.stands(),
        Err(_) => false,
    }
}

/// Gives a link what was taken for a session, once the store is sure of what was made before, and
/// answers whether more may follow: then the link was given the bytes of all messages, in order, and
/// else a front of them. Where none may follow it shuts the link.
fn give_out<W: Wait, H: Turns + Drop, Y: Syncs, G: Gate + Drop, L: Link + Drop>(
    rt: &W,
    shared: &Shared<H, Y, G, L>,
    link: &mut L,
    taken: Taken,
) -> bool
    ensures given { Given result (L.held link.old) (L.held link.new) (out_bytes taken.messages.items) }
    ensures stands { IsTrue result → IsTrue taken.stands }
    ensures come { L.left link.new ≡ L.left link.old }
    ensures later { L.faults link.old ≤ L.faults link.new }
{
    match shared.sync_taken(rt, taken) {
        Ok(sure) => {
            let follows = give(shared.alloc(), link, &sure);
            if !follows {
                link.shut();
            }
            follows
        }
        Err(Failed) => {
            link.shut();
            false
        }
    }
}

/// The same where something may go to the link yet; else what was taken goes.
fn go_out<W: Wait, H: Turns + Drop, Y: Syncs, G: Gate + Drop, L: Link + Drop>(
    rt: &W,
    shared: &Shared<H, Y, G, L>,
    link: &mut L,
    taken: Taken,
    may: bool,
) -> bool
    ensures goes { Goes may result (L.held link.old) (L.held link.new) (out_bytes taken.messages.items) }
    ensures come { L.left link.new ≡ L.left link.old }
    ensures later { L.faults link.old ≤ L.faults link.new }
{
    if !may {
        drop(taken);
        return false;
    }
    give_out(rt, shared, link, taken)
}

/// How far giving out came.
#[derive(Clone, Copy)]
struct Gone {
    /// Whether more may go to the link.
    follows: bool,
    /// How many calls the client hasn't answered.
    asked: u64,
}

impl Gone {
    /// Nothing went yet.
    fn none() -> Gone
        ensures { result.follows ≡ true }
    {
        Gone {
            follows: true,
            asked: 0,
        }
    }

    /// Whether nothing more may be said, or the client was asked for something.
    fn is_over(self) -> bool
        ensures { result ≡ false → IsTrue self.follows }
    {
        !self.follows || self.asked > 0
    }
}

/// Takes what there is to say to a session, in a turn, and gives its link that.
fn give_said<W: Wait, H: Turns + Drop, Y: Syncs, G: Gate + Drop, L: Link + Drop>(
    rt: &W,
    shared: &Shared<H, Y, G, L>,
    pass: Pass<H>,
    session: u32,
    link: &mut L,
) -> (Pass<H>, Gone)
    requires { IsPassOf shared.now.post pass }
    ensures pass { Follows shared.now.post pass result.0 }
    ensures said { (messages : List Message) × IsTaken H.journal H.gives session messages pass result.0 × Given result.1.follows (L.held link.old) (L.held link.new) (out_bytes messages) }
    ensures come { L.left link.new ≡ L.left link.old }
    ensures later { L.faults link.old ≤ L.faults link.new }
{
    let (pass, out) = shared.take_out(rt, pass, session, &*link);
    let asked = out.calls();
    let follows = give_out(rt, shared, link, out);
    (pass, Gone { follows, asked })
}

/// Hears a record of a session, in its turn, and gives its link what there is to say then, where something may
/// go to it yet.
fn give_answer<W: Threads + Wait, H: Turns + Drop, Y: Syncs, G: Gate + Drop, L: Link + Drop>(
    rt: &W,
    shared: &Shared<H, Y, G, L>,
    pass: Pass<H>,
    session: u32,
    bytes: &[u8],
    prepared: Prepared,
    now: u64,
    link: &mut L,
    gone: Gone,
) -> (Pass<H>, Gone)
    requires pass { IsPassOf shared.now.post pass }
    requires timed { now < 2 ^ 63 }
    ensures pass { Follows shared.now.post pass result.0 }
    ensures said { IsParsed prepared.read (parse_of server_waits bytes.now) → (messages : List Message)
        × IsAnswered H.journal H.hears H.gives session now bytes.now messages pass result.0
        × Goes gone.follows result.1.follows (L.held link.old) (L.held link.new)
        (out_bytes messages) }
    ensures come { L.left link.new ≡ L.left link.old }
    ensures later { L.faults link.old ≤ L.faults link.new }
{
    let left = gone.asked.saturating_sub(u64::from(prepared.answers()));
    let (pass, out) = shared.got(rt, pass, session, bytes, prepared, now, &*link);
    let asked = left.saturating_add(out.calls());
    let follows = go_out(rt, shared, link, out, gone.follows);
    (pass, Gone { follows, asked })
}

/// Reads a record of a session, hears it, and gives what there is to say then to a link that others give to as
/// well. Whoever takes what there is to say holds the link, so that what is taken first goes out first; while
/// the record is read nobody does.
fn hear_beside<
    W: Threads + Wait,
    H: Turns + Drop,
    Y: Syncs,
    G: Gate + Drop,
    L: Link + Drop,
    C: Clock,
>(
    rt: &W,
    shared: &Shared<H, Y, G, L>,
    pass: Pass<H>,
    session: u32,
    bytes: &[u8],
    gives: &Mutex<L>,
    clock: &C,
    gone: Gone,
) -> (Pass<H>, Gone)
    requires { IsPassOf shared.now.post pass }
    ensures pass { Follows shared.now.post pass result.0 }
    ensures answered { AnswersRecord H.journal H.hears H.gives session bytes.now pass result.0 }
{
    let (pass, prepared) = shared.read(rt, pass, session, bytes);
    let mut link = gives.lock(rt);
    let now = clock.now();
    give_answer(
        rt, shared, pass, session, bytes, prepared, now, &mut *link, gone,
    )
}

/// Gives what there is to say to a session to a link that others give to as well.
fn say_beside<W: Wait, H: Turns + Drop, Y: Syncs, G: Gate + Drop, L: Link + Drop>(
    rt: &W,
    shared: &Shared<H, Y, G, L>,
    pass: Pass<H>,
    session: u32,
    gives: &Mutex<L>,
) -> (Pass<H>, Gone)
    requires { IsPassOf shared.now.post pass }
    ensures pass { Follows shared.now.post pass result.0 }
    ensures took { (messages : List Message) × IsTaken H.journal H.gives session messages pass result.0 }
{
    let mut link = gives.lock(rt);
    give_said(rt, shared, pass, session, &mut *link)
}

/// Takes a session's records off its link, each in a turn of its own, and puts out what there is to
/// say then: no other thread has to be woken for it.
fn read_on<W: Threads + Wait, H: Turns + Drop, Y: Syncs, G: Gate + Drop, L: Link + Drop, C: Clock>(
    rt: &W,
    shared: &Shared<H, Y, G, L>,
    pass: Pass<H>,
    session: u32,
    link: &mut L,
    gives: &Mutex<L>,
    clock: &C,
) -> (Pass<H>, End)
    requires { IsPassOf shared.now.post pass }
    ensures pass { Follows shared.now.post pass result.0 }
    ensures ended { result.1 ≡ ends.InputEnd → IsAtEnd (L.left link.new) }
    ensures failed { result.1 ≡ ends.Failed → Rose (L.faults link.old) (L.faults link.new) }
    ensures spoilt { result.1 ≡ ends.Spoilt → IsSpoilt (L.left link.old) (L.left link.new) }
    ensures heard { (result.1 ≡ ends.InputEnd) ⊎ (result.1 ≡ ends.Spoilt) → HearsToEnd H.journal H.hears H.gives session (L.left link.old) (L.left link.new) pass result.0 }
    ensures out { L.held link.new ≡ L.held link.old }
    ensures later { L.faults link.old ≤ L.faults link.new }
{
    let mut inbox = match Inbox::new(shared.alloc()) {
        Ok(inbox) => inbox,
        Err(_) => return (pass, End::Memory),
    };
    let mut pass = pass;
    let mut gone = Gone::none();
    for _turn in rt.forever() {
        match inbox.next(shared.alloc(), link) {
            Ok(record) => {
                let bytes = record.as_slice();
                let (next, more) = hear_beside(
                    rt, shared, pass, session, bytes, gives, clock, gone,
                );
                pass = next;
                gone = more;
            }
            Err(end) => return (pass, end),
        }
    }
    unreachable!()
}

/// Takes records off a session's link until it ends. Then it hangs the session, and shuts the link,
/// so that a thread comes back that waits for its client to take something. What there is to say
/// after each record goes out by the other link.
///
/// `InputEnd` comes where the input ended, `Failed` only where the link's count of faults rose, and
/// `Spoilt` only where no record can stand behind the bytes that came.
pub fn session_in<
    W: Threads + Wait,
    H: Turns + Drop,
    Y: Syncs,
    G: Gate + Drop,
    L: Link + Drop,
    C: Clock,
>(
    rt: &W,
    shared: &Shared<H, Y, G, L>,
    pass: Pass<H>,
    session: u32,
    link: &mut L,
    gives: &Mutex<L>,
    clock: &C,
) -> (Pass<H>, End)
    requires { IsPassOf shared.now.post pass }
    ensures pass { Follows shared.now.post pass result.0 }
    ensures hung { IsHung H.journal H.does session pass result.0 }
    ensures ended { result.1 ≡ ends.InputEnd → IsAtEnd (L.left link.new) }
    ensures failed { result.1 ≡ ends.Failed → Rose (L.faults link.old) (L.faults link.new) }
    ensures spoilt { result.1 ≡ ends.Spoilt → IsSpoilt (L.left link.old) (L.left link.new) }
    ensures heard { (result.1 ≡ ends.InputEnd) ⊎ (result.1 ≡ ends.Spoilt) → HearsThenHung H.journal H.hears H.gives H.does session (L.left link.old) (L.left link.new) pass result.0 }
    ensures out { L.held link.new ≡ L.held link.old }
    ensures later { L.faults link.old ≤ L.faults link.new }
{
    let (pass, end) = read_on(rt, shared, pass, session, link, gives, clock);
    let pass = shared.hang(rt, pass, session);
    link.shut();
    (pass, end)
}

/// Puts out what there is to say to a session until it is gone, or its link fails; then it shuts the
/// link.
pub fn session_out<W: Wait, H: Turns + Drop, Y: Syncs, G: Gate + Drop, L: Link + Drop>(
    rt: &W,
    shared: &Shared<H, Y, G, L>,
    pass: Pass<H>,
    session: u32,
    gives: &Mutex<L>,
) -> Pass<H>
    requires { IsPassOf shared.now.post pass }
    ensures pass { Follows shared.now.post pass result }
    ensures took { (messages : List Message) × IsTaken H.journal H.gives session messages pass result }
{
    let mut pass = pass;
    for _turn in rt.forever() {
        pass = shared.await_said(rt, pass, session);
        let (next, gone) = say_beside(rt, shared, pass, session, gives);
        pass = next;
        if !gone.follows {
            return pass;
        }
    }
    unreachable!()
}

/// Puts out what there is to say to a session, behind an answer to it, until a change of it waits no more: where
/// no other thread does, nobody else would tell it what came of that. Meanwhile no record of it is read; so it
/// ends, too, where the client is asked for something, which the change may wait for, or where nothing may follow
/// on the link. `gone` is how far giving had come, and it answers how far it has then.
fn give_awaited<W: Wait, H: Turns + Drop, Y: Syncs, G: Gate + Drop, L: Link + Drop>(
    rt: &W,
    shared: &Shared<H, Y, G, L>,
    pass: Pass<H>,
    session: u32,
    gone: Gone,
    link: &mut L,
) -> (Pass<H>, Gone)
    requires { IsPassOf shared.now.post pass }
    ensures pass { Follows shared.now.post pass result.0 }
    ensures gave { GivesTaken H.journal H.gives session gone.follows result.1.follows (L.held link.old) (L.held link.new) pass result.0 }
    ensures come { L.left link.new ≡ L.left link.old }
    ensures later { L.faults link.old ≤ L.faults link.new }
{
    let mut pass = pass;
    let mut gone = gone;
    for _turn in rt.forever() {
        if gone.is_over() {
            return (pass, gone);
        }
        let (next, owes) = shared.owes(rt, pass, session);
        pass = next;
        if !owes {
            return (pass, gone);
        }
        pass = shared.await_said(rt, pass, session);
        let (next, more) = give_said(rt, shared, pass, session, link);
        pass = next;
        gone = more;
    }
    unreachable!()
}

/// Takes records off a session's link, and puts out by it what there is to say behind each, until it
/// ends.
fn both_on<W: Threads + Wait, H: Turns + Drop, Y: Syncs, G: Gate + Drop, L: Link + Drop, C: Clock>(
    rt: &W,
    shared: &Shared<H, Y, G, L>,
    pass: Pass<H>,
    session: u32,
    link: &mut L,
    clock: &C,
) -> (Pass<H>, End)
    requires { IsPassOf shared.now.post pass }
    ensures pass { Follows shared.now.post pass result.0 }
    ensures ended { result.1 ≡ ends.InputEnd → IsAtEnd (L.left link.new) }
    ensures failed { result.1 ≡ ends.Failed → Rose (L.faults link.old) (L.faults link.new) }
    ensures spoilt { result.1 ≡ ends.Spoilt → IsSpoilt (L.left link.old) (L.left link.new) }
    ensures heard { (result.1 ≡ ends.InputEnd) ⊎ (result.1 ≡ ends.Spoilt) → HearsToEnd H.journal H.hears H.gives session (L.left link.old) (L.left link.new) pass result.0 }
    ensures gave { (follows : Bool) × GivesTaken H.journal H.gives session true follows (L.held link.old) (L.held link.new) pass result.0 }
    ensures later { L.faults link.old ≤ L.faults link.new }
{
    let mut inbox = match Inbox::new(shared.alloc()) {
        Ok(inbox) => inbox,
        Err(_) => return (pass, End::Memory),
    };
    let mut pass = pass;
    let mut gone = Gone::none();
    for _turn in rt.forever() {
        match inbox.next(shared.alloc(), link) {
            Ok(record) => {
                let bytes = record.as_slice();
                let (read, prepared) = shared.read(rt, pass, session, bytes);
                let now = clock.now();
                let (heard, more) = give_answer(
                    rt, shared, read, session, bytes, prepared, now, link, gone,
                );
                let (next, last) = give_awaited(rt, shared, heard, session, more, link);
                pass = next;
                gone = last;
            }
            Err(end) => return (pass, end),
        }
    }
    unreachable!()
}

/// A session in one thread: each record is taken, and what there is to say is put out, also what
/// comes of a pending change, before the next one is. It answers as `session_in` does, and has shut
/// the link where the session was closed before its input ended, but where memory ran out
/// before the first record.
pub fn session_both<
    W: Threads + Wait,
    H: Turns + Drop,
    Y: Syncs,
    G: Gate + Drop,
    L: Link + Drop,
    C: Clock,
>(
    rt: &W,
    shared: &Shared<H, Y, G, L>,
    pass: Pass<H>,
    session: u32,
    link: &mut L,
    clock: &C,
) -> (Pass<H>, End)
    requires { IsPassOf shared.now.post pass }
    ensures pass { Follows shared.now.post pass result.0 }
    ensures hung { IsHung H.journal H.does session pass result.0 }
    ensures ended { result.1 ≡ ends.InputEnd → IsAtEnd (L.left link.new) }
    ensures failed { result.1 ≡ ends.Failed → Rose (L.faults link.old) (L.faults link.new) }
    ensures spoilt { result.1 ≡ ends.Spoilt → IsSpoilt (L.left link.old) (L.left link.new) }
    ensures heard { (result.1 ≡ ends.InputEnd) ⊎ (result.1 ≡ ends.Spoilt) → HearsThenHung H.journal H.hears H.gives H.does session (L.left link.old) (L.left link.new) pass result.0 }
    ensures gave { (follows : Bool) × GivesTaken H.journal H.gives session true follows (L.held link.old) (L.held link.new) pass result.0 }
    ensures later { L.faults link.old ≤ L.faults link.new }
{
    let (pass, end) = both_on(rt, shared, pass, session, link, clock);
    let pass = shared.hang(rt, pass, session);
    (pass, end)
}
