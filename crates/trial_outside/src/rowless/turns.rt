//! Turns at a post: two threads take a hundred each, and each adds a number in each; a third pass, with
//! which no turn is taken, is asked how many entries there are. Then the same with four threads, and turns
//! that last longer than a thread looks before it sleeps, and so many that it takes its place in the queue:
//! where one isn't woken, the trial doesn't end.

ghost use Rattle.std.specs.Prelude.{◌≡◌, ◌∷◌, ◌++◌, [], OnOk, OnErr};
ghost use Rattle.turn_post.specs.Passes.{IsPassOf};

use row_text::out::Out;
use std::alloc::{AllocError, Global};
use std::rt::Clock;
use std::sync::Wait;
use std::thread;
use std::thread::{Scope, Threads};
use std::time::Duration;
use turn_post::journaled::Journaled;
use turn_post::post::{Pass, Post};

/// Numbers that threads added, in the order of their turns.
#[derive(Drop)]
struct Tally {
    entries: Vec<u64>,
}

impl Tally {
    /// Adds a number. The one error is running out of memory, and changes nothing.
    fn add(&mut self, number: u64) -> Result<(), AllocError>
        ensures ok { OnOk result (self.new.entries.items ≡ self.old.entries.items ++ number ∷ []) }
        ensures err { OnErr result (self.new.entries.items ≡ self.old.entries.items) }
    {
        self.entries.push(number)?;
        Ok(())
    }
}

impl Journaled for Tally {
    type Entry = u64;

    ghost journal = { λ t. t.entries.items };

    fn count(&self) -> u64 {
        self.entries.len() as u64
    }
}

/// The turns of threads.
#[derive(Clone, Copy)]
struct Turns {
    /// How many threads.
    threads: u64,
    /// How many turns each takes.
    count: u64,
    /// How long each lasts.
    lasts: Duration,
}

/// Takes turns, and adds a number in each, from a first one on, as far as memory suffices.
fn add_all<R: Wait + Clock>(rt: &R, post: &Post<Tally>, pass: Pass<Tally>, turns: Turns, first: u64)
    requires { IsPassOf post.now pass }
{
    let mut pass = pass;
    for at in 0..turns.count {
        let mut turn = post.enter(rt, pass);
        let added = turn.value().add(first.wrapping_add(at));
        if !turns.lasts.is_zero() {
            thread::sleep(rt, turns.lasts);
        }
        pass = turn.leave();
        drop(added);
    }
}

/// All threads but one begin, each with a pass and numbers of its own; the pass that is left is the last one's.
fn begin_others<'s, 'e, R: Threads + Wait + Clock + Sync>(
    scope: &'s Scope<'s, &'e ()>,
    rt: &'e R,
    post: &'e Post<Tally>,
    pass: Pass<Tally>,
    turns: Turns,
) -> Pass<Tally>
    requires { IsPassOf post.now pass }
    ensures { IsPassOf post.now result }
{
    let mut pass = pass;
    for at in 1..turns.threads {
        let (next, rest) = post.split(pass);
        pass = rest;
        let first = at.saturating_mul(1000);
        let other = scope.spawn(
            move ||
                requires { IsPassOf post.now next }
            { add_all(rt, post, next, turns, first) },
        );
        drop(other);
    }
    pass
}

/// All threads add their numbers; it returns once they have.
fn add_each<'x, R: Threads + Wait + Clock + Sync>(
    rt: &'x R,
    post: &'x Post<Tally>,
    pass: Pass<Tally>,
    turns: Turns,
)
    requires { IsPassOf post.now pass }
{
    thread::scope(
        thread::scope_env(),
        rt,
        move |scope|
            requires { IsPassOf post.now pass }
        {
            let last = begin_others(scope, rt, post, pass, turns);
            add_all(rt, post, last, turns, turns.threads.saturating_mul(1000))
        },
    )
}

/// Whether those of the numbers that one thread added are all that it had to add, in their order.
fn is_whole(numbers: &[u64], first: u64, count: u64) -> bool {
    let mut next = first;
    for number in numbers {
        if *number / 1000 == first / 1000 {
            if *number != next {
                return false;
            }
            next = next.wrapping_add(1);
        }
    }
    next == first.wrapping_add(count)
}

/// What the third pass is told, what a fresh turn finds, and how many threads' own are whole there.
fn put_found(front: u64, numbers: &[u64], turns: Turns, out: &mut Out) {
    let mut whole = 0u64;
    for at in 0..turns.threads {
        let first = at.saturating_add(1).saturating_mul(1000);
        if is_whole(numbers, first, turns.count) {
            whole = whole.saturating_add(1);
        }
    }
    out.say("turns", &[front, numbers.len() as u64, whole]);
    out.line("")
}

/// The turns of threads, and what is found behind them.
fn put_turns<R: Threads + Wait + Clock + Sync>(
    rt: &R,
    post: &Post<Tally>,
    pass: Pass<Tally>,
    turns: Turns,
    out: &mut Out,
)
    requires { IsPassOf post.now pass }
{
    let (busy, idle) = post.split(pass);
    add_each(rt, post, busy, turns);
    let mut idle = idle;
    let front = post.front(&mut idle);
    let turn = post.enter(rt, idle);
    let tally = turn.finish();
    put_found(front, tally.entries.as_slice(), turns, out)
}

/// What comes of the turns at a post of their own.
fn put_post<R: Threads + Wait + Clock + Sync>(rt: &R, alloc: Global, turns: Turns, out: &mut Out) {
    let entries = Vec::new(alloc);
    match Post::new(alloc, Tally { entries }) {
        Ok((post, pass)) => put_turns(rt, &post, pass, turns, out),
        Err(_) => out.lack(),
    }
}

/// What comes of short turns, and of turns that last.
pub fn put<R: Threads + Wait + Clock + Sync>(rt: &R, alloc: Global, out: &mut Out) {
    let short = Turns {
        threads: 2,
        count: 100,
        lasts: Duration::from_micros(0),
    };
    put_post(rt, alloc, short, out);
    let long = Turns {
        threads: 4,
        count: 200,
        lasts: Duration::from_micros(200),
    };
    put_post(rt, alloc, long, out)
}
