//! A gate that lets turns begin in the order that a row names; behind the last of these all may.

use row_text::out::Out;
use row_text::text::number;
use server_turns::gate::{Gate, Who};
use std::alloc::Global;
use std::sync::{Condvar, Mutex, Wait};
use trial_outside::trial::Trial;

/// Whose turn a word names, by its first letter: the listener's, the ticker's, the sleep of the ticker, that of
/// the thread that takes a session's records, of the one that puts out what is said to it, and the sleep of that.
const LETTERS: [char; 6] = ['L', 'T', 'Z', 'R', 'W', 'S'];

/// The number of a turn: of such a letter, counted from 0, and of a session, if it is of one.
fn code(letter: u64, session: u64) -> u64 {
    session.saturating_mul(8).saturating_add(letter)
}

/// The number of the turn that a word names; that of none, where it names none.
fn code_of(word: &str) -> u64 {
    for (at, letter) in LETTERS.iter().enumerate() {
        if let Some(session) = word.strip_prefix(*letter) {
            return code(at as u64, number(session));
        }
    }
    code(7, 0)
}

/// The number of a turn or of a sleep; that of none, where nobody sleeps so.
fn number_of(who: Who, sleeps: bool) -> u64 {
    match (who, sleeps) {
        (Who::Listener, false) => code(0, 0),
        (Who::Ticker, false) => code(1, 0),
        (Who::Ticker, true) => code(2, 0),
        (Who::Reader(session), false) => code(3, u64::from(session)),
        (Who::Writer(session), false) => code(4, u64::from(session)),
        (Who::Writer(session), true) => code(5, u64::from(session)),
        (Who::Listener | Who::Reader(_), true) => code(7, 0),
    }
}

/// The turns that are to begin in their order, and how far they are.
struct Order {
    codes: Vec<u64>,
    next: usize,
    /// Whether the next one has begun.
    has_begun: bool,
}

/// Written by hand, so that it is proved once.
impl Drop for Order {
    fn drop(self) {
        let Order {
            codes,
            next: _,
            has_begun: _,
        } = self;
        drop(codes)
    }
}

/// Whether a turn is to wait.
fn is_early(order: &Order, code: u64) -> bool {
    match order.codes.get(order.next) {
        Some(next) => order.has_begun || *next != code,
        None => false,
    }
}

/// A turn begins or ends, or both.
fn go_on(order: &mut Order, begins: bool, ends: bool) {
    if begins {
        order.has_begun = order.next < order.codes.len();
    }
    if ends && order.has_begun {
        order.has_begun = false;
        order.next = order.next.saturating_add(1);
    }
}

/// Lets turns begin in an order.
pub struct TurnGate<R> {
    rt: R,
    order: Mutex<Order>,
    /// A turn has ended.
    news: Condvar,
}

// By hand, as above.
impl<R: Drop> Drop for TurnGate<R> {
    fn drop(self) {
        let TurnGate { rt, order, news: _ } = self;
        drop(rt);
        drop(order)
    }
}

impl<R: Wait> TurnGate<R> {
    /// The gate of a trial, `turns=TURN,TURN`.
    pub fn new(rt: R, alloc: Global, trial: &Trial<'_>, out: &mut Out) -> TurnGate<R> {
        let mut codes = Vec::new(alloc);
        for word in trial.word("turns").split(',') {
            if !word.is_empty() {
                out.push(&mut codes, code_of(word));
            }
        }
        TurnGate {
            rt,
            order: Mutex::new(Order {
                codes,
                next: 0,
                has_begun: false,
            }),
            news: Condvar::new(),
        }
    }

    /// Waits until a turn or a sleep may begin, which may end at once. All waiting is done here, by one closure.
    fn begin(&self, code: u64, ends: bool) {
        let order = self.order.lock(&self.rt);
        let mut order = self
            .news
            .wait_while(&self.rt, order, |order| is_early(order, code));
        go_on(&mut order, true, ends);
        drop(order);
        self.news.notify_all();
    }
}

impl<R: Wait> Gate for TurnGate<R> {
    fn before(&self, who: Who) {
        self.begin(number_of(who, false), false)
    }

    fn after(&self) {
        let mut order = self.order.lock(&self.rt);
        go_on(&mut order, false, true);
        drop(order);
        self.news.notify_all();
    }

    fn sleeps(&self, who: Who) {
        self.begin(number_of(who, true), true)
    }
}
