//! A port at which lines in memory begin, whose ends may be in threads of their own, and the network by
//! which an end comes to them. They tell nothing of the bytes.

ghost use Rattle.std.specs.Prelude.{◌≡◌, ◌≤◌, None, OnErr};
ghost use Rattle.lb_base.specs.Causes.{Rose};

use crate::line::{Line, Records, Side, Until, is_early, lines_of, pairs_at, take_at};
use crate::trial::Trial;
use crate::wanted::Wanted;
use lb_base::faults::one_more;
use lb_base::sink::GiveError;
use lb_base::source::Failed;
use limits::READING_MOST;
use links::clock::Clock;
use links::link::Link;
use links::network::{AcceptError, Network, NoBell};
use links::rest::Rest;
use row_text::out::Out;
use std::alloc::{AllocError, Global};
use std::sync::atomic::{AtomicU64, Ordering};
use std::sync::{Arc, Condvar, Mutex, MutexGuard, Wait};

/// A port with its lines, which are there from the beginning, under a lock.
pub struct Port {
    lines: Mutex<Vec<Line>>,
    /// Something came, or a line was shut.
    news: Condvar,
    /// Whether one end alone is tried: it waits for nothing behind what is on its way.
    is_silent: bool,
    /// What is waited for in rests: of the first in the first, and of all others in each later one.
    wanted: Vec<Wanted>,
    /// How many rests there were.
    rests: AtomicU64,
    /// Whether the clock stands at 0.
    is_stopped: bool,
}

// By hand, as all here: docs/proving/dropping.md.
impl Drop for Port {
    fn drop(self) {
        let Port {
            lines,
            news: _,
            is_silent: _,
            wanted,
            rests: _,
            is_stopped: _,
        } = self;
        drop(lines);
        drop(wanted)
    }
}

/// What the rests of a trial wait for, `rests=LINE@RECORDS,LINE@RECORDS`.
fn wanted_in(alloc: Global, trial: &Trial<'_>, out: &mut Out) -> Vec<Wanted> {
    let mut all = Vec::new(alloc);
    for word in trial.word("rests").split(',') {
        if let Some(wanted) = Wanted::of(word) {
            out.push(&mut all, wanted);
        }
    }
    all
}

impl Port {
    /// The port of a trial, of which nobody has taken anything yet.
    pub fn new(
        alloc: Global,
        trial: &Trial<'_>,
        is_silent: bool,
        out: &mut Out,
    ) -> Result<Arc<Port>, AllocError> {
        let port = Port {
            lines: Mutex::new(lines_of(alloc, trial, out)),
            news: Condvar::new(),
            is_silent,
            wanted: wanted_in(alloc, trial, out),
            rests: AtomicU64::new(0),
            is_stopped: trial.setting("stopped").is_some(),
        };
        Ok(Arc::new(alloc, port)?)
    }

    /// Ends all lines both ways.
    pub fn shut<R: Wait>(&self, rt: &R) {
        let mut lines = self.lines.lock(rt);
        for line in lines.iter_mut() {
            line.is_shut = true;
        }
        drop(lines);
        self.news.notify_all();
    }

    /// Waits for the line at this place, and holds all of them then. All waiting is done here, by one
    /// closure.
    fn held<R: Wait>(&self, rt: &R, at: usize, until: Until) -> MutexGuard<'_, Vec<Line>> {
        let lines = self.lines.lock(rt);
        self.news
            .wait_while(rt, lines, |lines| is_early(lines, at, until))
    }

    /// Waits for the line at this place.
    pub fn wait<R: Wait>(&self, rt: &R, at: usize, until: Until) {
        drop(self.held(rt, at, until))
    }

    /// Waits for what a rest is to wait for.
    fn rest<R: Wait>(&self, rt: &R) {
        let is_first = self.rests.load(Ordering::SeqCst) == 0;
        for (at, wanted) in self.wanted.iter().enumerate() {
            if (at == 0) == is_first {
                let records = wanted.records;
                self.wait(rt, wanted.line, Until::Given { records });
            }
        }
        self.rests.fetch_add(1, Ordering::SeqCst);
    }

    /// How many rests there were.
    pub fn rests(&self) -> u64 {
        self.rests.load(Ordering::SeqCst)
    }

    /// In how many calls the first line's listener gave something since it took something.
    pub fn put_calls<R: Wait>(&self, rt: &R, out: &mut Out) {
        let lines = self.lines.lock(rt);
        if let Some(line) = lines.get(0) {
            out.say(" calls", &[line.calls]);
            out.line("");
        }
        drop(lines);
    }

    /// How many farewells each line's dialler gave, and whether one was the last record.
    pub fn put_farewells<R: Wait>(&self, rt: &R, out: &mut Out) {
        let lines = self.lines.lock(rt);
        for line in lines.iter() {
            let said = Records::of(line.said.as_slice());
            out.say("farewells", &[said.farewells]);
            out.line(if said.is_last { " last" } else { "" });
        }
        drop(lines);
    }

    /// Whether each line is shut, and what its listener gave.
    pub fn put_lines<R: Wait>(&self, rt: &R, out: &mut Out) {
        let lines = self.lines.lock(rt);
        for line in lines.iter() {
            out.line(if line.is_shut {
                " shut true"
            } else {
                " shut false"
            });
            out.bytes(line.down.as_slice());
            out.line("");
        }
        drop(lines);
    }
}

/// The pace of an end: rests at a port, and a clock that goes on by them, by 100 milliseconds in each, by a
/// million where the first waits for something, or not at all.
pub struct PortPace<R> {
    rt: R,
    port: Arc<Port>,
}

impl<R: Drop> Drop for PortPace<R> {
    fn drop(self) {
        let PortPace { rt, port } = self;
        drop(rt);
        drop(port)
    }
}

impl<R: Wait> Rest for PortPace<R> {
    fn rest(&self) {
        self.port.rest(&self.rt)
    }
}

impl<R> Clock for PortPace<R> {
    fn now(&self) -> u64 {
        let step = if self.port.is_stopped {
            0
        } else if self.port.wanted.is_empty() {
            100
        } else {
            1_000_000
        };
        self.port.rests().saturating_mul(step).min(READING_MOST)
    }
}

/// An end's link.
pub struct PortLink<R> {
    rt: R,
    port: Arc<Port>,
    side: Side,
    /// The line's place.
    at: usize,
    pub faults: u64,
}

impl<R: Drop> Drop for PortLink<R> {
    fn drop(self) {
        let PortLink {
            rt,
            port,
            side: _,
            at: _,
            faults: _,
        } = self;
        drop(rt);
        drop(port)
    }
}

impl<R: Copy> PortLink<R> {
    /// A link of the side to the line at this place.
    fn new(rt: R, port: &Arc<Port>, side: Side, at: usize) -> Result<PortLink<R>, AllocError> {
        Ok(PortLink {
            rt,
            port: port.clone()?,
            side,
            at,
            faults: 0,
        })
    }
}

/// Three links of a listener to the first line.
pub struct Three<R> {
    pub takes: PortLink<R>,
    pub gives: PortLink<R>,
    pub further: PortLink<R>,
}

/// Those of a port.
pub fn three_of<R: Copy>(rt: R, port: &Arc<Port>) -> Result<Three<R>, AllocError> {
    let takes = PortLink::new(rt, port, Side::Listener, 0)?;
    let gives = PortLink::new(rt, port, Side::Listener, 0)?;
    let further = PortLink::new(rt, port, Side::Listener, 0)?;
    Ok(Three {
        takes,
        gives,
        further,
    })
}

impl<R: Wait + Copy> Link for PortLink<R> {
    ghost left = { λ _. None };

    ghost held = { λ _. None };

    ghost faults = { λ l. l.faults };

    fn take(&mut self, into: &mut [u8]) -> Result<usize, Failed> {
        let until = Until::News {
            side: self.side,
            is_silent: self.port.is_silent,
        };
        let mut lines = self.port.held(&self.rt, self.at, until);
        let count = take_at(&mut lines, self.at, self.side, into);
        drop(lines);
        self.port.news.notify_all();
        Ok(count.min(into.len()))
    }

    fn give(&mut self, from: &[u8]) -> Result<usize, GiveError> {
        let mut lines = self.port.lines.lock(&self.rt);
        let given = match lines.get_mut(self.at) {
            Some(line) => line.give(self.side, from),
            None => Ok(()),
        };
        drop(lines);
        self.port.news.notify_all();
        match given {
            Ok(()) => return Ok(from.len()),
            Err(GiveError::Memory) => return Err(GiveError::Memory),
            Err(GiveError::Failed) => self.port.wait(&self.rt, self.at, Until::Heard),
        }
        self.faults = one_more(self.faults);
        Err(GiveError::Failed)
    }

    fn shut(&mut self) {
        let mut lines = self.port.lines.lock(&self.rt);
        if let Some(line) = lines.get_mut(self.at) {
            line.is_shut = true;
        }
        drop(lines);
        self.port.news.notify_all();
    }

    fn twin(&mut self) -> Result<PortLink<R>, Failed> {
        let is_tried = match self.side {
            Side::Dialler => true,
            Side::Listener => self.port.is_silent,
        };
        if !is_tried || pairs_at(&mut self.port.lines.lock(&self.rt), self.at) {
            if let Ok(twin) = PortLink::new(self.rt, &self.port, self.side, self.at) {
                return Ok(twin);
            }
        }
        self.faults = one_more(self.faults);
        Err(Failed)
    }
}

/// A network of the one port. Its lines are accepted and dialled in their order; behind them nothing
/// comes on what is accepted, and no more are dialled.
pub struct PortNet<R> {
    rt: R,
    port: Arc<Port>,
    /// The call that fails, numbered from 0, if one does.
    failing: Option<u64>,
    /// How many more calls of `accept` meet a fault that passes.
    passing: u64,
    pub lines: usize,
    next: usize,
    made: u64,
    /// The port at which it listens, if at one.
    at: Option<u16>,
    accepted: u64,
    pub faults: u64,
}

impl<R: Drop> Drop for PortNet<R> {
    fn drop(self) {
        let PortNet {
            rt,
            port,
            failing: _,
            passing: _,
            lines: _,
            next: _,
            made: _,
            at: _,
            accepted: _,
            faults: _,
        } = self;
        drop(rt);
        drop(port)
    }
}

/// What an end has of a port.
pub struct PortEnd<R> {
    pub network: PortNet<R>,
    pub clock: PortPace<R>,
    pub rest: PortPace<R>,
}

/// The network, the clock and the rest of an end. There was no fault so far.
pub(crate) fn end_of<R: Wait + Copy>(
    rt: R,
    port: &Arc<Port>,
    trial: &Trial<'_>,
) -> Result<PortEnd<R>, AllocError> {
    let lines = port.lines.lock(&rt).len();
    let dials: Arc<Port> = port.clone()?;
    let clocks: Arc<Port> = port.clone()?;
    let rests: Arc<Port> = port.clone()?;
    let network = PortNet {
        rt,
        port: dials,
        failing: trial.setting("network"),
        passing: trial.setting("passing").unwrap_or(0),
        lines,
        next: 0,
        made: 0,
        at: None,
        accepted: 0,
        faults: 0,
    };
    Ok(PortEnd {
        network,
        clock: PortPace { rt, port: clocks },
        rest: PortPace { rt, port: rests },
    })
}

impl<R: Wait + Copy> PortNet<R> {
    /// Counts a call, and answers whether it is the one that is to fail.
    fn fails(&mut self) -> bool
        ensures { (self.new.at ≡ self.old.at) × (self.new.accepted ≡ self.old.accepted) × (self.new.faults ≡ self.old.faults) }
    {
        let made = self.made;
        self.made = one_more(made);
        self.failing == Some(made)
    }

    /// A link of the side to the next of so many lines.
    fn link(&mut self, side: Side, lines: usize) -> Result<PortLink<R>, Failed>
        ensures at { self.new.at ≡ self.old.at }
        ensures accepted { self.new.accepted ≡ self.old.accepted }
        ensures later { self.old.faults ≤ self.new.faults }
        ensures cause { OnErr result (Rose self.old.faults self.new.faults) }
    {
        let at = self.next;
        if !self.fails() && at < lines {
            self.next = at.saturating_add(1);
            if let Ok(link) = PortLink::new(self.rt, &self.port, side, at) {
                return Ok(link);
            }
        }
        self.faults = one_more(self.faults);
        Err(Failed)
    }
}

impl<R: Wait + Copy> Network for PortNet<R> {
    type L = PortLink<R>;

    type B = NoBell;

    ghost faults = { λ n. n.faults };

    ghost accepted = { λ n. n.accepted };

    ghost at = { λ n. n.at };

    fn listen(&mut self, port: u16) -> Result<(), Failed> {
        if self.fails() {
            self.faults = one_more(self.faults);
            return Err(Failed);
        }
        self.at = Some(port);
        Ok(())
    }

    fn bell(&self) -> NoBell {
        NoBell
    }

    fn accept(&mut self) -> Result<PortLink<R>, AcceptError> {
        if self.passing > 0 {
            self.passing -= 1;
            return Err(AcceptError::Passing);
        }
        match self.link(Side::Listener, usize::MAX) {
            Ok(link) => {
                self.accepted = one_more(self.accepted);
                Ok(link)
            }
            Err(Failed) => Err(AcceptError::Failed),
        }
    }

    fn dial(&mut self, _port: u16) -> Result<PortLink<R>, Failed> {
        self.link(Side::Dialler, self.lines)
    }
}
