//! Lines in memory between two ends: what is on its way on each, and when the dialler's side of one ends.

use crate::trial::{Trial, bytes_of, split};
use crate::wanted::Wanted;
use lb_base::sink::GiveError;
use row_text::out::Out;
use row_text::text::number;
use std::alloc::{AllocError, Global};

/// No record can begin with these.
const NOISE: [u8; 4] = [255, 255, 255, 255];

/// An answer to a RECALL, under the xid 0.
const FAREWELL: [u8; 28] = [
    0x80, 0, 0, 0x18, 0, 0, 0, 0, 0, 0, 0, 1, 0, 0, 0, 0, 0, 0, 0, 0, 0, 0, 0, 0, 0, 0, 0, 0,
];

/// Who holds a link.
#[derive(Clone, Copy)]
pub enum Side {
    Dialler,
    Listener,
}

/// How a line ends, once its dialler has given so often.
#[derive(Clone, Copy)]
enum Ending {
    /// It stays.
    Stays,
    /// It is cut.
    Cut,
    /// Noise comes on it.
    Noise,
    /// Nothing can be given to it any more, and nothing comes on it.
    Stuck,
    /// Its dialler takes nothing: whoever gives something waits until the line is shut. Nothing comes
    /// before that.
    Deaf,
    /// The same, but its dialler has ended as soon as somebody has something to say.
    Leaves,
}

impl Ending {
    fn of(word: &str) -> Ending {
        match word {
            "cut" => Ending::Cut,
            "noise" => Ending::Noise,
            "stuck" => Ending::Stuck,
            "deaf" => Ending::Deaf,
            "leaves" => Ending::Leaves,
            _ => Ending::Stays,
        }
    }
}

/// What an end waits for.
#[derive(Clone, Copy)]
pub enum Until {
    /// Somebody has something to say to a dialler that takes nothing.
    Speaker,
    /// Its dialler takes something, or the line is shut.
    Heard,
    /// Something came to a side, or can't come any more.
    News { side: Side, is_silent: bool },
    /// Its listener gave so many records, or the line is shut.
    Given { records: u64 },
    /// All that is to come to its listener was taken, or the line is shut.
    Taken,
}

/// So many bytes come to the listener once something was given to a line, its own or another.
#[derive(Clone, Copy)]
struct Later {
    once: Wanted,
    bytes: usize,
}

/// What is on its way on a line.
pub struct Line {
    ending: Ending,
    /// How often its dialler can give something before its end comes.
    gives: u64,
    /// How many twins the links of the side have that is tried.
    twins: u64,
    /// How many bytes come at once, at most.
    piece: usize,
    /// Whether somebody has something to say to a dialler that takes nothing.
    speaks: bool,
    pub(crate) is_shut: bool,
    /// To the listener: what came, and behind it what comes later, in order.
    up: Vec<u8>,
    came: usize,
    later: Vec<Later>,
    /// To the dialler.
    pub(crate) down: Vec<u8>,
    /// What its dialler gave.
    pub(crate) said: Vec<u8>,
    /// How many records its listener gave, and in how many calls since it took something.
    given: u64,
    pub(crate) calls: u64,
}

/// Written by hand, so that it is proved once.
impl Drop for Line {
    fn drop(self) {
        let Line {
            ending: _,
            gives: _,
            twins: _,
            piece: _,
            speaks: _,
            is_shut: _,
            up,
            came: _,
            later,
            down,
            said,
            given: _,
            calls: _,
        } = self;
        drop(up);
        drop(later);
        drop(down);
        drop(said)
    }
}

/// The bytes at the front go into the front of `into`, so many at most; it answers how many.
fn take_front(bytes: &mut Vec<u8>, most: usize, into: &mut [u8]) -> usize {
    let count = bytes.len().min(into.len()).min(most);
    for at in 0..count {
        into[at] = bytes[at];
    }
    let left = bytes.len() - count;
    bytes.copy_within(count.., 0);
    bytes.truncate(left);
    count
}

/// The record at a place, with its mark, if all of it is there.
fn record_at(bytes: &[u8], at: usize) -> Option<&[u8]> {
    let mut len = 0usize;
    for byte in bytes.get(at..at.saturating_add(4))?.iter() {
        len = len.saturating_mul(256).saturating_add(usize::from(*byte));
    }
    let end = at.saturating_add(len % 0x8000_0000).saturating_add(4);
    bytes.get(at..end)
}

/// What stands in bytes: how many records of one fragment, how many of them are farewells, and whether the last
/// one is.
#[derive(Clone, Copy)]
pub struct Records {
    pub count: u64,
    pub farewells: u64,
    pub is_last: bool,
}

impl Records {
    /// Those that these bytes are.
    pub fn of(bytes: &[u8]) -> Records {
        let mut found = Records {
            count: 0,
            farewells: 0,
            is_last: false,
        };
        let mut at = 0usize;
        for _record in 0..bytes.len() {
            let Some(record) = record_at(bytes, at) else {
                return found;
            };
            at = at.saturating_add(record.len());
            found.count = found.count.saturating_add(1);
            found.is_last = record == FAREWELL.as_slice();
            if found.is_last {
                found.farewells = found.farewells.saturating_add(1);
            }
        }
        found
    }
}

impl Line {
    /// `ENDING/GIVES/TWINS/PIECE/SENDS`: of which these records are on their way to the listener, and come
    /// later behind a `LINE@RECORDS`.
    fn of(alloc: Global, records: &str, word: &str, out: &mut Out) -> Line {
        let (ending, rest) = split(word, '/');
        let (gives, rest) = split(rest, '/');
        let (twins, rest) = split(rest, '/');
        let (piece, sends) = split(rest, '/');
        let mut line = Line {
            ending: Ending::of(ending),
            gives: number(gives),
            twins: number(twins),
            piece: number(piece) as usize,
            speaks: false,
            is_shut: false,
            up: Vec::new(alloc),
            came: 0,
            later: Vec::new(alloc),
            down: Vec::new(alloc),
            said: Vec::new(alloc),
            given: 0,
            calls: 0,
        };
        for name in sends.split('+') {
            match Wanted::of(name) {
                Some(once) => out.push(&mut line.later, Later { once, bytes: 0 }),
                None => {
                    let more = bytes_of(alloc, records, name, out);
                    out.note(line.put_up(more.as_slice()))
                }
            }
        }
        line
    }

    /// These bytes come to its listener, behind all others.
    fn put_up(&mut self, bytes: &[u8]) -> Result<(), AllocError> {
        self.up.extend_from_slice(bytes)?;
        match self.later.last_mut() {
            Some(last) => last.bytes = last.bytes.saturating_add(bytes.len()),
            None => self.came = self.came.saturating_add(bytes.len()),
        }
        Ok(())
    }

    /// Whether an end waits for what may come yet.
    fn is_quiet(&self, side: Side, is_silent: bool) -> bool {
        let has_come = match side {
            Side::Dialler => !self.down.is_empty(),
            Side::Listener => self.came > 0,
        };
        match self.ending {
            Ending::Deaf => !self.is_shut,
            Ending::Leaves => !self.is_shut && !self.speaks,
            _ => !has_come && !self.is_shut && !(is_silent && self.later.is_empty()),
        }
    }

    /// What comes next comes now.
    fn let_come(&mut self) {
        if !self.later.is_empty() {
            let next = self.later.remove(0);
            self.came = self.came.saturating_add(next.bytes);
        }
    }

    /// What came to a side goes into the front of `into`; it answers how many bytes.
    fn take(&mut self, side: Side, into: &mut [u8]) -> usize {
        match side {
            Side::Dialler => take_front(&mut self.down, self.piece, into),
            Side::Listener => {
                let count = take_front(&mut self.up, self.piece.min(self.came), into);
                self.came = self.came.saturating_sub(count);
                if count > 0 {
                    self.calls = 0;
                }
                count
            }
        }
    }

    /// Its dialler gives these bytes, by which its end may come.
    fn give_up(&mut self, from: &[u8]) -> Result<(), GiveError> {
        if self.gives > 0 {
            self.gives -= 1;
        } else {
            match self.ending {
                Ending::Cut => {
                    self.is_shut = true;
                    return Ok(());
                }
                Ending::Noise => return Ok(self.down.extend_from_slice(&NOISE)?),
                Ending::Stuck => return Err(GiveError::Failed),
                _ => {}
            }
        }
        self.said.extend_from_slice(from)?;
        Ok(self.put_up(from)?)
    }

    /// An end gives these bytes. Where the dialler takes nothing it fails, once the line is shut.
    pub(crate) fn give(&mut self, side: Side, from: &[u8]) -> Result<(), GiveError> {
        if self.is_shut {
            return Err(GiveError::Failed);
        }
        match (self.ending, side) {
            (Ending::Deaf | Ending::Leaves, _) => {
                self.speaks = true;
                Err(GiveError::Failed)
            }
            (_, Side::Dialler) => self.give_up(from),
            (_, Side::Listener) => {
                self.given = self.given.saturating_add(Records::of(from).count);
                self.calls = self.calls.saturating_add(1);
                Ok(self.down.extend_from_slice(from)?)
            }
        }
    }
}

/// The lines of a trial.
pub fn lines_of(alloc: Global, trial: &Trial<'_>, out: &mut Out) -> Vec<Line> {
    let mut lines = Vec::new(alloc);
    for word in trial.links.split_whitespace() {
        let line = Line::of(alloc, trial.records, word, out);
        out.push(&mut lines, line);
    }
    lines
}

/// Whether it is still to be waited. On a line that isn't there nothing comes.
pub fn is_early(lines: &[Line], at: usize, until: Until) -> bool {
    let Some(line) = lines.get(at) else {
        return false;
    };
    match until {
        Until::Speaker => !line.speaks,
        Until::Heard => matches!(line.ending, Ending::Deaf | Ending::Leaves) && !line.is_shut,
        Until::Given { records } => line.given < records && !line.is_shut,
        Until::Taken => !(line.up.is_empty() && line.later.is_empty()) && !line.is_shut,
        Until::News { side, is_silent } => line.is_quiet(side, is_silent) && !is_time(lines, at),
    }
}

/// Whether what comes next on a line may come now.
fn is_time(lines: &[Line], at: usize) -> bool {
    let Some(line) = lines.get(at) else {
        return false;
    };
    let Some(next) = line.later.first() else {
        return false;
    };
    match lines.get(next.once.line) {
        Some(other) => other.given >= next.once.records,
        None => false,
    }
}

/// What is on its way to an end goes into the front of `into`, where it is time; it answers how many bytes.
pub fn take_at(lines: &mut [Line], at: usize, side: Side, into: &mut [u8]) -> usize {
    let is_time = is_time(lines, at);
    let Some(line) = lines.get_mut(at) else {
        return 0;
    };
    if is_time {
        line.let_come();
    }
    line.take(side, into)
}

/// Whether there is one twin more.
pub fn pairs_at(lines: &mut [Line], at: usize) -> bool {
    let Some(line) = lines.get_mut(at) else {
        return true;
    };
    if line.twins == 0 {
        return false;
    }
    line.twins -= 1;
    true
}
