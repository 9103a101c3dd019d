//! A window over a client's notes, by which a later event is judged without a look at all of them. It
//! has those whose server reading is less ahead of the client's than that of every later note. In
//! their order the server is ever further ahead, so of those within the term the first breaks the
//! rule if any does. What holds of a window is `specs/Windows.antt`.

ghost use Rattle.std.specs.Prelude.{◌≡◌, ℕ, ◌+◌, ◌-◌, ◌<◌, ◌≤◌, List, [], ◌∷◌, ◌++◌, length, take, true, false, All, vec_len, slice_index, slice_get, slice_index_or, Some, None, IfSome, IfNone, IfOk};
ghost use Rattle.std.specs.Prelude.{IfErr, IsTrue, ◌↔◌, OnOk, OnErr, AllPairs};
ghost use Rattle.std.specs.List.{AllWithin};
ghost use Rattle.clock_rule.specs.Clocks.{breaks, fault_of, drift_fault, Answers};
ghost use Rattle.clock_rule.specs.Windows.{Covers, Rises, ArePassed, IsReach, AreLeast, Fits, IsWindowOf, HasNoWindow, IsWithWindow};

use crate::rule::{ClockFault, Note, NoteError, breaks, first_broken};
use std::alloc::{AllocError, Global};

/// What is kept of a client: the least notes, as a window over the term behind its next event.
#[derive(Drop)]
pub struct Window {
    /// The client.
    pub client: u64,
    /// Its last reading, 0 before its first.
    pub last: u64,
    /// How many of the least notes are more than the term before that.
    pub passed: usize,
    /// The notes whose server reading is less ahead than at each later note.
    pub least: Vec<Note>,
}

/// How many of the least notes are out of reach at this reading, from those that are known to be.
fn reach(term: u64, least: &[Note], passed: usize, reading: u64) -> usize
    requires within { passed ≤ length least.now }
    requires passed { ArePassed term least.now passed reading }
    ensures { IsReach term least.now result reading }
{
    let mut at = passed;
    while at < least.len() && reading.saturating_sub(least[at].reading) > term {
        at += 1;
    }
    at
}

/// Whether the event breaks the rule with one of the least notes, of which so many are out of reach.
fn is_broken(term: u64, drift: u64, least: &[Note], passed: usize, later: Note) -> bool
    requires reach { IsReach term least.now passed later.reading }
    requires least { AreLeast least.now later.reading }
    ensures { result ≡ false → All (λ m. breaks term drift m later ≡ false) least.now }
{
    passed < least.len() && breaks(term, drift, least[passed], later)
}

/// How many of the least notes stay when this one comes.
fn kept(least: &[Note], later: Note) -> usize
    requires until { All (λ m. m.reading ≤ later.reading) least.now }
    requires rise { AllPairs Rises least.now }
    ensures within { result ≤ length least.now }
    ensures rise { AllWithin (λ m. Rises m later) least.now 0 result }
    ensures covered { AllWithin (λ m. Covers later m) least.now result (length least.now) }
{
    let mut keep = least.len();
    while keep > 0 && is_covered(least[keep - 1], later) {
        keep -= 1;
    }
    keep
}

/// Whether the server's reading is no further ahead at the later of two notes.
fn is_covered(earlier: Note, later: Note) -> bool
    requires { earlier.reading ≤ later.reading }
    ensures { IsTrue result ↔ Covers later earlier }
{
    later.server.saturating_sub(earlier.server) <= later.reading - earlier.reading
}

/// Puts a note behind so many of the least ones, in place of the others.
fn put(least: &mut Vec<Note>, keep: usize, later: Note) -> Result<(), AllocError>
    requires { keep ≤ vec_len least.old }
    ensures ok { OnOk result (least.new.items ≡ take keep least.old.items ++ later ∷ []) }
    ensures err { OnErr result (least.new.items ≡ least.old.items) }
{
    if keep == least.len() {
        least.push(later)?;
        return Ok(());
    }
    least[keep] = later;
    least.truncate(keep + 1);
    Ok(())
}

/// How far back the client's next event reaches, or why it may not be noted.
fn judge(
    term: u64,
    drift: u64,
    notes: &[Note],
    window: &Window,
    later: Note,
) -> Result<usize, ClockFault>
    requires fits { Fits term notes.now window.now }
    requires client { window.now.client ≡ later.client }
    ensures none { OnOk result (fault_of term drift notes.now later ≡ None) }
    ensures order { OnOk result (window.now.last ≤ later.reading) }
    ensures reach { IfOk result (λ at. IsReach term window.now.least.items at later.reading) }
    ensures fault { IfErr result (λ f. fault_of term drift notes.now later ≡ Some f) }
{
    if later.reading < window.last {
        return Err(ClockFault::Client {
            client: later.client,
            from: window.last,
            to: later.reading,
        });
    }
    let at = reach(term, &window.least, window.passed, later.reading);
    if is_broken(term, drift, &window.least, at, later) {
        match first_broken(term, drift, notes, later) {
            None => {}
            Some(earlier) => return Err(drift_fault(later, earlier)),
        }
    }
    Ok(at)
}

/// The fault of an event that breaks the rule with an earlier one.
fn drift_fault(later: Note, earlier: Note) -> ClockFault
    ensures { result ≡ drift_fault later earlier }
{
    ClockFault::Drift {
        client: later.client,
        from: earlier.reading,
        server_from: earlier.server,
        to: later.reading,
        server_to: later.server,
    }
}

/// Notes an event that keeps the rule and reaches back to this place.
fn add(
    term: u64,
    notes: &mut Vec<Note>,
    window: &mut Window,
    at: usize,
    later: Note,
) -> Result<(), AllocError>
    requires fits { Fits term notes.old.items window.old }
    requires client { window.old.client ≡ later.client }
    requires order { window.old.last ≤ later.reading }
    requires reach { IsReach term window.old.least.items at later.reading }
    ensures fits { Fits term notes.new.items window.new }
    ensures client { window.new.client ≡ window.old.client }
    ensures ok { OnOk result (notes.new.items ≡ notes.old.items ++ later ∷ []) }
    ensures err { OnErr result (notes.new.items ≡ notes.old.items) }
{
    let keep = kept(&window.least, later);
    notes.push(later)?;
    if let Err(e) = put(&mut window.least, keep, later) {
        notes.pop();
        return Err(e);
    }
    window.last = later.reading;
    window.passed = at.min(keep);
    Ok(())
}

/// Notes the client's next event, unless it breaks the rule.
pub fn note(
    term: u64,
    drift: u64,
    notes: &mut Vec<Note>,
    window: &mut Window,
    later: Note,
) -> Result<(), NoteError>
    requires fits { Fits term notes.old.items window.old }
    requires client { window.old.client ≡ later.client }
    ensures fits { Fits term notes.new.items window.new }
    ensures client { window.new.client ≡ window.old.client }
    ensures fault { Answers result (fault_of term drift notes.old.items later) }
    ensures ok { OnOk result (notes.new.items ≡ notes.old.items ++ later ∷ []) }
    ensures err { OnErr result (notes.new.items ≡ notes.old.items) }
{
    match judge(term, drift, notes, window, later) {
        Err(fault) => Err(NoteError::Fault(fault)),
        Ok(at) => Ok(add(term, notes, window, at, later)?),
    }
}

/// The place of the client's window, which is made if it had none.
pub fn window_of(alloc: Global, windows: &mut Vec<Window>, client: u64) -> Result<usize, AllocError>
    ensures found { IfOk result (λ at. IsWindowOf windows.new.items at client) }
    ensures more { OnOk result (IsWithWindow windows.old.items windows.new.items client) }
    ensures err { OnErr result (windows.new.items ≡ windows.old.items) }
    ensures none { OnErr result (HasNoWindow windows.old.items client) }
{
    match place_of(windows, client) {
        Some(at) => Ok(at),
        None => {
            let at = windows.len();
            windows.push(Window {
                client,
                last: 0,
                passed: 0,
                least: Vec::new(alloc),
            })?;
            Ok(at)
        }
    }
}

/// The place of the client's window, if it has one.
fn place_of(windows: &[Window], client: u64) -> Option<usize>
    ensures found { IfSome result (λ at. IsWindowOf windows.now at client) }
    ensures none { IfNone result (HasNoWindow windows.now client) }
{
    for at in 0..windows.len() {
        if windows[at].client == client {
            return Some(at);
        }
    }
    None
}
