//! The readings of a trace so far, and whether the next one keeps the clock rule: `read_at` of
//! `specs/Clocks.antt`.

ghost use Rattle.std.specs.Prelude.{◌≡◌, ◌<◌, ◌≤◌, [], ◌∷◌, ◌++◌, OnOk, OnErr, IfErr};
ghost use Rattle.clock_rule.specs.declared.rule.ClockFault.TheVariants.{Server};
ghost use Rattle.clock_rule.specs.declared.rule.NoteError.TheVariants.{Fault};
ghost use Rattle.clock_rule.specs.Clocks.{fault_of, server_read, client_read, then_client, read_at, IsRead, Answers};
ghost use Rattle.clock_rule.specs.Windows.{AreKept};

use crate::rule::{ClockFault, Note, NoteError, Reading};
use crate::window::{self, Window};
use std::alloc::Global;
use std::marker::Model;

/// The readings of a trace so far. They keep the clock rule of its term and drift. All readings are
/// milliseconds, at most 9,223,372,036,854,775,807 in a trace, though any number is taken here. A
/// trace's term is 1 to 3,600,000, its drift 0 to 3,600,000, and its clients are numbered 1 to 16.
///
/// An event costs a few steps on average, and one more for each client that was noted. One that is
/// refused for its drift costs a look at all earlier ones. No clause says so; `bench/clocks.sh`
/// measures it.
pub struct Clocks {
    term: u64,
    drift: u64,
    server: u64,
    notes: Vec<Note>,
    windows: Vec<Window>,
}

// Written by hand, it is proved here alone.
impl Drop for Clocks {
    fn drop(self) {
        let Clocks {
            term: _,
            drift: _,
            server: _,
            notes,
            windows,
        } = self;
        drop(notes);
        drop(windows)
    }
}

impl Model for Clocks {
    ghost use Rattle.clock_rule.specs.Clocks.{Clocked};

    ghost Value = { Clocked };

    ghost view = { λ s. record { term = s.term; drift = s.drift; server = s.server; notes = s.notes.items } };

    ghost use Rattle.clock_rule.specs.Windows.{AreKept};

    ghost invariant = { λ s. AreKept s.term s.notes.items s.windows.items };
}

impl Clocks {
    /// No readings: the server stands at 0. It takes no memory.
    pub fn new(alloc: Global, term: u64, drift: u64) -> Clocks
        ensures { result ≡ record { term = term; drift = drift; server = 0; notes = [] } }
    {
        Clocks {
            term,
            drift,
            server: 0,
            notes: Vec::new(alloc),
            windows: Vec::new(alloc),
        }
    }

    /// Reads what a line reads. The errors are the first fault by the rule, and running out of
    /// memory, and after either all is as before.
    pub fn read(&mut self, alloc: Global, reading: Reading) -> Result<(), NoteError>
        ensures { IsRead result (read_at self.old reading) self.old self.new }
    {
        match reading {
            Reading::Server(server) => self.read_server(server),
            Reading::Client { client, at } => self.read_client(alloc, client, at),
            Reading::Both { server, client, at } => self.read_both(alloc, server, client, at),
        }
    }

    /// Reads the server's clock. It takes no memory.
    fn read_server(&mut self, server: u64) -> Result<(), NoteError>
        ensures { IsRead result (server_read self.old server) self.old self.new }
    {
        fall(self.server, server)?;
        self.server = server;
        Ok(())
    }

    /// Reads a client's clock.
    fn read_client(&mut self, alloc: Global, client: u64, at: u64) -> Result<(), NoteError>
        ensures { IsRead result (client_read self.old client at) self.old self.new }
    {
        let later = Note {
            client,
            reading: at,
            server: self.server,
        };
        self.note(alloc, later)
    }

    /// Reads the server's clock, and then a client's. The server stands where it did if the event is
    /// not noted.
    fn read_both(
        &mut self,
        alloc: Global,
        server: u64,
        client: u64,
        at: u64,
    ) -> Result<(), NoteError>
        ensures { IsRead result (then_client (server_read self.old server) client at) self.old self.new }
    {
        fall(self.server, server)?;
        let later = Note {
            client,
            reading: at,
            server,
        };
        self.note(alloc, later)?;
        self.server = server;
        Ok(())
    }

    /// Notes an event. It is refused exactly where its reading is below the client's last one, or
    /// else where it breaks the rule with an earlier event of the client, of which the fault then
    /// names the earliest. The other error is running out of memory. After either all is as before.
    fn note(&mut self, alloc: Global, later: Note) -> Result<(), NoteError>
        ensures fault { Answers result (fault_of self.old.term self.old.drift self.old.notes later) }
        ensures ok { OnOk result (self.new ≡ record self.old { notes = self.old.notes ++ later ∷ [] }) }
        ensures err { OnErr result (self.new ≡ self.old) }
    {
        note_in(
            alloc,
            self.term,
            self.drift,
            &mut self.notes,
            &mut self.windows,
            later,
        )
    }
}

/// Whether the server's reading fell, by its last one and the next.
fn fall(last: u64, next: u64) -> Result<(), NoteError>
    ensures ok { OnOk result (last ≤ next) }
    ensures fell { OnErr result (next < last) }
    ensures fault { IfErr result (λ e. e ≡ Fault (Server last next)) }
{
    if next < last {
        return Err(NoteError::Fault(ClockFault::Server {
            from: last,
            to: next,
        }));
    }
    Ok(())
}

/// Notes an event, unless it breaks the rule.
fn note_in(
    alloc: Global,
    term: u64,
    drift: u64,
    notes: &mut Vec<Note>,
    windows: &mut Vec<Window>,
    later: Note,
) -> Result<(), NoteError>
    requires kept { AreKept term notes.old.items windows.old.items }
    ensures kept { AreKept term notes.new.items windows.new.items }
    ensures fault { Answers result (fault_of term drift notes.old.items later) }
    ensures ok { OnOk result (notes.new.items ≡ notes.old.items ++ later ∷ []) }
    ensures err { OnErr result (notes.new.items ≡ notes.old.items) }
{
    let at = window::window_of(alloc, windows, later.client)?;
    window::note(term, drift, notes, &mut windows[at], later)?;
    Ok(())
}
