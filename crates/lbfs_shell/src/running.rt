//! A shell from its first connection to its end: its one command, or the lines of its input.

ghost use Rattle.std.specs.Prelude.{◌≡◌, ◌≢◌, ◌≤◌, ◌⊎◌, [], IfOk, IfErr, IsErrOf, Ok, Err, false};
ghost use Rattle.exit_status.specs.declared.shell_end.ShellEnd.TheVariants as ends;
ghost use Rattle.lbfs_shell.specs.Caching.{Chooses, used_of};
ghost use Rattle.lbfs_shell.specs.Ends.{SinkCause, HasCause, HasLeft, end_of};

use crate::caching::{Found, look, unsaved_words};
use crate::crew::{Manner, run_line, run_task};
use crate::help;
use crate::lines::{About, command_of, line_of, say_mistake, say_undone, word_at_fault};
use crate::outside::Outside;
use crate::saying::{Flow, read_end, tell, write};
use exit_status::shell_end::ShellEnd;
use last_words::keeping::Keeps;
use lb_base::items::{Items, Name};
use lb_base::sink::Sink;
use lb_base::source::Source;
use lbfs_mount::script::Script;
use links::clock::Clock;
use links::rest::Rest;
use shell_commands::shell::{Shell, Went, mistaken};
use shell_link::session::Session;
use shell_telling::telling::{end_line, prompt_text};
use shell_walks::caching::{load, save};
use shell_walks::dials::Dials;
use shell_walks::folder::{Folder, Folders, LocalFault};
use shell_walks::remote::Remote;
use shell_walks::screen::Screen;
use shell_walks::tasks::Task;
use shell_walks::telling::{fault_words, note_line};
use shell_words::command::{Line, Verb, verb_of};
use shell_words::local::LocalPath;
use shell_words::mistake::{Mistake, ReadError};
use shell_words::quoting::quoted;
use std::alloc::{AllocError, Global};
use std::sync::Wait;
use std::thread::Threads;

/// What a shell is to do.
#[derive(Drop)]
pub struct ShellAsked {
    /// How many connections there may be at once.
    pub links: u32,
    /// The cache file, where there is one.
    pub cache: Option<LocalPath>,
    /// The folder that the program runs in, from the root, where that is known.
    pub here: Option<LocalPath>,
    /// Whether neither how far a command is nor what it came to is said.
    pub quiet: bool,
    /// The words of the one command; none where lines are read.
    pub command: Items<Name>,
}

/// Where a shell stands, and what it works with.
#[derive(Drop)]
struct Seat<R, F> {
    shell: Shell,
    remote: R,
    folder: F,
}

/// How a command is done.
fn manner_of<P: Screen>(screen: &P, asked: &ShellAsked) -> Manner {
    Manner {
        links: asked.links,
        shows: !asked.quiet && screen.is_watched(),
        quiet: asked.quiet,
    }
}

/// A task with all that come of it, and the line at its end.
fn run_all<
    W: Threads + Wait + Sync,
    P: Screen + Keeps + Sync,
    H: Folders + Sync,
    D: Dials + Sync,
    C: Clock + Sync,
    T: Rest + Sync,
    R: Remote,
    F: Folder,
>(
    rt: &W,
    alloc: Global,
    out: &Outside<P, H, D, C, T>,
    asked: &ShellAsked,
    seat: &mut Seat<R, F>,
    task: Task,
) -> Result<Flow, ShellEnd>
where
    D::L: Drop + Send,
    H::F: Drop + Send,
    ensures { IfErr result (λ e. e ≡ ends.Memory) }
{
    let manner = manner_of(&out.screen, asked);
    let before = out.dialler.bytes();
    let Some(tally) = run_task(
        rt,
        alloc,
        out,
        manner,
        &asked.here,
        &mut seat.remote,
        &mut seat.folder,
        task,
    ) else {
        return Err(ShellEnd::Memory);
    };
    if !asked.quiet && tally.is_told() {
        let wire = out.dialler.bytes().saturating_sub(before);
        match end_line(alloc, tally, wire) {
            Ok(line) => out.screen.say(line.as_slice()),
            Err(AllocError) => return Err(ShellEnd::Memory),
        }
    }
    Ok(if tally.is_fine {
        Flow::Done
    } else {
        Flow::Undone
    })
}

/// A text is written, and that was all.
fn written<K: Sink>(sink: &mut K, text: &[u8]) -> Result<Flow, ShellEnd>
    ensures cause { IfErr result (λ e. SinkCause (K.faults sink.old) (K.faults sink.new) e) }
    ensures later { K.faults sink.old ≤ K.faults sink.new }
{
    match write(sink, text) {
        Ok(()) => Ok(Flow::Done),
        Err(end) => Err(end),
    }
}

/// `help`, or what one command does.
fn run_help<P: Screen, K: Sink>(
    alloc: Global,
    screen: &P,
    sink: &mut K,
    line: &Line,
) -> Result<Flow, ShellEnd>
    ensures cause { IfErr result (λ e. SinkCause (K.faults sink.old) (K.faults sink.new) e) }
    ensures later { K.faults sink.old ≤ K.faults sink.new }
{
    let Some(word) = line.operands.as_slice().first() else {
        return written(sink, help::all());
    };
    match verb_of(word.as_slice()) {
        Some(verb) => written(sink, help::of(verb)),
        None => match mistaken(alloc, word.as_slice(), Mistake::Unknown) {
            Ok(told) => tell(screen, sink, &told),
            Err(AllocError) => Err(ShellEnd::Memory),
        },
    }
}

/// A command.
fn do_line<
    W: Threads + Wait + Sync,
    P: Screen + Keeps + Sync,
    H: Folders + Sync,
    D: Dials + Sync,
    C: Clock + Sync,
    T: Rest + Sync,
    R: Remote,
    F: Folder,
    K: Sink,
>(
    rt: &W,
    alloc: Global,
    out: &Outside<P, H, D, C, T>,
    asked: &ShellAsked,
    seat: &mut Seat<R, F>,
    sink: &mut K,
    line: &Line,
) -> Result<Flow, ShellEnd>
where
    D::L: Drop + Send,
    H::F: Drop + Send,
    ensures cause { IfErr result (λ e. SinkCause (K.faults sink.old) (K.faults sink.new) e) }
    ensures later { K.faults sink.old ≤ K.faults sink.new }
{
    match line.verb {
        Verb::Help => return run_help(alloc, &out.screen, sink, line),
        Verb::Bye => return Ok(Flow::Bye),
        _ => {}
    }
    let manner = manner_of(&out.screen, asked);
    match run_line(
        rt,
        alloc,
        out,
        manner,
        &mut seat.shell,
        &mut seat.remote,
        &mut seat.folder,
        line,
    ) {
        Ok(Went::Told(told)) => tell(&out.screen, sink, &told),
        Ok(Went::Works(task)) => run_all(rt, alloc, out, asked, seat, task),
        Ok(Went::Bye) => Ok(Flow::Bye),
        Err(AllocError) => Err(ShellEnd::Memory),
    }
}

/// A command. Behind it the connection gives up its leases: nobody answers a RECALL before the next.
fn run_command<
    W: Threads + Wait + Sync,
    P: Screen + Keeps + Sync,
    H: Folders + Sync,
    D: Dials + Sync,
    C: Clock + Sync,
    T: Rest + Sync,
    R: Remote,
    F: Folder,
    K: Sink,
>(
    rt: &W,
    alloc: Global,
    out: &Outside<P, H, D, C, T>,
    asked: &ShellAsked,
    seat: &mut Seat<R, F>,
    sink: &mut K,
    line: &Line,
) -> Result<Flow, ShellEnd>
where
    D::L: Drop + Send,
    H::F: Drop + Send,
    ensures cause { IfErr result (λ e. SinkCause (K.faults sink.old) (K.faults sink.new) e) }
    ensures later { K.faults sink.old ≤ K.faults sink.new }
    ensures left { HasLeft R.farewells seat.new.remote }
{
    let flow = do_line(rt, alloc, out, asked, seat, sink, line);
    seat.remote.farewell(alloc);
    flow
}

/// A line of the input, numbered from 1.
fn run_text<
    W: Threads + Wait + Sync,
    P: Screen + Keeps + Sync,
    H: Folders + Sync,
    D: Dials + Sync,
    C: Clock + Sync,
    T: Rest + Sync,
    R: Remote,
    F: Folder,
    K: Sink,
>(
    rt: &W,
    alloc: Global,
    out: &Outside<P, H, D, C, T>,
    asked: &ShellAsked,
    seat: &mut Seat<R, F>,
    sink: &mut K,
    text: &[u8],
    number: u64,
) -> Result<Flow, ShellEnd>
where
    D::L: Drop + Send,
    H::F: Drop + Send,
    ensures cause { IfErr result (λ e. SinkCause (K.faults sink.old) (K.faults sink.new) e) }
    ensures later { K.faults sink.old ≤ K.faults sink.new }
{
    let mut about = About {
        number,
        word: Items::new(alloc),
        leads: false,
    };
    match line_of(alloc, text, &mut about) {
        Ok(Some(line)) => match run_command(rt, alloc, out, asked, seat, sink, &line) {
            Ok(Flow::Undone) => say_undone(alloc, &out.screen, &about),
            other => other,
        },
        Ok(None) => Ok(Flow::Done),
        Err(ReadError::Mistaken(mistake)) => say_mistake(alloc, &out.screen, &about, mistake),
        Err(ReadError::Memory) => Err(ShellEnd::Memory),
    }
}

/// The prompt, where lines are typed.
fn prompt<P: Screen>(alloc: Global, screen: &P, shell: &Shell) {
    if screen.is_typed() {
        if let Ok(text) = prompt_text(alloc, shell.place()) {
            screen.say(text.as_slice());
        }
    }
}

/// The end of a shell that did all, or not all, of its lines.
fn end_of(is_fine: bool) -> ShellEnd
    ensures { result ≡ end_of is_fine }
{
    if is_fine {
        ShellEnd::Done
    } else {
        ShellEnd::Undone
    }
}

/// The lines of the input, to its end or to `bye`.
fn run_lines<
    W: Threads + Wait + Sync,
    P: Screen + Keeps + Sync,
    H: Folders + Sync,
    D: Dials + Sync,
    C: Clock + Sync,
    T: Rest + Sync,
    R: Remote,
    F: Folder,
    S: Source,
    K: Sink,
>(
    rt: &W,
    alloc: Global,
    out: &Outside<P, H, D, C, T>,
    asked: &ShellAsked,
    seat: &mut Seat<R, F>,
    source: &mut S,
    sink: &mut K,
) -> ShellEnd
where
    D::L: Drop + Send,
    H::F: Drop + Send,
    ensures cause { HasCause (S.faults source.old) (S.faults source.new) (K.faults sink.old) (K.faults sink.new) result }
    ensures later { (S.faults source.old ≤ S.faults source.new) × (K.faults sink.old ≤ K.faults sink.new) }
{
    let Ok(mut lines) = Script::new(alloc) else {
        return ShellEnd::Memory;
    };
    let mut is_fine = true;
    for at in 0..u64::MAX {
        prompt(alloc, &out.screen, &seat.shell);
        let text = match lines.next(alloc, source) {
            Ok(Some(text)) => text,
            Ok(None) => {
                if out.screen.is_typed() {
                    out.screen.say(b"\n");
                }
                return end_of(is_fine);
            }
            Err(why) => return read_end(why),
        };
        match run_text(rt, alloc, out, asked, seat, sink, text.as_slice(), at + 1) {
            Ok(Flow::Done) => {}
            Ok(Flow::Undone) => is_fine = false,
            Ok(Flow::Astray) => return ShellEnd::Undone,
            Ok(Flow::Bye) => return end_of(is_fine),
            Err(end) => return end,
        }
    }
    end_of(is_fine)
}

/// The words of the one command.
fn run_once<
    W: Threads + Wait + Sync,
    P: Screen + Keeps + Sync,
    H: Folders + Sync,
    D: Dials + Sync,
    C: Clock + Sync,
    T: Rest + Sync,
    R: Remote,
    F: Folder,
    K: Sink,
>(
    rt: &W,
    alloc: Global,
    out: &Outside<P, H, D, C, T>,
    asked: &ShellAsked,
    seat: &mut Seat<R, F>,
    sink: &mut K,
    line: &Line,
) -> ShellEnd
where
    D::L: Drop + Send,
    H::F: Drop + Send,
    ensures cause { SinkCause (K.faults sink.old) (K.faults sink.new) result }
    ensures later { K.faults sink.old ≤ K.faults sink.new }
{
    match run_command(rt, alloc, out, asked, seat, sink, line) {
        Ok(Flow::Undone | Flow::Astray) => ShellEnd::Undone,
        Ok(Flow::Done | Flow::Bye) => ShellEnd::Done,
        Err(end) => end,
    }
}

/// Words that are no command are told so.
fn refuse<P: Screen, K: Sink>(
    alloc: Global,
    screen: &P,
    sink: &mut K,
    words: &[Name],
    mistake: Mistake,
) -> ShellEnd
    ensures cause { SinkCause (K.faults sink.old) (K.faults sink.new) result }
    ensures later { K.faults sink.old ≤ K.faults sink.new }
{
    match mistaken(alloc, word_at_fault(words, mistake), mistake) {
        Ok(told) => match tell(screen, sink, &told) {
            Ok(_) => ShellEnd::BadWords,
            Err(end) => end,
        },
        Err(AllocError) => ShellEnd::Memory,
    }
}

/// A client that has a connection; or how the shell ends.
fn joined<'e, D: Dials, C: Clock>(
    alloc: Global,
    dialler: &'e D,
    clock: &'e C,
) -> Result<Session<'e, D, C>, ShellEnd>
where
    D::L: Drop,
    ensures { IfErr result (λ e. (e ≡ ends.Network) ⊎ (e ≡ ends.Memory)) }
{
    match Session::new(alloc, dialler, clock) {
        Ok(mut session) => {
            if session.join(alloc) {
                Ok(session)
            } else {
                Err(ShellEnd::Network)
            }
        }
        Err(AllocError) => Err(ShellEnd::Memory),
    }
}

/// What is said of a file that is no cache file.
const OTHER: &[u8] = b"it is no cache file, and stays as it is (name another one, or remove it)";

/// These words are said of the cache file.
fn say_words<P: Screen>(alloc: Global, screen: &P, name: &str, words: &[u8]) {
    if let Ok(about) = quoted(alloc, name.as_bytes()) {
        if let Ok(note) = note_line(alloc, about.as_slice(), words) {
            screen.say(note.as_slice());
        }
    }
}

/// What is wrong with the cache file is said.
fn say_fault<P: Screen>(alloc: Global, screen: &P, name: &str, fault: Option<LocalFault>) {
    if let Some(fault) = fault {
        say_words(alloc, screen, name, fault_words(fault));
    }
}

/// Whether what stands there is read, and replaced behind the last line. What is no cache file is said, and the
/// end; one that can't be read is said, and left alone.
fn used_of<P: Screen>(alloc: Global, screen: &P, name: &str, found: Found) -> Result<bool, ShellEnd>
    ensures { result ≡ used_of found }
{
    match found {
        Found::Ours => Ok(true),
        Found::Other => {
            say_words(alloc, screen, name, OTHER);
            Err(ShellEnd::Undone)
        }
        Found::Hidden(fault) => {
            say_words(alloc, screen, name, fault_words(fault));
            Ok(false)
        }
    }
}

/// Whether a cache file is used: what stands there is looked at, where one was named.
fn uses_cache<P: Screen, F: Folder>(
    alloc: Global,
    screen: &P,
    folder: &mut F,
    cache: &Option<LocalPath>,
) -> Result<bool, ShellEnd>
    ensures { Chooses F.reads folder.old cache.now result folder.new }
{
    let Some(path) = cache else {
        return Ok(false);
    };
    let name = path.as_str();
    let found = look(alloc, folder, name);
    used_of(alloc, screen, name, found)
}

/// A shell in the folder of the host that the program runs in, with a connection, and whether a cache file is
/// used; or how it ends. What stands there is looked at before it connects.
fn seated<'e, P: Screen, H: Folders, D: Dials, C: Clock, T>(
    alloc: Global,
    out: &'e Outside<P, H, D, C, T>,
    asked: &ShellAsked,
) -> Result<(Seat<Session<'e, D, C>, H::F>, bool), ShellEnd>
where
    D::L: Drop,
    H::F: Drop,
    ensures seated { IfOk result (λ s. (host : H.F) × Chooses H.F.reads host asked.now.cache (Ok s.1) s.0.folder) }
    ensures refused { IsErrOf result ends.Undone → (host : H.F) × ((kept : H.F) × Chooses H.F.reads host asked.now.cache (Err ends.Undone) kept) }
    ensures end { IfErr result (λ e. (e ≡ ends.Undone) ⊎ ((e ≡ ends.Network) ⊎ (e ≡ ends.Memory))) }
{
    let Ok(shell) = Shell::new(alloc, &asked.here) else {
        return Err(ShellEnd::Memory);
    };
    let mut folder = out.folders.folder(0);
    let is_cached = match uses_cache(alloc, &out.screen, &mut folder, &asked.cache) {
        Ok(is_cached) => is_cached,
        Err(end) => return Err(end),
    };
    match joined(alloc, &out.dialler, &out.clock) {
        Ok(remote) => {
            let seat = Seat {
                shell,
                remote,
                folder,
            };
            Ok((seat, is_cached))
        }
        Err(end) => Err(end),
    }
}

/// The cache file is read, where one is used.
fn load_cache<P: Screen, R: Remote, F: Folder>(
    alloc: Global,
    screen: &P,
    asked: &ShellAsked,
    is_cached: bool,
    seat: &mut Seat<R, F>,
)
    ensures { is_cached ≡ false → seat.new ≡ seat.old }
{
    if !is_cached {
        return;
    }
    if let Some(path) = &asked.cache {
        let name = path.as_str();
        let fault = load(alloc, &mut seat.remote, &mut seat.folder, name);
        // Before the first shell has written it there is none.
        if !matches!(fault, Some(LocalFault::Missing)) {
            say_fault(alloc, screen, name, fault);
        }
    }
}

/// Whether a shell did all lines that it was given, as it could.
fn is_through(end: ShellEnd) -> bool {
    matches!(end, ShellEnd::Done | ShellEnd::Undone)
}

/// The cache file is written, where one is used, behind the last line.
fn save_cache<P: Screen, R: Remote, F: Folder>(
    alloc: Global,
    screen: &P,
    asked: &ShellAsked,
    is_cached: bool,
    seat: &mut Seat<R, F>,
    end: ShellEnd,
)
    ensures { is_cached ≡ false → seat.new ≡ seat.old }
{
    if !is_cached {
        return;
    }
    if let Some(path) = &asked.cache {
        if is_through(end) {
            let name = path.as_str();
            let fault = save(alloc, &seat.remote, &mut seat.folder, name);
            if let Some(fault) = fault {
                say_words(alloc, screen, name, unsaved_words(fault));
            }
        }
    }
}

/// Runs the one command. `help` wants no server.
fn run_one<
    W: Threads + Wait + Sync,
    P: Screen + Keeps + Sync,
    H: Folders + Sync,
    D: Dials + Sync,
    C: Clock + Sync,
    T: Rest + Sync,
    K: Sink,
>(
    rt: &W,
    alloc: Global,
    out: &Outside<P, H, D, C, T>,
    asked: &ShellAsked,
    sink: &mut K,
    line: &Line,
) -> ShellEnd
where
    D::L: Drop + Send,
    H::F: Drop + Send,
    ensures cause { SinkCause (K.faults sink.old) (K.faults sink.new) result }
    ensures later { K.faults sink.old ≤ K.faults sink.new }
{
    if matches!(line.verb, Verb::Help) {
        return match run_help(alloc, &out.screen, sink, line) {
            Ok(Flow::Undone | Flow::Astray) => ShellEnd::Undone,
            Ok(Flow::Done | Flow::Bye) => ShellEnd::Done,
            Err(end) => end,
        };
    }
    match seated(alloc, out, asked) {
        Ok((mut seat, is_cached)) => {
            load_cache(alloc, &out.screen, asked, is_cached, &mut seat);
            let end = run_once(rt, alloc, out, asked, &mut seat, sink, line);
            save_cache(alloc, &out.screen, asked, is_cached, &mut seat, end);
            end
        }
        Err(end) => end,
    }
}

/// Runs the lines of the input.
fn run_all_lines<
    W: Threads + Wait + Sync,
    P: Screen + Keeps + Sync,
    H: Folders + Sync,
    D: Dials + Sync,
    C: Clock + Sync,
    T: Rest + Sync,
    S: Source,
    K: Sink,
>(
    rt: &W,
    alloc: Global,
    out: &Outside<P, H, D, C, T>,
    asked: &ShellAsked,
    source: &mut S,
    sink: &mut K,
) -> ShellEnd
where
    D::L: Drop + Send,
    H::F: Drop + Send,
    ensures cause { HasCause (S.faults source.old) (S.faults source.new) (K.faults sink.old) (K.faults sink.new) result }
    ensures later { (S.faults source.old ≤ S.faults source.new) × (K.faults sink.old ≤ K.faults sink.new) }
{
    match seated(alloc, out, asked) {
        Ok((mut seat, is_cached)) => {
            load_cache(alloc, &out.screen, asked, is_cached, &mut seat);
            let end = run_lines(rt, alloc, out, asked, &mut seat, source, sink);
            save_cache(alloc, &out.screen, asked, is_cached, &mut seat, end);
            end
        }
        Err(end) => end,
    }
}

/// Runs the one command, or the lines of the input, on a server's tree, from the folder of the host that
/// the program runs in. It ends with `Done` where all was done, and with `Undone` where something wasn't,
/// which was said; with the others where it could go on no further.
pub fn run_shell<
    W: Threads + Wait + Sync,
    P: Screen + Keeps + Sync,
    H: Folders + Sync,
    D: Dials + Sync,
    C: Clock + Sync,
    T: Rest + Sync,
    S: Source,
    K: Sink,
>(
    rt: &W,
    alloc: Global,
    out: &Outside<P, H, D, C, T>,
    asked: &ShellAsked,
    source: &mut S,
    sink: &mut K,
) -> ShellEnd
where
    D::L: Drop + Send,
    H::F: Drop + Send,
    ensures cause { HasCause (S.faults source.old) (S.faults source.new) (K.faults sink.old) (K.faults sink.new) result }
    ensures later { (S.faults source.old ≤ S.faults source.new) × (K.faults sink.old ≤ K.faults sink.new) }
    ensures unread { asked.now.command ≢ [] → source.new ≡ source.old }
{
    match command_of(alloc, asked.command.as_slice()) {
        Ok(Some(line)) => run_one(rt, alloc, out, asked, sink, &line),
        Ok(None) => run_all_lines(rt, alloc, out, asked, source, sink),
        Err(ReadError::Mistaken(mistake)) => {
            refuse(alloc, &out.screen, sink, asked.command.as_slice(), mistake)
        }
        Err(ReadError::Memory) => ShellEnd::Memory,
    }
}
