//! The threads of a command: each has a client with a connection of its own, and they share the tasks. One
//! begins alone, and the others come once there are several to do.

ghost use Rattle.std.specs.Prelude.{◌≡◌, None};
ghost use Rattle.std.specs.Thread.{IsSend};
ghost use Rattle.lbfs_shell.specs.Ends.{HasLeft};

use crate::outside::Outside;
use crate::pool::Pool;
use crate::watching::watch;
use folder_tasks::visiting::visit;
use last_words::keeping::Keeps;
use links::clock::Clock;
use links::rest::Rest;
use shell_commands::shell::{Shell, Went};
use shell_link::session::Session;
use shell_telling::tally::Tally;
use shell_telling::telling::unsure_line;
use shell_walks::asking::{Deed, ask_on};
use shell_walks::dials::Dials;
use shell_walks::folder::{Folder, Folders};
use shell_walks::remote::{Answer, Remote};
use shell_walks::screen::Screen;
use shell_walks::tasks::Task;
use shell_words::command::{Line, Verb};
use shell_words::local::LocalPath;
use std::alloc::{AllocError, Global};
use std::sync::Wait;
use std::thread;
use std::thread::{Scope, Threads};

/// How a command is done.
#[derive(Clone, Copy)]
pub(crate) struct Manner {
    /// How many connections there may be.
    pub(crate) links: u32,
    /// Whether how far it is is shown.
    pub(crate) shows: bool,
    /// Whether what was stored and removed isn't said.
    pub(crate) quiet: bool,
}

/// Does a task, and counts in what it came to.
fn do_one<W: Wait, P: Screen + Keeps, R: Remote, F: Folder>(
    rt: &W,
    alloc: Global,
    pool: &Pool,
    screen: &P,
    remote: &mut R,
    folder: &mut F,
    task: Task,
) {
    match visit(alloc, remote, folder, task) {
        Ok(visited) => pool.note_done(rt, alloc, screen, visited),
        Err(AllocError) => pool.starve(rt),
    }
}

/// Does the tasks as long as there is one alone.
fn begin<W: Wait, P: Screen + Keeps, R: Remote, F: Folder>(
    rt: &W,
    alloc: Global,
    pool: &Pool,
    screen: &P,
    remote: &mut R,
    folder: &mut F,
) {
    for _turn in rt.forever() {
        match pool.take_alone(rt) {
            Some(task) => do_one(rt, alloc, pool, screen, remote, folder, task),
            None => return,
        }
    }
}

/// The next task; none once all are done. Where there is none yet the connection gives up its leases before it
/// waits, since nobody answers a RECALL meanwhile.
fn next_task<W: Wait, R: Remote>(rt: &W, alloc: Global, pool: &Pool, remote: &mut R) -> Option<Task>
    ensures { result ≡ None → HasLeft R.farewells remote.new }
{
    match pool.take_now(rt) {
        Some(task) => Some(task),
        None => {
            remote.farewell(alloc);
            pool.take(rt)
        }
    }
}

/// Does tasks until all are done.
fn work<W: Wait, P: Screen + Keeps, R: Remote, F: Folder>(
    rt: &W,
    alloc: Global,
    pool: &Pool,
    screen: &P,
    remote: &mut R,
    folder: &mut F,
)
    ensures { HasLeft R.farewells remote.new }
{
    for _turn in rt.forever() {
        match next_task(rt, alloc, pool, remote) {
            Some(task) => do_one(rt, alloc, pool, screen, remote, folder, task),
            None => return,
        }
    }
}

/// Whether a client gets a connection, by a look at the root. A server has room for so many, and shuts what
/// is above: a task would fail there that another thread can do.
fn joins<R: Remote>(alloc: Global, remote: &mut R) -> bool {
    match ask_on(alloc, remote, Deed::Look, &[]) {
        Ok(answer) => matches!(&answer, Answer::Seen(_)),
        Err(AllocError) => false,
    }
}

/// Does tasks on a connection of its own, where one can be had.
fn help_out<W: Wait, P: Screen + Keeps, H: Folders, D: Dials, C: Clock, T>(
    rt: &W,
    alloc: Global,
    pool: &Pool,
    out: &Outside<P, H, D, C, T>,
    number: u32,
)
where
    D::L: Drop + Send,
    H::F: Drop + Send,
{
    if let Ok(mut session) = Session::new(alloc, &out.dialler, &out.clock) {
        if !joins(alloc, &mut session) {
            return;
        }
        let mut folder = out.folders.folder(number);
        work(rt, alloc, pool, &out.screen, &mut session, &mut folder);
    }
}

/// Has further threads do tasks, as many as there may be. Where one can't be had there are fewer.
fn call_others<
    's,
    'e,
    W: Threads + Wait + Sync,
    P: Screen + Keeps + Sync,
    H: Folders + Sync,
    D: Dials + Sync,
    C: Clock + Sync,
    T: Sync,
>(
    scope: &'s Scope<'s, &'e ()>,
    rt: &'e W,
    alloc: Global,
    pool: &'e Pool,
    out: &'e Outside<P, H, D, C, T>,
    manner: Manner,
)
where
    D::L: Drop + Send,
    H::F: Drop + Send,
{
    for number in 1..manner.links {
        let help = move || help_out(rt, alloc, pool, out, number);
        if scope.spawn(help).is_err() {
            return;
        }
    }
}

/// Has a thread show how far it is, where that is to be shown. Where none can be had it isn't.
fn call_watcher<
    's,
    'e,
    W: Threads + Wait + Sync,
    P: Screen + Sync,
    H: Folders + Sync,
    D: Dials + Sync,
    C: Clock + Sync,
    T: Rest + Sync,
>(
    scope: &'s Scope<'s, &'e ()>,
    rt: &'e W,
    alloc: Global,
    pool: &'e Pool,
    out: &'e Outside<P, H, D, C, T>,
    manner: Manner,
)
where
    D::L: Drop + Send,
    H::F: Drop + Send,
{
    if !manner.shows {
        return;
    }
    let show = move || watch(rt, alloc, pool, out);
    let _watcher = scope.spawn(show);
}

/// Does all tasks, and shows meanwhile how far it is.
fn run_crew<
    'x,
    W: Threads + Wait + Sync,
    P: Screen + Keeps + Sync,
    H: Folders + Sync,
    D: Dials + Sync,
    C: Clock + Sync,
    T: Rest + Sync,
    R: Remote,
    F: Folder,
>(
    rt: &'x W,
    alloc: Global,
    pool: &'x Pool,
    out: &'x Outside<P, H, D, C, T>,
    manner: Manner,
    remote: &mut R,
    folder: &mut F,
)
where
    D::L: Drop + Send,
    H::F: Drop + Send,
{
    thread::scope(
        thread::scope_env(),
        rt,
        move |scope|
            requires { IsSend D.L.row × IsSend H.F.row }
        {
            pool.begin(rt, alloc, &out.screen);
            call_watcher(scope, rt, alloc, pool, out, manner);
            begin(rt, alloc, pool, &out.screen, remote, folder);
            if pool.goes_on(rt) {
                call_others(scope, rt, alloc, pool, out, manner);
                work(rt, alloc, pool, &out.screen, remote, folder);
            }
            pool.end(rt, alloc, &out.screen);
        },
    );
}

/// Does a task with all that come of it; none where memory ran out. What wasn't done is said as it happens, and how one
/// goes on by paths from the root, where it is known in which folder the program runs.
pub(crate) fn run_task<
    W: Threads + Wait + Sync,
    P: Screen + Keeps + Sync,
    H: Folders + Sync,
    D: Dials + Sync,
    C: Clock + Sync,
    T: Rest + Sync,
    R: Remote,
    F: Folder,
>(
    rt: &W,
    alloc: Global,
    out: &Outside<P, H, D, C, T>,
    manner: Manner,
    here: &Option<LocalPath>,
    remote: &mut R,
    folder: &mut F,
    task: Task,
) -> Option<Tally>
where
    D::L: Drop + Send,
    H::F: Drop + Send,
{
    let Ok(pool) = Pool::new(alloc, here, task, manner.quiet) else {
        return None;
    };
    run_crew(rt, alloc, &pool, out, manner, remote, folder);
    pool.into_tally()
}

/// Whether a command that isn't done in tasks changes something at the server.
fn changes(verb: Verb) -> bool {
    matches!(verb, Verb::Rm | Verb::Mv | Verb::Mkdir | Verb::Rmdir)
}

/// Keeps what is said where the program is ended in the midst of a command that changes something, and isn't done
/// in tasks.
fn keep_unsure<P: Keeps>(screen: &P, manner: Manner, line: &Line) {
    if !manner.quiet && changes(line.verb) {
        screen.keep(unsure_line(line.has_option));
    }
}

/// Runs a command that isn't done in tasks, and shows meanwhile that it waits. Where the program is ended in its midst
/// it is to be said that it may have been done.
fn run_watched<
    'x,
    W: Threads + Wait + Sync,
    P: Screen + Keeps + Sync,
    H: Folders + Sync,
    D: Dials + Sync,
    C: Clock + Sync,
    T: Rest + Sync,
    R: Remote,
    F: Folder,
>(
    rt: &'x W,
    alloc: Global,
    pool: &'x Pool,
    out: &'x Outside<P, H, D, C, T>,
    manner: Manner,
    shell: &mut Shell,
    remote: &mut R,
    folder: &mut F,
    line: &Line,
) -> Result<Went, AllocError>
where
    D::L: Drop + Send,
    H::F: Drop + Send,
{
    thread::scope(
        thread::scope_env(),
        rt,
        move |scope| -> Result<Went, AllocError>
            requires { IsSend D.L.row × IsSend H.F.row }
        {
            keep_unsure(&out.screen, manner, line);
            call_watcher(scope, rt, alloc, pool, out, manner);
            let went = shell.run(alloc, remote, folder, line);
            pool.end(rt, alloc, &out.screen);
            went
        },
    )
}

/// Runs a line. One that waits for the server says so, as tasks do.
pub(crate) fn run_line<
    W: Threads + Wait + Sync,
    P: Screen + Keeps + Sync,
    H: Folders + Sync,
    D: Dials + Sync,
    C: Clock + Sync,
    T: Rest + Sync,
    R: Remote,
    F: Folder,
>(
    rt: &W,
    alloc: Global,
    out: &Outside<P, H, D, C, T>,
    manner: Manner,
    shell: &mut Shell,
    remote: &mut R,
    folder: &mut F,
    line: &Line,
) -> Result<Went, AllocError>
where
    D::L: Drop + Send,
    H::F: Drop + Send,
{
    if !manner.shows && !changes(line.verb) {
        return shell.run(alloc, remote, folder, line);
    }
    let pool = Pool::without_tasks(alloc);
    let went = run_watched(rt, alloc, &pool, out, manner, shell, remote, folder, line);
    let _nothing = pool.into_tally();
    went
}
