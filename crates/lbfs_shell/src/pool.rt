//! The tasks of a command, which its threads share: what is to do, what came of it so far, and the line that
//! says so. No clause speaks of what is behind the lock, since another thread's turn may stand before and
//! behind each; of what one turn makes of it `Jobs::count_in` does.

ghost use Rattle.std.specs.Prelude.{◌≡◌, ◌≤◌, ◌+◌, ◌-◌, ◌∷◌, ◌++◌, ◌||◌, [], IfOk, IfSome, OnOk, None, Some, true, false, length, reverse, if◌then◌else◌};
ghost use Rattle.lbfs_shell.specs.Jobs.{others, removals, removes, still_later, to_do};
ghost use Rattle.shell_telling.specs.Tally.{capped_sum, nothing_yet, with_visit};
ghost use Rattle.shell_telling.specs.Telling.{again_of, left_out_text, stopped_line};

use folder_tasks::visiting::Visited;
use last_words::keeping::Keeps;
use lb_base::items::{Bytes, Items};
use shell_telling::tally::Tally;
use shell_telling::telling::{Again, Glance, again_of, left_out_text, shown_line, stopped_line};
use shell_walks::screen::Screen;
use shell_walks::tasks::Task;
use shell_words::local::LocalPath;
use std::alloc::{AllocError, Global};
use std::mem;
use std::sync::{Condvar, Mutex, Wait};

/// The tasks of a command.
#[derive(Drop)]
struct Jobs {
    /// Those that are to do, the next one last.
    tasks: Vec<Task>,
    /// Removals, which wait until nothing else is to do or being done, the next one last.
    later: Vec<Task>,
    /// How many are being done.
    busy: u64,
    tally: Tally,
    /// What goes on with them.
    again: Again,
    /// Whether what was stored and removed isn't said.
    is_quiet: bool,
    /// Whether it is shown how many files were done, and not only that it waits.
    counts: bool,
    /// Whether nothing else is begun, and how many tasks weren't, of those that were known.
    is_off: bool,
    left_out: u64,
    /// Whether memory ran out.
    is_starved: bool,
    /// Whether a line stands on the screen that says how far it is.
    is_shown: bool,
    /// Whether all is done.
    is_over: bool,
}

/// The tasks of a command, and by what a thread is woken that waits for one.
pub(crate) struct Pool {
    jobs: Mutex<Jobs>,
    /// Tasks came, or one was done.
    news: Condvar,
}

/// What erases the line that stands there.
const ERASE: &[u8] = b"\r\x1b[K";

/// Whether a task only removes.
fn removes(task: &Task) -> bool
    ensures { result ≡ removes task.now }
{
    match task {
        Task::Put { .. } | Task::Get { .. } => false,
        Task::Remove(_) => true,
    }
}

/// A task that came goes behind those that are to do, or that wait.
fn add_one(tasks: &mut Vec<Task>, later: &mut Vec<Task>, task: Task) -> Result<(), AllocError>
    ensures came { OnOk result (tasks.new.items ≡ tasks.old.items ++ others (task ∷ [])) }
    ensures waits { OnOk result (later.new.items ≡ later.old.items ++ removals (task ∷ [])) }
    ensures count { OnOk result (length tasks.new.items + length later.new.items ≡ length tasks.old.items + length later.old.items + 1) }
{
    if removes(&task) {
        later.push(task)?;
    } else {
        tasks.push(task)?;
    }
    Ok(())
}

/// The tasks that came go behind those that are to do, and the removals behind those that wait, the first of them
/// as the next one.
fn add_all(
    tasks: &mut Vec<Task>,
    later: &mut Vec<Task>,
    more: Items<Task>,
) -> Result<(), AllocError>
    ensures came { OnOk result (tasks.new.items ≡ tasks.old.items ++ reverse (others more)) }
    ensures waits { OnOk result (later.new.items ≡ later.old.items ++ reverse (removals more)) }
    ensures count { OnOk result (length tasks.new.items + length later.new.items ≡ length tasks.old.items + length later.old.items + length more) }
{
    let mut more = more.into_vec();
    while let Some(task) = more.pop() {
        add_one(tasks, later, task)?;
    }
    Ok(())
}

impl Jobs {
    /// These tasks are to do, of which less is said where it is quiet. Nothing came of them yet.
    fn of(alloc: Global, tasks: Vec<Task>, again: Again, is_quiet: bool, counts: bool) -> Jobs
        ensures given { result.tasks.items ≡ tasks.items }
        ensures again { result.again ≡ again }
        ensures fresh { (result.later.items ≡ []) × (result.busy ≡ 0) × (result.tally ≡ nothing_yet) × (result.left_out ≡ 0) × (result.is_off ≡ false) × (result.is_starved ≡ false) }
    {
        Jobs {
            tasks,
            later: Vec::new(alloc),
            busy: 0,
            tally: Tally::new(),
            again,
            is_quiet,
            counts,
            is_off: false,
            left_out: 0,
            is_starved: false,
            is_shown: false,
            is_over: false,
        }
    }

    /// One task is to do, of a program that runs in this folder.
    fn one(
        alloc: Global,
        here: &Option<LocalPath>,
        task: Task,
        is_quiet: bool,
    ) -> Result<Jobs, AllocError>
        ensures given { IfOk result (λ jobs. jobs.tasks.items ≡ task ∷ []) }
        ensures again { IfOk result (λ jobs. jobs.again ≡ again_of here.now task) }
        ensures fresh { IfOk result (λ jobs. (jobs.later.items ≡ []) × (jobs.busy ≡ 0) × (jobs.tally ≡ nothing_yet) × (jobs.left_out ≡ 0) × (jobs.is_off ≡ false) × (jobs.is_starved ≡ false)) }
    {
        let again = again_of(alloc, here, &task)?;
        let mut tasks = Vec::new(alloc);
        tasks.push(task)?;
        Ok(Jobs::of(alloc, tasks, again, is_quiet, true))
    }

    /// How many tasks are known that aren't begun.
    fn not_begun(&self) -> u64
        ensures { result ≡ capped_sum (length self.now.tasks.items) (length self.now.later.items) }
    {
        (self.tasks.len() as u64).saturating_add(self.later.len() as u64)
    }

    /// How many tasks are known that aren't done.
    fn left(&self) -> u64
        ensures { result ≡ capped_sum (length self.now.tasks.items + length self.now.later.items) self.now.busy }
    {
        self.not_begun().saturating_add(self.busy)
    }

    /// The line that says how far it is goes.
    fn erase<P: Screen>(&mut self, screen: &P) {
        if self.is_shown {
            screen.say(ERASE);
            self.is_shown = false;
        }
    }

    /// This is said, in the place of the line that says how far it is.
    fn say<P: Screen>(&mut self, screen: &P, text: &[u8]) {
        if !text.is_empty() {
            self.erase(screen);
            screen.say(text);
        }
    }

    /// The tasks that came go to those that are to do, the first of them as the next one; removals wait.
    fn add(&mut self, more: Items<Task>)
        ensures came { self.new.is_starved ≡ false → self.new.tasks.items ≡ self.old.tasks.items ++ reverse (others more) }
        ensures waits { self.new.is_starved ≡ false → self.new.later.items ≡ self.old.later.items ++ reverse (removals more) }
        ensures count { self.new.is_starved ≡ false → length self.new.tasks.items + length self.new.later.items ≡ length self.old.tasks.items + length self.old.later.items + length more }
        ensures starved { self.old.is_starved ≡ true → self.new.is_starved ≡ true }
        ensures off { self.new.is_off ≡ self.old.is_off }
        ensures left { self.new.left_out ≡ self.old.left_out }
        ensures tally { self.new.tally ≡ self.old.tally }
        ensures busy { self.new.busy ≡ self.old.busy }
        ensures again { self.new.again ≡ self.old.again }
    {
        if add_all(&mut self.tasks, &mut self.later, more).is_err() {
            self.is_starved = true;
        }
    }

    /// Where nothing else is to do, nor being done, the removals are.
    fn reach_later(&mut self)
        ensures tasks { self.new.tasks.items ≡ to_do self.old.busy self.old.tasks.items self.old.later.items }
        ensures later { self.new.later.items ≡ still_later self.old.busy self.old.tasks.items self.old.later.items }
        ensures count { length self.new.tasks.items + length self.new.later.items ≡ length self.old.tasks.items + length self.old.later.items }
        ensures starved { self.new.is_starved ≡ self.old.is_starved }
        ensures off { self.new.is_off ≡ self.old.is_off }
        ensures left { self.new.left_out ≡ self.old.left_out }
        ensures tally { self.new.tally ≡ self.old.tally }
        ensures busy { self.new.busy ≡ self.old.busy }
        ensures again { self.new.again ≡ self.old.again }
    {
        if self.busy == 0 && self.tasks.is_empty() {
            mem::swap(&mut self.tasks, &mut self.later);
        }
    }

    /// The tasks that are to do aren't begun, nor those that wait.
    fn leave_out(&mut self)
        ensures none { self.new.tasks.items ≡ [] }
        ensures later { self.new.later.items ≡ [] }
        ensures left { self.new.left_out ≡ capped_sum self.old.left_out (length self.old.tasks.items + length self.old.later.items) }
        ensures off { self.new.is_off ≡ self.old.is_off }
        ensures starved { self.new.is_starved ≡ self.old.is_starved }
        ensures tally { self.new.tally ≡ self.old.tally }
        ensures busy { self.new.busy ≡ self.old.busy }
        ensures again { self.new.again ≡ self.old.again }
    {
        let count = self.not_begun();
        self.left_out = self.left_out.saturating_add(count);
        self.tasks.clear();
        self.later.clear();
    }

    /// What is said at the end: how many tasks weren't begun, and how one goes on where no server answers any more.
    fn left_out_said(&self, alloc: Global) -> Result<Bytes, AllocError>
        ensures { IfOk result (λ text. text ≡ (if self.now.is_off || self.now.is_starved then left_out_text self.now.left_out self.now.again.lost else [])) }
    {
        if self.is_off || self.is_starved {
            left_out_text(alloc, self.left_out, self.again.lost.as_slice())
        } else {
            Ok(Items::new(alloc))
        }
    }

    /// That is said.
    fn say_left_out<P: Screen>(&mut self, alloc: Global, screen: &P) {
        match self.left_out_said(alloc) {
            Ok(text) => self.say(screen, text.as_slice()),
            Err(AllocError) => self.is_starved = true,
        }
    }

    /// What is said where the program is ended now: how far it is, and how one goes on.
    fn stopped_said(&self, alloc: Global) -> Result<Bytes, AllocError>
        ensures { IfOk result (λ text. text ≡ stopped_line self.now.tally (capped_sum (length self.now.tasks.items + length self.now.later.items) self.now.busy) self.now.again.stopped) }
    {
        stopped_line(
            alloc,
            self.tally,
            self.left(),
            self.again.stopped.as_slice(),
        )
    }

    /// That is to be said there.
    fn keep<P: Keeps>(&self, alloc: Global, screen: &P) {
        if self.is_quiet {
            return;
        }
        if let Ok(line) = self.stopped_said(alloc) {
            screen.keep(line.as_slice());
        }
    }

    /// The next task, where there is one: it is being done then, and no removal is begun before it is done.
    fn next(&mut self) -> Option<Task>
        ensures taken { IfSome result (λ task. self.old.tasks.items ≡ self.new.tasks.items ++ task ∷ []) }
        ensures busy { IfSome result (λ task. self.new.busy ≡ capped_sum self.old.busy 1) }
        ensures none { result ≡ None → (self.old.tasks.items ≡ []) × (self.new.busy ≡ self.old.busy) }
        ensures later { self.new.later.items ≡ self.old.later.items }
        ensures starved { self.new.is_starved ≡ self.old.is_starved }
        ensures off { self.new.is_off ≡ self.old.is_off }
        ensures left { self.new.left_out ≡ self.old.left_out }
        ensures tally { self.new.tally ≡ self.old.tally }
        ensures again { self.new.again ≡ self.old.again }
    {
        let task = self.tasks.pop()?;
        self.busy = self.busy.saturating_add(1);
        Some(task)
    }

    /// What a task came to counts, and what comes of it is to do, removals last of all. Once there is no server, or
    /// memory ran out, nothing is.
    fn count_in(&mut self, alloc: Global, visited: Visited)
        ensures tally { self.new.tally ≡ with_visit self.old.tally visited }
        ensures off { self.new.is_off ≡ (self.old.is_off || visited.is_off) }
        ensures none { self.new.is_off ≡ true → (self.new.tasks.items ≡ []) × (self.new.later.items ≡ []) }
        ensures spent { self.new.is_starved ≡ true → (self.new.tasks.items ≡ []) × (self.new.later.items ≡ []) }
        ensures all { self.new.is_starved ≡ false → capped_sum self.new.left_out (length self.new.tasks.items + length self.new.later.items)
            ≡ capped_sum (capped_sum (capped_sum self.old.left_out visited.left) (length self.old.tasks.items + length self.old.later.items)) (length visited.more) }
        ensures least { capped_sum self.old.left_out visited.left ≤ self.new.left_out }
        ensures comes { self.new.is_off ≡ false → self.new.is_starved ≡ false → self.new.tasks.items
            ≡ to_do self.new.busy (self.old.tasks.items ++ reverse (others visited.more)) (self.old.later.items ++ reverse (removals visited.more)) }
        ensures waits { self.new.is_off ≡ false → self.new.is_starved ≡ false → self.new.later.items
            ≡ still_later self.new.busy (self.old.tasks.items ++ reverse (others visited.more)) (self.old.later.items ++ reverse (removals visited.more)) }
        ensures ends { self.new.busy ≡ 0 → self.new.tasks.items ≡ [] → self.new.later.items ≡ [] }
        ensures starved { self.old.is_starved ≡ true → self.new.is_starved ≡ true }
        ensures busy { self.new.busy ≡ self.old.busy - 1 }
        ensures again { self.new.again ≡ self.old.again }
    {
        self.busy = self.busy.saturating_sub(1);
        self.tally = self.tally.with(&visited);
        self.is_off = self.is_off || visited.is_off;
        self.left_out = self.left_out.saturating_add(visited.left);
        let mut visited = visited;
        let more = mem::replace(&mut visited.more, Items::new(alloc));
        drop(visited);
        self.add(more);
        if self.is_off || self.is_starved {
            self.leave_out();
        } else {
            self.reach_later();
        }
    }

    /// Memory ran out in a task: nothing is to do any more.
    fn starve(&mut self)
        ensures starved { self.new.is_starved ≡ true }
        ensures none { (self.new.tasks.items ≡ []) × (self.new.later.items ≡ []) }
        ensures left { self.new.left_out ≡ capped_sum self.old.left_out (length self.old.tasks.items + length self.old.later.items) }
        ensures busy { self.new.busy ≡ self.old.busy - 1 }
        ensures off { self.new.is_off ≡ self.old.is_off }
        ensures tally { self.new.tally ≡ self.old.tally }
        ensures again { self.new.again ≡ self.old.again }
    {
        self.busy = self.busy.saturating_sub(1);
        self.is_starved = true;
        self.leave_out();
    }

    /// What the tasks came to; none where memory ran out.
    fn tally_of(self) -> Option<Tally>
        ensures { result ≡ (if self.is_starved then None else Some self.tally) }
    {
        if self.is_starved {
            None
        } else {
            Some(self.tally)
        }
    }

    /// A task was done, which is said.
    fn note_done<P: Screen + Keeps>(&mut self, alloc: Global, screen: &P, visited: Visited) {
        if !self.is_quiet {
            self.say(screen, visited.news.as_slice());
        }
        self.say(screen, visited.note.as_slice());
        self.count_in(alloc, visited);
        self.keep(alloc, screen);
    }
}

impl Pool {
    /// These are shared.
    fn of(jobs: Jobs) -> Pool {
        Pool {
            jobs: Mutex::new(jobs),
            news: Condvar::new(),
        }
    }

    /// One task is to do, of which less is said where it is quiet, of a program that runs in this folder.
    pub(crate) fn new(
        alloc: Global,
        here: &Option<LocalPath>,
        task: Task,
        is_quiet: bool,
    ) -> Result<Pool, AllocError> {
        Ok(Pool::of(Jobs::one(alloc, here, task, is_quiet)?))
    }

    /// A command is under way that isn't done in tasks: only that it waits is shown.
    pub(crate) fn without_tasks(alloc: Global) -> Pool {
        let again = Again {
            stopped: Items::new(alloc),
            lost: Items::new(alloc),
        };
        Pool::of(Jobs::of(alloc, Vec::new(alloc), again, true, false))
    }

    /// It is begun: how far it is, is to be said where the program is ended.
    pub(crate) fn begin<W: Wait, P: Keeps>(&self, rt: &W, alloc: Global, screen: &P) {
        self.jobs.lock(rt).keep(alloc, screen);
    }

    /// The next task; none once all are done.
    pub(crate) fn take<W: Wait>(&self, rt: &W) -> Option<Task> {
        let mut jobs = self.jobs.lock(rt);
        for _turn in rt.forever() {
            if let Some(task) = jobs.next() {
                return Some(task);
            }
            if jobs.busy == 0 {
                return None;
            }
            jobs = self.news.wait(rt, jobs);
        }
        unreachable!()
    }

    /// The next task, where there is one now.
    pub(crate) fn take_now<W: Wait>(&self, rt: &W) -> Option<Task> {
        self.jobs.lock(rt).next()
    }

    /// The next task, where it is the only one.
    pub(crate) fn take_alone<W: Wait>(&self, rt: &W) -> Option<Task> {
        let mut jobs = self.jobs.lock(rt);
        if jobs.tasks.len() > 1 {
            return None;
        }
        jobs.next()
    }

    /// A task was done.
    pub(crate) fn note_done<W: Wait, P: Screen + Keeps>(
        &self,
        rt: &W,
        alloc: Global,
        screen: &P,
        visited: Visited,
    ) {
        self.jobs.lock(rt).note_done(alloc, screen, visited);
        self.news.notify_all();
    }

    /// Memory ran out in a task: no further one is begun.
    pub(crate) fn starve<W: Wait>(&self, rt: &W) {
        self.jobs.lock(rt).starve();
        self.news.notify_all();
    }

    /// Whether there is a task that isn't done.
    pub(crate) fn goes_on<W: Wait>(&self, rt: &W) -> bool {
        self.jobs.lock(rt).left() > 0
    }

    /// Whether all is done, and told to be.
    pub(crate) fn is_over<W: Wait>(&self, rt: &W) -> bool {
        self.jobs.lock(rt).is_over
    }

    /// All is done: the line that says how far it is goes, and isn't shown again, nor said at an end. What wasn't
    /// begun is counted.
    pub(crate) fn end<W: Wait, P: Screen + Keeps>(&self, rt: &W, alloc: Global, screen: &P) {
        let mut jobs = self.jobs.lock(rt);
        jobs.is_over = true;
        jobs.erase(screen);
        jobs.say_left_out(alloc, screen);
        screen.keep(b"\n");
    }

    /// Shows how far it is, unless all is done.
    pub(crate) fn show<W: Wait, P: Screen>(
        &self,
        rt: &W,
        alloc: Global,
        screen: &P,
        wire: u64,
        spent: u64,
        still: u64,
    ) {
        let mut jobs = self.jobs.lock(rt);
        if jobs.is_over {
            return;
        }
        let glance = Glance {
            tally: jobs.tally,
            left: jobs.left(),
            wire,
            spent,
            still,
        };
        if let Ok(Some(line)) = shown_line(alloc, jobs.counts, glance) {
            screen.say(line.as_slice());
            jobs.is_shown = true;
        }
    }

    /// What the tasks came to, once no thread works on them; none where memory ran out.
    pub(crate) fn into_tally(self) -> Option<Tally> {
        let Pool { jobs, news } = self;
        drop(news);
        jobs.into_inner().tally_of()
    }
}
