//! The lines that say how far a command is, and what it came to: `specs/Telling.antt`.

ghost use Rattle.std.specs.Prelude.{◌≡◌, ◌++◌, IfOk, OnOk, codes, decimal};
ghost use Rattle.shell_telling.specs.Telling.{count_text, big_text, middle_text, size_text, undone_text, counts_text, end_line, rate_text, left_of, left_text, files_text, line_part};
ghost use Rattle.shell_telling.specs.Telling.{pace_text, progress_line, waits_text, waiting_line, shown_line, left_out_text, stopped_line, unsure_line};
ghost use Rattle.shell_words.specs.Paths.{is_absolute};
ghost use Rattle.shell_telling.specs.Telling.{again_words, again_with, put_words, put_again, get_words, within_words, get_again, again_text};
ghost use Rattle.shell_telling.specs.Telling.{is_deep, lost_text, again_of, behind, way_on};
ghost use Rattle.shell_telling.specs.Telling.{prompt_text, number_text, line_text};

use crate::tally::Tally;
use lb_base::items::{Bytes, Items, Name};
use shell_walks::tasks::Task;
use shell_walks::telling::path_text;
use shell_words::local::LocalPath;
use shell_words::quoting::quoted;
use std::alloc::{AllocError, Global};
use std::fmt::Write;

/// How far a command is.
#[derive(Clone, Copy)]
pub struct Glance {
    pub tally: Tally,
    /// How many tasks are known that aren't done.
    pub left: u64,
    /// How many bytes went over the line.
    pub wire: u64,
    /// How many milliseconds it took.
    pub spent: u64,
    /// For how many milliseconds no byte has gone over the line.
    pub still: u64,
}

/// The words that go on with a command; no bytes where none are said.
pub struct Again {
    /// Where the program is ended in its midst.
    pub stopped: Bytes,
    /// Where no server answers any more, or memory ran out.
    pub lost: Bytes,
}

// By hand: docs/proving/dropping.md.
impl Drop for Again {
    fn drop(self) {
        let Again { stopped, lost } = self;
        drop(stopped);
        drop(lost);
    }
}

/// Behind how many such milliseconds it is said that the server is waited for.
const STILL: u64 = 2_000;

/// That it is.
fn waits_words() -> &'static [u8]
    ensures { result.now ≡ waits_text }
{
    b"waiting (the line, a lease, or the server's start?)"
}

/// So many of something.
fn count_text(alloc: Global, count: u64, what: &str) -> Result<Bytes, AllocError>
    ensures { IfOk result (λ text. text ≡ count_text count what.now) }
{
    let mut text = String::new(alloc);
    if count == 1 {
        write!(text, "1 {what}")?;
    } else {
        write!(text, "{count} {what}s")?;
    }
    Ok(Items::from_vec(text.into_bytes()))
}

/// So many tenths of a million bytes.
fn big_text(alloc: Global, tenths: u64) -> Result<Bytes, AllocError>
    ensures { IfOk result (λ text. text ≡ big_text tenths) }
{
    let mut text = String::new(alloc);
    let whole = tenths / 10;
    let tenth = tenths % 10;
    write!(text, "{whole}.{tenth} MB")?;
    Ok(Items::from_vec(text.into_bytes()))
}

/// So many hundredths of a million bytes.
fn middle_text(alloc: Global, hundredths: u64) -> Result<Bytes, AllocError>
    ensures { IfOk result (λ text. text ≡ middle_text hundredths) }
{
    let mut text = String::new(alloc);
    let whole = hundredths / 100;
    let tenth = hundredths / 10 % 10;
    let hundredth = hundredths % 10;
    write!(text, "{whole}.{tenth}{hundredth} MB")?;
    Ok(Items::from_vec(text.into_bytes()))
}

/// So many bytes, in millions where they are many.
fn size_text(alloc: Global, bytes: u64) -> Result<Bytes, AllocError>
    ensures { IfOk result (λ text. text ≡ size_text bytes) }
{
    if bytes < 10_000 {
        count_text(alloc, bytes, "byte")
    } else if bytes < 10_000_000 {
        middle_text(alloc, bytes / 10_000)
    } else {
        big_text(alloc, bytes / 100_000)
    }
}

/// How many names were said that weren't done, where there are some.
fn undone_text(alloc: Global, count: u64) -> Result<Bytes, AllocError>
    ensures { IfOk result (λ text. text ≡ undone_text count) }
{
    let mut text = String::new(alloc);
    if count > 0 {
        write!(text, "; {count} not done")?;
    }
    Ok(Items::from_vec(text.into_bytes()))
}

/// What is in its place now, and what went over the line for it.
fn counts_text(alloc: Global, tally: Tally, wire: u64) -> Result<Bytes, AllocError>
    ensures { IfOk result (λ text. text ≡ counts_text tally wire) }
{
    let mut out = count_text(alloc, tally.files, "file")?;
    let contents = size_text(alloc, tally.bytes)?;
    let line = size_text(alloc, wire)?;
    out.extend_from_slice(b", ")?;
    out.extend_from_slice(contents.as_slice())?;
    out.extend_from_slice(b"; ")?;
    out.extend_from_slice(line.as_slice())?;
    out.extend_from_slice(b" on the line")?;
    Ok(out)
}

/// The line at a command's end.
pub fn end_line(alloc: Global, tally: Tally, wire: u64) -> Result<Bytes, AllocError>
    ensures { IfOk result (λ text. text ≡ end_line tally wire) }
{
    let mut out = counts_text(alloc, tally, wire)?;
    let undone = undone_text(alloc, tally.undone)?;
    out.extend_from_slice(undone.as_slice())?;
    out.extend_from_slice(b"\n")?;
    Ok(out)
}

/// How many bytes went over the line in a second.
fn rate_text(alloc: Global, wire: u64, spent: u64) -> Result<Bytes, AllocError>
    ensures { IfOk result (λ text. text ≡ rate_text wire spent) }
{
    let rate = if spent == 0 {
        0
    } else {
        (wire / spent).saturating_mul(1000)
    };
    let mut out = size_text(alloc, rate)?;
    out.extend_from_slice(b"/s")?;
    Ok(out)
}

/// How many seconds are left, where as many tasks as were done took so many milliseconds.
fn left_of(done: u64, left: u64, spent: u64) -> u64
    ensures { result ≡ left_of done left spent }
{
    if done == 0 {
        0
    } else {
        (spent / 1000).saturating_mul(left) / done
    }
}

/// How many seconds are left, as far as can be told.
fn left_text(alloc: Global, done: u64, left: u64, spent: u64) -> Result<Bytes, AllocError>
    ensures { IfOk result (λ text. text ≡ left_text done left spent) }
{
    let mut text = String::new(alloc);
    if done > 0 && left > 0 {
        let seconds = left_of(done, left, spent);
        write!(text, ", {seconds} s left")?;
    }
    Ok(Items::from_vec(text.into_bytes()))
}

/// So many files of those that are known.
fn files_text(alloc: Global, done: u64, left: u64) -> Result<Bytes, AllocError>
    ensures { IfOk result (λ text. text ≡ files_text done left) }
{
    let all = count_text(alloc, done.saturating_add(left), "file")?;
    let mut out = Items::new(alloc);
    put_count(alloc, &mut out, done)?;
    out.extend_from_slice(b" of ")?;
    out.extend_from_slice(all.as_slice())?;
    Ok(out)
}

/// What went over the line, and how fast.
fn line_part(alloc: Global, wire: u64, spent: u64) -> Result<Bytes, AllocError>
    ensures { IfOk result (λ text. text ≡ line_part wire spent) }
{
    let rate = rate_text(alloc, wire, spent)?;
    let mut out = size_text(alloc, wire)?;
    out.extend_from_slice(b" on the line, ")?;
    out.extend_from_slice(rate.as_slice())?;
    Ok(out)
}

/// What went over the line, how fast, and the seconds that are left; or that it waits.
fn pace_text(alloc: Global, glance: Glance) -> Result<Bytes, AllocError>
    ensures { IfOk result (λ text. text ≡ pace_text glance) }
{
    if glance.still >= STILL {
        return Items::copy_of(alloc, waits_words());
    }
    let mut out = line_part(alloc, glance.wire, glance.spent)?;
    let rest = left_text(alloc, glance.tally.files, glance.left, glance.spent)?;
    out.extend_from_slice(rest.as_slice())?;
    Ok(out)
}

/// How far a command is, in the place of the line that stands there.
fn progress_line(alloc: Global, glance: Glance) -> Result<Bytes, AllocError>
    ensures { IfOk result (λ text. text ≡ progress_line glance) }
{
    let files = files_text(alloc, glance.tally.files, glance.left)?;
    let contents = size_text(alloc, glance.tally.bytes)?;
    let pace = pace_text(alloc, glance)?;
    let mut out = Items::copy_of(alloc, b"\r")?;
    out.extend_from_slice(files.as_slice())?;
    out.extend_from_slice(b", ")?;
    out.extend_from_slice(contents.as_slice())?;
    out.extend_from_slice(b"; ")?;
    out.extend_from_slice(pace.as_slice())?;
    out.extend_from_slice(b"\x1b[K")?;
    Ok(out)
}

/// That a command waits which counts no files, in the place of the line that stands there.
fn waiting_line(alloc: Global) -> Result<Bytes, AllocError>
    ensures { IfOk result (λ text. text ≡ waiting_line) }
{
    let mut out = Items::copy_of(alloc, b"\r")?;
    out.extend_from_slice(waits_words())?;
    out.extend_from_slice(b"\x1b[K")?;
    Ok(out)
}

/// How far a command is, where there is something to show: of one that counts no files, only that it waits.
pub fn shown_line(alloc: Global, counts: bool, glance: Glance) -> Result<Option<Bytes>, AllocError>
    ensures { IfOk result (λ line. line ≡ shown_line counts glance) }
{
    if counts {
        Ok(Some(progress_line(alloc, glance)?))
    } else if glance.still >= STILL {
        Ok(Some(waiting_line(alloc)?))
    } else {
        Ok(None)
    }
}

/// That what follows goes on with a command, and where it is typed.
fn again_words() -> &'static [u8]
    ensures { result.now ≡ again_words }
{
    b"to go on in lbfs shell: "
}

/// Whether a path of the host goes from its root.
fn is_absolute(local: &str) -> bool
    ensures { result ≡ is_absolute local.now }
{
    local.as_bytes().starts_with(b"/")
}

/// What goes on with a command, and that it does. There is nothing where LOCAL is no path from the root: elsewhere, or
/// behind an `lcd`, that would name something else.
fn again_with(alloc: Global, local: &str, command: &[u8]) -> Result<Bytes, AllocError>
    ensures { IfOk result (λ text. text ≡ again_with local.now command.now) }
{
    if !is_absolute(local) {
        return Ok(Items::new(alloc));
    }
    let mut out = Items::copy_of(alloc, again_words())?;
    out.extend_from_slice(command)?;
    Ok(out)
}

/// The command that goes on with what is stored, and its option.
fn put_words(deep: bool, deletes: bool) -> &'static [u8]
    ensures { result.now ≡ put_words deep deletes }
{
    if !deep {
        b"put "
    } else if deletes {
        b"sync --delete "
    } else {
        b"sync "
    }
}

/// What goes on with a file or a folder that is stored.
fn put_again(
    alloc: Global,
    deep: bool,
    deletes: bool,
    local: &str,
    path: &[Name],
) -> Result<Bytes, AllocError>
    ensures { IfOk result (λ text. text ≡ put_again deep deletes local.now path.now) }
{
    let here = quoted(alloc, local.as_bytes())?;
    let there = path_text(alloc, path)?;
    let mut out = Items::copy_of(alloc, put_words(deep, deletes))?;
    out.extend_from_slice(here.as_slice())?;
    out.extend_from_slice(b" ")?;
    out.extend_from_slice(there.as_slice())?;
    Ok(out)
}

/// The command that goes on with what is fetched, and its option.
fn get_words(deep: bool) -> &'static [u8]
    ensures { result.now ≡ get_words deep }
{
    if deep { b"get -r " } else { b"get " }
}

/// What stands behind its path: of a directory what is in it is meant.
fn within_words(deep: bool) -> &'static [u8]
    ensures { result.now ≡ within_words deep }
{
    if deep { b"/. " } else { b" " }
}

/// What goes on with a file or a directory that is fetched.
fn get_again(alloc: Global, deep: bool, path: &[Name], local: &str) -> Result<Bytes, AllocError>
    ensures { IfOk result (λ text. text ≡ get_again deep path.now local.now) }
{
    let there = path_text(alloc, path)?;
    let here = quoted(alloc, local.as_bytes())?;
    let mut out = Items::copy_of(alloc, get_words(deep))?;
    out.extend_from_slice(there.as_slice())?;
    out.extend_from_slice(within_words(deep))?;
    out.extend_from_slice(here.as_slice())?;
    Ok(out)
}

/// What goes on with a task, where it was ended in the midst of what came from it, of a program that runs in this
/// folder, if that is known.
fn again_text(alloc: Global, here: &Option<LocalPath>, task: &Task) -> Result<Bytes, AllocError>
    ensures { IfOk result (λ text. text ≡ again_text here.now task.now) }
{
    match task {
        Task::Put {
            local,
            path,
            storing,
        } => {
            let local = LocalPath::whole(alloc, here, local.as_str())?;
            let command = put_again(
                alloc,
                storing.deep,
                storing.deletes,
                local.as_str(),
                path.as_slice(),
            )?;
            again_with(alloc, local.as_str(), command.as_slice())
        }
        Task::Get {
            path,
            local,
            deep,
            ..
        } => {
            let local = LocalPath::whole(alloc, here, local.as_str())?;
            let command = get_again(alloc, *deep, path.as_slice(), local.as_str())?;
            again_with(alloc, local.as_str(), command.as_slice())
        }
        Task::Remove(_) => Ok(Items::new(alloc)),
    }
}

/// Whether a task is one of a folder or a directory.
fn is_deep(task: &Task) -> bool
    ensures { result ≡ is_deep task.now }
{
    match task {
        Task::Put { storing, .. } => storing.deep,
        Task::Get { deep, .. } => *deep,
        Task::Remove(_) => false,
    }
}

/// What is said of that where no server answers any more: of one file nothing is.
fn lost_text(alloc: Global, deep: bool, again: &[u8]) -> Result<Bytes, AllocError>
    ensures { IfOk result (λ text. text ≡ lost_text deep again.now) }
{
    if deep {
        Items::copy_of(alloc, again)
    } else {
        Ok(Items::new(alloc))
    }
}

/// The words that go on with a task, of a program that runs in this folder, if that is known.
pub fn again_of(alloc: Global, here: &Option<LocalPath>, task: &Task) -> Result<Again, AllocError>
    ensures { IfOk result (λ again. again ≡ again_of here.now task.now) }
{
    let stopped = again_text(alloc, here, task)?;
    let lost = lost_text(alloc, is_deep(task), stopped.as_slice())?;
    Ok(Again { stopped, lost })
}

/// These words go behind what is said, where there are some.
fn put_behind(out: &mut Bytes, again: &[u8]) -> Result<(), AllocError>
    ensures { OnOk result (out.new ≡ out.old ++ behind again.now) }
{
    if again.len() == 0 {
        return Ok(());
    }
    out.extend_from_slice(b"; ")?;
    out.extend_from_slice(again)
}

/// What is said of a command in the midst of which the program was ended.
pub fn stopped_line(
    alloc: Global,
    tally: Tally,
    left: u64,
    again: &[u8],
) -> Result<Bytes, AllocError>
    ensures { IfOk result (λ text. text ≡ stopped_line tally left again.now) }
{
    let files = files_text(alloc, tally.files, left)?;
    let contents = size_text(alloc, tally.bytes)?;
    let mut out = Items::copy_of(alloc, b"stopped: ")?;
    out.extend_from_slice(files.as_slice())?;
    out.extend_from_slice(b", ")?;
    out.extend_from_slice(contents.as_slice())?;
    put_behind(&mut out, again)?;
    out.extend_from_slice(b"\n")?;
    Ok(out)
}

/// What is said of a command in the midst of which the program was ended, where it isn't done in tasks.
pub fn unsure_line(deep: bool) -> &'static [u8]
    ensures { result.now ≡ unsure_line deep }
{
    if deep {
        b"stopped: it may have been done, wholly or in part, or not\n"
    } else {
        b"stopped: it may have been done, or not\n"
    }
}

/// A number behind what is there.
fn put_count(alloc: Global, out: &mut Bytes, count: u64) -> Result<(), AllocError>
    ensures { OnOk result (out.new ≡ out.old ++ decimal count) }
{
    let mut text = String::new(alloc);
    write!(text, "{count}")?;
    out.extend_from_slice(text.as_bytes())
}

/// How one goes on, where there is a way.
fn way_on(alloc: Global, again: &[u8]) -> Result<Bytes, AllocError>
    ensures { IfOk result (λ text. text ≡ way_on again.now) }
{
    if again.len() == 0 {
        return Ok(Items::new(alloc));
    }
    let mut out = Items::copy_of(alloc, again)?;
    out.extend_from_slice(b"\n")?;
    Ok(out)
}

/// What is said of tasks that weren't begun, and were known: a directory among them may have had many more. Where none
/// was known it is said how one goes on.
pub fn left_out_text(alloc: Global, count: u64, again: &[u8]) -> Result<Bytes, AllocError>
    ensures { IfOk result (λ text. text ≡ left_out_text count again.now) }
{
    if count == 0 {
        return way_on(alloc, again);
    }
    let mut out = Items::copy_of(alloc, b"not begun: at least ")?;
    put_count(alloc, &mut out, count)?;
    out.extend_from_slice(b" more")?;
    put_behind(&mut out, again)?;
    out.extend_from_slice(b"\n")?;
    Ok(out)
}

/// The prompt of a shell that stands in this directory.
pub fn prompt_text(alloc: Global, place: &[Name]) -> Result<Bytes, AllocError>
    ensures { IfOk result (λ text. text ≡ prompt_text place.now) }
{
    let mut out = Items::copy_of(alloc, b"lbfs:")?;
    let path = path_text(alloc, place)?;
    out.extend_from_slice(path.as_slice())?;
    out.extend_from_slice(b"> ")?;
    Ok(out)
}

/// The number of a line, as it is named.
fn number_text(alloc: Global, number: u64) -> Result<Bytes, AllocError>
    ensures { IfOk result (λ text. text ≡ number_text number) }
{
    let mut text = String::new(alloc);
    write!(text, "line {number}")?;
    Ok(Items::from_vec(text.into_bytes()))
}

/// A line as it is named: by its number, and by its first word, if one was read.
pub fn line_text(alloc: Global, number: u64, first: &[u8]) -> Result<Bytes, AllocError>
    ensures { IfOk result (λ text. text ≡ line_text number first.now) }
{
    let mut out = number_text(alloc, number)?;
    if first.len() == 0 {
        return Ok(out);
    }
    let word = quoted(alloc, first)?;
    out.extend_from_slice(b": ")?;
    out.extend_from_slice(word.as_slice())?;
    Ok(out)
}
