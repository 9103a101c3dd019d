//! What an earlier form of the folder has of a change that was made and not carried out: the file `change`, a
//! list of what is to be done, which this form makes no more.
//!
//! Each line renames a file that was written beside its record's, or removes a node's files. The last line is
//! that of the head, so a list that ends otherwise isn't whole: no change was told of that, and nothing of it
//! is carried out.

use command_text::fields::number;
use log_store::edit::{Line, Task};
use log_store::which::Which;
use std::alloc::Global;
use std::fs::File;
use std::io::ErrorKind;
use std::rt::Files;
use std::{fs, io};
use system_files::disk_files::{READ_MOST, read_file, unless_gone};
use system_files::naming::held_by;
use system_files::paths::Paths;

/// How a whole list ends.
const LAST: &[u8] = b"+head\n";

/// The error of a line that no change has in its list.
fn no_line() -> io::Error {
    io::Error::from(ErrorKind::InvalidData)
}

/// Whether a line ends here.
fn ends_line(byte: &u8) -> bool {
    *byte == b'\n'
}

/// Adds what a line tells of a record.
fn add(lines: &mut Vec<Line>, which: Which, task: Task) -> io::Result<()> {
    lines.push(Line { which, task })?;
    Ok(())
}

/// Adds what a line of the list tells of records: `+NAME` puts a file in its place, `-ID` removes a node's. A
/// line that is neither is an error; an empty one, as behind the last line feed, tells nothing.
fn add_told(lines: &mut Vec<Line>, line: &[u8]) -> io::Result<()> {
    match line.split_first() {
        Some((b'+', text)) => match held_by(text) {
            Some(which) => add(lines, which, Task::Moves(0)),
            None => Err(no_line()),
        },
        Some((b'-', text)) => match number(text) {
            Some(id) => {
                add(lines, Which::Node(id), Task::Goes)?;
                add(lines, Which::Content(id), Task::Goes)
            }
            None => Err(no_line()),
        },
        Some(_) => Err(no_line()),
        None => Ok(()),
    }
}

/// What a list tells of records, as lines of a log would; nothing where it isn't whole.
pub(crate) fn lines_in(alloc: Global, list: &[u8]) -> io::Result<Vec<Line>> {
    let mut lines = Vec::new(alloc);
    if list.ends_with(LAST) {
        for line in list.split(ends_line) {
            add_told(&mut lines, line)?;
        }
    }
    Ok(lines)
}

/// What the list at a path tells of records; nothing where it isn't there, or isn't whole.
pub fn told_by<R: Files<File = File>>(rt: &R, alloc: Global, path: &str) -> io::Result<Vec<Line>> {
    match read_file(rt, alloc, path, READ_MOST)? {
        Some(list) => lines_in(alloc, list.as_slice()),
        None => Ok(Vec::new(alloc)),
    }
}

/// Carries out what a line tells. A list tells no bytes.
fn carry_out_line<R: Files>(rt: &R, paths: &mut Paths, line: &Line) -> io::Result<()> {
    paths.name(line.which)?;
    match &line.task {
        Task::Moves(_) => unless_gone(fs::rename(rt, paths.beside(), paths.at())),
        Task::Goes => unless_gone(fs::remove_file(rt, paths.at())),
        Task::Put(_) => Err(no_line()),
    }
}

/// Carries out what a list tells.
pub(crate) fn carry_out<R: Files>(rt: &R, paths: &mut Paths, lines: &[Line]) -> io::Result<()> {
    for line in lines {
        carry_out_line(rt, paths, line)?;
    }
    Ok(())
}
