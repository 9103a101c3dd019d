//! How a directory goes with all that is in it: what is in it first. `specs/Removing.antt` says what is asked for.

ghost use Rattle.std.specs.Prelude.{◌≡◌, ◌++◌, [], length, IfOk, OnOk};
ghost use Rattle.shell_walks.specs.Removing.{both, came_listed, came_of, deed_of, goes, inner, Lists, nothing_said, opened, opens, RemovesAll, RemovesIf, RemovesOne, stays};

use crate::asking::{Deed, ask_on};
use crate::remote::{Answer, Remote, Why};
use crate::tasks::longer;
use crate::telling::{REMOVED, is_dir, is_off, path_line, put_why, why_of};
use command_text::path::Path;
use lb_base::items::{Bytes, Items, Name};
use shell_words::path::copy_of;
use std::alloc::{AllocError, Global};

/// What is to go.
#[derive(Drop)]
pub(crate) struct Doomed {
    pub(crate) path: Path,
    /// Whether it is a directory, whose entries have gone.
    pub(crate) emptied: bool,
}

/// What came of what was to go, in lines.
#[derive(Drop)]
pub struct Removal {
    /// What didn't go, and why.
    pub note: Bytes,
    /// What went.
    pub news: Bytes,
    /// Whether there is no connection, nor can one be had.
    pub is_off: bool,
}

/// What came of all that was to go.
#[derive(Drop)]
pub struct Gone {
    pub said: Removal,
    /// How much of it wasn't asked for, of what was known: no server answers.
    pub left: u64,
}

/// What came of one thing that was to go.
#[derive(Drop)]
pub(crate) struct Came {
    /// What is to go next, the last first.
    pub(crate) more: Items<Doomed>,
    pub(crate) said: Removal,
}

/// Nothing is said yet.
fn nothing_said(alloc: Global) -> Removal
    ensures { result ≡ nothing_said }
{
    Removal {
        note: Items::new(alloc),
        news: Items::new(alloc),
        is_off: false,
    }
}

/// It stays, and why is said.
fn stays(alloc: Global, path: &[Name], why: Why) -> Result<Came, AllocError>
    ensures { IfOk result (λ c. c ≡ stays path.now why) }
{
    let mut words = Items::new(alloc);
    put_why(alloc, &mut words, why)?;
    let note = path_line(alloc, path, words.as_slice())?;
    Ok(Came {
        more: Items::new(alloc),
        said: Removal {
            note,
            news: Items::new(alloc),
            is_off: is_off(why),
        },
    })
}

/// It went, which is said.
fn goes(alloc: Global, path: &[Name]) -> Result<Came, AllocError>
    ensures { IfOk result (λ c. c ≡ goes path.now) }
{
    let news = path_line(alloc, path, REMOVED)?;
    Ok(Came {
        more: Items::new(alloc),
        said: Removal {
            note: Items::new(alloc),
            news,
            is_off: false,
        },
    })
}

/// What has a name in a directory is to go, behind what is to go already.
fn doom(
    alloc: Global,
    more: &mut Items<Doomed>,
    path: &[Name],
    name: &[u8],
) -> Result<(), AllocError>
    ensures { OnOk result (more.new ≡ more.old ++ inner path.now name.now) }
{
    more.push(Doomed {
        path: longer(alloc, path, name)?,
        emptied: false,
    })?;
    Ok(())
}

/// What is in a directory is to go before the directory.
fn opened(alloc: Global, path: &[Name], names: &[Name]) -> Result<Items<Doomed>, AllocError>
    ensures { IfOk result (λ more. more ≡ opened path.now names.now) }
{
    let mut more = Items::new(alloc);
    more.push(Doomed {
        path: copy_of(alloc, path)?,
        emptied: true,
    })?;
    for name in names {
        doom(alloc, &mut more, path, name.as_slice())?;
    }
    Ok(more)
}

/// What comes of what was asked to go.
fn came_of(alloc: Global, path: &[Name], answer: &Answer) -> Result<Came, AllocError>
    ensures { IfOk result (λ c. c ≡ came_of path.now answer.now) }
{
    match answer {
        Answer::Done => goes(alloc, path),
        answer => stays(alloc, path, why_of(answer)),
    }
}

/// What comes of a directory that was listed.
fn came_listed(alloc: Global, path: &[Name], answer: &Answer) -> Result<Came, AllocError>
    ensures { IfOk result (λ c. c ≡ came_listed path.now answer.now) }
{
    match answer {
        Answer::Names(listed) => Ok(Came {
            more: opened(alloc, path, listed.names.as_slice())?,
            said: nothing_said(alloc),
        }),
        answer => stays(alloc, path, why_of(answer)),
    }
}

/// By what it goes.
fn deed_of(emptied: bool) -> Deed
    ensures { result ≡ deed_of emptied }
{
    if emptied {
        Deed::RemoveDir
    } else {
        Deed::Remove
    }
}

/// Whether it is a directory that is to be opened.
fn opens(answer: &Answer, emptied: bool) -> bool
    ensures { result ≡ opens answer.now emptied }
{
    is_dir(answer) && !emptied
}

/// A directory is listed, and goes behind what is in it.
fn list<R: Remote>(alloc: Global, remote: &mut R, path: &[Name]) -> Result<Came, AllocError>
    ensures { IfOk result (λ c. Lists R.asks remote.old path.now c remote.new) }
{
    let answer = ask_on(alloc, remote, Deed::List, path)?;
    came_listed(alloc, path, &answer)
}

/// What was asked to go is listed, where it is a directory.
fn remove_on<R: Remote>(
    alloc: Global,
    remote: &mut R,
    opens: bool,
    path: &[Name],
    answer: &Answer,
) -> Result<Came, AllocError>
    ensures { IfOk result (λ c. RemovesIf R.asks remote.old opens path.now answer.now c remote.new) }
{
    if opens {
        list(alloc, remote, path)
    } else {
        came_of(alloc, path, answer)
    }
}

/// One thing goes, or what is in it is to go first.
fn remove_one<R: Remote>(alloc: Global, remote: &mut R, one: &Doomed) -> Result<Came, AllocError>
    ensures { IfOk result (λ c. RemovesOne R.asks remote.old one.now c remote.new) }
{
    let path = one.path.as_slice();
    let answer = ask_on(alloc, remote, deed_of(one.emptied), path)?;
    remove_on(alloc, remote, opens(&answer, one.emptied), path, &answer)
}

/// This is said, too.
fn say(removal: &mut Removal, said: &Removal) -> Result<(), AllocError>
    ensures { OnOk result (removal.new ≡ both removal.old said.now) }
{
    removal.note.extend_from_slice(said.note.as_slice())?;
    removal.news.extend_from_slice(said.news.as_slice())?;
    removal.is_off = removal.is_off || said.is_off;
    Ok(())
}

/// What came of one thing goes behind what is to go, and is said.
fn add(doomed: &mut Vec<Doomed>, removal: &mut Removal, came: Came) -> Result<(), AllocError>
    ensures { OnOk result ((doomed.new.items ≡ doomed.old.items ++ came.more) × (removal.new ≡ both removal.old came.said)) }
{
    let Came { more, said } = came;
    let mut more = more.into_vec();
    doomed.append(&mut more)?;
    say(removal, &said)
}

/// How much is to go still.
fn count_of(doomed: &Vec<Doomed>) -> u64
    ensures { result ≡ length doomed.now.items }
{
    doomed.len() as u64
}

/// What has a path goes, with all that is in it. What does and what doesn't is said, a line for each. Where no
/// server answers, that is said once, nothing else is asked for, and what is left is counted.
pub fn remove_all<R: Remote>(
    alloc: Global,
    remote: &mut R,
    path: &[Name],
) -> Result<Gone, AllocError>
    ensures { IfOk result (λ g. RemovesAll R.asks remote.old path.now remote.new g) }
{
    let mut removal = nothing_said(alloc);
    let mut doomed = Vec::new(alloc);
    doomed.push(Doomed {
        path: copy_of(alloc, path)?,
        emptied: false,
    })?;
    for _turn in 0..u64::MAX {
        if removal.is_off {
            return Ok(Gone {
                said: removal,
                left: count_of(&doomed),
            });
        }
        match doomed.pop() {
            Some(one) => {
                let came = remove_one(alloc, remote, &one)?;
                add(&mut doomed, &mut removal, came)?;
            }
            None => {
                return Ok(Gone {
                    said: removal,
                    left: 0,
                });
            }
        }
    }
    // More than can be counted.
    Err(AllocError)
}
