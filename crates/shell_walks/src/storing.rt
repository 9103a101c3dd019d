//! How bytes become the content of a file: `specs/Storing.antt`.

ghost use Rattle.std.specs.Prelude.{◌≡◌, ◌∷◌, [], false, IfOk, OnErr};
ghost use Rattle.command_text.specs.declared.content.Part.TheVariants as part;
ghost use Rattle.shell_walks.specs.Fetched.{is_never_stored, is_stored_as};
ghost use Rattle.shell_walks.specs.Storing.{is_done, is_closed, made_file, opened_file, failed_as, closed_as, left_as, renewed_as};
ghost use Rattle.shell_walks.specs.Storing.{Replaces, Abandons, AbandonsIf, Stores, StoresIf};
ghost use Rattle.shell_walks.specs.Storing.{RenewsId, RenewsIf};
ghost use Rattle.shell_walks.specs.Storing.{is_only_made, failure_of, left_unless, made_as};
ghost use Rattle.shell_walks.specs.Storing.{RenewsSeen, Renews, StoresAt, StoresMade, is_missing, may_store, unmade_as, MakesElse, Makes, StoresChanged, PutsOpen, MakesUnless, Opens, Puts};

use crate::asking::{Deed, ask_on, is_gone, open};
use crate::remote::{Answer, Remote, Seen, Why};
use crate::telling::why_of;
use command_text::command::Command;
use command_text::content::{Content, Part};
use lb_base::items::{Bytes, Items, Name};
use std::alloc::{AllocError, Global};

/// Whether a command was done.
pub fn is_done(answer: &Answer) -> bool
    ensures { result ≡ is_done answer.now }
{
    matches!(answer, Answer::Done)
}

/// Whether a file was stored.
pub fn is_closed(answer: &Answer) -> bool
    ensures { result ≡ is_closed answer.now }
{
    matches!(answer, Answer::Closed(_))
}

/// The file that was made.
fn made_file(answer: &Answer) -> Option<u64>
    ensures { result ≡ made_file answer.now }
{
    match answer {
        Answer::Made(file) => Some(*file),
        _ => None,
    }
}

/// The file that was opened.
pub fn opened_file(answer: &Answer) -> Option<u64>
    ensures { result ≡ opened_file answer.now }
{
    match answer {
        Answer::Opened(file) => Some(*file),
        _ => None,
    }
}

/// The status of a directory in the place of a file: NFS3ERR_ISDIR.
const ISDIR: u32 = 21;

/// It wasn't done, whatever was told.
fn failed_as(answer: &Answer) -> Answer
    ensures { result ≡ failed_as answer.now }
{
    Answer::Failed(why_of(answer))
}

/// What is told of a close.
fn closed_as(answer: Answer) -> Answer
    ensures { result ≡ closed_as answer }
{
    match &answer {
        Answer::Closed(version) => Answer::Closed(*version),
        other => failed_as(other),
    }
}

/// What is told of the abandoning of a file that has these bytes already.
fn left_as(answer: Answer) -> Answer
    ensures { result ≡ left_as answer }
{
    match &answer {
        Answer::Done => Answer::Done,
        other => failed_as(other),
    }
}

/// What is told of a command to write a file anew: it doesn't tell which one is open then.
fn renewed_as(file: u64, answer: Answer) -> Answer
    ensures { result ≡ renewed_as file answer }
{
    match &answer {
        Answer::Done => Answer::Opened(file),
        other => failed_as(other),
    }
}

/// A content of these bytes.
fn content_of(alloc: Global, bytes: Bytes) -> Result<Content, AllocError>
    ensures { IfOk result (λ content. content ≡ part.Bytes bytes ∷ []) }
{
    let mut content = Items::new(alloc);
    content.push(Part::Bytes(bytes))?;
    Ok(content)
}

/// An open file is emptied, gets its content and is closed; what isn't done is the last.
fn replace<R: Remote>(alloc: Global, remote: &mut R, file: u64, content: Content) -> Answer
    ensures { Replaces R.asks remote.old file content result remote.new }
{
    let emptied = remote.ask(alloc, Command::Trunc { file, size: 0 });
    if !is_done(&emptied) {
        drop(content);
        return failed_as(&emptied);
    }
    drop(emptied);
    let write = Command::Write {
        file,
        offset: 0,
        content,
    };
    let written = remote.ask(alloc, write);
    if !is_done(&written) {
        return failed_as(&written);
    }
    drop(written);
    closed_as(remote.ask(alloc, Command::Close(file)))
}

/// A file that wasn't stored is abandoned.
fn abandon_unstored<R: Remote>(alloc: Global, remote: &mut R, file: u64, answer: &Answer)
    ensures { Abandons R.asks remote.old file answer.now remote.new }
{
    if !is_closed(answer) {
        drop(remote.ask(alloc, Command::Abandon(file)));
    }
}

/// These bytes become the content of an open file. Where memory runs out before it is asked for it is abandoned: left
/// open, it would be refused to whoever opens it next.
fn store<R: Remote>(
    alloc: Global,
    remote: &mut R,
    file: u64,
    bytes: Bytes,
) -> Result<Answer, AllocError>
    ensures stores { IfOk result (λ answer. Stores R.asks remote.old file bytes answer remote.new) }
    ensures abandons { OnErr result (AbandonsIf R.asks remote.old file false remote.new) }
{
    let content = match content_of(alloc, bytes) {
        Ok(content) => content,
        Err(error) => {
            drop(remote.ask(alloc, Command::Abandon(file)));
            return Err(error);
        }
    };
    let answer = replace(alloc, remote, file, content);
    abandon_unstored(alloc, remote, file, &answer);
    Ok(answer)
}

/// A file is opened by its id to be written anew.
fn renew_id<R: Remote>(alloc: Global, remote: &mut R, file: u64) -> Answer
    ensures { RenewsId R.asks remote.old file result remote.new }
{
    renewed_as(file, remote.ask(alloc, Command::Rewrite(file)))
}

/// What was told of a path to be a file is opened to be written anew.
fn renew_seen<R: Remote>(alloc: Global, remote: &mut R, seen: Seen) -> Answer
    ensures { RenewsIf R.asks remote.old seen.is_dir seen.id result remote.new }
{
    if seen.is_dir {
        return Answer::Failed(Why::Refused(ISDIR));
    }
    renew_id(alloc, remote, seen.id)
}

/// What a path was told to stand for is opened to be written anew.
fn renew_looked<R: Remote>(alloc: Global, remote: &mut R, looked: Answer) -> Answer
    ensures { RenewsSeen R.asks remote.old looked result remote.new }
{
    match &looked {
        Answer::Seen(seen) => renew_seen(alloc, remote, *seen),
        other => failed_as(other),
    }
}

/// A file that is there is opened to be written anew: nothing of what it has is fetched. Its id has to be known
/// behind that, so it is looked at, which costs what the look-ups of its path would.
fn renew<R: Remote>(alloc: Global, remote: &mut R, path: &[Name]) -> Result<Answer, AllocError>
    ensures { IfOk result (λ answer. Renews R.asks remote.old path.now answer remote.new) }
{
    let looked = ask_on(alloc, remote, Deed::Look, path)?;
    Ok(renew_looked(alloc, remote, looked))
}

/// These bytes become the content of a file, where it was opened.
fn store_opened<R: Remote>(
    alloc: Global,
    remote: &mut R,
    opened: Answer,
    bytes: Bytes,
) -> Result<Answer, AllocError>
    ensures { IfOk result (λ answer. StoresIf R.asks remote.old (opened_file opened) bytes opened answer remote.new) }
{
    match opened_file(&opened) {
        Some(file) => store(alloc, remote, file, bytes),
        None => Ok(failed_as(&opened)),
    }
}

/// These bytes become the content of a file that is there.
fn store_at<R: Remote>(
    alloc: Global,
    remote: &mut R,
    path: &[Name],
    bytes: Bytes,
) -> Result<Answer, AllocError>
    ensures { IfOk result (λ answer. StoresAt R.asks remote.old path.now bytes answer remote.new) }
{
    let opened = renew(alloc, remote, path)?;
    store_opened(alloc, remote, opened, bytes)
}

/// Whether it is a file that was made, and nobody stored in it: each storing makes its version larger.
pub fn is_only_made(seen: Seen) -> bool
    ensures { result ≡ is_only_made seen }
{
    !seen.is_dir && seen.version == 1 && seen.len == 0
}

/// Why a command failed, if it did.
fn failure_of(answer: &Answer) -> Option<Why>
    ensures { result ≡ failure_of answer.now }
{
    match answer {
        Answer::Failed(why) => Some(*why),
        _ => None,
    }
}

/// What is told of a file that was made, and then wasn't stored: it may stay, empty, unless it is gone.
fn left_unless(is_gone: bool, why: Why) -> Answer
    ensures { result ≡ left_unless is_gone why }
{
    if is_gone {
        Answer::Failed(why)
    } else {
        Answer::Left(why)
    }
}

/// What is told of a file that was made, by what its storing told.
fn made_as(stored: Answer) -> Answer
    ensures { result ≡ made_as stored }
{
    match failure_of(&stored) {
        Some(why) => left_unless(is_gone(&stored), why),
        None => stored,
    }
}

/// These bytes become the content of a file that was made, which is opened by its id.
fn store_made<R: Remote>(
    alloc: Global,
    remote: &mut R,
    file: u64,
    bytes: Bytes,
) -> Result<Answer, AllocError>
    ensures { IfOk result (λ answer. StoresMade R.asks remote.old file bytes answer remote.new) }
{
    let opened = renew_id(alloc, remote, file);
    let stored = store_opened(alloc, remote, opened, bytes)?;
    Ok(made_as(stored))
}

/// Whether there is no such file.
fn is_missing(answer: &Answer) -> bool
    ensures { result ≡ is_missing answer.now }
{
    matches!(answer, Answer::Failed(Why::Refused(2)))
}

/// Whether a file is there behind a command that makes it and tells no id: it was made, or was there.
fn may_store(answer: &Answer) -> bool
    ensures { result ≡ may_store answer.now }
{
    matches!(answer, Answer::Done | Answer::Failed(Why::Refused(17)))
}

/// What is told of a file that wasn't made: where the connection was lost it may have been, and then it stays, empty.
fn unmade_as(made: &Answer) -> Answer
    ensures { result ≡ unmade_as made.now }
{
    match made {
        Answer::Failed(Why::Lost) => Answer::Left(Why::Lost),
        other => failed_as(other),
    }
}

/// A file of which no id is told gets these bytes, where there is one.
fn make_else<R: Remote>(
    alloc: Global,
    remote: &mut R,
    path: &[Name],
    bytes: Bytes,
    made: Answer,
) -> Result<Answer, AllocError>
    ensures { IfOk result (λ answer. MakesElse R.asks remote.old (may_store made) path.now bytes made answer remote.new) }
{
    if may_store(&made) {
        store_at(alloc, remote, path, bytes)
    } else {
        Ok(unmade_as(&made))
    }
}

/// A file is made, where there is none, and these bytes become its content.
pub fn make<R: Remote>(
    alloc: Global,
    remote: &mut R,
    path: &[Name],
    bytes: Bytes,
) -> Result<Answer, AllocError>
    ensures { IfOk result (λ answer. Makes R.asks remote.old path.now bytes answer remote.new) }
{
    let made = ask_on(alloc, remote, Deed::Make, path)?;
    match made_file(&made) {
        Some(file) => store_made(alloc, remote, file, bytes),
        None => make_else(alloc, remote, path, bytes, made),
    }
}

/// Whether an open file was made, and nobody stored in it yet: each storing makes its version larger.
pub(crate) fn is_never_stored<R: Remote>(remote: &R, file: u64) -> bool
    ensures { result ≡ is_never_stored (R.content remote.now file) }
{
    remote.content(file).len() == 0 && remote.version(file) == 1
}

/// Whether an open file has these bytes, and was stored with them.
fn is_stored_as<R: Remote>(remote: &R, file: u64, bytes: &[u8]) -> bool
    ensures { result ≡ is_stored_as (R.content remote.now file) bytes.now }
{
    remote.content(file) == bytes && !is_never_stored(remote, file)
}

/// An open file gets these bytes, unless it was stored with them: then it is abandoned, and that was done.
fn store_changed<R: Remote>(
    alloc: Global,
    remote: &mut R,
    file: u64,
    bytes: Bytes,
) -> Result<Answer, AllocError>
    ensures { IfOk result (λ answer. StoresChanged R.asks R.content remote.old file bytes answer remote.new) }
{
    if is_stored_as(remote, file, bytes.as_slice()) {
        return Ok(left_as(remote.ask(alloc, Command::Abandon(file))));
    }
    store(alloc, remote, file, bytes)
}

/// An open file gets these bytes, or only where it hasn't them.
fn put_open<R: Remote>(
    alloc: Global,
    remote: &mut R,
    file: u64,
    changed_only: bool,
    bytes: Bytes,
) -> Result<Answer, AllocError>
    ensures { IfOk result (λ answer. PutsOpen R.asks R.content remote.old file changed_only bytes answer remote.new) }
{
    if changed_only {
        store_changed(alloc, remote, file, bytes)
    } else {
        store(alloc, remote, file, bytes)
    }
}

/// A file that wasn't opened is made where there is none, and gets these bytes.
fn make_unless<R: Remote>(
    alloc: Global,
    remote: &mut R,
    path: &[Name],
    bytes: Bytes,
    opened: Answer,
) -> Result<Answer, AllocError>
    ensures { IfOk result (λ answer. MakesUnless R.asks remote.old (is_missing opened) path.now bytes opened answer remote.new) }
{
    if is_missing(&opened) {
        make(alloc, remote, path, bytes)
    } else {
        Ok(failed_as(&opened))
    }
}

/// A file that gets bytes is opened: with its content, where that is to be compared, and else without.
fn open_for<R: Remote>(
    alloc: Global,
    remote: &mut R,
    id: Option<u64>,
    path: &[Name],
    changed_only: bool,
) -> Result<Answer, AllocError>
    ensures { IfOk result (λ opened. Opens R.asks remote.old id path.now changed_only opened remote.new) }
{
    if changed_only {
        open(alloc, remote, id, path)
    } else {
        renew(alloc, remote, path)
    }
}

/// A file gets these bytes, and is made where there is none.
pub fn put<R: Remote>(
    alloc: Global,
    remote: &mut R,
    id: Option<u64>,
    path: &[Name],
    changed_only: bool,
    bytes: Bytes,
) -> Result<Answer, AllocError>
    ensures { IfOk result (λ answer. Puts R.asks R.content remote.old id path.now changed_only bytes answer remote.new) }
{
    let opened = open_for(alloc, remote, id, path, changed_only)?;
    match opened_file(&opened) {
        Some(file) => put_open(alloc, remote, file, changed_only, bytes),
        None => make_unless(alloc, remote, path, bytes, opened),
    }
}
