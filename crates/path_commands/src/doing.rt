//! What a command about paths of the server asks of the client, and what is told: `specs/Doing.antt`.

ghost use Rattle.std.specs.Prelude.{◌≡◌, ◌∷◌, ◌++◌, [], IfOk, OnOk};
ghost use Rattle.shell_walks.specs.Asking.{command_on, AsksOn};
ghost use Rattle.shell_walks.specs.Telling.{left_text, notes};
ghost use Rattle.shell_walks.specs.declared.asking.Deed.TheVariants as deeds;
ghost use Rattle.path_commands.specs.Doing.{Does, Stats, RemovesFile, is_dir_told, is_unstored_told, is_missing, is_known, made_told, directory_told, file_text, file_told, LooksAt, is_file, ListsFile};
ghost use Rattle.path_commands.specs.Doing.{with_long, is_answered, with_left, ListsLong, ListsOn, Lists, is_there, unmade_of, MakesAll, way_told, WayIf, LooksAbove, MakesWay};
ghost use Rattle.path_commands.specs.Doing.{RemovesAll, last_of, named_in, place_of, is_refused, is_free, at_fault, LooksBack};
ghost use Rattle.path_commands.specs.Doing.{TellsRename, Renames, new_told, RenamesNew, MovesAs, stays_for, MovesUnless, MovesFrom, MovesIf, Moves, OnPath};

use command_text::path::Path;
use lb_base::items::{Bytes, Items, Name};
use shell_walks::asking::{Deed, ask_on, ask_rename};
use shell_walks::fetching::cat;
use shell_walks::remote::{Answer, Remote, Seen, Why};
use shell_walks::removing::{Gone, remove_all};
use shell_walks::storing::is_only_made;
use shell_walks::tasks::longer;
use shell_walks::telling::{
    done_told, is_off, left_text, long_line, names_told, path_line, path_text, put_why,
    refused_told, removed_told, stat_told, why_of,
};
use shell_walks::told::{Told, fine, notes};
use shell_words::command::Verb;
use shell_words::quoting::quoted;
use std::alloc::{AllocError, Global};

/// NFS3ERR_NOENT, NFS3ERR_NOTDIR.
const NOENT: u32 = 2;

const NOTDIR: u32 = 20;

/// One command, which has nothing to tell.
fn does<R: Remote>(
    alloc: Global,
    remote: &mut R,
    deed: Deed,
    path: &[Name],
) -> Result<Told, AllocError>
    ensures { IfOk result (λ told. Does R.asks remote.old deed path.now told remote.new) }
{
    let answer = ask_on(alloc, remote, deed, path)?;
    done_told(alloc, path, &answer)
}

/// `stat`.
fn stat<R: Remote>(alloc: Global, remote: &mut R, path: &[Name]) -> Result<Told, AllocError>
    ensures { IfOk result (λ told. Stats R.asks remote.old path.now told remote.new) }
{
    let answer = ask_on(alloc, remote, Deed::Look, path)?;
    stat_told(alloc, path, &answer)
}

/// Whether a directory was told.
pub fn is_dir_told(answer: &Answer) -> bool
    ensures { result ≡ is_dir_told answer.now }
{
    match answer {
        Answer::Seen(seen) => seen.is_dir,
        _ => false,
    }
}

/// Whether a file was told in which nobody stored yet.
fn is_unstored_told(answer: &Answer) -> bool
    ensures { result ≡ is_unstored_told answer.now }
{
    match answer {
        Answer::Seen(seen) => is_only_made(*seen),
        _ => false,
    }
}

/// Whether a look says that nothing has the path.
fn is_missing(looked: &Answer) -> bool
    ensures { result ≡ is_missing looked.now }
{
    matches!(looked, Answer::Failed(Why::Refused(NOENT)))
}

/// Whether a look told what stands at a path, and be it that no directory does. Where it failed otherwise a
/// directory may stand there, so nothing is stored at that path, nor renamed to it.
pub fn is_known(looked: &Answer) -> bool
    ensures { result ≡ is_known looked.now }
{
    match looked {
        Answer::Seen(_) => true,
        Answer::Failed(Why::Refused(status)) => *status == NOENT || *status == NOTDIR,
        _ => false,
    }
}

/// What is told of a path where a directory is wanted, and something is there.
fn made_told(alloc: Global, path: &[Name], is_dir: bool) -> Result<Told, AllocError>
    ensures { IfOk result (λ told. told ≡ made_told path.now is_dir) }
{
    if is_dir {
        Ok(fine(alloc, Items::new(alloc)))
    } else {
        refused_told(alloc, path, Why::Refused(NOTDIR))
    }
}

/// What is told of a path that was looked at, where a directory is wanted.
pub fn directory_told(alloc: Global, path: &[Name], looked: &Answer) -> Result<Told, AllocError>
    ensures { IfOk result (λ told. told ≡ directory_told path.now looked.now) }
{
    match looked {
        Answer::Seen(seen) => made_told(alloc, path, seen.is_dir),
        looked => refused_told(alloc, path, why_of(looked)),
    }
}

/// What is shown of a file that is listed alone.
fn file_text(alloc: Global, is_long: bool, path: &[Name], seen: &Seen) -> Result<Bytes, AllocError>
    ensures { IfOk result (λ text. text ≡ file_text is_long path.now seen.now) }
{
    let mut shown = path_text(alloc, path)?;
    if is_long {
        return long_line(alloc, seen, shown.as_slice());
    }
    shown.extend_from_slice(b"\n")?;
    Ok(shown)
}

/// What is told of what can't be listed, by a look at it.
fn file_told(
    alloc: Global,
    is_long: bool,
    path: &[Name],
    looked: &Answer,
) -> Result<Told, AllocError>
    ensures { IfOk result (λ told. told ≡ file_told is_long path.now looked.now) }
{
    match looked {
        Answer::Seen(seen) => Ok(fine(alloc, file_text(alloc, is_long, path, seen)?)),
        _ => refused_told(alloc, path, why_of(looked)),
    }
}

/// What can't be listed is looked at: a file is told as if it were all that is in a directory.
fn look_at<R: Remote>(
    alloc: Global,
    remote: &mut R,
    is_long: bool,
    path: &[Name],
) -> Result<Told, AllocError>
    ensures { IfOk result (λ told. LooksAt R.asks remote.old is_long path.now told remote.new) }
{
    let looked = ask_on(alloc, remote, Deed::Look, path)?;
    file_told(alloc, is_long, path, &looked)
}

/// Whether it can't be listed since it is no directory.
fn is_file(why: Why) -> bool
    ensures { result ≡ is_file why }
{
    matches!(why, Why::Refused(NOTDIR))
}

/// What can't be listed, which a file may be.
fn list_file<R: Remote>(
    alloc: Global,
    remote: &mut R,
    is_file: bool,
    is_long: bool,
    path: &[Name],
    why: Why,
) -> Result<Told, AllocError>
    ensures { IfOk result (λ told. ListsFile R.asks remote.old is_file is_long path.now why told remote.new) }
{
    if is_file {
        look_at(alloc, remote, is_long, path)
    } else {
        refused_told(alloc, path, why)
    }
}

/// A line of `ls -l`, or what is said of a name that went meanwhile, goes behind what is told.
fn put_long(
    alloc: Global,
    told: &mut Told,
    path: &[Name],
    name: &[u8],
    answer: &Answer,
) -> Result<(), AllocError>
    ensures { OnOk result (told.new ≡ with_long path.now name.now told.old answer.now) }
{
    match answer {
        Answer::Seen(seen) => {
            let shown = quoted(alloc, name)?;
            let line = long_line(alloc, seen, shown.as_slice())?;
            told.text.extend_from_slice(line.as_slice())
        }
        answer => {
            let path = longer(alloc, path, name)?;
            let mut words = Items::new(alloc);
            put_why(alloc, &mut words, why_of(answer))?;
            let line = path_line(alloc, path.as_slice(), words.as_slice())?;
            told.note.extend_from_slice(line.as_slice())
        }
    }
}

/// A name in a directory is looked at.
fn look_long<R: Remote>(
    alloc: Global,
    remote: &mut R,
    path: &[Name],
    name: &[u8],
) -> Result<Answer, AllocError>
    ensures { IfOk result (λ answer. AsksOn R.asks remote.old (command_on deeds.Look (path.now ++ name.now ∷ [])) answer remote.new) }
{
    let path = longer(alloc, path, name)?;
    ask_on(alloc, remote, Deed::Look, path.as_slice())
}

/// Whether a server answered at all.
fn is_answered(answer: &Answer) -> bool
    ensures { result ≡ is_answered answer.now }
{
    !is_off(why_of(answer))
}

/// How many names weren't looked at is said behind what is told.
fn with_left(alloc: Global, told: Told, left: usize) -> Result<Told, AllocError>
    ensures { IfOk result (λ t. t ≡ with_left left told) }
{
    let text = left_text(alloc, left as u64)?;
    let mut told = told;
    told.note.extend_from_slice(text.as_slice())?;
    Ok(told)
}

/// The names in a directory are looked at, one after the other. Where no server answers, that is said once,
/// nothing else is asked for, and how many names are left.
fn longs<R: Remote>(
    alloc: Global,
    remote: &mut R,
    path: &[Name],
    names: &[Name],
) -> Result<Told, AllocError>
    ensures { IfOk result (λ told. ListsLong R.asks remote.old path.now names.now told remote.new) }
{
    let mut told = fine(alloc, Items::new(alloc));
    for at in 0..names.len() {
        let name = names[at].as_slice();
        let answer = look_long(alloc, remote, path, name)?;
        put_long(alloc, &mut told, path, name, &answer)?;
        if !is_answered(&answer) {
            return with_left(alloc, told, names.len() - (at + 1));
        }
    }
    Ok(told)
}

/// What is told of a directory that was to be listed.
fn list_on<R: Remote>(
    alloc: Global,
    remote: &mut R,
    is_long: bool,
    path: &[Name],
    answer: &Answer,
) -> Result<Told, AllocError>
    ensures { IfOk result (λ told. ListsOn R.asks remote.old is_long path.now answer.now told remote.new) }
{
    match answer {
        Answer::Names(listed) => {
            if is_long {
                longs(alloc, remote, path, listed.names.as_slice())
            } else {
                names_told(alloc, path, answer)
            }
        }
        answer => {
            let why = why_of(answer);
            list_file(alloc, remote, is_file(why), is_long, path, why)
        }
    }
}

/// `ls`.
fn list<R: Remote>(
    alloc: Global,
    remote: &mut R,
    is_long: bool,
    path: &[Name],
) -> Result<Told, AllocError>
    ensures { IfOk result (λ told. Lists R.asks remote.old is_long path.now told remote.new) }
{
    let answer = ask_on(alloc, remote, Deed::List, path)?;
    list_on(alloc, remote, is_long, path, &answer)
}

/// Whether something is there behind the making of a directory: NFS3ERR_EXIST.
fn is_there(answer: &Answer) -> bool
    ensures { result ≡ is_there answer.now }
{
    matches!(answer, Answer::Done | Answer::Failed(Why::Refused(17)))
}

/// What is at fault where a directory isn't made: what stands above it, where that is a file.
fn unmade_of<'a>(is_file: bool, above: &'a [Name], path: &'a [Name]) -> &'a [Name]
    ensures { result.now ≡ unmade_of is_file above.now path.now }
{
    if is_file { above } else { path }
}

/// `mkdir -p`: each directory on the way is made, where there is none.
fn make_all<R: Remote>(alloc: Global, remote: &mut R, path: &[Name]) -> Result<Told, AllocError>
    ensures { IfOk result (λ told. MakesAll R.asks remote.old path.now told remote.new) }
{
    for end in 0..path.len() {
        let answer = ask_on(alloc, remote, Deed::MakeDir, &path[..end + 1])?;
        if !is_there(&answer) {
            let why = why_of(&answer);
            let unmade = unmade_of(is_file(why), &path[..end], &path[..end + 1]);
            return refused_told(alloc, unmade, why);
        }
    }
    let looked = ask_on(alloc, remote, Deed::Look, path)?;
    directory_told(alloc, path, &looked)
}

/// What is told of the directories above a path, where none is to be made.
fn way_told(
    alloc: Global,
    is_known: bool,
    above: &[Name],
    looked: &Answer,
) -> Result<Told, AllocError>
    ensures { IfOk result (λ told. told ≡ way_told is_known above.now looked.now) }
{
    if is_known {
        Ok(fine(alloc, Items::new(alloc)))
    } else {
        refused_told(alloc, above, why_of(looked))
    }
}

/// Directories are made, where the last of them isn't there.
fn way_if<R: Remote>(
    alloc: Global,
    remote: &mut R,
    is_missing: bool,
    above: &[Name],
    looked: &Answer,
) -> Result<Told, AllocError>
    ensures { IfOk result (λ told. WayIf R.asks remote.old is_missing above.now looked.now told remote.new) }
{
    if is_missing {
        make_all(alloc, remote, above)
    } else {
        way_told(alloc, is_known(looked), above, looked)
    }
}

/// The last of the directories above a path is looked at.
fn look_above<R: Remote>(alloc: Global, remote: &mut R, above: &[Name]) -> Result<Told, AllocError>
    ensures { IfOk result (λ told. LooksAbove R.asks remote.old above.now told remote.new) }
{
    let looked = ask_on(alloc, remote, Deed::Look, above)?;
    way_if(alloc, remote, is_missing(&looked), above, &looked)
}

/// The directories above a path are made, where they aren't there.
pub fn make_way<R: Remote>(
    alloc: Global,
    remote: &mut R,
    above: &[Name],
) -> Result<Told, AllocError>
    ensures { IfOk result (λ told. MakesWay R.asks remote.old above.now told remote.new) }
{
    match above {
        [] => Ok(fine(alloc, Items::new(alloc))),
        [_name, ..] => look_above(alloc, remote, above),
    }
}

/// `rm`.
fn remove_file<R: Remote>(alloc: Global, remote: &mut R, path: &[Name]) -> Result<Told, AllocError>
    ensures { IfOk result (λ told. RemovesFile R.asks remote.old path.now told remote.new) }
{
    let answer = ask_on(alloc, remote, Deed::Remove, path)?;
    removed_told(alloc, path, &answer)
}

/// What didn't go is said, and how much wasn't begun.
fn deep_told(alloc: Global, gone: Gone) -> Result<Told, AllocError>
    ensures { IfOk result (λ told. told ≡ notes (gone.said.note ++ left_text gone.left)) }
{
    let Gone { said, left } = gone;
    let text = left_text(alloc, left)?;
    let mut note = said.note;
    note.extend_from_slice(text.as_slice())?;
    Ok(notes(alloc, note))
}

/// `rm -r`.
fn remove_deep<R: Remote>(alloc: Global, remote: &mut R, path: &[Name]) -> Result<Told, AllocError>
    ensures { IfOk result (λ told. RemovesAll R.asks remote.old path.now told remote.new) }
{
    let gone = remove_all(alloc, remote, path)?;
    deep_told(alloc, gone)
}

/// The last name of a path that begins so.
fn last_of<'a>(name: &'a Name, rest: &'a [Name]) -> &'a Name
    ensures { result.now ≡ last_of name.now rest.now }
{
    match rest {
        [next, more @ ..] => last_of(next, more),
        [] => name,
    }
}

/// The last name of the first path, in the second.
fn named_in(alloc: Global, to: Path, from: &[Name]) -> Result<Path, AllocError>
    ensures { IfOk result (λ path. path ≡ named_in to from.now) }
{
    let mut to = to;
    if let [name, rest @ ..] = from {
        to.push(last_of(name, rest).try_clone(alloc)?)?;
    }
    Ok(to)
}

/// Where something goes that gets a path: into the directory that has it.
fn place_of(alloc: Global, to: Path, from: &[Name], is_dir: bool) -> Result<Path, AllocError>
    ensures { IfOk result (λ path. path ≡ place_of to from.now is_dir) }
{
    if is_dir {
        named_in(alloc, to, from)
    } else {
        Ok(to)
    }
}

/// Whether the server refused it.
fn is_refused(answer: &Answer) -> bool
    ensures { result ≡ is_refused answer.now }
{
    matches!(answer, Answer::Failed(Why::Refused(_)))
}

/// Whether a look says that a path is free: nothing has it, or no directory is above it.
fn is_free(looked: &Answer) -> bool
    ensures { result ≡ is_free looked.now }
{
    matches!(looked, Answer::Failed(Why::Refused(NOENT | NOTDIR)))
}

/// What is told of a renaming that the server refused, by what the first path stands for. Where that can't be told
/// (the connection is lost by then), why it was refused still is.
fn at_fault(
    alloc: Global,
    is_free: bool,
    from: &[Name],
    to: &[Name],
    answer: &Answer,
    looked: &Answer,
) -> Result<Told, AllocError>
    ensures { IfOk result (λ told. told ≡ at_fault is_free from.now to.now answer.now looked.now) }
{
    if is_free {
        refused_told(alloc, from, why_of(looked))
    } else {
        done_told(alloc, to, answer)
    }
}

/// The first path is looked at, so that the one at fault is told.
fn look_back<R: Remote>(
    alloc: Global,
    remote: &mut R,
    from: &[Name],
    to: &[Name],
    answer: &Answer,
) -> Result<Told, AllocError>
    ensures { IfOk result (λ told. LooksBack R.asks remote.old from.now to.now answer.now told remote.new) }
{
    let looked = ask_on(alloc, remote, Deed::Look, from)?;
    at_fault(alloc, is_free(&looked), from, to, answer, &looked)
}

/// What a renaming came to. Where it wasn't done, the first name is at fault where nothing has it, and else
/// the second.
fn rename_told<R: Remote>(
    alloc: Global,
    remote: &mut R,
    is_refused: bool,
    from: &[Name],
    to: &[Name],
    answer: &Answer,
) -> Result<Told, AllocError>
    ensures { IfOk result (λ told. TellsRename R.asks remote.old is_refused from.now to.now answer.now told remote.new) }
{
    if is_refused {
        look_back(alloc, remote, from, to, answer)
    } else {
        done_told(alloc, from, answer)
    }
}

/// One path's file or directory gets the other path.
fn rename<R: Remote>(
    alloc: Global,
    remote: &mut R,
    from: &[Name],
    to: &[Name],
) -> Result<Told, AllocError>
    ensures { IfOk result (λ told. Renames R.asks remote.old from.now to.now told remote.new) }
{
    let answer = ask_rename(alloc, remote, from, to)?;
    rename_told(alloc, remote, is_refused(&answer), from, to, &answer)
}

/// What is told where no directory gets a directory's new name.
fn new_told(
    alloc: Global,
    from: &[Name],
    to: &[Name],
    first: &Answer,
    second: &Answer,
) -> Result<Told, AllocError>
    ensures { IfOk result (λ told. told ≡ new_told from.now to.now first.now second.now) }
{
    match first {
        Answer::Seen(_) => directory_told(alloc, to, second),
        first => refused_told(alloc, from, why_of(first)),
    }
}

/// A directory gets a new name, where it may.
fn rename_new<R: Remote>(
    alloc: Global,
    remote: &mut R,
    may: bool,
    from: &[Name],
    to: &[Name],
    first: &Answer,
    second: &Answer,
) -> Result<Told, AllocError>
    ensures { IfOk result (λ told. RenamesNew R.asks remote.old may from.now to.now first.now second.now told remote.new) }
{
    if may {
        rename(alloc, remote, from, to)
    } else {
        new_told(alloc, from, to, first, second)
    }
}

/// It goes into the directory that has the second path, or gets that path. Where a new directory is wanted a
/// directory gets it that nothing has, and a file gets none.
fn move_as<R: Remote>(
    alloc: Global,
    remote: &mut R,
    is_new_dir: bool,
    from: &[Name],
    to: Path,
    first: &Answer,
    second: &Answer,
) -> Result<Told, AllocError>
    ensures { IfOk result (λ told. MovesAs R.asks remote.old is_new_dir from.now to first.now second.now told remote.new) }
{
    if is_new_dir {
        let may = is_dir_told(first) && is_missing(second);
        rename_new(alloc, remote, may, from, to.as_slice(), first, second)
    } else {
        let to = place_of(alloc, to, from, is_dir_told(second))?;
        rename(alloc, remote, from, to.as_slice())
    }
}

/// Why a file stays: nobody stored in it yet, or it isn't known whether somebody did.
fn stays_for(first: &Answer) -> Option<Why>
    ensures { result ≡ stays_for first.now }
{
    if is_unstored_told(first) {
        Some(Why::Unstored)
    } else if is_known(first) {
        None
    } else {
        Some(why_of(first))
    }
}

/// What has the first path is renamed, unless it stays.
fn move_unless<R: Remote>(
    alloc: Global,
    remote: &mut R,
    wants_dir: bool,
    from: &[Name],
    to: Path,
    first: &Answer,
    second: &Answer,
) -> Result<Told, AllocError>
    ensures { IfOk result (λ told. MovesUnless R.asks remote.old (stays_for first.now) wants_dir from.now to first.now second.now told remote.new) }
{
    match stays_for(first) {
        Some(why) => refused_told(alloc, from, why),
        None => {
            let is_new_dir = wants_dir && !is_dir_told(second);
            move_as(alloc, remote, is_new_dir, from, to, first, second)
        }
    }
}

/// What has the first path is looked at last, so that little can come between that and the renaming. A file in which
/// nobody stored yet would go over a good one, so it stays, and so does what that look told nothing of.
fn move_from<R: Remote>(
    alloc: Global,
    remote: &mut R,
    wants_dir: bool,
    from: &[Name],
    to: Path,
    second: &Answer,
) -> Result<Told, AllocError>
    ensures { IfOk result (λ told. MovesFrom R.asks remote.old wants_dir from.now to second.now told remote.new) }
{
    let first = ask_on(alloc, remote, Deed::Look, from)?;
    move_unless(alloc, remote, wants_dir, from, to, &first, second)
}

/// What a look at the second path makes of a renaming.
fn move_if<R: Remote>(
    alloc: Global,
    remote: &mut R,
    wants_dir: bool,
    from: &[Name],
    to: Path,
    second: &Answer,
) -> Result<Told, AllocError>
    ensures { IfOk result (λ told. MovesIf R.asks remote.old (is_known second.now) wants_dir from.now to second.now told remote.new) }
{
    if is_known(second) {
        move_from(alloc, remote, wants_dir, from, to, second)
    } else {
        refused_told(alloc, to.as_slice(), why_of(second))
    }
}

/// `mv`: into the directory that has the second path, where one has it. One may be wanted there: then a file gets
/// no other name.
pub fn move_to<R: Remote>(
    alloc: Global,
    remote: &mut R,
    wants_dir: bool,
    from: &[Name],
    to: Path,
) -> Result<Told, AllocError>
    ensures { IfOk result (λ told. Moves R.asks remote.old wants_dir from.now to told remote.new) }
{
    let second = ask_on(alloc, remote, Deed::Look, to.as_slice())?;
    move_if(alloc, remote, wants_dir, from, to, &second)
}

/// A command on one path of the server.
pub fn on_path<R: Remote>(
    alloc: Global,
    remote: &mut R,
    verb: Verb,
    has_option: bool,
    path: &[Name],
) -> Result<Told, AllocError>
    ensures { IfOk result (λ told. OnPath R.asks R.content remote.old verb has_option path.now told remote.new) }
{
    match verb {
        Verb::Ls => list(alloc, remote, has_option, path),
        Verb::Mkdir if has_option => make_all(alloc, remote, path),
        Verb::Mkdir => does(alloc, remote, Deed::MakeDir, path),
        Verb::Rm if has_option => remove_deep(alloc, remote, path),
        Verb::Rm => remove_file(alloc, remote, path),
        Verb::Rmdir => does(alloc, remote, Deed::RemoveDir, path),
        Verb::Cat => cat(alloc, remote, path),
        _ => stat(alloc, remote, path),
    }
}
