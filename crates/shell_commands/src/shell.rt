//! A shell: where it stands in the server's tree and in the host's, and what a command makes of that.
//! `specs/Lines.antt` says which path a word names, and what is done with it.

ghost use Rattle.std.specs.Prelude.{◌≡◌, ◌++◌, codes, IfOk, OnOk};
ghost use Rattle.shell_words.specs.Paths.{above};
ghost use Rattle.shell_walks.specs.Telling.{fine, path_text};
ghost use Rattle.shell_commands.specs.Here.{IsFolderOf, is_name_here, name_got};
ghost use Rattle.shell_commands.specs.Lines.{mistaken_as, operand_of, Names, is_slashed, is_dotted, says_dir, fits_dir, dir_named, LooksDir, DirIf, NamesAt};
ghost use Rattle.shell_commands.specs.Lines.{gone_to, Goes, is_over, stood_in, dotted_out, RemovesIf, MovesTo, GetsInto, Gets, name_into, GetsIf, put_storing, sync_storing};
ghost use Rattle.shell_commands.specs.Lines.{wants_dir, target_if, is_fit, target_as, LooksTarget, TargetsIf, Targets, task_as, StoresTo, Stores};
ghost use Rattle.shell_commands.specs.Lines.{PutsTo, SyncsTo, PutsFrom, SyncsFrom, RunsPut, RunsSync, DoesPath, DoesNamed, is_mkdir, says_of, RunsNamed, Runs, KeepsFolder, StandsFirst};

use crate::here::{
    NamedLocal, Source, find_source, got, has_word, is_name_here, lcd, name_below, name_got,
    of_word,
};
use command_text::path::Path;
use command_text::words::is;
use lb_base::items::{Items, Name};
use path_commands::doing::{directory_told, is_dir_told, is_known, make_way, move_to, on_path};
use shell_walks::asking::{Deed, ask_on};
use shell_walks::folder::{Folder, LocalFault};
use shell_walks::remote::{Answer, Remote};
use shell_walks::tasks::{Storing, Task, longer};
use shell_walks::telling::{fault_words, mistake_words, path_line, path_text};
use shell_walks::told::{Told, fine, notes};
use shell_words::command::{Line, Verb};
use shell_words::local::{LocalPath, is_component};
use shell_words::mistake::{Mistake, ReadError};
use shell_words::path::{last_of, path_of};
use std::alloc::{AllocError, Global};

/// Where a shell stands.
#[derive(Drop)]
pub struct Shell {
    /// The directory of the server.
    dir: Path,
    /// The folder of the host.
    folder: LocalPath,
    /// The folder that the program runs in, from the root, where that is known.
    here: Option<LocalPath>,
}

/// What a line comes to.
#[derive(Drop)]
pub enum Went {
    /// It was done, and is told so.
    Told(Told),
    /// There is a task to do.
    Works(Task),
    /// The shell ends.
    Bye,
}

/// A path that a word names, or what is wrong with the word.
pub(crate) enum Named {
    Path(Path),
    Mistaken(Told),
}

/// A mistake in a line.
pub fn mistaken(alloc: Global, word: &[u8], mistake: Mistake) -> Result<Told, AllocError>
    ensures { IfOk result (λ told. told ≡ mistaken_as word.now mistake) }
{
    of_word(alloc, word, mistake_words(mistake))
}

/// The operand at a place, or no bytes.
fn operand(line: &Line, at: usize) -> &[u8]
    ensures { result.now ≡ operand_of line.now at }
{
    match line.operands.as_slice().get(at) {
        Some(word) => word.as_slice(),
        None => &[],
    }
}

/// The path that a word names in a directory.
fn path_named(alloc: Global, dir: &[Name], word: &[u8]) -> Result<Named, AllocError>
    ensures { IfOk result (λ n. Names dir.now word.now n) }
{
    match path_of(alloc, dir, word) {
        Ok(path) => Ok(Named::Path(path)),
        Err(ReadError::Mistaken(mistake)) => Ok(Named::Mistaken(mistaken(alloc, word, mistake)?)),
        Err(ReadError::Memory) => Err(AllocError),
    }
}

/// Whether a slash ends a word, other than the root's, which needs no look.
fn is_slashed(word: &[u8]) -> bool
    ensures { result ≡ is_slashed word.now }
{
    is(&word[word.len().saturating_sub(1)..], b"/") && !is(word, b"/")
}

/// Whether the last part of a word is `.` or `..`, also with slashes behind.
fn is_dotted(word: &[u8]) -> bool
    ensures { result ≡ is_dotted word.now }
{
    let last = last_of(word);
    is(last, b".") || is(last, b"..")
}

/// Whether a word says that a directory has its path.
fn says_dir(word: &[u8]) -> bool
    ensures { result ≡ says_dir word.now }
{
    is_slashed(word) || is_dotted(word)
}

/// Whether what a look told may have a path whose word says that a directory has it.
fn fits_dir(must: bool, looked: &Answer) -> bool
    ensures { result ≡ fits_dir must looked.now }
{
    match looked {
        Answer::Seen(seen) => seen.is_dir,
        looked => !must && is_known(looked),
    }
}

/// The path by what a look told.
fn dir_named(alloc: Global, fits: bool, path: Path, looked: &Answer) -> Result<Named, AllocError>
    ensures { IfOk result (λ n. n ≡ dir_named fits path looked.now) }
{
    if fits {
        Ok(Named::Path(path))
    } else {
        let told = directory_told(alloc, path.as_slice(), looked)?;
        Ok(Named::Mistaken(told))
    }
}

/// What stands at such a path is looked at.
fn look_dir<R: Remote>(
    alloc: Global,
    remote: &mut R,
    must: bool,
    path: Path,
) -> Result<Named, AllocError>
    ensures { IfOk result (λ n. LooksDir R.asks remote.old must path n remote.new) }
{
    let looked = ask_on(alloc, remote, Deed::Look, path.as_slice())?;
    dir_named(alloc, fits_dir(must, &looked), path, &looked)
}

/// The same, where the word says so.
fn dir_if<R: Remote>(
    alloc: Global,
    remote: &mut R,
    says_dir: bool,
    must: bool,
    path: Path,
) -> Result<Named, AllocError>
    ensures { IfOk result (λ n. DirIf R.asks remote.old says_dir must path n remote.new) }
{
    if says_dir {
        look_dir(alloc, remote, must, path)
    } else {
        Ok(Named::Path(path))
    }
}

/// The path that a word names: where it says that a directory has it no file does, and where it must be one does.
fn name_at<R: Remote>(
    alloc: Global,
    remote: &mut R,
    dir: &[Name],
    says: bool,
    must: bool,
    word: &[u8],
) -> Result<Named, AllocError>
    ensures { IfOk result (λ n. NamesAt R.asks remote.old dir.now says must word.now n remote.new) }
{
    match path_named(alloc, dir, word)? {
        Named::Path(path) => dir_if(alloc, remote, says, must, path),
        Named::Mistaken(told) => Ok(Named::Mistaken(told)),
    }
}

/// The directory in which it stands then.
fn go_to(dir: &mut Path, path: Path, is_dir: bool)
    ensures { dir.new ≡ gone_to dir.old path is_dir }
{
    if is_dir {
        *dir = path;
    }
}

/// `cd`: to a directory that is there.
fn go<R: Remote>(
    alloc: Global,
    remote: &mut R,
    dir: &mut Path,
    path: Path,
) -> Result<Told, AllocError>
    ensures { IfOk result (λ told. Goes R.asks remote.old dir.old path told remote.new dir.new) }
{
    let answer = ask_on(alloc, remote, Deed::Look, path.as_slice())?;
    let told = directory_told(alloc, path.as_slice(), &answer)?;
    go_to(dir, path, is_dir_told(&answer));
    Ok(told)
}

/// Whether a path is the directory's, or of one above it.
fn is_over(path: &[Name], dir: &[Name]) -> bool
    ensures { result ≡ is_over path.now dir.now }
{
    match path {
        [] => true,
        [name, names @ ..] => match dir {
            [] => false,
            [part, parts @ ..] => is(name.as_slice(), part.as_slice()) && is_over(names, parts),
        },
    }
}

/// What is told of a directory that the shell stands in.
fn stood_in(alloc: Global, path: &[Name]) -> Result<Told, AllocError>
    ensures { IfOk result (λ told. told ≡ stood_in path.now) }
{
    let note = path_line(alloc, path, b"it stays: this shell stands in it")?;
    Ok(notes(alloc, note))
}

/// What is told of one that a word names which ends in `.` or `..`.
fn dotted_out(alloc: Global, path: &[Name]) -> Result<Told, AllocError>
    ensures { IfOk result (λ told. told ≡ dotted_out path.now) }
{
    let note = path_line(alloc, path, b"it stays: name it without . or .. at the end")?;
    Ok(notes(alloc, note))
}

/// `rm`. What the shell stands in isn't removed with all that is in it, nor what a word names that ends in a dot.
fn remove_if<R: Remote>(
    alloc: Global,
    remote: &mut R,
    over: bool,
    dotted: bool,
    has_option: bool,
    path: &[Name],
) -> Result<Told, AllocError>
    ensures { IfOk result (λ told. RemovesIf R.asks R.content remote.old over dotted has_option path.now told remote.new) }
{
    if over {
        stood_in(alloc, path)
    } else if dotted {
        dotted_out(alloc, path)
    } else {
        on_path(alloc, remote, Verb::Rm, has_option, path)
    }
}

/// `mv`, whose second path a word names.
fn move_named<R: Remote>(
    alloc: Global,
    remote: &mut R,
    dir: &[Name],
    from: &[Name],
    word: &[u8],
) -> Result<Told, AllocError>
    ensures { IfOk result (λ told. MovesTo R.asks remote.old dir.now from.now word.now told remote.new) }
{
    match path_named(alloc, dir, word)? {
        Named::Path(to) => move_to(alloc, remote, says_dir(word), from, to),
        Named::Mistaken(told) => Ok(told),
    }
}

/// The folder that a path of the host is in.
fn folder_of(path: &str) -> &str
    ensures { IsFolderOf path.now result.now }
{
    match path.rsplit_once('/') {
        Some((folder, _name)) => folder,
        None => ".",
    }
}

/// Whether a directory is wanted at the path: the word says so, and a file is stored.
fn wants_dir(is_folder: bool, word: &[u8]) -> bool
    ensures { result ≡ wants_dir is_folder word.now }
{
    !is_folder && says_dir(word)
}

/// The path that something is stored to: in a directory, under its own name, and else at the path.
fn target_if(alloc: Global, is_dir: bool, path: Path, last: &[u8]) -> Result<Path, AllocError>
    ensures { IfOk result (λ p. p ≡ target_if is_dir path last.now) }
{
    if is_dir {
        longer(alloc, path.as_slice(), last)
    } else {
        Ok(path)
    }
}

/// Whether something may be stored there, by what a look told.
fn is_fit(wants: bool, looked: &Answer) -> bool
    ensures { result ≡ is_fit wants looked.now }
{
    is_known(looked) && (!wants || is_dir_told(looked))
}

/// The path by what a look told. Where that failed nothing is stored, nor where the directory isn't there that is wanted.
fn target_as(
    alloc: Global,
    is_fit: bool,
    path: Path,
    last: &[u8],
    looked: &Answer,
) -> Result<Named, AllocError>
    ensures { IfOk result (λ n. n ≡ target_as is_fit path last.now looked.now) }
{
    if is_fit {
        let to = target_if(alloc, is_dir_told(looked), path, last)?;
        Ok(Named::Path(to))
    } else {
        let told = directory_told(alloc, path.as_slice(), looked)?;
        Ok(Named::Mistaken(told))
    }
}

/// What stands at a path is looked at.
fn look_target<R: Remote>(
    alloc: Global,
    remote: &mut R,
    wants: bool,
    path: Path,
    last: &[u8],
) -> Result<Named, AllocError>
    ensures { IfOk result (λ n. LooksTarget R.asks remote.old wants path last.now n remote.new) }
{
    let looked = ask_on(alloc, remote, Deed::Look, path.as_slice())?;
    target_as(alloc, is_fit(wants, &looked), path, last, &looked)
}

/// What is stored stands at a path then, or below it. It is looked at only where it makes a difference.
fn targets_if<R: Remote>(
    alloc: Global,
    remote: &mut R,
    is_name: bool,
    has_word: bool,
    wants: bool,
    path: Path,
    last: &[u8],
) -> Result<Named, AllocError>
    ensures { IfOk result (λ n. TargetsIf R.asks remote.old is_name has_word wants path last.now n remote.new) }
{
    if !is_name {
        Ok(Named::Path(path))
    } else if has_word {
        look_target(alloc, remote, wants, path, last)
    } else {
        let to = longer(alloc, path.as_slice(), last)?;
        Ok(Named::Path(to))
    }
}

/// The path of the server for what is stored: in the directory of the word, where there is one.
fn remote_target<R: Remote>(
    alloc: Global,
    remote: &mut R,
    dir: &[Name],
    is_folder: bool,
    word: &[u8],
    last: &[u8],
) -> Result<Named, AllocError>
    ensures { IfOk result (λ n. Targets R.asks remote.old dir.now is_folder word.now last.now n remote.new) }
{
    match path_named(alloc, dir, word)? {
        Named::Path(path) => {
            targets_if(
                alloc,
                remote,
                is_component(last),
                has_word(word),
                wants_dir(is_folder, word),
                path,
                last,
            )
        }
        Named::Mistaken(told) => Ok(Named::Mistaken(told)),
    }
}

/// The directories above a path.
fn above(path: &[Name]) -> &[Name]
    ensures { result.now ≡ above path.now }
{
    &path[..path.len().saturating_sub(1)]
}

/// What is to be stored is a task, where nothing is said of the directories above.
fn task_as(is_fine: bool, local: LocalPath, path: Path, storing: Storing, told: Told) -> Went
    ensures { result ≡ task_as is_fine local path storing told }
{
    if is_fine {
        Went::Works(Task::Put {
            local,
            path,
            storing,
        })
    } else {
        Went::Told(told)
    }
}

/// The directories above what is stored are made, where they aren't there.
fn stores_to<R: Remote>(
    alloc: Global,
    remote: &mut R,
    local: LocalPath,
    path: Path,
    storing: Storing,
) -> Result<Went, AllocError>
    ensures { IfOk result (λ w. StoresTo R.asks remote.old local path storing w remote.new) }
{
    let told = make_way(alloc, remote, above(path.as_slice()))?;
    Ok(task_as(told.is_fine(), local, path, storing, told))
}

/// `put` and `sync`, by what the word for the path names.
fn stores<R: Remote>(
    alloc: Global,
    remote: &mut R,
    local: LocalPath,
    named: Named,
    storing: Storing,
) -> Result<Went, AllocError>
    ensures { IfOk result (λ w. Stores R.asks remote.old local named storing w remote.new) }
{
    match named {
        Named::Path(path) => stores_to(alloc, remote, local, path, storing),
        Named::Mistaken(told) => Ok(Went::Told(told)),
    }
}

/// How a `put` stores.
fn put_storing(deep: bool) -> Storing
    ensures { result ≡ put_storing deep }
{
    Storing {
        deep,
        changed_only: false,
        deletes: false,
        fresh: false,
        inner: false,
        id: None,
    }
}

/// How a `sync` stores.
fn sync_storing(deletes: bool) -> Storing
    ensures { result ≡ sync_storing deletes }
{
    Storing {
        deep: true,
        changed_only: true,
        deletes,
        fresh: false,
        inner: false,
        id: None,
    }
}

/// `put` of what is here.
fn put_to<R: Remote>(
    alloc: Global,
    remote: &mut R,
    dir: &[Name],
    line: &Line,
    local: LocalPath,
    is_folder: bool,
) -> Result<Went, AllocError>
    ensures { IfOk result (λ w. PutsTo R.asks remote.old dir.now line.now local is_folder w remote.new) }
{
    let last = last_of(operand(line, 0));
    let target = remote_target(alloc, remote, dir, is_folder, operand(line, 1), last)?;
    stores(alloc, remote, local, target, put_storing(line.has_option))
}

/// `put`, by what LOCAL is here.
fn put_from<R: Remote>(
    alloc: Global,
    remote: &mut R,
    dir: &[Name],
    line: &Line,
    source: Source,
) -> Result<Went, AllocError>
    ensures { IfOk result (λ w. PutsFrom R.asks remote.old dir.now line.now source w remote.new) }
{
    match source {
        Source::Here { local, is_folder } => put_to(alloc, remote, dir, line, local, is_folder),
        Source::Mistaken(told) => Ok(Went::Told(told)),
    }
}

/// `sync` of what is here.
fn sync_to<R: Remote>(
    alloc: Global,
    remote: &mut R,
    dir: &[Name],
    line: &Line,
    local: LocalPath,
    is_folder: bool,
) -> Result<Went, AllocError>
    ensures { IfOk result (λ w. SyncsTo R.asks remote.old dir.now line.now local is_folder w remote.new) }
{
    let word = operand(line, 1);
    let target = name_at(alloc, remote, dir, says_dir(word), !is_folder, word)?;
    stores(
        alloc,
        remote,
        local,
        target,
        sync_storing(line.has_option && is_folder),
    )
}

/// `sync`, by what LOCAL is here.
fn sync_from<R: Remote>(
    alloc: Global,
    remote: &mut R,
    dir: &[Name],
    line: &Line,
    source: Source,
) -> Result<Went, AllocError>
    ensures { IfOk result (λ w. SyncsFrom R.asks remote.old dir.now line.now source w remote.new) }
{
    match source {
        Source::Here { local, is_folder } => sync_to(alloc, remote, dir, line, local, is_folder),
        Source::Mistaken(told) => Ok(Went::Told(told)),
    }
}

/// `get`: a task, and the folder that it writes to is cleared of what stopped fetches left.
fn gets_into<F: Folder>(alloc: Global, host: &mut F, path: Path, deep: bool, to: NamedLocal) -> Went
    ensures { GetsInto F.clears host.old path deep to result host.new }
{
    match to {
        NamedLocal::Path(local) => {
            host.clear(alloc, folder_of(local.as_str()));
            Went::Works(Task::Get {
                path,
                local,
                deep,
                id: None,
            })
        }
        NamedLocal::Mistaken(told) => Went::Told(told),
    }
}

/// The name under which it is put into a folder. As of a `put`, what a word names that ends in `/.` isn't put into
/// one under its own name: a `get` that was stopped goes on so.
fn name_into<'a>(line: &Line, path: &'a [Name]) -> &'a [u8]
    ensures { result.now ≡ name_into line.now path.now }
{
    let is_named = !has_word(operand(line, 1)) || is_component(last_of(operand(line, 0)));
    name_below(is_named, name_got(path))
}

/// `get` of what has a name that a file here can have.
fn gets<F: Folder>(
    alloc: Global,
    host: &mut F,
    folder: &str,
    line: &Line,
    path: Path,
) -> Result<Went, AllocError>
    ensures { IfOk result (λ w. Gets F.finds F.clears host.old folder.now (operand_of line.now 1) (name_into line.now path) path line.now.has_option w host.new) }
{
    let name = name_into(line, path.as_slice());
    let to = got(alloc, host, folder, operand(line, 1), name)?;
    Ok(gets_into(alloc, host, path, line.has_option, to))
}

/// `get`.
fn gets_if<F: Folder>(
    alloc: Global,
    host: &mut F,
    is_name: bool,
    folder: &str,
    line: &Line,
    path: Path,
) -> Result<Went, AllocError>
    ensures { IfOk result (λ w. GetsIf F.finds F.clears host.old is_name folder.now line.now path w host.new) }
{
    if is_name {
        gets(alloc, host, folder, line, path)
    } else {
        let name = name_got(path.as_slice());
        let told = of_word(alloc, name, fault_words(LocalFault::BadName))?;
        Ok(Went::Told(told))
    }
}

/// Whether the word of a command says that a directory has its path. FILE/. is fetched as FILE.
fn says_of(verb: Verb, word: &[u8]) -> bool
    ensures { result ≡ says_of verb word.now }
{
    match verb {
        Verb::Get => is_slashed(word),
        _ => says_dir(word),
    }
}

/// Whether a command wants a path that nothing has.
fn is_mkdir(verb: Verb) -> bool
    ensures { result ≡ is_mkdir verb }
{
    matches!(verb, Verb::Mkdir)
}

impl Shell {
    /// A shell at the server's root, and in the folder that the program runs in, which is this one, where it is known.
    pub fn new(alloc: Global, here: &Option<LocalPath>) -> Result<Shell, AllocError>
        ensures { IfOk result (λ shell. StandsFirst here.now shell.dir shell.folder shell.here) }
    {
        let here = match here {
            Some(path) => Some(LocalPath::copy_of(alloc, path.as_str())?),
            None => None,
        };
        Ok(Shell {
            dir: Items::new(alloc),
            folder: LocalPath::copy_of(alloc, ".")?,
            here,
        })
    }

    /// The directory of the server in which it stands.
    pub fn place(&self) -> &[Name]
        ensures { result.now ≡ self.now.dir }
    {
        self.dir.as_slice()
    }

    /// `pwd`.
    fn tell_place(&self, alloc: Global) -> Result<Told, AllocError>
        ensures { IfOk result (λ told. told ≡ fine (path_text self.now.dir ++ codes "\n")) }
    {
        let mut text = path_text(alloc, self.dir.as_slice())?;
        text.extend_from_slice(b"\n")?;
        Ok(fine(alloc, text))
    }

    /// `put`.
    fn put<R: Remote, F: Folder>(
        &self,
        alloc: Global,
        remote: &mut R,
        host: &mut F,
        line: &Line,
    ) -> Result<Went, AllocError>
        ensures { IfOk result (λ w. RunsPut R.asks F.finds remote.old host.old self.now.folder self.now.dir line.now w remote.new host.new) }
    {
        let deep = line.has_option;
        let source = find_source(alloc, host, self.folder.as_str(), operand(line, 0), deep)?;
        put_from(alloc, remote, self.dir.as_slice(), line, source)
    }

    /// `sync`.
    fn sync<R: Remote, F: Folder>(
        &self,
        alloc: Global,
        remote: &mut R,
        host: &mut F,
        line: &Line,
    ) -> Result<Went, AllocError>
        ensures { IfOk result (λ w. RunsSync R.asks F.finds remote.old host.old self.now.folder self.now.dir line.now w remote.new host.new) }
    {
        let source = find_source(alloc, host, self.folder.as_str(), operand(line, 0), true)?;
        sync_from(alloc, remote, self.dir.as_slice(), line, source)
    }

    /// A command on a path of the server.
    fn run_on<R: Remote, F: Folder>(
        &mut self,
        alloc: Global,
        remote: &mut R,
        host: &mut F,
        line: &Line,
        path: Path,
    ) -> Result<Went, AllocError>
        ensures does { IfOk result (λ w. DoesPath R.asks R.content F.finds F.clears line.now.verb line.now self.old.folder self.old.dir path remote.old host.old w remote.new host.new self.new.dir) }
        ensures folder { self.new.folder ≡ self.old.folder }
        ensures here { self.new.here ≡ self.old.here }
    {
        match line.verb {
            Verb::Cd => {
                let told = go(alloc, remote, &mut self.dir, path)?;
                Ok(Went::Told(told))
            }
            Verb::Get => {
                let is_name = is_name_here(name_got(path.as_slice()));
                gets_if(alloc, host, is_name, self.folder.as_str(), line, path)
            }
            Verb::Mv => {
                let dir = self.dir.as_slice();
                let told = move_named(alloc, remote, dir, path.as_slice(), operand(line, 1))?;
                Ok(Went::Told(told))
            }
            Verb::Rm => {
                let deep = line.has_option;
                let over = deep && is_over(path.as_slice(), self.dir.as_slice());
                let dotted = deep && is_dotted(operand(line, 0));
                let told = remove_if(alloc, remote, over, dotted, deep, path.as_slice())?;
                Ok(Went::Told(told))
            }
            verb => {
                let told = on_path(alloc, remote, verb, line.has_option, path.as_slice())?;
                Ok(Went::Told(told))
            }
        }
    }

    /// The same, where a word names the path.
    fn run_at<R: Remote, F: Folder>(
        &mut self,
        alloc: Global,
        remote: &mut R,
        host: &mut F,
        line: &Line,
        at: Named,
    ) -> Result<Went, AllocError>
        ensures does { IfOk result (λ w. DoesNamed R.asks R.content F.finds F.clears line.now self.old.folder self.old.dir at remote.old host.old w remote.new host.new self.new.dir) }
        ensures folder { self.new.folder ≡ self.old.folder }
        ensures here { self.new.here ≡ self.old.here }
    {
        match at {
            Named::Path(path) => self.run_on(alloc, remote, host, line, path),
            Named::Mistaken(told) => Ok(Went::Told(told)),
        }
    }

    /// A command whose first word is a path of the server.
    fn run_named<R: Remote, F: Folder>(
        &mut self,
        alloc: Global,
        remote: &mut R,
        host: &mut F,
        line: &Line,
    ) -> Result<Went, AllocError>
        ensures runs { IfOk result (λ w. RunsNamed R.asks R.content F.finds F.clears line.now self.old.folder self.old.dir remote.old host.old w remote.new host.new self.new.dir) }
        ensures folder { self.new.folder ≡ self.old.folder }
        ensures here { self.new.here ≡ self.old.here }
    {
        let word = operand(line, 0);
        let (says, must) = (says_of(line.verb, word), !is_mkdir(line.verb));
        let at = name_at(alloc, remote, self.dir.as_slice(), says, must, word)?;
        self.run_at(alloc, remote, host, line, at)
    }

    /// Runs a line. `help` isn't a command of a tree: it is told as `bye` is, by whoever calls.
    pub fn run<R: Remote, F: Folder>(
        &mut self,
        alloc: Global,
        remote: &mut R,
        host: &mut F,
        line: &Line,
    ) -> Result<Went, AllocError>
        ensures runs { IfOk result (λ w. Runs R.asks R.content F.finds F.clears line.now self.old remote.old host.old w remote.new host.new self.new) }
        ensures folder { KeepsFolder line.now.verb self.old.folder self.new.folder }
        ensures here { self.new.here ≡ self.old.here }
    {
        match line.verb {
            Verb::Pwd => Ok(Went::Told(self.tell_place(alloc)?)),
            Verb::Lcd => {
                let word = operand(line, 0);
                let told = lcd(alloc, host, &self.here, &mut self.folder, word)?;
                Ok(Went::Told(told))
            }
            Verb::Put => self.put(alloc, remote, host, line),
            Verb::Sync => self.sync(alloc, remote, host, line),
            Verb::Bye | Verb::Help => Ok(Went::Bye),
            _ => self.run_named(alloc, remote, host, line),
        }
    }
}
