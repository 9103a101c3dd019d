//! What a word names of the host's files, and what a line asks of these: `specs/Here.antt`.

ghost use Rattle.std.specs.Prelude.{◌≡◌, IfOk};
ghost use Rattle.std.specs.Str.{is_utf8};
ghost use Rattle.shell_commands.specs.Here.{of_word, has_word, plain, local_in, named_local, is_folder, lcd_told, lcd_to, FindsFolder, LcdOn, LcdTo};
ghost use Rattle.shell_commands.specs.Here.{folder_told, LcdIf, not_here, folder_source, source_as, FindsSource, SourceOn, Sources};
ghost use Rattle.shell_commands.specs.Here.{name_got, is_name_here, name_below, below_if, got_to, is_into, got_as, FindsGot, GotOn, word_else, GotTo};

use command_text::words::is;
use lb_base::items::{Items, Name};
use shell_walks::folder::{Folder, Kind, LocalFault};
use shell_walks::telling::{fault_words, note_line};
use shell_walks::told::{Told, fine, notes};
use shell_words::local::{LocalPath, is_component, text_of};
use shell_words::quoting::quoted;
use std::alloc::{AllocError, Global};

/// A path of the host that a word names, or what is wrong with the word.
pub(crate) enum NamedLocal {
    Path(LocalPath),
    Mistaken(Told),
}

/// What is to be stored, or why it isn't.
pub(crate) enum Source {
    Here { local: LocalPath, is_folder: bool },
    Mistaken(Told),
}

/// This is said of a word.
pub(crate) fn of_word(alloc: Global, word: &[u8], words: &[u8]) -> Result<Told, AllocError>
    ensures { IfOk result (λ told. told ≡ of_word word.now words.now) }
{
    let about = quoted(alloc, word)?;
    let line = note_line(alloc, about.as_slice(), words)?;
    Ok(notes(alloc, line))
}

/// Whether there is a word.
pub(crate) fn has_word(word: &[u8]) -> bool
    ensures { result ≡ has_word word.now }
{
    word.len() > 0
}

/// A word for a path of the host without `./` in front, which says nothing; alone it is `.`.
fn plain(word: &str) -> &str
    ensures { result.now ≡ plain word.now }
{
    if let Some(rest) = word.strip_prefix("./") {
        if rest.is_empty() {
            "."
        } else if rest.starts_with("/") {
            word
        } else {
            rest
        }
    } else {
        word
    }
}

/// The path of such a word in a folder.
fn local_in(alloc: Global, folder: &str, word: &str) -> Result<LocalPath, AllocError>
    ensures { IfOk result (λ local. local ≡ local_in folder.now word.now) }
{
    if word == "." {
        LocalPath::copy_of(alloc, folder)
    } else {
        LocalPath::of(alloc, folder, word)
    }
}

/// The path of the host that a word names, as it is shown.
fn named_local(alloc: Global, folder: &str, word: &[u8]) -> Result<NamedLocal, AllocError>
    ensures { IfOk result (λ n. n ≡ named_local folder.now word.now) }
{
    match text_of(word) {
        Some(text) => {
            let local = local_in(alloc, folder, plain(text))?;
            Ok(NamedLocal::Path(local))
        }
        None => {
            let told = of_word(alloc, word, fault_words(LocalFault::NotText))?;
            Ok(NamedLocal::Mistaken(told))
        }
    }
}

/// Whether it is a folder.
fn is_folder(kind: Kind) -> bool
    ensures { result ≡ is_folder kind }
{
    match kind {
        Kind::Folder => true,
        _ => false,
    }
}

/// What `lcd` tells.
fn lcd_told(alloc: Global, word: &[u8], kind: Kind) -> Result<Told, AllocError>
    ensures { IfOk result (λ told. told ≡ lcd_told word.now kind) }
{
    match kind {
        Kind::Folder => Ok(fine(alloc, Items::new(alloc))),
        Kind::Missing => of_word(alloc, word, fault_words(LocalFault::Missing)),
        Kind::Hidden(fault) => of_word(alloc, word, fault_words(fault)),
        _ => of_word(alloc, word, fault_words(LocalFault::NotFolder)),
    }
}

/// The folder in which it stands then.
fn lcd_to(folder: &mut LocalPath, local: LocalPath, is_folder: bool)
    ensures { folder.new ≡ lcd_to is_folder local folder.old }
{
    if is_folder {
        *folder = local;
    }
}

/// `lcd` to a path.
fn find_folder<F: Folder>(
    alloc: Global,
    host: &mut F,
    folder: &mut LocalPath,
    word: &[u8],
    local: LocalPath,
) -> Result<Told, AllocError>
    ensures { IfOk result (λ told. FindsFolder F.finds host.old word.now local folder.old told host.new folder.new) }
{
    let kind = host.kind(local.as_str(), true);
    let told = lcd_told(alloc, word, kind)?;
    lcd_to(folder, local, is_folder(kind));
    Ok(told)
}

/// `lcd` to what a word names.
fn lcd_on<F: Folder>(
    alloc: Global,
    host: &mut F,
    folder: &mut LocalPath,
    word: &[u8],
    at: NamedLocal,
) -> Result<Told, AllocError>
    ensures { IfOk result (λ told. LcdOn F.finds host.old word.now folder.old at told host.new folder.new) }
{
    match at {
        NamedLocal::Path(local) => find_folder(alloc, host, folder, word, local),
        NamedLocal::Mistaken(told) => Ok(told),
    }
}

/// `lcd` to a folder that is there.
fn lcd_word<F: Folder>(
    alloc: Global,
    host: &mut F,
    folder: &mut LocalPath,
    word: &[u8],
) -> Result<Told, AllocError>
    ensures { IfOk result (λ told. LcdTo F.finds host.old word.now folder.old told host.new folder.new) }
{
    let at = named_local(alloc, folder.as_str(), word)?;
    lcd_on(alloc, host, folder, word, at)
}

/// `lcd` without a word.
fn folder_told(
    alloc: Global,
    here: &Option<LocalPath>,
    folder: &LocalPath,
) -> Result<Told, AllocError>
    ensures { IfOk result (λ told. told ≡ folder_told here.now folder.now) }
{
    let whole = LocalPath::whole(alloc, here, folder.as_str())?;
    let mut text = quoted(alloc, whole.as_str().as_bytes())?;
    text.extend_from_slice(b"\n")?;
    Ok(fine(alloc, text))
}

/// `lcd`.
pub(crate) fn lcd<F: Folder>(
    alloc: Global,
    host: &mut F,
    here: &Option<LocalPath>,
    folder: &mut LocalPath,
    word: &[u8],
) -> Result<Told, AllocError>
    ensures { IfOk result (λ told. LcdIf F.finds host.old (has_word word.now) here.now word.now folder.old told host.new folder.new) }
{
    if has_word(word) {
        lcd_word(alloc, host, folder, word)
    } else {
        folder_told(alloc, here, folder)
    }
}

/// This isn't stored.
fn not_here(alloc: Global, local: &str, fault: LocalFault) -> Result<Source, AllocError>
    ensures { IfOk result (λ s. s ≡ not_here local.now fault) }
{
    let told = of_word(alloc, local.as_bytes(), fault_words(fault))?;
    Ok(Source::Mistaken(told))
}

/// A folder is stored only with all that is in it.
fn folder_source(alloc: Global, deep: bool, local: LocalPath) -> Result<Source, AllocError>
    ensures { IfOk result (λ s. s ≡ folder_source deep local) }
{
    if deep {
        Ok(Source::Here {
            local,
            is_folder: true,
        })
    } else {
        not_here(alloc, local.as_str(), LocalFault::NotDeep)
    }
}

/// What is to be stored, by what it was found to be.
fn source_as(alloc: Global, deep: bool, local: LocalPath, kind: Kind) -> Result<Source, AllocError>
    ensures { IfOk result (λ s. s ≡ source_as deep local kind) }
{
    match kind {
        Kind::Missing => not_here(alloc, local.as_str(), LocalFault::Missing),
        Kind::Hidden(fault) => not_here(alloc, local.as_str(), fault),
        Kind::Folder => folder_source(alloc, deep, local),
        _ => Ok(Source::Here {
            local,
            is_folder: false,
        }),
    }
}

/// What is to be stored, by what its word names.
fn source_on<F: Folder>(
    alloc: Global,
    host: &mut F,
    deep: bool,
    at: NamedLocal,
) -> Result<Source, AllocError>
    ensures { IfOk result (λ s. SourceOn F.finds host.old deep at s host.new) }
{
    match at {
        NamedLocal::Path(local) => {
            let kind = host.kind(local.as_str(), true);
            source_as(alloc, deep, local, kind)
        }
        NamedLocal::Mistaken(told) => Ok(Source::Mistaken(told)),
    }
}

/// What is to be stored, where it is here.
pub(crate) fn find_source<F: Folder>(
    alloc: Global,
    host: &mut F,
    folder: &str,
    word: &[u8],
    deep: bool,
) -> Result<Source, AllocError>
    ensures { IfOk result (λ s. Sources F.finds host.old folder.now word.now deep s host.new) }
{
    let at = named_local(alloc, folder, word)?;
    source_on(alloc, host, deep, at)
}

/// The name of what is got; `.` of the root.
pub(crate) fn name_got(path: &[Name]) -> &[u8]
    ensures { result.now ≡ name_got path.now }
{
    match path.get(path.len().saturating_sub(1)) {
        Some(name) => name.as_slice(),
        None => b".",
    }
}

/// Whether a file here can have the name of what is got.
pub(crate) fn is_name_here(name: &[u8]) -> bool
    ensures { result ≡ is_name_here name.now }
{
    is_component(name) || is(name, b".")
}

/// The name below LOCAL; `.` where it isn't put there.
pub(crate) fn name_below(is_named: bool, name: &[u8]) -> &[u8]
    ensures { result.now ≡ name_below is_named name.now }
{
    if is_named { name } else { b"." }
}

/// A name in a folder, which has to be text.
fn below_if(alloc: Global, local: &str, name: &[u8]) -> Result<NamedLocal, AllocError>
    ensures { IfOk result (λ n. n ≡ below_if (is_utf8 name.now) local.now name.now) }
{
    match text_of(name) {
        Some(text) => {
            let local = LocalPath::below(alloc, local, text)?;
            Ok(NamedLocal::Path(local))
        }
        None => {
            let told = of_word(alloc, name, fault_words(LocalFault::NotText))?;
            Ok(NamedLocal::Mistaken(told))
        }
    }
}

/// The path that a `get` writes to: in the folder that was named, and else at the path.
fn got_to(
    alloc: Global,
    is_into: bool,
    local: LocalPath,
    name: &[u8],
) -> Result<NamedLocal, AllocError>
    ensures { IfOk result (λ n. n ≡ got_to is_into local name.now) }
{
    if is_into {
        below_if(alloc, local.as_str(), name)
    } else {
        Ok(NamedLocal::Path(local))
    }
}

/// Whether a folder was named, to get into.
fn is_into(is_given: bool, name: &[u8], kind: Kind) -> bool
    ensures { result ≡ is_into is_given name.now kind }
{
    is_folder(kind) && is_given && is_component(name)
}

/// The path that a `get` writes to, by what was found there. Where that can't be told nothing is fetched.
fn got_as(
    alloc: Global,
    is_given: bool,
    local: LocalPath,
    name: &[u8],
    kind: Kind,
) -> Result<NamedLocal, AllocError>
    ensures { IfOk result (λ n. n ≡ got_as is_given local name.now kind) }
{
    match kind {
        Kind::Hidden(fault) => {
            let told = of_word(alloc, local.as_str().as_bytes(), fault_words(fault))?;
            Ok(NamedLocal::Mistaken(told))
        }
        kind => got_to(alloc, is_into(is_given, name, kind), local, name),
    }
}

/// The path that a `get` writes to, by what its word names.
fn got_on<F: Folder>(
    alloc: Global,
    host: &mut F,
    is_given: bool,
    name: &[u8],
    at: NamedLocal,
) -> Result<NamedLocal, AllocError>
    ensures { IfOk result (λ n. GotOn F.finds host.old is_given name.now at n host.new) }
{
    match at {
        NamedLocal::Path(local) => {
            let kind = host.kind(local.as_str(), true);
            got_as(alloc, is_given, local, name, kind)
        }
        NamedLocal::Mistaken(told) => Ok(NamedLocal::Mistaken(told)),
    }
}

/// The word, or without one the name.
fn word_else<'a>(has_word: bool, word: &'a [u8], name: &'a [u8]) -> &'a [u8]
    ensures { result.now ≡ word_else has_word word.now name.now }
{
    if has_word { word } else { name }
}

/// The path that a `get` writes to.
pub(crate) fn got<F: Folder>(
    alloc: Global,
    host: &mut F,
    folder: &str,
    word: &[u8],
    name: &[u8],
) -> Result<NamedLocal, AllocError>
    ensures { IfOk result (λ n. GotTo F.finds host.old folder.now word.now name.now n host.new) }
{
    let is_given = has_word(word);
    let at = named_local(alloc, folder, word_else(is_given, word, name))?;
    got_on(alloc, host, is_given, name, at)
}
