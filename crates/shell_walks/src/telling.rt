//! What is written, and said, of what a command came to: `specs/Telling.antt`. Each `put_` puts its text
//! behind what is there; the one error is running out of memory.

ghost use Rattle.std.specs.Prelude.{◌≡◌, ◌+◌, ◌-◌, ◌++◌, ◌∷◌, [], IfOk, OnOk, codes, decimal, length, replicate};
ghost use Rattle.shell_walks.specs.declared.remote.Why.TheVariants as whys;
ghost use Rattle.shell_words.specs.Quoting.{quoted};
ghost use Rattle.shell_walks.specs.Telling.{status_words, status_text, why_text, fault_text, mistake_text, slashed, path_text, note_line, names_text, padded, kind_text, long_line, stat_text, why_of};
ghost use Rattle.shell_walks.specs.Telling.{unstored_text, is_off, left_text, is_dir, refused_told, done_told, removed_told, names_told, stat_told};

use crate::folder::LocalFault;
use crate::remote::{Answer, Seen, Why};
use crate::told::{Told, fine, notes};
use lb_base::items::{Bytes, Items, Name};
use shell_words::mistake::Mistake;
use shell_words::quoting::quoted;
use std::alloc::{AllocError, Global};
use std::fmt::Write;

/// A number in decimal.
fn decimal(alloc: Global, number: u64) -> Result<Bytes, AllocError>
    ensures { IfOk result (λ text. text ≡ decimal number) }
{
    let mut text = String::new(alloc);
    write!(text, "{number}")?;
    Ok(Items::from_vec(text.into_bytes()))
}

/// A number.
fn put_number(alloc: Global, out: &mut Bytes, number: u64) -> Result<(), AllocError>
    ensures { OnOk result (out.new ≡ out.old ++ decimal number) }
{
    let text = decimal(alloc, number)?;
    out.extend_from_slice(text.as_slice())
}

/// A status, where its words have no number.
fn status_words(status: u32) -> &'static [u8]
    ensures { result.now ≡ status_words status }
{
    match status {
        2 => b"no such file or directory",
        5 => b"the server's store failed (it says why; its disk may be full)",
        13 => b"the server takes no such name",
        17 => b"it is there already",
        20 => b"not a directory",
        21 => b"it is a directory",
        22 => b"no directory can go into itself",
        27 => b"the file is too large (64 MiB are the most)",
        28 => b"the server has no more room",
        63 => b"the name is too long",
        66 => b"the directory isn't empty",
        70 => b"it is gone",
        10008 => b"its names changed while it waited (look, and do it again)",
        _ => b"",
    }
}

/// A status that has no words.
fn numbered_status(alloc: Global, status: u32) -> Result<Bytes, AllocError>
    ensures { IfOk result (λ text. text ≡ codes "the server refused it, with status " ++ decimal status) }
{
    let mut text = String::new(alloc);
    write!(text, "the server refused it, with status {status}")?;
    Ok(Items::from_vec(text.into_bytes()))
}

/// A status in words.
fn put_status(alloc: Global, out: &mut Bytes, status: u32) -> Result<(), AllocError>
    ensures { OnOk result (out.new ≡ out.old ++ status_text status) }
{
    let words = status_words(status);
    if words.len() == 0 {
        let text = numbered_status(alloc, status)?;
        return out.extend_from_slice(text.as_slice());
    }
    out.extend_from_slice(words)
}

/// A fault of the server's in words.
fn bad_peer_text(alloc: Global, fault: u32) -> Result<Bytes, AllocError>
    ensures { IfOk result (λ text. text ≡ why_text (whys.BadPeer fault)) }
{
    let mut text = String::new(alloc);
    write!(
        text,
        "the server broke the protocol, or is no lbfs share ({fault})"
    )?;
    Ok(Items::from_vec(text.into_bytes()))
}

/// The same, behind what is there.
fn put_bad_peer(alloc: Global, out: &mut Bytes, fault: u32) -> Result<(), AllocError>
    ensures { OnOk result (out.new ≡ out.old ++ why_text (whys.BadPeer fault)) }
{
    let text = bad_peer_text(alloc, fault)?;
    out.extend_from_slice(text.as_slice())
}

/// Why a command wasn't done, in words.
pub fn put_why(alloc: Global, out: &mut Bytes, why: Why) -> Result<(), AllocError>
    ensures { OnOk result (out.new ≡ out.old ++ why_text why) }
{
    match why {
        Why::Order => out.extend_from_slice(b"the client has no such file open"),
        Why::TooBig => out.extend_from_slice(b"the file is too large (64 MiB are the most)"),
        Why::Lost => out.extend_from_slice(
            b"the connection was lost (is lbfs share still running?); it may be done, or not",
        ),
        Why::Cut => {
            out.extend_from_slice(b"the connection was lost (is lbfs share still running?)")
        }
        Why::Changed => out.extend_from_slice(b"the file changed each time that it was fetched"),
        Why::NoLink => out.extend_from_slice(
            b"no server answers (is lbfs share, or ssh -L, running yet, or has it 64 connections?)",
        ),
        Why::Refused(status) => put_status(alloc, out, status),
        Why::PeerMemory => out.extend_from_slice(b"the server has no memory left"),
        Why::BadPeer(fault) => put_bad_peer(alloc, out, fault),
        Why::Root => out.extend_from_slice(b"the root is there and stays"),
        Why::Memory => out.extend_from_slice(b"no memory is left"),
        Why::Unstored => out.extend_from_slice(
            b"nothing is stored in it yet (a put goes on, or is to be done again)",
        ),
    }
}

/// Why something wasn't done with a file of the host, in words.
pub fn fault_words(fault: LocalFault) -> &'static [u8]
    ensures { result.now ≡ fault_text fault }
{
    match fault {
        LocalFault::Missing => b"no such file or folder here",
        LocalFault::NoFolder => b"its folder isn't here",
        LocalFault::Exists => b"it is here already",
        LocalFault::IsFolder => b"it is a folder here",
        LocalFault::NotDeep => b"it is a folder here (put -r stores folders)",
        LocalFault::NotFolder => b"it is no folder here",
        LocalFault::Denied => b"permission denied here",
        LocalFault::Full => b"the disk here is full",
        LocalFault::TooBig => b"the file is too large (64 MiB are the most)",
        LocalFault::BadName => b"no file here can have this name",
        LocalFault::Cache => b"it is the cache file here (name another one)",
        LocalFault::NotText => b"a name here has to be UTF-8 for this program",
        LocalFault::Link => b"it is a symbolic link in a folder, and isn't followed",
        LocalFault::Nowhere => b"it is a symbolic link to nothing here",
        LocalFault::Odd => b"it is neither a file nor a folder here",
        LocalFault::LeftOver => b"passed over: a get that is stopped leaves such names",
        LocalFault::Changed => b"it changed here while it was read",
        LocalFault::Failed => b"the system failed here",
        LocalFault::Memory => b"no memory is left",
    }
}

/// A mistake in words.
pub fn mistake_words(mistake: Mistake) -> &'static [u8]
    ensures { result.now ≡ mistake_text mistake }
{
    match mistake {
        Mistake::BadEscape => b"a backslash stands before what it gives no meaning",
        Mistake::OpenQuote => b"a quote isn't closed",
        Mistake::Unknown => b"there is no such command (help lists them)",
        Mistake::BadOption => b"there is no such option (help COMMAND lists them)",
        Mistake::NoVersions => {
            b"storing over one version alone isn't there yet: servers have no call for it"
        }
        Mistake::NoPath => b"PATH is missing",
        Mistake::NoSecondPath => b"a second PATH is missing",
        Mistake::NoLocal => b"LOCAL is missing",
        Mistake::TooMany => b"there is a word too many (one name at a time)",
        Mistake::NoName => b"a name is empty",
        Mistake::LongName => b"a name is too long",
        Mistake::LongPath => b"a path has too many names",
    }
}

/// The names of a path, each behind a slash.
fn slashed(alloc: Global, path: &[Name]) -> Result<Bytes, AllocError>
    ensures { IfOk result (λ text. text ≡ slashed path.now) }
{
    let mut out = Items::new(alloc);
    for name in path {
        out.extend_from_slice(b"/")?;
        out.extend_from_slice(name.as_slice())?;
    }
    Ok(out)
}

/// A path, as it is shown.
pub fn path_text(alloc: Global, path: &[Name]) -> Result<Bytes, AllocError>
    ensures { IfOk result (λ text. text ≡ path_text path.now) }
{
    if path.is_empty() {
        return Items::copy_of(alloc, b"/");
    }
    let text = slashed(alloc, path)?;
    quoted(alloc, text.as_slice())
}

/// What something is about, and what is said of it.
pub fn note_line(alloc: Global, about: &[u8], words: &[u8]) -> Result<Bytes, AllocError>
    ensures { IfOk result (λ text. text ≡ note_line about.now words.now) }
{
    let mut out = Items::copy_of(alloc, about)?;
    out.extend_from_slice(b": ")?;
    out.extend_from_slice(words)?;
    out.extend_from_slice(b"\n")?;
    Ok(out)
}

/// What is said of what was stored, made, and removed.
pub const STORED: &[u8] = b"stored";

pub const MADE: &[u8] = b"made";

pub const REMOVED: &[u8] = b"removed";

/// A path of the server's, and what is said of it.
pub fn path_line(alloc: Global, path: &[Name], words: &[u8]) -> Result<Bytes, AllocError>
    ensures { IfOk result (λ text. text ≡ note_line (path_text path.now) words.now) }
{
    let about = path_text(alloc, path)?;
    note_line(alloc, about.as_slice(), words)
}

/// A name, as it is shown, and a line feed.
fn put_name(alloc: Global, out: &mut Bytes, name: &[u8]) -> Result<(), AllocError>
    ensures { OnOk result (out.new ≡ out.old ++ (quoted name.now ++ codes "\n")) }
{
    let shown = quoted(alloc, name)?;
    out.extend_from_slice(shown.as_slice())?;
    out.extend_from_slice(b"\n")
}

/// Names, a line for each.
fn names_text(alloc: Global, names: &[Name]) -> Result<Bytes, AllocError>
    ensures { IfOk result (λ text. text ≡ names_text names.now) }
{
    let mut out = Items::new(alloc);
    for name in names {
        put_name(alloc, &mut out, name.as_slice())?;
    }
    Ok(out)
}

/// So many blanks.
fn put_blanks(out: &mut Bytes, count: usize) -> Result<(), AllocError>
    ensures { OnOk result (out.new ≡ out.old ++ replicate count 32) }
{
    for _at in 0..count {
        out.extend_from_slice(b" ")?;
    }
    Ok(())
}

/// A number at the right of so many columns.
fn put_padded(alloc: Global, out: &mut Bytes, columns: usize, number: u64) -> Result<(), AllocError>
    ensures { OnOk result (out.new ≡ out.old ++ padded columns number) }
{
    let text = decimal(alloc, number)?;
    put_blanks(out, columns.saturating_sub(text.len()))?;
    out.extend_from_slice(text.as_slice())
}

/// Whether it is a directory, in four letters.
fn kind_words(is_dir: bool) -> &'static [u8]
    ensures { result.now ≡ kind_text is_dir }
{
    if is_dir { b"dir " } else { b"file" }
}

/// A line of `ls -l`, with a name as it is shown.
pub fn long_line(alloc: Global, seen: &Seen, shown: &[u8]) -> Result<Bytes, AllocError>
    ensures { IfOk result (λ text. text ≡ long_line seen.now shown.now) }
{
    let mut out = Items::copy_of(alloc, kind_words(seen.is_dir))?;
    put_padded(alloc, &mut out, 10, seen.len)?;
    put_padded(alloc, &mut out, 7, seen.version)?;
    out.extend_from_slice(b" ")?;
    out.extend_from_slice(shown)?;
    out.extend_from_slice(b"\n")?;
    Ok(out)
}

/// What `stat` writes.
fn stat_text(alloc: Global, path: &[Name], seen: &Seen) -> Result<Bytes, AllocError>
    ensures { IfOk result (λ text. text ≡ stat_text path.now seen.now) }
{
    let mut out = path_text(alloc, path)?;
    out.extend_from_slice(b"\n")?;
    out.extend_from_slice(kind_words(seen.is_dir))?;
    out.extend_from_slice(b" id ")?;
    put_number(alloc, &mut out, seen.id)?;
    out.extend_from_slice(b" version ")?;
    put_number(alloc, &mut out, seen.version)?;
    out.extend_from_slice(b" length ")?;
    put_number(alloc, &mut out, seen.len)?;
    out.extend_from_slice(b"\n")?;
    Ok(out)
}

/// Why an answer is of no use. One that tells something else is a fault of the client's.
pub fn why_of(answer: &Answer) -> Why
    ensures { result ≡ why_of answer.now }
{
    match answer {
        Answer::Failed(why) | Answer::Left(why) => *why,
        _ => Why::Order,
    }
}

/// Whether there is no connection, so that nothing else need be begun.
pub fn is_off(why: Why) -> bool
    ensures { result ≡ is_off why }
{
    matches!(why, Why::NoLink)
}

/// That so many weren't begun.
fn left_line(alloc: Global, count: u64) -> Result<Bytes, AllocError>
    ensures { IfOk result (λ text. text ≡ codes "not begun: at least " ++ decimal count ++ codes " more\n") }
{
    let mut text = String::new(alloc);
    write!(text, "not begun: at least {count} more\n")?;
    Ok(Items::from_vec(text.into_bytes()))
}

/// How many weren't begun, where some weren't.
pub fn left_text(alloc: Global, count: u64) -> Result<Bytes, AllocError>
    ensures { IfOk result (λ text. text ≡ left_text count) }
{
    if count == 0 {
        return Ok(Items::new(alloc));
    }
    left_line(alloc, count)
}

/// Why something wasn't stored for which a file was made, in words.
fn put_left(alloc: Global, out: &mut Bytes, why: Why) -> Result<(), AllocError>
    ensures { OnOk result (out.new ≡ out.old ++ (why_text why ++ codes "; a new file may stay there, empty")) }
{
    put_why(alloc, out, why)?;
    out.extend_from_slice(b"; a new file may stay there, empty")
}

/// Why something wasn't stored, in words, and that a file may have been made for it.
pub fn put_unstored(alloc: Global, out: &mut Bytes, answer: &Answer) -> Result<(), AllocError>
    ensures { OnOk result (out.new ≡ out.old ++ unstored_text answer.now) }
{
    match answer {
        Answer::Left(why) => put_left(alloc, out, *why),
        answer => put_why(alloc, out, why_of(answer)),
    }
}

/// Whether a directory stands in the place of a file: NFS3ERR_ISDIR.
pub fn is_dir(answer: &Answer) -> bool
    ensures { result ≡ is_dir answer.now }
{
    matches!(answer, Answer::Failed(Why::Refused(21)))
}

/// A command on this path wasn't done.
pub fn refused_told(alloc: Global, path: &[Name], why: Why) -> Result<Told, AllocError>
    ensures { IfOk result (λ told. told ≡ refused_told path.now why) }
{
    let mut words = Items::new(alloc);
    put_why(alloc, &mut words, why)?;
    Ok(notes(alloc, path_line(alloc, path, words.as_slice())?))
}

/// Of a command that has nothing to tell.
pub fn done_told(alloc: Global, path: &[Name], answer: &Answer) -> Result<Told, AllocError>
    ensures { IfOk result (λ told. told ≡ done_told path.now answer.now) }
{
    match answer {
        Answer::Done => Ok(fine(alloc, Items::new(alloc))),
        answer => refused_told(alloc, path, why_of(answer)),
    }
}

/// Of a removal: a directory wants `-r`.
pub fn removed_told(alloc: Global, path: &[Name], answer: &Answer) -> Result<Told, AllocError>
    ensures { IfOk result (λ told. told ≡ removed_told path.now answer.now) }
{
    if is_dir(answer) {
        return Ok(notes(
            alloc,
            path_line(
                alloc,
                path,
                b"it is a directory (rm -r removes directories)",
            )?,
        ));
    }
    done_told(alloc, path, answer)
}

/// Of a listing.
pub fn names_told(alloc: Global, path: &[Name], answer: &Answer) -> Result<Told, AllocError>
    ensures { IfOk result (λ told. told ≡ names_told path.now answer.now) }
{
    match answer {
        Answer::Names(listed) => Ok(fine(alloc, names_text(alloc, listed.names.as_slice())?)),
        answer => refused_told(alloc, path, why_of(answer)),
    }
}

/// Of what a name stands for.
pub fn stat_told(alloc: Global, path: &[Name], answer: &Answer) -> Result<Told, AllocError>
    ensures { IfOk result (λ told. told ≡ stat_told path.now answer.now) }
{
    match answer {
        Answer::Seen(seen) => Ok(fine(alloc, stat_text(alloc, path, seen)?)),
        answer => refused_told(alloc, path, why_of(answer)),
    }
}
