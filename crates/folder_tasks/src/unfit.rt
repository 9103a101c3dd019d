//! Names that don't go between a folder and a directory: what is said of them.

ghost use Rattle.std.specs.Prelude.{◌≡◌, ◌++◌, IfOk, OnOk};
ghost use Rattle.folder_tasks.specs.Putting.{with_odd};
ghost use Rattle.folder_tasks.specs.Visiting.{bad_more, bad_name, bad_names, name_fault, odd_more, odd_name, odd_names, odd_text};

use lb_base::items::{Bytes, Items, Name};
use shell_walks::folder::LocalFault;
use shell_walks::tasks::longer;
use shell_walks::telling::{fault_words, note_line, path_line};
use shell_words::local::is_component;
use shell_words::quoting::quoted;
use shell_words::temporary::{carried_name, is_temporary};
use std::alloc::{AllocError, Global};

/// Why a name goes nowhere.
fn name_fault(name: &[u8]) -> LocalFault
    ensures { result ≡ name_fault name.now }
{
    if is_temporary(name) {
        LocalFault::LeftOver
    } else if is_component(name) {
        LocalFault::NotText
    } else {
        LocalFault::BadName
    }
}

/// What is said of a name in a folder that goes nowhere.
fn bad_name(alloc: Global, folder: &[u8], name: &[u8]) -> Result<Bytes, AllocError>
    ensures { IfOk result (λ text. text ≡ bad_name folder.now name.now) }
{
    let mut path = Items::copy_of(alloc, folder)?;
    path.extend_from_slice(b"/")?;
    path.extend_from_slice(name)?;
    let about = quoted(alloc, path.as_slice())?;
    note_line(alloc, about.as_slice(), fault_words(name_fault(name)))
}

/// What is said of a name, where it goes nowhere, goes behind what is there.
fn put_bad(alloc: Global, out: &mut Bytes, folder: &[u8], name: &[u8]) -> Result<(), AllocError>
    ensures { OnOk result (out.new ≡ out.old ++ bad_more folder.now name.now) }
{
    match carried_name(name) {
        Some(_) => Ok(()),
        None => {
            let line = bad_name(alloc, folder, name)?;
            out.extend_from_slice(line.as_slice())
        }
    }
}

/// What is said of the names in a folder that go nowhere, a line for each.
pub(crate) fn bad_names(alloc: Global, folder: &[u8], names: &[Name]) -> Result<Bytes, AllocError>
    ensures { IfOk result (λ text. text ≡ bad_names folder.now names.now) }
{
    let mut note = Items::new(alloc);
    for name in names {
        put_bad(alloc, &mut note, folder, name.as_slice())?;
    }
    Ok(note)
}

/// Why a name in a directory stays there.
fn odd_words(name: &[u8]) -> &'static [u8]
    ensures { result.now ≡ odd_text name.now }
{
    if is_temporary(name) {
        fault_words(LocalFault::LeftOver)
    } else if is_component(name) {
        b"it stays: a name here has to be UTF-8 for this program"
    } else {
        b"it stays: no file here can have this name"
    }
}

/// What is said of a name in a directory that goes nowhere.
fn odd_name(alloc: Global, path: &[Name], name: &[u8]) -> Result<Bytes, AllocError>
    ensures { IfOk result (λ text. text ≡ odd_name path.now name.now) }
{
    let whole = longer(alloc, path, name)?;
    path_line(alloc, whole.as_slice(), odd_words(name))
}

/// What is said of a name in a directory, where it goes nowhere, goes behind what is there.
fn put_odd(alloc: Global, out: &mut Bytes, path: &[Name], name: &[u8]) -> Result<(), AllocError>
    ensures { OnOk result (out.new ≡ out.old ++ odd_more path.now name.now) }
{
    match carried_name(name) {
        Some(_) => Ok(()),
        None => {
            let line = odd_name(alloc, path, name)?;
            out.extend_from_slice(line.as_slice())
        }
    }
}

/// What is said of the names in a directory that go nowhere, a line for each, goes behind what is there.
fn put_odd_names(
    alloc: Global,
    out: &mut Bytes,
    path: &[Name],
    names: &[Name],
) -> Result<(), AllocError>
    ensures { OnOk result (out.new ≡ out.old ++ odd_names path.now names.now) }
{
    for name in names {
        put_odd(alloc, out, path, name.as_slice())?;
    }
    Ok(())
}

/// The same, where what a folder hasn't is to go: those names stay, which nobody else would say.
pub(crate) fn with_odd(
    alloc: Global,
    deletes: bool,
    path: &[Name],
    names: &[Name],
    note: Bytes,
) -> Result<Bytes, AllocError>
    ensures { IfOk result (λ text. text ≡ with_odd deletes path.now names.now note) }
{
    let mut text = note;
    if deletes {
        put_odd_names(alloc, &mut text, path, names)?;
    }
    Ok(text)
}
