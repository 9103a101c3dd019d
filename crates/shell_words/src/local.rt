//! Names that may be given to files of the host: `is_local` of `specs/Local.antt`. A name that came from
//! a server is one component of a path, or none of the host's: so nothing leaves the folder that was
//! named.

ghost use Rattle.std.specs.Prelude.{◌≡◌, true, false, IfOk, MatchOption, string_bytes};
ghost use Rattle.std.specs.List.{list_any};
ghost use Rattle.std.specs.Str.{is_utf8};
ghost use Rattle.shell_words.specs.Local.{is_parting, is_component, is_local, below, local_path, within, whole_from, whole_path};
ghost use Rattle.shell_words.specs.Paths.{is_absolute};
ghost use Rattle.shell_words.specs.Temporary.{temporary};

use command_text::words::is;
use std::alloc::{AllocError, Global};
use std::fmt::Write;
use std::marker::Model;

/// Whether a byte parts components, or ends a path.
fn is_parting(b: u8) -> bool
    ensures { result ≡ is_parting b }
{
    b == b'/' || b == 0
}

/// Whether there is a slash or a NUL.
fn has_parting(name: &[u8]) -> bool
    ensures { result ≡ list_any is_parting name.now }
{
    for byte in name {
        if is_parting(*byte) {
            return true;
        }
    }
    false
}

/// Whether a name is one component of a path.
pub fn is_component(name: &[u8]) -> bool
    ensures { result ≡ is_component name.now }
{
    !name.is_empty() && !is(name, b".") && !is(name, b"..") && !has_parting(name)
}

/// Bytes as a text; nothing where they are none.
pub fn text_of(bytes: &[u8]) -> Option<&str>
    ensures { MatchOption result (is_utf8 bytes.now ≡ false) (λ text. (text.now ≡ bytes.now) × (is_utf8 bytes.now ≡ true)) }
{
    match str::from_utf8(bytes) {
        Ok(text) => Some(text),
        Err(_) => None,
    }
}

/// A name as one component of a path of the host; nothing where it can't be one.
pub fn local_name(name: &[u8]) -> Option<&str>
    ensures { MatchOption result (is_local name.now ≡ false) (λ text. (text.now ≡ name.now) × (is_local name.now ≡ true)) }
{
    if is_component(name) {
        text_of(name)
    } else {
        None
    }
}

/// A path of the host. Contracts see its bytes.
pub struct LocalPath {
    text: String,
}

// By hand: docs/proving/dropping.md.
impl Drop for LocalPath {
    fn drop(self) {
        let LocalPath { text } = self;
        drop(text);
    }
}

impl Model for LocalPath {
    ghost use Rattle.std.specs.Prelude.{ℕ, List, string_bytes};

    ghost Value = { List ℕ };

    ghost view = { λ p. string_bytes p.text };
}

impl LocalPath {
    /// The path of this text.
    pub fn copy_of(alloc: Global, text: &str) -> Result<LocalPath, AllocError>
        ensures { IfOk result (λ path. path ≡ text.now) }
    {
        let text = String::from_str(alloc, text)?;
        Ok(LocalPath { text })
    }

    /// The name of a file that is being written, in its folder, by the process and the number of it.
    pub fn temporary(alloc: Global, process: u32, thread: u32) -> Result<LocalPath, AllocError>
        ensures { IfOk result (λ path. path ≡ temporary process thread) }
    {
        let mut text = String::new(alloc);
        write!(text, "~lbfs-{process}-{thread}")?;
        Ok(LocalPath { text })
    }

    /// The path of a name in a folder.
    pub fn below(alloc: Global, folder: &str, name: &str) -> Result<LocalPath, AllocError>
        ensures { IfOk result (λ path. path ≡ below folder.now name.now) }
    {
        let mut text = String::from_str(alloc, folder)?;
        text.push_str("/")?;
        text.push_str(name)?;
        Ok(LocalPath { text })
    }

    /// The path that a word names, where a folder is worked in.
    pub fn of(alloc: Global, folder: &str, word: &str) -> Result<LocalPath, AllocError>
        ensures { IfOk result (λ path. path ≡ local_path folder.now word.now) }
    {
        if word.starts_with("/") {
            LocalPath::copy_of(alloc, word)
        } else {
            LocalPath::below(alloc, folder, word)
        }
    }

    /// The path of a name in a folder that may be the root.
    fn within(alloc: Global, folder: &str, name: &str) -> Result<LocalPath, AllocError>
        ensures { IfOk result (λ path. path ≡ within folder.now name.now) }
    {
        if folder == "/" {
            LocalPath::below(alloc, "", name)
        } else {
            LocalPath::below(alloc, folder, name)
        }
    }

    /// A path from the root, by that of the folder in which the program runs.
    fn whole_from(alloc: Global, here: &str, local: &str) -> Result<LocalPath, AllocError>
        ensures { IfOk result (λ path. path ≡ whole_from here.now local.now) }
    {
        if local.starts_with("/") {
            LocalPath::copy_of(alloc, local)
        } else if local == "." {
            LocalPath::copy_of(alloc, here)
        } else if let Some(rest) = local.strip_prefix("./") {
            LocalPath::within(alloc, here, rest)
        } else {
            LocalPath::within(alloc, here, local)
        }
    }

    /// A path from the root, so that it names the same wherever a program runs; as it is where it isn't known in
    /// which folder this one does.
    pub fn whole(
        alloc: Global,
        here: &Option<LocalPath>,
        local: &str,
    ) -> Result<LocalPath, AllocError>
        ensures { IfOk result (λ path. path ≡ whole_path here.now local.now) }
    {
        match here {
            Some(here) => LocalPath::whole_from(alloc, here.as_str(), local),
            None => LocalPath::copy_of(alloc, local),
        }
    }

    /// The path. It takes no memory.
    pub fn as_str(&self) -> &str
        ensures { result.now ≡ self.now }
    {
        self.text.as_str()
    }
}
