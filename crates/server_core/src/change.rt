//! Changes that wait to be made. `specs/State.antt` says what one is, and `specs/Closing.antt` what is
//! made of it.

ghost use Rattle.std.specs.Prelude.{◌≡◌};
ghost use Rattle.server_core.specs.State.{asked_kind, kind_of, change_of, entries_wanted, size_wanted};

use chunk_calls::contents::ContentPair;
use lease_rules::change::{Kind, PendingChange};
use tree_calls::asked::Asked;

/// What a change is to make.
#[derive(Drop)]
pub enum Wanted {
    /// A COMMITTMP: the file gets this content.
    Content(ContentPair),
    /// A REMOVE, or a RENAME over a file.
    Asked(Asked),
}

/// What a REMOVE or RENAME does to the file that it waits for.
fn asked_kind(asked: &Asked) -> Kind
    ensures { result ≡ asked_kind asked.now }
{
    match asked {
        Asked::Remove(_) => Kind::Remove,
        Asked::Rename(_) => Kind::Rename,
    }
}

/// What a change does to its file.
fn kind_of(what: &Wanted) -> Kind
    ensures { result ≡ kind_of what.now }
{
    match what {
        Wanted::Content(_) => Kind::Commit,
        Wanted::Asked(asked) => asked_kind(asked),
    }
}

/// How many entries a change will make, at the most.
fn entries_wanted(what: &Wanted) -> u64
    ensures { result ≡ entries_wanted what.now }
{
    match what {
        Wanted::Content(_) => 1,
        Wanted::Asked(asked) => asked.entries(),
    }
}

/// How many bytes a change brings.
fn size_wanted(what: &Wanted) -> u64
    ensures { result ≡ size_wanted what.now }
{
    match what {
        Wanted::Content(content) => content.len() as u64,
        Wanted::Asked(_) => 0,
    }
}

/// The change that a session asked for, under this xid. It waits for the file that gets a content, or
/// that goes.
pub fn change_of(session: u32, xid: u32, file: u64, what: Wanted) -> PendingChange<Wanted>
    ensures { result ≡ change_of session xid file what }
{
    let kind = kind_of(&what);
    let entries = entries_wanted(&what);
    let bytes = size_wanted(&what);
    PendingChange {
        session,
        xid,
        file,
        kind,
        entries,
        bytes,
        what,
    }
}
