//! Records, and the files of the folder.

ghost use Rattle.std.specs.Prelude.{◌≡◌};
ghost use Rattle.log_store.specs.Names.{same_which, is_among};

/// Which record: the head, or a node or a content by its id. They are ordered as a folder is
/// loaded: the head, then the nodes by their ids, then the contents by theirs.
#[derive(Clone, Copy, PartialEq, Eq, PartialOrd, Ord)]
pub enum Which {
    Head,
    Node(u64),
    Content(u64),
}

/// A file of the folder.
#[derive(Clone, Copy)]
pub enum FileName {
    /// A record.
    Record(Which),
    /// New bytes of a record, which the log names (`NAME~`).
    New(Which),
}

/// Whether two are one record.
pub fn is_same(one: Which, other: Which) -> bool
    ensures { result ≡ same_which one other }
{
    match (one, other) {
        (Which::Head, Which::Head) => true,
        (Which::Node(id), Which::Node(other)) => id == other,
        (Which::Content(id), Which::Content(other)) => id == other,
        _ => false,
    }
}

/// Whether a record is among these.
pub fn is_among(which: Which, list: &[Which]) -> bool
    ensures { result ≡ is_among which list.now }
{
    match list {
        [one, rest @ ..] => is_same(which, *one) || is_among(which, rest),
        [] => false,
    }
}
